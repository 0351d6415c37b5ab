//! Terms that do not fit what is declared, of a domain alone and with a problem that adds no fault.

pub static TERMS: &[u8] = br"row terms 1
file (define (domain d) (:predicates (p ?x)) (:action n :precondition (p)))
| link: fault 27 Arity p
refused domain
copy bare
file
| link: fault 27 Arity p
refused problem

row terms 2
file (define (domain d) (:predicates (p)) (:constants c) (:action n :effect (p c)))
| link: fault 27 Arity p
refused domain
copy bare
file
| link: fault 27 Arity p
refused problem

row terms 3
file (define (domain d) (:predicates (p)) (:constants c) (:action n :effect (not (p c))))
| link: fault 27 Arity p
refused domain
copy bare
file
| link: fault 27 Arity p
refused problem

row terms 4
file (define (domain d) (:predicates (p ?x)) (:action n :effect (when (p) (and))))
| link: fault 27 Arity p
refused domain
copy bare
file
| link: fault 27 Arity p
refused problem

row terms 5
file (define (domain d) (:predicates (p ?x)) (:action n :effect (forall (?y) (when (and) (p ?y ?y)))))
| link: fault 27 Arity p
refused domain
copy bare
file
| link: fault 27 Arity p
refused problem

row terms 6
file (define (domain d) (:functions (total-cost ?x)) (:action n :effect (increase total-cost 1)))
| link: fault 27 Arity total-cost
refused domain
copy bare
file
| link: fault 27 Arity total-cost
refused problem

row terms 7
file (define (domain d) (:functions (total-cost) (f ?x)) (:action n :effect (increase total-cost (f))))
| link: fault 27 Arity f
refused domain
copy bare
file
| link: fault 27 Arity f
refused problem

row terms 8
file (define (domain d) (:functions (total-cost) (f ?x)) (:action n :effect (increase total-cost f)))
| link: fault 27 Arity f
refused domain
copy bare
file
| link: fault 27 Arity f
refused problem

row terms 9
file (define (domain d) (:types t) (:constants c) (:predicates (p ?x - t)) (:action n :effect (p c)))
| link: fault 28 ArgumentType p
refused domain
copy bare
file
| link: fault 28 ArgumentType p
refused problem

row terms 10
file (define (domain d) (:types t) (:predicates (p ?x - t)) (:action n :parameters (?y) :precondition (p ?y)))
| link: fault 28 ArgumentType p
refused domain
copy bare
file
| link: fault 28 ArgumentType p
refused problem

row terms 11
file (define (domain d) (:types t) (:predicates (p ?x - t)) (:action n :parameters (?y) :effect (not (p ?y))))
| link: fault 28 ArgumentType p
refused domain
copy bare
file
| link: fault 28 ArgumentType p
refused problem

row terms 12
file (define (domain d) (:types t) (:predicates (p ?x - t)) (:action n :parameters (?y) :effect (when (p ?y) (and))))
| link: fault 28 ArgumentType p
refused domain
copy bare
file
| link: fault 28 ArgumentType p
refused problem

row terms 13
file (define (domain d) (:types t) (:predicates (p ?x - t)) (:action n :effect (forall (?y) (p ?y))))
| link: fault 28 ArgumentType p
refused domain
copy bare
file
| link: fault 28 ArgumentType p
refused problem

row terms 14
file (define (domain d) (:types t) (:predicates (p ?x - t)) (:action n :parameters (?y - t) :precondition (exists (?y) (p ?y))))
| link: fault 28 ArgumentType p
refused domain
copy bare
file
| link: fault 28 ArgumentType p
refused problem

row terms 15
file (define (domain d) (:types t) (:predicates (p ?x ?y - t)) (:action n :parameters (?x - t ?y) :precondition (p ?x ?y)))
| link: fault 28 ArgumentType p
refused domain
copy bare
file
| link: fault 28 ArgumentType p
refused problem

row terms 16
file (define (domain d) (:types a b) (:predicates (p ?x - a)) (:action n :parameters (?y - (either a b)) :precondition (p ?y)))
| link: fault 28 ArgumentType p
refused domain
copy bare
file
| link: fault 28 ArgumentType p
refused problem

row terms 17
file (define (domain d) (:types a - b b - c) (:predicates (p ?x - a)) (:action n :parameters (?y - c) :precondition (p ?y)))
| link: fault 28 ArgumentType p
refused domain
copy bare
file
| link: fault 28 ArgumentType p
refused problem

row terms 18
file (define (domain d) (:types t) (:functions (total-cost) (f ?x - t)) (:action n :parameters (?y) :effect (increase total-cost (f ?y))))
| link: fault 28 ArgumentType f
refused domain
copy bare
file
| link: fault 28 ArgumentType f
refused problem

# A variable of an either fits a slot whichever way round its types stand, and each of them is looked at.
part (define (domain d) (:types e - b a b c) (:predicates (p ?x - (either a b c)) (q ?x) (r ?x - (either c b)) (s ?x - b))
keep eithers

row terms 19
copy eithers
part  (:action n :parameters (?x - (either c e a) ?y ?z - (either e c) ?w - e)
file  :precondition (and (p ?x) (q ?x) (p ?y) (q ?y) (r ?y) (p ?z) (r ?z) (p ?w) (q ?w) (r ?w) (s ?w))))
| good: domain d
good domain

row terms 20
copy eithers
file  (:action n :parameters (?x ?y - (either c e a)) :precondition (and (p ?x) (q ?y) (r ?y))))
| link: fault 28 ArgumentType r
refused domain
copy bare
file
| link: fault 28 ArgumentType r
refused problem

row terms 21
copy eithers
file  (:action n :parameters (?x - e ?y ?z - (either e c)) :precondition (and (s ?x) (r ?z) (s ?z))))
| link: fault 28 ArgumentType s
refused domain
copy bare
file
| link: fault 28 ArgumentType s
refused problem

# Of many variables each has the type of its own group.
row terms 22
growths 20
copy eithers
part  (:action n :parameters (
series 10 ?a#0
part  - a
series 10 ?b#0
part  - (either c e)
series 10 ?e#0
part  - e) :precondition (and
series 10 (p ?a#0) (r ?b#0) (s ?e#0)
file )))
| good: domain d
good domain

row terms 23
growths 20
copy eithers
part  (:action n :parameters (
series 10 ?a#0
part  - e
series 10 ?b#0
part  - (either e c)
series 10 ?e#0
part  - a) :precondition (and
series 10 (s ?a#0) (r ?b#0) (p ?e#0)
file  (s ?e9))))
| link: fault 28 ArgumentType s
refused domain
copy bare
file
| link: fault 28 ArgumentType s
refused problem

# Of two types of many primitives, whether one fits the other is told by the numbers of these, which are near each other here.
part (define (domain d) (:types
series 12  t#0 - s c#0 - t#0
part  o) (:predicates (p ?x - (either
series 12  t#0
part )) (q ?x - (either o
series 11  t#0
part )))
keep many

row terms 24
growths 20
copy many
part  (:action n :parameters (?v - (either
series 12  c#0
part ) ?w - (either o
series 11  c#0
file )) :precondition (and (p ?v) (q ?w))))
| good: domain d
good domain

row terms 25
growths 20
copy many
part  (:action n :parameters (?v - (either
series 12  c#0
file )) :precondition (and (p ?v) (q ?v))))
| link: fault 28 ArgumentType q
refused domain
copy bare
file
| link: fault 28 ArgumentType q
refused problem

# Here they are far from each other.
part (define (domain d) (:types
series 8  t#0
series 1000  u#0
series 8  t#8
part  o) (:predicates (p ?x - (either
series 16  t#0
part )) (q ?x - (either o
series 15  t#1
part )))
keep far

row terms 26
copy far
part  (:action n :parameters (?v - (either
series 16  t#0
part ) ?w - (either o
series 14  t#2
file )) :precondition (and (p ?v) (q ?w))))
| good: domain d
once good domain

row terms 27
copy far
part  (:action n :parameters (?v - (either
series 16  t#0
file )) :precondition (and (p ?v) (q ?v))))
| link: fault 28 ArgumentType q
once refused domain
";
