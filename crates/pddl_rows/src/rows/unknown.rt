//! Names that are not declared, of a domain alone and with a problem that adds no fault.

pub static UNKNOWN: &[u8] = br"row unknown 1
file (define (domain d) (:action n :precondition (q)))
| link: fault 26 UnknownName q
refused domain
copy bare
file
| link: fault 26 UnknownName q
refused problem

row unknown 2
file (define (domain d) (:action n :effect (q)))
| link: fault 26 UnknownName q
refused domain
copy bare
file
| link: fault 26 UnknownName q
refused problem

row unknown 3
file (define (domain d) (:action n :effect (not (q))))
| link: fault 26 UnknownName q
refused domain
copy bare
file
| link: fault 26 UnknownName q
refused problem

row unknown 4
file (define (domain d) (:action n :effect (when (q) (and))))
| link: fault 26 UnknownName q
refused domain
copy bare
file
| link: fault 26 UnknownName q
refused problem

row unknown 5
file (define (domain d) (:action n :effect (when (and) (q))))
| link: fault 26 UnknownName q
refused domain
copy bare
file
| link: fault 26 UnknownName q
refused problem

row unknown 6
file (define (domain d) (:action n :effect (forall (?x) (q))))
| link: fault 26 UnknownName q
refused domain
copy bare
file
| link: fault 26 UnknownName q
refused problem

row unknown 7
file (define (domain d) (:action n :effect (q) :precondition (r)))
| link: fault 26 UnknownName r
refused domain
copy bare
file
| link: fault 26 UnknownName r
refused problem

row unknown 8
file (define (domain d) (:action n :precondition (q ?z)))
| link: fault 26 UnknownName q
refused domain
copy bare
file
| link: fault 26 UnknownName q
refused problem

row unknown 9
file (define (domain d) (:functions (q)) (:action n :precondition (q)))
| link: fault 26 UnknownName q
refused domain
copy bare
file
| link: fault 26 UnknownName q
refused problem

row unknown 10
file (define (domain d) (:predicates (p)) (:action n :precondition (imply (p) (or (not (q)) (r)))))
| link: fault 26 UnknownName q
refused domain
copy bare
file
| link: fault 26 UnknownName q
refused problem

row unknown 11
file (define (domain d) (:predicates (p)) (:action n :precondition (imply (q) (p))))
| link: fault 26 UnknownName q
refused domain
copy bare
file
| link: fault 26 UnknownName q
refused problem

row unknown 12
file (define (domain d) (:predicates (p)) (:action n :precondition (exists (?x) (and (p) (q ?x)))))
| link: fault 26 UnknownName q
refused domain
copy bare
file
| link: fault 26 UnknownName q
refused problem

row unknown 13
file (define (domain d) (:action n :precondition (= ?x ?x)))
| link: fault 26 UnknownName x
refused domain
copy bare
file
| link: fault 26 UnknownName x
refused problem

row unknown 14
file (define (domain d) (:constants c) (:action n :precondition (= c ?y)))
| link: fault 26 UnknownName y
refused domain
copy bare
file
| link: fault 26 UnknownName y
refused problem

row unknown 15
file (define (domain d) (:action n :precondition (= c c)))
| link: fault 26 UnknownName c
refused domain
copy bare
file
| link: fault 26 UnknownName c
refused problem

row unknown 16
file (define (domain d) (:predicates (p ?x)) (:action n :effect (p ?z)))
| link: fault 26 UnknownName z
refused domain
copy bare
file
| link: fault 26 UnknownName z
refused problem

row unknown 17
file (define (domain d) (:predicates (p ?x)) (:action n :parameters (?y) :effect (and (p ?y ?y) (p ?z))))
| link: fault 26 UnknownName z
refused domain
copy bare
file
| link: fault 26 UnknownName z
refused problem

row unknown 18
file (define (domain d) (:predicates (p ?x)) (:action n :precondition (and (exists (?x) (p ?x)) (p ?x))))
| link: fault 26 UnknownName x
refused domain
copy bare
file
| link: fault 26 UnknownName x
refused problem

row unknown 19
file (define (domain d) (:predicates (p ?x)) (:action n :effect (and (forall (?x) (p ?x)) (not (p ?x)))))
| link: fault 26 UnknownName x
refused domain
copy bare
file
| link: fault 26 UnknownName x
refused problem

row unknown 20
file (define (domain d) (:predicates (p ?x)) (:action m :parameters (?x)) (:action n :effect (p ?x)))
| link: fault 26 UnknownName x
refused domain
copy bare
file
| link: fault 26 UnknownName x
refused problem

row unknown 21
file (define (domain d) (:predicates (p ?x)) (:action n :effect (p c)))
| link: fault 26 UnknownName c
refused domain
copy bare
file
| link: fault 26 UnknownName c
refused problem

row unknown 22
file (define (domain d) (:action n :effect (increase total-cost 1)))
| link: fault 26 UnknownName total-cost
refused domain
copy bare
file
| link: fault 26 UnknownName total-cost
refused problem

row unknown 23
file (define (domain d) (:action n :effect (increase (total-cost) (f))))
| link: fault 26 UnknownName total-cost
refused domain
copy bare
file
| link: fault 26 UnknownName total-cost
refused problem

row unknown 24
file (define (domain d) (:functions (total-cost)) (:action n :effect (increase total-cost (f))))
| link: fault 26 UnknownName f
refused domain
copy bare
file
| link: fault 26 UnknownName f
refused problem

row unknown 25
file (define (domain d) (:functions (total-cost)) (:action n :effect (increase total-cost f)))
| link: fault 26 UnknownName f
refused domain
copy bare
file
| link: fault 26 UnknownName f
refused problem

row unknown 26
file (define (domain d) (:functions (total-cost) (f ?x)) (:action n :effect (increase total-cost (f c))))
| link: fault 26 UnknownName c
refused domain
copy bare
file
| link: fault 26 UnknownName c
refused problem

row unknown 27
file (define (domain d) (:functions (total-cost) (f ?x)) (:action n :effect (increase total-cost (f ?z))))
| link: fault 26 UnknownName z
refused domain
copy bare
file
| link: fault 26 UnknownName z
refused problem
";
