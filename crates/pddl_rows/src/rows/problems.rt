//! What `problem` prints.

pub static PROBLEMS: &[u8] = br"row files 1
copy lamps
file
copy two
file
| good: problem two
good problem

row files 2
copy flips
file
copy flipped
file
| good: problem w1
good problem

row files 3
copy flips
file
copy two
file
| link: fault 20 DomainName lamps
refused problem

row files 4
copy lamps
file
file (define (problem p) (:domain lamps) (:init))
| problem: fault 14 Missing :goal
refused problem

row files 5
copy idle
file
file (define (problem p) (:domain d) (:init))
| problem: fault 14 Missing :goal
refused problem

row files 6
copy idle
file
file (define (problem p) (:domain d) (:init (q)) (:goal (r)))
| link: fault 23 UnknownType lamp
refused problem

row files 7
file (define (domain d) x)
file &
| domain: fault 11 Section at 1:20
only 1 refused problem

row files 8
file (define (domain d) x)
file (define (problem p) (:domain e) (:init) (:goal (and)))
| domain: fault 11 Section at 1:20
only 1 refused problem

row files 9
copy two
file
copy lamps
file
| domain: fault 10 Head at 1:1
only 1 refused problem

row files 10
copy lamps
file
copy lamps
file
| problem: fault 10 Head at 1:1
refused problem

row files 11
copy lamps
file
file
| problem: fault 10 Head at 1:1
refused problem

row sections 1
file (define (domain d) (:types t) (:constants c - t))
file (define (problem p) (:domain d) (:objects c - t) (:init) (:goal (= c c)))
| good: problem p
good problem

row sections 2
file (define (domain d) (:types t) (:constants c - t))
file (define (problem p) (:domain d) (:objects c) (:init) (:goal (and)))
| link: fault 24 NameTwice c
refused problem

row sections 3
file (define (domain d) (:predicates (p ?x)) (:constants c))
file (define (problem p) (:domain d) (:init (p c)) (:goal (p c)))
| good: problem p
good problem

row sections 4
file (define (domain d) (:predicates (p ?x)) (:action n :effect (p a)))
file (define (problem p) (:domain d) (:objects a) (:init) (:goal (and)))
| link: fault 26 UnknownName a
refused problem

row sections 5
file (define (domain d) (:predicates (p ?x - u)))
file (define (problem p) (:domain d) (:objects a - v) (:init) (:goal (and)))
| link: fault 23 UnknownType u
refused problem

row sections 6
file (define (domain d) (:predicates (p ?x)))
file (define (problem p) (:domain d) (:objects a - v) (:init) (:goal (exists (?x - w) (and))))
| link: fault 23 UnknownType v
refused problem

row sections 7
file (define (domain d) (:action n) (:action n))
file (define (problem p) (:domain d) (:objects a - t a) (:init) (:goal (and)))
| link: fault 23 UnknownType t
refused problem

row sections 8
file (define (domain d) (:types t) (:action n) (:action n))
file (define (problem p) (:domain d) (:objects a - t a) (:init) (:goal (and)))
| link: fault 24 NameTwice n
refused problem

row sections 9
file (define (domain d) (:types s t) (:constants c - (either s t)))
file (define (problem p) (:domain d) (:objects a - (either t s)) (:init) (:goal (and)))
| link: fault 25 ObjectTypes c
refused problem

row sections 10
file (define (domain d) (:action n :effect (q)))
file (define (problem p) (:domain d) (:init (r)) (:goal (s)))
| link: fault 26 UnknownName q
refused problem

row sections 11
file (define (domain d) (:action n))
file (define (problem p) (:domain d) (:init (r)) (:goal (s)))
| link: fault 26 UnknownName r
refused problem

row sections 12
file (define (domain d) (:action n))
file (define (problem p) (:domain d) (:goal (s)) (:init (not (r))))
| link: fault 26 UnknownName r
refused problem

row sections 13
file (define (domain d) (:predicates (p)))
file (define (problem p) (:domain d) (:init) (:goal (p)) (:metric minimize (total-cost)))
| link: fault 26 UnknownName total-cost
refused problem

row sections 14
file (define (domain d) (:functions (total-cost ?x)))
file (define (problem p) (:domain d) (:init) (:goal (and)) (:metric minimize total-cost))
| link: fault 27 Arity total-cost
refused problem

row sections 15
file (define (domain d) (:functions (total-cost) - object))
file (define (problem p) (:domain d) (:init) (:goal (and)) (:metric maximize total-cost))
| link: fault 32 ObjectFluent total-cost
refused problem

row sections 16
file (define (domain d) (:predicates (p ?x) (q)) (:action n :precondition (p)))
file (define (problem p) (:domain d) (:objects a) (:init (q a)) (:goal (and)))
| link: fault 27 Arity p
refused problem

row sections 17
file (define (domain d) (:types t) (:predicates (p ?x - t)))
file (define (problem p) (:domain d) (:objects a) (:init (p a)) (:goal (and)))
| link: fault 28 ArgumentType p
refused problem

row sections 18
file (define (domain d) (:types t) (:predicates (p ?x - t)))
file (define (problem p) (:domain d) (:objects a) (:init (not (p a))) (:goal (and)))
| link: fault 28 ArgumentType p
refused problem

row sections 19
file (define (domain d) (:types t) (:predicates (p ?x - t)))
file (define (problem p) (:domain d) (:objects a) (:init) (:goal (not (p a))))
| link: fault 28 ArgumentType p
refused problem

row sections 20
file (define (domain d) (:types t) (:predicates (p ?x - t)))
file (define (problem p) (:domain d) (:init) (:goal (forall (?x) (p ?x))))
| link: fault 28 ArgumentType p
refused problem

row sections 21
file (define (domain d) (:types t) (:predicates (p ?x - t)))
file (define (problem p) (:domain d) (:init) (:goal (exists (?x - t) (forall (?x) (p ?x)))))
| link: fault 28 ArgumentType p
refused problem

row sections 22
file (define (domain d) (:types t) (:predicates (p ?x - t)))
file (define (problem p) (:domain d) (:init) (:goal (forall (?x) (exists (?x - t) (p ?x)))))
| good: problem p
good problem

row sections 23
file (define (domain d) (:types t) (:functions (f ?x - t)))
file (define (problem p) (:domain d) (:objects a) (:init (= (f a) 1)) (:goal (and)))
| link: fault 28 ArgumentType f
refused problem

row sections 24
file (define (domain d) (:types a - b b - c) (:predicates (p ?x - c)))
file (define (problem p) (:domain d) (:objects o - a) (:init (p o)) (:goal (and)))
| good: problem p
good problem

row sections 25
file (define (domain d) (:types a - b b - c) (:predicates (p ?x - a)))
file (define (problem p) (:domain d) (:objects o - b) (:init (p o)) (:goal (and)))
| link: fault 28 ArgumentType p
refused problem

row sections 26
file (define (domain d) (:predicates (p ?x ?y)))
file (define (problem p) (:domain d) (:objects a b) (:init (p a b) (not (p b a))) (:goal (and)))
| good: problem p
good problem

row sections 27
file (define (domain d) (:predicates (p ?x) (q ?x)))
file (define (problem p) (:domain d) (:objects a) (:init (p a) (not (q a))) (:goal (and)))
| good: problem p
good problem

row sections 28
file (define (domain d) (:functions (f ?x) (g ?x)))
file (define (problem p) (:domain d) (:objects a b) (:init (= (f a) 1) (= (g a) 2) (= (f b) 3)) (:goal (and)))
| good: problem p
good problem

row sections 29
file (define (domain d) (:functions (f)) (:predicates (p)))
file (define (problem p) (:domain d) (:init (p) (not (p)) (= (f) 1.5)) (:goal (and)))
| link: fault 29 InitContradiction p
refused problem

row sections 30
file (define (domain d) (:functions (total-cost)) (:action n :effect (increase total-cost 1.5)))
file (define (problem p) (:domain d) (:init (= total-cost 2)) (:goal (and)))
| link: fault 30 FractionalCost total-cost
refused problem

row sections 31
file (define (domain d) (:functions (f) (total-cost)) (:action n :effect (forall (?x) (increase total-cost 1))))
file (define (problem p) (:domain d) (:init (= f 1) (= f 2)) (:goal (and)) (:metric maximize f))
| link: fault 31 CostValue f
refused problem

row sections 32
file (define (domain d) (:functions (total-cost)) (:action n :effect (forall (?x) (increase total-cost 1))))
file (define (problem p) (:domain d) (:init) (:goal (and)) (:metric maximize total-cost))
| link: fault 33 Metric
refused problem

row the largest goal
file (define (domain t) (:predicates (p ?x)))
part (define (problem tens) (:domain t) (:objects o0 o1 o2 o3 o4 o5 o6 o7 o8 o9) (:init) (:goal\s
copy large
times 11 (p o0)
file )))
| good: problem tens
good problem

row a goal with an atom more
file (define (domain t) (:predicates (p ?x)))
part (define (problem tens) (:domain t) (:objects o0 o1 o2 o3 o4 o5 o6 o7 o8 o9) (:init) (:goal\s
copy large
times 12 (p o0)
file )))
| link: fault 35 GoalTooLarge
refused problem

row nothing is read behind a domain with a section that fits no rule
file (define (domain d) x)
copy two
file
| domain: fault 11 Section at 1:20
only 1 refused problem

row nothing is read behind a domain that is not closed
file (define (domain d)
copy two
file
| domain: fault 7 Unclosed at 1:1
only 1 refused problem

row nothing is read behind a domain with a stray byte
file &
copy two
file
| domain: fault 2 Stray at 1:1
only 1 refused problem

# The name that is printed stands in the problem.
row a problem is read behind a domain that does not link
copy idle
file
copy two
file
| link: fault 20 DomainName lamps
refused problem

# No work is the product of the number of variables and that of objects, or the square of either. The goal's size is 400,001.
row a goal of many variables of a type with one object
file (define (domain d) (:types a b) (:predicates (p ?x - a)))
part (define (problem p) (:domain d) (:objects one - a
series 400000  o#0
part  - b) (:init (p one)) (:goal (forall (
series 200000  ?v#0
part  - a) (and
series 200000  (p ?v#0)
file ))))
| good: problem p
once good problem

# No work is the product of the number of an either's types and that of objects.
row a goal of variables of an either of many types, which fits one object of very many
part (define (domain d) (:types u
series 2000  t#0
file ) (:predicates (p ?x)))
part (define (problem p) (:domain d) (:objects one - t1999
series 20000  o#0
part  - u) (:init) (:goal (forall (
series 200  ?v#0
part  - (either
series 2000  t#0
file )) (p one))))
| good: problem p
once good problem

row very many facts of a slot of an either of many types
part (define (domain d) (:types
series 2000  t#0
part ) (:predicates (p ?x - (either
series 2000  t#0
file ))))
part (define (problem p) (:domain d) (:objects
series 50000  o#0
part  - t1999) (:init
series 50000  (p o#0)
file ) (:goal (and)))
| good: problem p
once good problem

row a variable of an either of many types that is spoken of very often
part (define (domain d) (:types
series 1000  t#0
part ) (:predicates (p ?x - (either
series 1000  t#0
file )) (q ?x)))
part (define (problem p) (:domain d) (:init) (:goal (forall (?v - (either
series 1000  t#0
part )) (and
times 10000  (p ?v) (q ?v)
file ))))
| good: problem p
once good problem

row a variable of a type with a long name that is spoken of very often
part (define (domain d) (:types a
times 100000 e
file ) (:predicates (p ?x)))
part (define (problem p) (:domain d) (:init) (:goal (forall (?v - a
times 100000 e
part ) (and
times 20000  (p ?v)
file ))))
| good: problem p
once good problem

row objects of a type with a long name that are constants too
part (define (domain d) (:types a
times 100000 e
part ) (:constants
series 20000  o#0
part  - a
times 100000 e
file ))
part (define (problem p) (:domain d) (:objects
series 20000  o#0
part  - a
times 100000 e
file ) (:init) (:goal (and)))
| good: problem p
once good problem

# The types of objects that are listed again are told apart by numbers: each is read once for its group, and not for each object.
row objects of an either of many types that are constants too
part (define (domain d) (:types
series 1000  t#0
part ) (:constants
series 20000  o#0
part  - (either
series 1000  t#0
file )))
part (define (problem p) (:domain d) (:objects
series 20000  o#0
part  - (either
series 1000  t#0
file )) (:init) (:goal (and)))
| link: fault 25 ObjectTypes o0
once refused problem

row constants that are listed again in other groups
file (define (domain d) (:types s t) (:constants a b - s c - t d - s))
file (define (problem p) (:domain d) (:objects c - t d a - s e - t b - s) (:init) (:goal (and)))
| good: problem p
good problem

row a constant that is listed again in a group of another type, behind one of its own
file (define (domain d) (:types s t) (:constants a b - s c - t))
file (define (problem p) (:domain d) (:objects a - s c - t b - t) (:init) (:goal (and)))
| link: fault 24 NameTwice b
refused problem

row a constant of one of two types whose names differ late that is an object of the other
growths 20
part (define (domain d) (:types a
times 50 e
part  a
times 50 e
part o) (:constants b c - a
times 50 e
file ))
part (define (problem p) (:domain d) (:objects b - a
times 50 e
part  c - a
times 50 e
file o) (:init) (:goal (and)))
| link: fault 24 NameTwice c
refused problem

row an either that is listed again
file (define (domain d) (:types s t) (:constants c - (either s t)))
file (define (problem p) (:domain d) (:objects c - (either s t)) (:init) (:goal (and)))
| link: fault 25 ObjectTypes c
refused problem

row an either that is listed again in another order
file (define (domain d) (:types s t) (:constants c - (either s t)))
file (define (problem p) (:domain d) (:objects c - (either t s)) (:init) (:goal (and)))
| link: fault 24 NameTwice c
refused problem

row a variable of an either of many types that does not fit a slot of another
growths 20
part (define (domain d) (:types
series 20  t#0
part  u) (:predicates (p ?x - (either
series 20  t#0
file ))))
part (define (problem p) (:domain d) (:init) (:goal (forall (?v - (either
series 19  t#0
file  u)) (p ?v))))
| link: fault 28 ArgumentType p
refused problem

row an object that does not fit a slot of an either of many types
growths 20
part (define (domain d) (:types
series 20  t#0
part  u) (:predicates (p ?x - (either
series 20  t#0
file ))))
file (define (problem p) (:domain d) (:objects a - t7 b - u) (:init (p a) (p b)) (:goal (and)))
| link: fault 28 ArgumentType p
refused problem

row an object of a type below one of an either of many types
part (define (domain d) (:types u - t7
series 20  t#0
part ) (:predicates (p ?x - (either
series 20  t#0
file ))))
file (define (problem p) (:domain d) (:objects a - t7 b - u) (:init (p a) (p b)) (:goal (p b)))
| good: problem p
good problem

row two lamps whose growths are refused
growths 20
copy lamps
file
copy two
file
| good: problem two
good problem

row a contradiction, whose growths are refused
growths 20
copy lamps
file
copy two
change (ok b) => (ok b) (not (ok a))
file
| link: fault 29 InitContradiction ok
refused problem

row a fact and a value of seven objects
file (define (domain d) (:types t u) (:predicates (q ?a ?b ?c ?d ?e ?f - t ?g - u) (r ?x ?y)) (:functions (f ?a ?b ?c ?d ?e ?f - t ?g - u) (h ?x ?y)))
file (define (problem p) (:domain d) (:objects a b c d e f - t g - u ab bc - t) (:init (q a b c d e f g) (= (f a b c d e f g) 1)) (:goal (and)))
| good: problem p
good problem

row the seventh object of a fact does not fit
file (define (domain d) (:types t u) (:predicates (q ?a ?b ?c ?d ?e ?f - t ?g - u) (r ?x ?y)) (:functions (f ?a ?b ?c ?d ?e ?f - t ?g - u) (h ?x ?y)))
file (define (problem p) (:domain d) (:objects a b c d e f - t g - u ab bc - t) (:init (q a b c d e f f)) (:goal (and)))
| link: fault 28 ArgumentType q
refused problem

row the seventh object of a value does not fit
file (define (domain d) (:types t u) (:predicates (q ?a ?b ?c ?d ?e ?f - t ?g - u) (r ?x ?y)) (:functions (f ?a ?b ?c ?d ?e ?f - t ?g - u) (h ?x ?y)))
file (define (problem p) (:domain d) (:objects a b c d e f - t g - u ab bc - t) (:init (= (f a b c d e f a) 1)) (:goal (and)))
| link: fault 28 ArgumentType f
refused problem

row the seventh object of a fact is not known
file (define (domain d) (:types t u) (:predicates (q ?a ?b ?c ?d ?e ?f - t ?g - u) (r ?x ?y)) (:functions (f ?a ?b ?c ?d ?e ?f - t ?g - u) (h ?x ?y)))
file (define (problem p) (:domain d) (:objects a b c d e f - t g - u ab bc - t) (:init (q a b c d e f z)) (:goal (and)))
| link: fault 26 UnknownName z
refused problem

row six objects of a fact in place of seven
file (define (domain d) (:types t u) (:predicates (q ?a ?b ?c ?d ?e ?f - t ?g - u) (r ?x ?y)) (:functions (f ?a ?b ?c ?d ?e ?f - t ?g - u) (h ?x ?y)))
file (define (problem p) (:domain d) (:objects a b c d e f - t g - u ab bc - t) (:init (q a b c d e f)) (:goal (and)))
| link: fault 27 Arity q
refused problem

row eight objects of a value in place of seven
file (define (domain d) (:types t u) (:predicates (q ?a ?b ?c ?d ?e ?f - t ?g - u) (r ?x ?y)) (:functions (f ?a ?b ?c ?d ?e ?f - t ?g - u) (h ?x ?y)))
file (define (problem p) (:domain d) (:objects a b c d e f - t g - u ab bc - t) (:init (= (f a b c d e f g g) 1)) (:goal (and)))
| link: fault 27 Arity f
refused problem

row a fact of seven objects that holds and fails
file (define (domain d) (:types t u) (:predicates (q ?a ?b ?c ?d ?e ?f - t ?g - u) (r ?x ?y)) (:functions (f ?a ?b ?c ?d ?e ?f - t ?g - u) (h ?x ?y)))
file (define (problem p) (:domain d) (:objects a b c d e f - t g - u ab bc - t) (:init (q a b c d e f g) (q a b c d f e g) (not (q a b c d e f g))) (:goal (and)))
| link: fault 29 InitContradiction q
refused problem

row two values for a function of seven objects
file (define (domain d) (:types t u) (:predicates (q ?a ?b ?c ?d ?e ?f - t ?g - u) (r ?x ?y)) (:functions (f ?a ?b ?c ?d ?e ?f - t ?g - u) (h ?x ?y)))
file (define (problem p) (:domain d) (:objects a b c d e f - t g - u ab bc - t) (:init (= (f a b c d e f g) 1) (= (f a b c d f e g) 2) (= (f a b c d e f g) 2)) (:goal (and)))
| link: fault 31 CostValue f
refused problem

row one value twice for a function of seven objects
file (define (domain d) (:types t u) (:predicates (q ?a ?b ?c ?d ?e ?f - t ?g - u) (r ?x ?y)) (:functions (f ?a ?b ?c ?d ?e ?f - t ?g - u) (h ?x ?y)))
file (define (problem p) (:domain d) (:objects a b c d e f - t g - u ab bc - t) (:init (= (f a b c d e f g) 1) (= (f a b c d f e g) 2) (= (f a b c d e f g) 1)) (:goal (and)))
| good: problem p
good problem

row facts and values of names that are cut elsewhere
file (define (domain d) (:types t u) (:predicates (q ?a ?b ?c ?d ?e ?f - t ?g - u) (r ?x ?y)) (:functions (f ?a ?b ?c ?d ?e ?f - t ?g - u) (h ?x ?y)))
file (define (problem p) (:domain d) (:objects a b c d e f - t g - u ab bc - t) (:init (r ab c) (not (r a bc)) (= (h ab c) 1) (= (h a bc) 2)) (:goal (and)))
| good: problem p
good problem

row a fact and a value of two names, each twice
file (define (domain d) (:types t u) (:predicates (q ?a ?b ?c ?d ?e ?f - t ?g - u) (r ?x ?y)) (:functions (f ?a ?b ?c ?d ?e ?f - t ?g - u) (h ?x ?y)))
file (define (problem p) (:domain d) (:objects a b c d e f - t g - u ab bc - t) (:init (r ab c) (r a bc) (not (r ab c)) (= (h ab c) 1) (= (h ab c) 2)) (:goal (and)))
| link: fault 29 InitContradiction r
refused problem
";
