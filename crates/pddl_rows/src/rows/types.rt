//! Faults of types, of a domain alone and with a problem that adds none.

pub static TYPES: &[u8] = br"row types 1
file (define (domain d) (:types a a))
| link: fault 21 TypeTwice a
refused domain
copy bare
file
| link: fault 21 TypeTwice a
refused problem

row types 2
file (define (domain d) (:types a - b a - c))
| link: fault 21 TypeTwice a
refused domain
copy bare
file
| link: fault 21 TypeTwice a
refused problem

row types 3
file (define (domain d) (:types A a))
| link: fault 21 TypeTwice a
refused domain
copy bare
file
| link: fault 21 TypeTwice a
refused problem

row types 4
file (define (domain d) (:types a b b a))
| link: fault 21 TypeTwice b
refused domain
copy bare
file
| link: fault 21 TypeTwice b
refused problem

row types 5
file (define (domain d) (:types object object))
| link: fault 21 TypeTwice object
refused domain
copy bare
file
| link: fault 21 TypeTwice object
refused problem

row types 6
file (define (domain d) (:types a - a a))
| link: fault 21 TypeTwice a
refused domain
copy bare
file
| link: fault 21 TypeTwice a
refused problem

row types 7
file (define (domain d) (:types object - lamp))
| link: fault 22 TypeCycle object
refused domain
copy bare
file
| link: fault 22 TypeCycle object
refused problem

row types 8
file (define (domain d) (:types lamp - object object - lamp))
| link: fault 22 TypeCycle lamp
refused domain
copy bare
file
| link: fault 22 TypeCycle lamp
refused problem

row types 9
file (define (domain d) (:types a - a))
| link: fault 22 TypeCycle a
refused domain
copy bare
file
| link: fault 22 TypeCycle a
refused problem

row types 10
file (define (domain d) (:types a - b b - a))
| link: fault 22 TypeCycle a
refused domain
copy bare
file
| link: fault 22 TypeCycle a
refused problem

row types 11
file (define (domain d) (:types b - a a - b))
| link: fault 22 TypeCycle b
refused domain
copy bare
file
| link: fault 22 TypeCycle b
refused problem

row types 12
file (define (domain d) (:types c - a a - b b - a))
| link: fault 22 TypeCycle a
refused domain
copy bare
file
| link: fault 22 TypeCycle a
refused problem

row types 13
file (define (domain d) (:types a - b b - a) (:constants c - (either a b)))
| link: fault 22 TypeCycle a
refused domain
copy bare
file
| link: fault 22 TypeCycle a
refused problem

row types 14
file (define (domain d) (:constants c - u))
| link: fault 23 UnknownType u
refused domain
copy bare
file
| link: fault 23 UnknownType u
refused problem

row types 15
file (define (domain d) (:types t) (:constants c - (either t u)))
| link: fault 23 UnknownType u
refused domain
copy bare
file
| link: fault 23 UnknownType u
refused problem

row types 16
file (define (domain d) (:predicates (p ?x - u) (p)))
| link: fault 23 UnknownType u
refused domain
copy bare
file
| link: fault 23 UnknownType u
refused problem

row types 17
file (define (domain d) (:types t) (:predicates (p ?x - (either t u))))
| link: fault 23 UnknownType u
refused domain
copy bare
file
| link: fault 23 UnknownType u
refused problem

row types 18
file (define (domain d) (:predicates (p ?x - number)))
| link: fault 23 UnknownType number
refused domain
copy bare
file
| link: fault 23 UnknownType number
refused problem

row types 19
file (define (domain d) (:functions (f ?x - u)))
| link: fault 23 UnknownType u
refused domain
copy bare
file
| link: fault 23 UnknownType u
refused problem

row types 20
file (define (domain d) (:action n :parameters (?x - u)))
| link: fault 23 UnknownType u
refused domain
copy bare
file
| link: fault 23 UnknownType u
refused problem

row types 21
file (define (domain d) (:action n :precondition (exists (?x - u) (and))))
| link: fault 23 UnknownType u
refused domain
copy bare
file
| link: fault 23 UnknownType u
refused problem

row types 22
file (define (domain d) (:action n :precondition (not (imply (and) (or (forall (?x - u) (and)))))))
| link: fault 23 UnknownType u
refused domain
copy bare
file
| link: fault 23 UnknownType u
refused problem

row types 23
file (define (domain d) (:action n :effect (forall (?x - u) (and))))
| link: fault 23 UnknownType u
refused domain
copy bare
file
| link: fault 23 UnknownType u
refused problem

row types 24
file (define (domain d) (:action n :effect (when (exists (?x - u) (and)) (and))))
| link: fault 23 UnknownType u
refused domain
copy bare
file
| link: fault 23 UnknownType u
refused problem

row types 25
file (define (domain d) (:action n :effect (when (and) (and (forall (?x - u) (and))))))
| link: fault 23 UnknownType u
refused domain
copy bare
file
| link: fault 23 UnknownType u
refused problem

row types 26
file (define (domain d) (:action n :parameters (?x - v)) (:functions (f ?x - w)) (:predicates (p ?x - u)) (:constants c - s))
| link: fault 23 UnknownType s
refused domain
copy bare
file
| link: fault 23 UnknownType s
refused problem

row types 27
file (define (domain d) (:action n :parameters (?x - v)) (:functions (f ?x - w)) (:predicates (p ?x - u)))
| link: fault 23 UnknownType u
refused domain
copy bare
file
| link: fault 23 UnknownType u
refused problem

row types 28
file (define (domain d) (:action n :parameters (?x - v)) (:functions (f ?x - w)))
| link: fault 23 UnknownType w
refused domain
copy bare
file
| link: fault 23 UnknownType w
refused problem
";
