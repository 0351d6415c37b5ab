//! Domains without a fault, alone and with a problem that adds none.

pub static GOOD_DOMAINS: &[u8] = br"row good 1
file (define (domain d) )
| good: domain d
good domain
copy bare
file
| good: problem p
good problem

row good 2
file (define (domain d) (:types truck - vehicle))
| good: domain d
good domain
copy bare
file
| good: problem p
good problem

row good 3
file (define (domain d) (:types truck - vehicle) (:predicates (p ?x - vehicle)))
| good: domain d
good domain
copy bare
file
| good: problem p
good problem

row good 4
file (define (domain d) (:types object))
| good: domain d
good domain
copy bare
file
| good: problem p
good problem

row good 5
file (define (domain d) (:types object - object a - object))
| good: domain d
good domain
copy bare
file
| good: problem p
good problem

row good 6
file (define (domain d) (:types truck ship) (:action go :parameters (?x - (either truck ship))))
| good: domain d
good domain
copy bare
file
| good: problem p
good problem

row good 7
file (define (domain d) (:constants c c))
| good: domain d
good domain
copy bare
file
| good: problem p
good problem

row good 8
file (define (domain d) (:types t) (:constants c - t c - t))
| good: domain d
good domain
copy bare
file
| good: problem p
good problem

row good 9
file (define (domain d) (:predicates (p ?x ?x)))
| good: domain d
good domain
copy bare
file
| good: problem p
good problem

row good 10
file (define (domain d) (:functions (f ?x ?x)))
| good: domain d
good domain
copy bare
file
| good: problem p
good problem

row good 11
file (define (domain d) (:functions (f) - number (g)))
| good: domain d
good domain
copy bare
file
| good: problem p
good problem

row good 12
file (define (domain d) (:types a) (:constants a) (:predicates (a)) (:functions (a)) (:action a :parameters (?a)))
| good: domain d
good domain
copy bare
file
| good: problem p
good problem

row good 13
file (define (domain d) (:predicates (assign ?x)) (:action n :parameters (?x) :effect (assign ?x)))
| good: domain d
good domain
copy bare
file
| good: problem p
good problem

row good 14
file (define (domain d) (:predicates (p ?x)) (:action n :parameters (?x) :precondition (exists (?x) (p ?x))))
| good: domain d
good domain
copy bare
file
| good: problem p
good problem

row good 15
file (define (domain d) (:types t) (:predicates (p ?x - t)) (:action n :parameters (?y) :precondition (exists (?y - t) (p ?y))))
| good: domain d
good domain
copy bare
file
| good: problem p
good problem

row good 16
file (define (domain d) (:types a b) (:predicates (p ?x - (either a b))) (:action n :parameters (?y - b) :precondition (p ?y)))
| good: domain d
good domain
copy bare
file
| good: problem p
good problem

row good 17
file (define (domain d) (:types a - b b - c) (:predicates (p ?x - c)) (:action n :parameters (?y - a) :precondition (p ?y)))
| good: domain d
good domain
copy bare
file
| good: problem p
good problem

row good 18
file (define (domain d) (:types a b) (:action n :parameters (?x - a ?y - b) :precondition (= ?x ?y)))
| good: domain d
good domain
copy bare
file
| good: problem p
good problem

row good 19
file (define (domain d) (:types a) (:predicates (p ?x)) (:constants c - a) (:action n :precondition (= c c) :effect (p c)))
| good: domain d
good domain
copy bare
file
| good: problem p
good problem

row good 20
file (define (domain d) (:functions (total-cost)) (:action n :effect (increase total-cost 5.0)))
| good: domain d
good domain
copy bare
file
| good: problem p
good problem

row good 21
file (define (domain d) (:functions (total-cost) (f)) (:action n :effect (and (increase total-cost f))))
| good: domain d
good domain
copy bare
file
| good: problem p
good problem
";
