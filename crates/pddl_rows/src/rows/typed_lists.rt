//! Items of a typed list that stand before one type, and those behind them.

pub static TYPED_LISTS: &[u8] = br"row an unknown type of a later group of parameters
file (define (domain d) (:types a) (:action n :parameters (?x ?y - a ?z ?w - b)))
| link: fault 23 UnknownType b
refused domain
copy bare
file
| link: fault 23 UnknownType b
refused problem

row an unknown type in the either of a group of slots
file (define (domain d) (:types a) (:predicates (p ?x ?y - (either a b))))
| link: fault 23 UnknownType b
refused domain
copy bare
file
| link: fault 23 UnknownType b
refused problem

row an unknown type of a later group of a quantifier's variables
file (define (domain d) (:types a) (:predicates (p)) (:action n :precondition (forall (?x ?y - a ?z ?w - b) (p))))
| link: fault 23 UnknownType b
refused domain
copy bare
file
| link: fault 23 UnknownType b
refused problem

row each slot of a group takes a term of its type
file (define (domain d) (:types a b) (:predicates (p ?x ?y - a ?z - b)) (:action n :parameters (?u - a ?v - b) :precondition (p ?u ?u ?v)))
| good: domain d
good domain

row the first slot of a group takes no other
file (define (domain d) (:types a b) (:predicates (p ?x ?y - a ?z - b)) (:action n :parameters (?u - a ?v - b) :precondition (p ?v ?u ?v)))
| link: fault 28 ArgumentType p
refused domain
copy bare
file
| link: fault 28 ArgumentType p
refused problem

row the last slot of a group takes no other
file (define (domain d) (:types a b) (:predicates (p ?x ?y - a ?z - b)) (:action n :parameters (?u - a ?v - b) :precondition (p ?u ?v ?v)))
| link: fault 28 ArgumentType p
refused domain
copy bare
file
| link: fault 28 ArgumentType p
refused problem

row the slot behind a group has a type of its own
file (define (domain d) (:types a b) (:predicates (p ?x ?y - a ?z - b)) (:action n :parameters (?u - a ?v - b) :precondition (p ?u ?u ?u)))
| link: fault 28 ArgumentType p
refused domain
copy bare
file
| link: fault 28 ArgumentType p
refused problem

row the last slot of a function's group takes no other
file (define (domain d) (:types a b) (:functions (total-cost) (f ?x ?y - a)) (:action n :parameters (?u - a ?v - b) :effect (increase (total-cost) (f ?u ?v))))
| link: fault 28 ArgumentType f
refused domain
copy bare
file
| link: fault 28 ArgumentType f
refused problem

row the last parameter of a group has the group's type
file (define (domain d) (:types a b) (:predicates (p ?x - a)) (:action n :parameters (?u ?v - a ?w - b) :precondition (p ?v)))
| good: domain d
good domain

row the last parameter of a group does not fit
file (define (domain d) (:types a b) (:predicates (p ?x - a)) (:action n :parameters (?u ?v - b ?w - a) :precondition (p ?v)))
| link: fault 28 ArgumentType p
refused domain
copy bare
file
| link: fault 28 ArgumentType p
refused problem

row the last variable of a quantifier's group does not fit
file (define (domain d) (:types a b) (:predicates (p ?x - a)) (:action n :precondition (forall (?w - a ?u ?v - b) (p ?v))))
| link: fault 28 ArgumentType p
refused domain
copy bare
file
| link: fault 28 ArgumentType p
refused problem

row the last constant of a group does not fit
file (define (domain d) (:types a b) (:constants c - a d e - b) (:predicates (p ?x - a)) (:action n :effect (p e)))
| link: fault 28 ArgumentType p
refused domain
copy bare
file
| link: fault 28 ArgumentType p
refused problem

row types below one parent, of which one is on a cycle
file (define (domain d) (:types a b - c c - b))
| link: fault 22 TypeCycle b
refused domain
copy bare
file
| link: fault 22 TypeCycle b
refused problem

row types below one parent that is among them
file (define (domain d) (:types a b - b))
| link: fault 22 TypeCycle b
refused domain
copy bare
file
| link: fault 22 TypeCycle b
refused problem

row a cycle through types of different groups
file (define (domain d) (:types a - b b c - a))
| link: fault 22 TypeCycle a
refused domain
copy bare
file
| link: fault 22 TypeCycle a
refused problem

row an unknown type of a later group of objects
file (define (domain d) (:types a))
file (define (problem p) (:domain d) (:objects o u - a v w - c) (:init) (:goal (and)))
| link: fault 23 UnknownType c
refused problem

row a group of objects of an either
file (define (domain d) (:types a b))
file (define (problem p) (:domain d) (:objects o u - (either a b)) (:init) (:goal (and)))
| link: fault 25 ObjectTypes o
refused problem

row an object in two groups of different types
file (define (domain d) (:types a b))
file (define (problem p) (:domain d) (:objects o u - a u v - b) (:init) (:goal (and)))
| link: fault 24 NameTwice u
refused problem

row an object twice in one group
file (define (domain d) (:types a b))
file (define (problem p) (:domain d) (:objects o o - a v - b) (:init) (:goal (and)))
| good: problem p
good problem

row a fact whose last object does not fit the group's slot
file (define (domain d) (:types a b) (:predicates (p ?x ?y - a)))
file (define (problem p) (:domain d) (:objects o - a v - b) (:init (p o o) (p o v)) (:goal (and)))
| link: fault 28 ArgumentType p
refused problem

row subtypes where neighbours have the same parent and others
file (define (domain d) (:types a b - p c - q d - p p q))
copy bare
file
| a p
| b p
| b q
| c q
| c p
| d p
| d q
| p object
file
| true
| true
| false
| true
| false
| true
| false
| true
good list subtypes

# No group declares p. That of q is below p, and one of the next is below q; then come two groups below p, and one without a parent.
row subtypes where types of groups have a parent that is declared, and one that is not
file (define (domain d) (:types q r - p a b c - q d e - p f g - p h i))
copy bare
file
| q p
| r p
| r q
| a q
| c q
| c p
| c r
| d p
| e p
| e q
| f p
| g p
| g d
| i p
| h object
| g object
| p object
| p q
file
| true
| true
| false
| true
| true
| true
| false
| true
| true
| false
| true
| true
| false
| false
| true
| true
| true
| false
good list subtypes

row the objects that fit where types of groups have a parent that is declared behind them, and one that is not
file (define (domain d) (:types a b - q c d - p e f - q q))
file (define (problem p) (:domain d) (:objects o - a u - d v - f w - q x - c y - p z - b) (:init) (:goal (and)))
| q
| p
| b
| a d
| object
file
| 0 2 3 6 - 0 2 3 6
| 1 4 5 - 1 4 5
| 6 - 6
| 0 1 - 0 1
| 0 1 2 3 4 5 6 - 0 1 2 3 4 5 6
good list fitting

row a type twice in a group below one parent
file (define (domain d) (:types a b c b - p))
| link: fault 21 TypeTwice b
refused domain
copy bare
file
| link: fault 21 TypeTwice b
refused problem

row a type in two groups below one parent
file (define (domain d) (:types a b - p c b - p))
| link: fault 21 TypeTwice b
refused domain
copy bare
file
| link: fault 21 TypeTwice b
refused problem

row a parent that is a type of a group below it, through one of another
file (define (domain d) (:types a b c - p d p - c e f - p))
| link: fault 22 TypeCycle c
refused domain
copy bare
file
| link: fault 22 TypeCycle c
refused problem

row the objects that fit where neighbours have the same type and others
file (define (domain d) (:types a b))
file (define (problem p) (:domain d) (:objects o - a u v - b w - a) (:init) (:goal (and)))
| a
| b
| a b
file
| 0 3 - 0 3
| 1 2 - 1 2
| 0 1 2 3 - 0 1 2 3
good list fitting

# Two objects are an a, one is a b, and none is a c: 1 + 3 x (1 + 3 x (1 + 1)), then 1 + 2 x (1 + 2 x (1 + 1 x (1 + 1))), then 1 + 1 x 1.
row size of a group of variables of an either
file (define (domain d) (:types a b c) (:predicates (p ?x)))
file (define (problem p) (:domain d) (:objects o u - a v - b) (:init) (:goal (forall (?x ?y - (either a b)) (p ?x))))
| 22
good list size

row size of a group of variables and one more
file (define (domain d) (:types a b c) (:predicates (p ?x)))
file (define (problem p) (:domain d) (:objects o u - a v - b) (:init) (:goal (exists (?x ?y - a ?z - b) (p ?x))))
| 15
good list size

row size of a group of variables that no object fits
file (define (domain d) (:types a b c) (:predicates (p ?x)))
file (define (problem p) (:domain d) (:objects o u - a v - b) (:init) (:goal (exists (?z - b ?x ?y - c) (p ?x))))
| 2
good list size
";
