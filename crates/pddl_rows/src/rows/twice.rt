//! Names that stand twice, and objects of several types, of a domain alone and with a problem that adds no fault.

pub static TWICE: &[u8] = br"row twice 1
file (define (domain d) (:types t) (:constants c - t c))
| link: fault 24 NameTwice c
refused domain
copy bare
file
| link: fault 24 NameTwice c
refused problem

row twice 2
file (define (domain d) (:types s t) (:constants c - (either s t) c - (either t s)))
| link: fault 24 NameTwice c
refused domain
copy bare
file
| link: fault 24 NameTwice c
refused problem

row twice 3
file (define (domain d) (:predicates (p) (p ?x)))
| link: fault 24 NameTwice p
refused domain
copy bare
file
| link: fault 24 NameTwice p
refused problem

row twice 4
file (define (domain d) (:predicates (p) (q) (q) (p)))
| link: fault 24 NameTwice q
refused domain
copy bare
file
| link: fault 24 NameTwice q
refused problem

row twice 5
file (define (domain d) (:predicates (p) (p)) (:action n :effect (q)))
| link: fault 24 NameTwice p
refused domain
copy bare
file
| link: fault 24 NameTwice p
refused problem

row twice 6
file (define (domain d) (:functions (f) (f ?x)))
| link: fault 24 NameTwice f
refused domain
copy bare
file
| link: fault 24 NameTwice f
refused problem

row twice 7
file (define (domain d) (:action n) (:action n))
| link: fault 24 NameTwice n
refused domain
copy bare
file
| link: fault 24 NameTwice n
refused problem

row twice 8
file (define (domain d) (:action n) (:action n :parameters (?x ?x)))
| link: fault 24 NameTwice n
refused domain
copy bare
file
| link: fault 24 NameTwice n
refused problem

row twice 9
file (define (domain d) (:action n :parameters (?x ?x)) (:action n))
| link: fault 24 NameTwice x
refused domain
copy bare
file
| link: fault 24 NameTwice x
refused problem

row twice 10
file (define (domain d) (:action n :parameters (?y ?x ?y)))
| link: fault 24 NameTwice y
refused domain
copy bare
file
| link: fault 24 NameTwice y
refused problem

row twice 11
file (define (domain d) (:action n :precondition (exists (?x ?x) (and))))
| link: fault 24 NameTwice x
refused domain
copy bare
file
| link: fault 24 NameTwice x
refused problem

row twice 12
file (define (domain d) (:action n :precondition (or (not (forall (?y ?x ?y) (and))))))
| link: fault 24 NameTwice y
refused domain
copy bare
file
| link: fault 24 NameTwice y
refused problem

row twice 13
file (define (domain d) (:action n :effect (forall (?x ?x) (and))))
| link: fault 24 NameTwice x
refused domain
copy bare
file
| link: fault 24 NameTwice x
refused problem

row twice 14
file (define (domain d) (:action n :effect (and (when (forall (?x ?x) (and)) (and)))))
| link: fault 24 NameTwice x
refused domain
copy bare
file
| link: fault 24 NameTwice x
refused problem

row twice 15
file (define (domain d) (:action n) (:action n) (:functions (f) (f)) (:predicates (p) (p)))
| link: fault 24 NameTwice p
refused domain
copy bare
file
| link: fault 24 NameTwice p
refused problem

row twice 16
file (define (domain d) (:action n) (:action n) (:functions (f) (f)))
| link: fault 24 NameTwice f
refused domain
copy bare
file
| link: fault 24 NameTwice f
refused problem

row twice 17
file (define (domain d) (:types truck ship) (:constants c - (either truck ship)))
| link: fault 25 ObjectTypes c
refused domain
copy bare
file
| link: fault 25 ObjectTypes c
refused problem

row twice 18
file (define (domain d) (:types a b) (:constants d - a c - (either a b) e - (either b a)))
| link: fault 25 ObjectTypes c
refused domain
copy bare
file
| link: fault 25 ObjectTypes c
refused problem

row twice 19
file (define (domain d) (:types a b) (:constants c - a c - b) (:predicates (p) (p)))
| link: fault 24 NameTwice c
refused domain
copy bare
file
| link: fault 24 NameTwice c
refused problem

row twice 20
file (define (domain d) (:types a b) (:predicates (p) (p)))
file (define (problem x) (:domain d) (:objects o - a o - b) (:init) (:goal (and)))
| link: fault 24 NameTwice p
refused problem

row an unknown type behind a name that stands twice
file (define (domain d) (:predicates (p) (p ?x)) (:action n :precondition (exists (?y - u) (and))))
| link: fault 23 UnknownType u
refused domain
copy bare
file
| link: fault 23 UnknownType u
refused problem

row an unknown type behind an object with two types
file (define (domain d) (:types a b) (:predicates (p ?x - a)))
file (define (problem x) (:domain d) (:objects o - a o - b) (:init (p o)) (:goal (forall (?y - u) (p ?y))))
| link: fault 23 UnknownType u
refused problem

row an object of several types that does not fit
file (define (domain d) (:types a b) (:predicates (p ?x - a)))
file (define (problem x) (:domain d) (:objects o - (either a b)) (:init (p o)) (:goal (and)))
| link: fault 25 ObjectTypes o
refused problem

row long names that begin alike
file (define (domain d) (:predicates (abcdefghijklmnopqrstuvwxyzabcde) (abcdefghijklmnopqrstuvwxyzabcdef) (abcdefghijklmnopqrstuvwxyzabcdeg) (abcdefghijklmnopqrstuvwxyzabcdefg)))
| good: domain d
good domain

row a long name that stands twice
file (define (domain d) (:predicates (abcdefghijklmnopqrstuvwxyzabcdef) (abcdefghijklmnopqrstuvwxyzabcdeg) (ABCDEFGHIJKLMNOPQRSTUVWXYZABCDEF)))
| link: fault 24 NameTwice abcdefghijklmnopqrstuvwxyzabcdef
refused domain
copy bare
file
| link: fault 24 NameTwice abcdefghijklmnopqrstuvwxyzabcdef
refused problem

row a variable that stands twice in front of an action that does
file (define (domain d) (:predicates (q)) (:action a :parameters (?x ?x) :effect (q)) (:action b :effect (q)) (:action b :effect (q)))
| link: fault 24 NameTwice x
refused domain
copy bare
file
| link: fault 24 NameTwice x
refused problem
";
