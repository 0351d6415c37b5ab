//! What `domain` prints.

pub static DOMAINS: &[u8] = br"row domain 1
copy lamps
file
| good: domain lamps
good domain

row domain 2
copy flips
file
| good: domain w
good domain

row domain 3
copy idle
file
| link: fault 23 UnknownType lamp
refused domain

row domain 4
file (define (domain d) (:action n :precondition (preference p1 (on ?x))))
| domain: fault 12 Unsupported preference at 1:45
refused domain

row domain 5
file (define (domain d) (:predicates (assign ?x)) (:action n :parameters (?x) :effect (assign ?x)))
| good: domain d
good domain

row domain 6
file (define (domain d) (:predicates (p)) (:predicates (q)))
| domain: fault 13 Twice :predicates at 1:38
refused domain

row domain 7
file (DEFINE (Domain D))
| good: domain d
good domain

row domain 8
file
| domain: fault 10 Head at 1:1
refused domain

row domain 9
file (define (domain d) (:types a a) &)
| domain: fault 2 Stray at 1:33
refused domain

# Types, each but the last below the next. A constant of the first stands where one of the last is wanted.
row a chain of types
part (define (domain d) (:types
series 9999  t#0 - t#1
file  t9999 - object) (:constants c - t0) (:predicates (p ?x - t9999)) (:action n :effect (p c)))
| good: domain d
once good domain
copy bare
file
| good: problem p
once good problem

row a ring of types
part (define (domain d) (:types
series 9999  t#0 - t#1
file  t9999 - t0) (:constants c - t0) (:predicates (p ?x - t9999)) (:action n :effect (p c)))
| link: fault 22 TypeCycle t0
once refused domain

# No climb from each type of a chain to what lies above it.
row a ring of types above a long chain
part (define (domain d) (:types
series 99999  t#0 - t#1
file  t99999 - t99998))
| link: fault 22 TypeCycle t99998
once refused domain

# The name of a parent is not looked at once for each type below it.
row many types below one parent with a long name
part (define (domain d) (:types
series 100000  t#0
part  - n
times 399999 n
file ))
| good: domain d
once good domain

# Variables, each spoken of once: no work is the square of their number.
row an action of many parameters
part (define (domain d) (:types a) (:predicates (p ?x - a)) (:action n :parameters (
series 200000  ?v#0
part  - a) :precondition (and
series 200000  (p ?v#0)
file ) :effect (not (p ?v0))))
| good: domain d
once good domain

row an effect of many variables
part (define (domain d) (:types a) (:predicates (p ?x - a)) (:action n :effect (forall (
series 200000  ?v#0
part  - a) (and
series 200000  (p ?v#0)
file ))))
| good: domain d
once good domain

# No name is looked at once for each of its terms.
row a long name with many terms
part (define (domain d) (:predicates (
times 400000 n
times 100000  ?x
part ) (
times 399999 n
times 100000  ?x
file )))
| good: domain d
once good domain
part (define (problem p) (:domain d) (:objects a) (:init (
times 400000 n
times 100000  a
part ) (
times 399999 n
times 100000  a
file )) (:goal (and)))
| good: problem p
once good problem

# What is bound further in hides what is bound outside it, and is gone where its list ends.
row variables that hide one another in turn
part (define (domain d) (:types a b) (:predicates (p ?x - a) (q ?x - b)) (:action n :parameters (?x - a) :precondition (and
part  (exists (?x - b) (and (q ?x) (forall (?x - a) (p ?x)) (q ?x))) (p ?x))
file  :effect (and (forall (?x - b) (q ?x)) (not (p ?x)))))
| good: domain d
good domain

row a variable behind its list
file (define (domain d) (:predicates (p ?x)) (:action n :precondition (and (forall (?x) (p ?x)) (p ?x))))
| link: fault 26 UnknownName x
refused domain

row a parameter of the action before
file (define (domain d) (:predicates (p ?x)) (:action m :parameters (?x) :precondition (p ?x)) (:action n :precondition (p ?x)))
| link: fault 26 UnknownName x
refused domain

part (define (domain d) (:types a b) (:predicates (p ?x - a) (q ?x - b)) (:action n :parameters (
series 16  ?v#0
part  - a ?w - b) :precondition
keep long

row a long list of parameters, one of which is hidden
growths 30
copy long
file  (and (p ?v0) (p ?v15) (q ?w) (forall (?v15 - b) (q ?v15)))))
| good: domain d
good domain

row a variable that is no longer hidden
copy long
file  (and (forall (?v15 - b) (q ?v15)) (q ?v15))))
| link: fault 28 ArgumentType q
refused domain

row a variable that a long list does not have
copy long
file  (p ?v16)))
| link: fault 26 UnknownName v16
refused domain

row a long list that hides a variable
part (define (domain d) (:types a b) (:predicates (p ?x - a) (q ?x - b)) (:action n :parameters (?v7 - b ?w - b) :precondition (and (q ?v7) (exists (
series 16  ?v#0
file  - a) (and (p ?v7) (q ?w))))))
| good: domain d
good domain

row lamps whose growths are refused
growths 10
copy lamps
file
| good: domain lamps
good domain

row a type that stands twice, whose growths are refused
growths 10
file (define (domain d) (:types a b b))
| link: fault 21 TypeTwice b
refused domain
";
