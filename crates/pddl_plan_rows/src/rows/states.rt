//! What steps are in the state that a plan starts in: whether they are ready, what they read, add, delete and cost; and the goal.

pub static STATES: &[u8] =
    br"part (define (domain v) (:predicates (p)) (:functions (total-cost)) (:action pay :effect (when (p) (increase (total-cost) 5)))
part \s(:action drop :effect (not (p))))
keep payments

part (define (problem v1) (:domain v) (:init (p)) (:goal (and)))
keep paid

row at first
growths 40
copy lamps
file
copy two
file
| (light a)
| (dark)
| (light b)
| (check a)
file
| true
| false
| true
| true
| in (ok a) (ok b) goal false
good list truth
| (on a) (ok a)
| (on a) (on b)
| (on b) (ok b)
|
| in (ok a) (ok b) goal false
good list reads
| adds (on a) deletes
| adds deletes
| adds (on b) deletes
| adds (ok a) deletes
| in (ok a) (ok b) goal false
good list fired
| 3
| 0
| 4
| 0
| in (ok a) (ok b) goal false
good list costs

row where a lamp is on that is not checked
growths 40
copy lamps
file
copy two
change (ok a) (ok b) => (on a) (ok b)
file
| (light a)
| (dark)
| (light b)
| (check a)
file
| false
| true
| true
| true
| in (on a) (ok b) goal false
good list truth
| (on a) (ok a)
| (on a) (on b)
| (on b) (ok b)
|
| in (on a) (ok b) goal false
good list reads
| adds (on a) deletes
| adds deletes (on a)
| adds (on b) deletes
| adds (ok a) deletes
| in (on a) (ok b) goal false
good list fired
| 3
| 0
| 4
| 0
| in (on a) (ok b) goal false
good list costs

row where both are on, and putting out costs
copy lamps
change (not (on ?x))))) => (and (not (on ?x)) (increase (total-cost) (price ?x))))))
file
copy two
change (ok a) (ok b) => (on b) (on a)
file
| (dark)
| (light b)
file
| true
| false
| in (on a) (on b) goal true
good list truth
| (on a) (on b)
| (on b) (ok b)
| in (on a) (on b) goal true
good list reads
| adds deletes (on a) (on b)
| adds (on b) deletes
| in (on a) (on b) goal true
good list fired
| 7
| 4
| in (on a) (on b) goal true
good list costs

row where one is on, and putting out costs
growths 40
copy lamps
change (not (on ?x))))) => (and (not (on ?x)) (increase (total-cost) (price ?x))))))
file
copy two
change (ok a) (ok b) => (on a) (ok b)
file
| (dark)
file
| 3
| in (on a) (ok b) goal false
good list costs

row where none is on, and putting out costs
copy lamps
change (not (on ?x))))) => (and (not (on ?x)) (increase (total-cost) (price ?x))))))
file
copy two
file
| (dark)
file
| 0
| in (ok a) (ok b) goal false
good list costs

row a cost for each two lamps
copy lamps
change (forall (?x - lamp) (when (on ?x) (not (on ?x)))) => (forall (?x ?y - lamp) (increase (total-cost) 1))
file
copy two
file
| (dark)
file
| 4
| in (ok a) (ok b) goal false
good list costs
| (on a) (on b)
| in (ok a) (ok b) goal false
good list reads

row equal amounts count each
file (define (domain v) (:functions (total-cost)) (:action pay :effect (and (increase (total-cost) 2) (increase (total-cost) 2))))
file (define (problem v1) (:domain v) (:init) (:goal (and)))
| (pay)
file
| 4
| in goal true
good list costs

row what is paid while a fact holds, and it does
copy payments
file
copy paid
file
| (pay)
| (drop)
file
| 5
| 0
| in (p) goal true
good list costs
| (p)
|
| in (p) goal true
good list reads
| adds deletes
| adds deletes (p)
| in (p) goal true
good list fired

row what is paid while a fact holds, and it does not
copy payments
file
copy paid
change (p)
file
| (pay)
| (drop)
file
| 0
| 0
| in goal true
good list costs
| (p)
|
| in goal true
good list reads

row a step deletes and adds an atom
copy flips
file
copy flipped
file
| (flip)
| (drop)
file
| adds (p) deletes (p)
| adds deletes (p)
| in (p) goal true
good list fired

row what is read is not made less by equality
growths 40
part (define (domain m) (:predicates (at ?x)) (:action put :parameters (?x)
part \s:precondition (forall (?y) (imply (not (= ?x ?y)) (not (at ?y)))) :effect (at ?x)))
file
file (define (problem m1) (:domain m) (:objects a b c) (:init (at b)) (:goal (exists (?x ?y) (and (at ?x) (not (= ?x ?y))))))
| (put a)
| (put b)
file
| (at a) (at b) (at c)
| (at a) (at b) (at c)
| in (at b) goal true
good list reads
| false
| true
| in (at b) goal true
good list truth
| adds (at a) deletes
| adds (at b) deletes
| in (at b) goal true
good list fired

row an inner variable hides an outer one
part (define (domain m) (:types t u - object) (:predicates (q ?x) (p ?x ?y)) (:action put :parameters (?x - t ?y - u)
part \s:precondition (exists (?x - u) (p ?x ?y)) :effect (forall (?y - t) (when (p ?x ?y) (and (q ?y) (not (p ?y ?x)))))))
file
file (define (problem m1) (:domain m) (:objects a b - t c - u) (:init (p a b) (p c c) (p a a)) (:goal (or (q a) (imply (q b) (q c)))))
| (put a c)
| (put b c)
file
| (p a a) (p a b) (p c c)
| (p b a) (p b b) (p c c)
| in (p a a) (p a b) (p c c) goal true
good list reads
| true
| true
| in (p a a) (p a b) (p c c) goal true
good list truth
| adds (q a) (q b) deletes (p a a) (p b a)
| adds deletes
| in (p a a) (p a b) (p c c) goal true
good list fired

row seventy lamps that are on
copy lamps
file
part (define (problem seventy) (:domain lamps) (:objects
series 70  o#0
part \s- lamp) (:init
series 70  (on o#0)
part ) (:goal (forall (?x - lamp) (on ?x))))
file
| (dark)
file
part (on o0)
series 69  (on o#1)
|
part in (on o0)
series 69  (on o#1)
| \sgoal true
once good list reads
part adds deletes (on o0)
series 69  (on o#1)
|
part in (on o0)
series 69  (on o#1)
| \sgoal true
once good list fired
";
