//! What is asked of a task: numbers, subtypes, objects that fit, costs and sizes.

pub static TASKS: &[u8] = br"row the numbers of lamps, where b is a constant
copy lamps
change (:predicates => (:constants b - big) (:predicates
file
copy two
file
| object 0 b 0
| object 1 a 1
| predicate 0 on 0
| predicate 1 ok 1
| actions 3
| init 4
good list task
| a
| b
| on
| ok
| price
file
| a 1 none
| b 0 none
| on none 0
| ok none 1
| price none none
good list task names

row subtypes
copy lamps
file
copy two
file
| big big
| big lamp
| big object
| lamp big
| object lamp
| object object
| small small
| small object
| big small
file
| true
| true
| true
| false
| false
| true
| false
| false
| false
good list subtypes

row the objects that fit, of a lamp, a big one, and one without a type
copy lamps
file
copy two
change b - big => b - big c
file
| big
| lamp
| object
| big lamp
file
| 1 - 1
| 0 1 - 0 1
| 0 1 2 - 0 1 2
| 0 1 - 0 1
good list fitting

row the objects that fit, which do not stand in the order of their types
file (define (domain d) (:types a b e - object c - a d - b) (:constants k - c))
file (define (problem p) (:domain d) (:objects y - d x - a z - object w - c v - b u) (:init) (:goal (and)))
| a
| b
| c
| d
| e
| object
| c a
| a c
| d a
| e d c
file
| 0 2 4 - 0 2 4
| 1 5 - 1 5
| 0 4 - 0 4
| 1 - 1
| -
| 0 1 2 3 4 5 6 - 0 1 2 3 4 5 6
| 0 2 4 - 0 2 4
| 0 2 4 - 0 2 4
| 0 1 2 4 - 0 1 2 4
| 0 1 4 - 0 1 4
good list fitting

row costs, of which one is given twice
copy lamps
file
copy two
change (= (price a) 3) => (= total-cost 0) (= (PRICE A) 3.0) (= (price a) 3)
file
| price a
| price b
| total-cost
| price c
| price
| price a b
| ok a
file
| 3
| 4
| 0
| none
| none
| none
| none
good list costs

row size 1
copy lamps
file
file (define (problem p) (:domain lamps) (:objects a - lamp) (:init) (:goal (forall (?x - big ?y - lamp) (on ?y))))
| 1
good list size

row size 2
copy lamps
file
file (define (problem p) (:domain lamps) (:objects a - lamp) (:init) (:goal (forall (?y - lamp ?x - big) (on ?y))))
| 2
good list size

row size 3
copy lamps
file
file (define (problem p) (:domain lamps) (:objects a - lamp) (:init) (:goal (forall () (on a))))
| 2
good list size

# Objects that fit an either are counted once, whichever of its types they fit: trucks 2, vans 1, wheeled 4, ships 3, vehicles 8, lamps 1.
part (define (domain d) (:types truck van - wheeled wheeled ship - vehicle vehicle lamp) (:predicates (p ?x)))
keep wheels
part (define (problem p) (:domain d) (:objects t u - truck v - van w - wheeled a b c - ship x - vehicle l - lamp) (:init) (:goal (forall (?x -
keep fleet

row size of an either 1
copy wheels
file
copy fleet
file  (either truck ship)) (p ?x))))
| 11
good list size

row size of an either 2
copy wheels
file
copy fleet
file  (either truck wheeled)) (p ?x))))
| 9
good list size

row size of an either 3
copy wheels
file
copy fleet
file  (either wheeled truck)) (p ?x))))
| 9
good list size

row size of an either 4
copy wheels
file
copy fleet
file  (either van van)) (p ?x))))
| 3
good list size

row size of an either 5
copy wheels
file
copy fleet
file  (either ship vehicle lamp wheeled)) (p ?x))))
| 19
good list size

row size of an either 6
copy wheels
file
copy fleet
file  (either lamp object)) (p ?x))))
| 19
good list size

row size of an either 7
copy wheels
file
copy fleet
file  (either van ship truck)) (p ?x))))
| 13
good list size
";
