//! Runs of the steps of plans in the orders of lists: how each ends, or why it does not.

pub static REPLAYS: &[u8] =
    br"part (define (domain v) (:predicates (p)) (:functions (total-cost)) (:action pay :effect (when (p) (increase (total-cost) 5)))
part \s(:action drop :effect (not (p))))
keep payments

part (define (problem v1) (:domain v) (:init (p)) (:goal (and)))
keep paid

row two orders of a moment
growths 40
copy lamps
file
copy two
change (and (on a) (on b)) => (and)
file
| 1: (light a)
| 2: (dark)
| 2: (check b)
file
| 0 2 1
| 0 1 2
file
| (ok a) (ok b) cost 3
| (ok a) (ok b) cost 3
good list replays

row lists that are no serialisations
copy lamps
file
copy two
change (and (on a) (on b)) => (and)
file
| 1: (light a)
| 2: (dark)
| 2: (check b)
file
| 1 0 2
| 0 1
| 0 1 1
| 0 1 2 3
|
| 0 1 3
| 0 1 4294967295
| 2 1 0
file
| 60 NotASerialisation
| 60 NotASerialisation
| 60 NotASerialisation
| 60 NotASerialisation
| 60 NotASerialisation
| 60 NotASerialisation
| 60 NotASerialisation
| 60 NotASerialisation
good list replays

row a plan whose steps interfere
growths 40
copy lamps
file
copy two
change (and (on a) (on b)) => (and)
file
| 1: (check a)
| 1: (light a)
file
| 0 1
| 1 0
file
| (on a) (ok a) (ok b) cost 3
| (on a) (ok a) (ok b) cost 3
good list replays

row a plan with a false precondition, which is true in one order
growths 40
copy lamps
file
copy two
change (and (on a) (on b)) => (and)
file
| 1: (light a)
| 1: (dark)
file
| 0 1
| 1 0
file
| (ok a) (ok b) cost 3
| 62 StepFails at place 0
good list replays

row a lamp is lit twice
copy lamps
file
copy two
change (and (on a) (on b)) => (and)
file
| (light a)
| (light a)
file
| 0 1
| 1 0
file
| 62 StepFails at place 1
| 60 NotASerialisation
good list replays

row no steps
copy lamps
file
copy two
change (and (on a) (on b)) => (and)
file
file
|
| 0
file
| (ok a) (ok b) cost 0
| 60 NotASerialisation
good list replays

row a place between others
copy lamps
file
copy two
change (and (on a) (on b)) => (and)
file
| 1: (light a)
| 1: (dark)
| 1: (light a)
file
| 0 2 1
| 0 1 2
| 1 0 2
| 2 1 0
file
| 62 StepFails at place 1
| (on a) (ok a) (ok b) cost 6
| 62 StepFails at place 0
| (on a) (ok a) (ok b) cost 6
good list replays

row three moments, whose steps stand in another order
growths 40
copy lamps
file
copy two
file
| 3: (light b)
| 1: (light a)
| 2: (dark)
| 1: (light b)
file
| 1 3 2 0
| 3 1 2 0
| 0 1 2 3
| 1 2 3 0
file
| (on b) (ok a) (ok b) cost 11
| (on b) (ok a) (ok b) cost 11
| 60 NotASerialisation
| 60 NotASerialisation
good list replays

row costs under a condition
copy lamps
change (not (on ?x))))) => (and (not (on ?x)) (increase (total-cost) (price ?x))))))
file
copy two
change (and (on a) (on b)) => (and)
file
| 1: (light a)
| 2: (dark)
| 2: (check b)
file
| 0 1 2
| 0 2 1
file
| (ok a) (ok b) cost 6
| (ok a) (ok b) cost 6
good list replays

row what is paid while a fact holds, in two orders
copy payments
file
copy paid
file
| 1: (pay)
| 1: (drop)
file
| 0 1
| 1 0
file
| cost 5
| cost 0
good list replays

row a fact is given and taken at once, and taken, in two orders
copy flips
file
copy flipped
file
| 1: (flip)
| 1: (drop)
file
| 0 1
| 1 0
file
| cost 0
| (p) cost 0
good list replays

row a plan that does not link
copy lamps
file
copy two
change (and (on a) (on b)) => (and)
file
| (light c)
file
| 0
file
| fault 42 step 0
refused list replays

row as many steps as may be
copy lamps
file
copy two
change (and (on a) (on b)) => (and)
file
times 1000000 (check a)
file
series 1000000 #0 
file
| (ok a) (ok b) cost 0
once good list replays
";
