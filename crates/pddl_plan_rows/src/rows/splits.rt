//! Splits of accepted plans by groups of their steps, each with its own verdict and end.

pub static SPLITS: &[u8] = br"row the steps of a moment apart, and as they were
growths 40
copy lamps
file
copy two
change (and (on a) (on b)) => (and)
file
| 1: (check a)
| 1: (check b)
| 2: (check a)
file
| 1 / 0 / 2
| 0 1 / 2
| 1 0 / 2
file
| 1: (check b)
| 2: (check a)
| 3: (check a)
| valid: 3 steps in 3 happenings, total-cost 0
| (ok a) (ok b) cost 0
| 1: (check a)
| 1: (check b)
| 2: (check a)
| valid: 3 steps in 2 happenings, total-cost 0
| (ok a) (ok b) cost 0
| 1: (check b)
| 1: (check a)
| 2: (check a)
| valid: 3 steps in 2 happenings, total-cost 0
| (ok a) (ok b) cost 0
good list splits

row groups that are no split
growths 40
copy lamps
file
copy two
change (and (on a) (on b)) => (and)
file
| 1: (check a)
| 1: (check b)
| 2: (check a)
file
| 0 2 / 1
| 0 / / 1 / 2
| 0 / 2
| 2 / 0 / 1
| 0 1 0 / 2
|
| 0 1 / 2 / 0
| 0 1 / 3
| 0 1 2
file
| 61 NotASplit
| 61 NotASplit
| 61 NotASplit
| 61 NotASplit
| 61 NotASplit
| 61 NotASplit
| 61 NotASplit
| 61 NotASplit
| 61 NotASplit
good list splits

row no steps
copy lamps
file
copy two
change (and (on a) (on b)) => (and)
file
file
|
| /
| 0
file
| valid: 0 steps in 0 happenings, total-cost 0
| (ok a) (ok b) cost 0
| 61 NotASplit
| 61 NotASplit
good list splits

row costs
growths 40
copy lamps
file
copy two
file
| 0: (light a)
| 0.000: (light b)
file
| 1 / 0
file
| 1: (light b)
| 2: (light a)
| valid: 2 steps in 2 happenings, total-cost 7
| (on a) (on b) (ok a) (ok b) cost 7
good list splits

row costs under a condition
copy lamps
change (not (on ?x))))) => (and (not (on ?x)) (increase (total-cost) (price ?x))))))
file
copy two
change (and (on a) (on b)) => (and)
file
| 1: (light a)
| 2: (dark)
| 2: (check b)
file
| 0 / 2 / 1
| 0 / 2 1
file
| 1: (light a)
| 2: (check b)
| 3: (dark)
| valid: 3 steps in 3 happenings, total-cost 6
| (ok a) (ok b) cost 6
| 1: (light a)
| 2: (check b)
| 2: (dark)
| valid: 3 steps in 2 happenings, total-cost 6
| (ok a) (ok b) cost 6
good list splits

row a plain plan
copy lamps
file
copy two
file
| (light a)
| (light b)
file
| 0 / 1
| 0 1
| 1 / 0
file
| 1: (light a)
| 2: (light b)
| valid: 2 steps in 2 happenings, total-cost 7
| (on a) (on b) (ok a) (ok b) cost 7
| 61 NotASplit
| 61 NotASplit
good list splits

row a plan that is not accepted
copy lamps
file
copy two
change (and (on a) (on b)) => (and)
file
| (light a)
| (light a)
file
| 0 / 1
file
| invalid: happening 2, step 2: precondition is false
invalid list splits

row eleven groups
copy lamps
file
copy two
change (and (on a) (on b)) => (and)
file
series 11 1: (check a)
file
| 10 / 9 / 8 / 7 / 6 / 5 / 4 / 3 / 2 / 1 / 0
file
| 1: (check a)
| 2: (check a)
| 3: (check a)
| 4: (check a)
| 5: (check a)
| 6: (check a)
| 7: (check a)
| 8: (check a)
| 9: (check a)
| 10: (check a)
| 11: (check a)
| valid: 11 steps in 11 happenings, total-cost 0
| (ok a) (ok b) cost 0
good list splits
";
