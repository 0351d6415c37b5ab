//! Serial forms of accepted plans, each with its own verdict and end.

pub static SERIAL_FORMS: &[u8] = br"row moments in another order than in the file
growths 40
copy lamps
file
copy two
file
| 2: (light b)
| 1: (light a)
file
| (light a)
| (light b)
| valid: 2 steps in 2 happenings, total-cost 7
| (on a) (on b) (ok a) (ok b) cost 7
good list serial
| (light a)
| (light b)
| valid: 2 steps in 2 happenings, total-cost 7
| (on a) (on b) (ok a) (ok b) cost 7
good list serial reverse

row one moment
growths 40
copy lamps
file
copy two
file
| 0: (light a)
| 0.000: (light b)
file
| (light a)
| (light b)
| valid: 2 steps in 2 happenings, total-cost 7
| (on a) (on b) (ok a) (ok b) cost 7
good list serial
| (light b)
| (light a)
| valid: 2 steps in 2 happenings, total-cost 7
| (on a) (on b) (ok a) (ok b) cost 7
good list serial reverse

row each moment by itself is reversed
growths 40
copy lamps
file
copy two
change (and (on a) (on b)) => (and)
file
| 1: (light a)
| 2: (dark)
| 2: (check b)
file
| (light a)
| (check b)
| (dark)
| valid: 3 steps in 3 happenings, total-cost 3
| (ok a) (ok b) cost 3
good list serial reverse

row costs under a condition
copy lamps
change (not (on ?x))))) => (and (not (on ?x)) (increase (total-cost) (price ?x))))))
file
copy two
change (and (on a) (on b)) => (and)
file
| 1: (light a)
| 2: (dark)
| 2: (check b)
file
| (light a)
| (check b)
| (dark)
| valid: 3 steps in 3 happenings, total-cost 6
| (ok a) (ok b) cost 6
good list serial reverse

row a plain plan
copy lamps
file
copy two
change (and (on a) (on b)) => (and)
file
| (light b)
| (dark)
file
| (light b)
| (dark)
| valid: 2 steps in 2 happenings, total-cost 4
| (ok a) (ok b) cost 4
good list serial reverse

row no steps
copy lamps
file
copy two
change (and (on a) (on b)) => (and)
file
file
| valid: 0 steps in 0 happenings, total-cost 0
| (ok a) (ok b) cost 0
good list serial

row a plan that is not accepted
copy lamps
file
copy two
change (and (on a) (on b)) => (and)
file
| (light a)
| (light a)
file
| invalid: happening 2, step 2: precondition is false
invalid list serial

row a plan whose steps interfere
copy lamps
file
copy two
file
| 1: (check a)
| 1: (light a)
file
| invalid: happening 1, steps 1 and 2 interfere on (ok a)
invalid list serial reverse

row a goal that is not reached
copy lamps
file
copy two
file
| (light a)
file
| invalid: goal is false
invalid list serial
";
