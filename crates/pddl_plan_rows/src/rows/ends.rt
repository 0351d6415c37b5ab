//! Verdicts over both stores, and the ends of accepted plans, with each growth refused in turn.

pub static ENDS: &[u8] = br"row two steps, one after the other
growths 20
copy lamps
file
copy two
file
| (LIGHT A)
| ; cost = 7
| (light b)
file
| valid: 2 steps in 2 happenings, total-cost 7
good list verdicts
| valid: 2 steps in 2 happenings, total-cost 7
| (on a) (on b) (ok a) (ok b) cost 7
good list end

row two steps at one moment
growths 20
copy lamps
file
copy two
file
| 0: (light a)
| 0.000: (light b)
file
| valid: 2 steps in 1 happenings, total-cost 7
good list verdicts
| valid: 2 steps in 1 happenings, total-cost 7
| (on a) (on b) (ok a) (ok b) cost 7
good list end

row a quantifier reads, and so does a condition that does not fire
growths 20
copy lamps
file
copy two
file
| 1: (light a)
| 2: (light b)
| 2: (dark)
file
| invalid: happening 2, steps 2 and 3 interfere on (on b)
invalid list verdicts
| invalid: happening 2, steps 2 and 3 interfere on (on b)
invalid list end

row a false precondition
growths 20
copy lamps
file
copy two
file
| 1: (check a)
| 1: (light a)
| 1: (dark)
file
| invalid: happening 1, step 3: precondition is false
invalid list verdicts
| invalid: happening 1, step 3: precondition is false
invalid list end

row a goal that is not reached
growths 20
copy lamps
file
copy two
file
| (light a)
file
| invalid: goal is false
invalid list verdicts
| invalid: goal is false
invalid list end

row a step deletes and adds an atom
growths 20
copy flips
file
copy flipped
file
| (flip)
file
| valid: 1 steps in 1 happenings, total-cost 0
good list verdicts
| valid: 1 steps in 1 happenings, total-cost 0
| (p) cost 0
good list end

row a step adds what another deletes
growths 20
copy flips
file
copy flipped
file
| 1: (flip)
| 1: (drop)
file
| invalid: happening 1, steps 1 and 2 interfere on (p)
invalid list verdicts
| invalid: happening 1, steps 1 and 2 interfere on (p)
invalid list end

row equal steps at a moment, and a cost under a condition
growths 20
copy lamps
change (not (on ?x))))) => (and (not (on ?x)) (increase (total-cost) (price ?x))))))
file
copy two
change (and (on a) (on b)) => (and)
file
| 1: (check a)
| 1: (check a)
| 2: (light b)
| 3: (dark)
file
| valid: 4 steps in 3 happenings, total-cost 8
good list verdicts
| valid: 4 steps in 3 happenings, total-cost 8
| (ok a) (ok b) cost 8
good list end

row an object that is not known
growths 20
copy lamps
file
copy two
file
| (light c)
file
| fault 42 step 0
refused list verdicts
";
