//! Plans of groups of the steps of others, each of which is valid and of the same cost.

pub static GROUPS: &[u8] = br"row one step each
growths 40
copy lamps
file
copy two
file
| 0: (light a)
| 0.000: (light b)
file
| 1: (light a)
| 2: (light b)
good groups 1
again
| valid: 2 steps in 2 happenings, total-cost 7
good plan

row one step each, reversed
growths 40
copy lamps
file
copy two
file
| 0: (light a)
| 0.000: (light b)
file
| 1: (light b)
| 2: (light a)
good groups 1 reverse
again
| valid: 2 steps in 2 happenings, total-cost 7
good plan

row both together
growths 40
copy lamps
file
copy two
file
| 0: (light a)
| 0.000: (light b)
file
| 1: (light a)
| 1: (light b)
good groups 2
again
| valid: 2 steps in 1 happenings, total-cost 7
good plan

row both together, reversed
copy lamps
file
copy two
file
| 0: (light a)
| 0.000: (light b)
file
| 1: (light b)
| 1: (light a)
good groups 2 reverse
again
| valid: 2 steps in 1 happenings, total-cost 7
good plan

row larger than a happening
copy lamps
file
copy two
file
| 0: (light a)
| 0.000: (light b)
file
| 1: (light a)
| 1: (light b)
good groups 1000000
again
| valid: 2 steps in 1 happenings, total-cost 7
good plan

row a smaller one at the end
growths 40
copy lamps
file
copy two
change (and (on a) (on b)) => (and)
file
| 5: (check a)
| 5: (check b)
| 5: (check a)
file
| 1: (check a)
| 1: (check b)
| 2: (check a)
good groups 2
again
| valid: 3 steps in 2 happenings, total-cost 0
good plan

row a smaller one at the end, reversed
copy lamps
file
copy two
change (and (on a) (on b)) => (and)
file
| 5: (check a)
| 5: (check b)
| 5: (check b)
file
| 1: (check b)
| 1: (check b)
| 2: (check a)
good groups 2 reverse
again
| valid: 3 steps in 2 happenings, total-cost 0
good plan

row no group has steps of two moments
copy lamps
file
copy two
change (and (on a) (on b)) => (and)
file
| 0.5: (light b)
| 9999999999.999999999: (light a)
| 7.25: (dark)
| 7.250: (check a)
file
| 1: (light b)
| 2: (dark)
| 2: (check a)
| 3: (light a)
good groups 2
again
| valid: 4 steps in 3 happenings, total-cost 7
good plan

row one step each, of moments that are fractions, reversed
copy lamps
file
copy two
change (and (on a) (on b)) => (and)
file
| 0.5: (light b)
| 9999999999.999999999: (light a)
| 7.25: (dark)
| 7.250: (check a)
file
| 1: (light b)
| 2: (check a)
| 3: (dark)
| 4: (light a)
good groups 1 reverse
again
| valid: 4 steps in 4 happenings, total-cost 7
good plan

row a plain plan
copy lamps
file
copy two
change (and (on a) (on b)) => (and)
file
| (light a)
| (light b)
| (dark)
file
| 1: (light a)
| 2: (light b)
| 3: (dark)
good groups 3
again
| valid: 3 steps in 3 happenings, total-cost 7
good plan

row costs under a condition
copy lamps
change (not (on ?x))))) => (and (not (on ?x)) (increase (total-cost) (price ?x))))))
file
copy two
change (and (on a) (on b)) => (and)
file
| 1: (light a)
| 2: (dark)
| 2: (check b)
file
| 1: (light a)
| 2: (dark)
| 3: (check b)
good groups 1
again
| valid: 3 steps in 3 happenings, total-cost 6
good plan

row no steps
copy lamps
file
copy two
change (and (on a) (on b)) => (and)
file
file
good groups 1
again
| valid: 0 steps in 0 happenings, total-cost 0
good plan

row many groups
copy lamps
file
copy two
change (and (on a) (on b)) => (and)
file
| 8: (check a)
| 8: (check a)
| 8: (check a)
| 8: (check a)
| 8: (check a)
| 8: (check a)
| 8: (check a)
| 8: (check a)
| 8: (check a)
| 8: (check a)
| 8: (check a)
| 8: (check a)
| 8: (check a)
| 8: (check a)
| 8: (check a)
| 8: (check a)
| 8: (check a)
| 8: (check a)
| 8: (check a)
| 8: (check a)
| 8: (check a)
| 8: (check a)
| 8: (check a)
| 8: (check a)
| 8: (check a)
file
| 1: (check a)
| 1: (check a)
| 2: (check a)
| 2: (check a)
| 3: (check a)
| 3: (check a)
| 4: (check a)
| 4: (check a)
| 5: (check a)
| 5: (check a)
| 6: (check a)
| 6: (check a)
| 7: (check a)
| 7: (check a)
| 8: (check a)
| 8: (check a)
| 9: (check a)
| 9: (check a)
| 10: (check a)
| 10: (check a)
| 11: (check a)
| 11: (check a)
| 12: (check a)
| 12: (check a)
| 13: (check a)
good groups 2
again
| valid: 25 steps in 13 happenings, total-cost 0
good plan
";
