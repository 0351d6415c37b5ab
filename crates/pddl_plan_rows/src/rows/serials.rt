//! Serial forms of plans, each of which is a valid plan of the same cost.

pub static SERIALS: &[u8] = br"row moments in another order than in the file
growths 40
copy lamps
file
copy two
file
| 2: (light b)
| 1: (light a)
file
| valid: 2 steps in 2 happenings, total-cost 7
good plan
| (light a)
| (light b)
good serial
again
| valid: 2 steps in 2 happenings, total-cost 7
good plan

row one moment
growths 40
copy lamps
file
copy two
file
| 0: (light a)
| 0.000: (light b)
file
| valid: 2 steps in 1 happenings, total-cost 7
good plan
| (light a)
| (light b)
good serial
again
| valid: 2 steps in 2 happenings, total-cost 7
good plan

row one moment, reversed
growths 40
copy lamps
file
copy two
file
| 0: (light a)
| 0.000: (light b)
file
| (light b)
| (light a)
good serial reverse
again
| valid: 2 steps in 2 happenings, total-cost 7
good plan

row each moment by itself is reversed
growths 40
copy lamps
file
copy two
change (and (on a) (on b)) => (and)
file
| 1: (light a)
| 2: (dark)
| 2: (check b)
file
| valid: 3 steps in 2 happenings, total-cost 3
good plan
| (light a)
| (check b)
| (dark)
good serial reverse
again
| valid: 3 steps in 3 happenings, total-cost 3
good plan

row costs under a condition
copy lamps
change (not (on ?x))))) => (and (not (on ?x)) (increase (total-cost) (price ?x))))))
file
copy two
change (and (on a) (on b)) => (and)
file
| 1: (light a)
| 2: (dark)
| 2: (check b)
file
| valid: 3 steps in 2 happenings, total-cost 6
good plan
| (light a)
| (check b)
| (dark)
good serial reverse
again
| valid: 3 steps in 3 happenings, total-cost 6
good plan

row fractions
copy lamps
file
copy two
change (and (on a) (on b)) => (and)
file
| 0.5: (light b)
| 9999999999.999999999: (light a)
| 7.25: (dark)
| 7.250: (check a)
file
| valid: 4 steps in 3 happenings, total-cost 7
good plan
| (light b)
| (dark)
| (check a)
| (light a)
good serial
again
| valid: 4 steps in 4 happenings, total-cost 7
good plan

row names are folded, and comments left out
copy lamps
file
copy two
change (and (on a) (on b)) => (and)
file
| (LIGHT A) ; at last
| (Light
| b)
file
| (light a)
| (light b)
good serial
again
| valid: 2 steps in 2 happenings, total-cost 7
good plan

row no steps
copy lamps
file
copy two
change (and (on a) (on b)) => (and)
file
file
good serial
again
| valid: 0 steps in 0 happenings, total-cost 0
good plan

row no steps, reversed
copy lamps
file
copy two
change (and (on a) (on b)) => (and)
file
file
good serial reverse
again
| valid: 0 steps in 0 happenings, total-cost 0
good plan

row what is paid while a fact holds
file (define (domain v) (:predicates (p)) (:functions (total-cost)) (:action pay :effect (when (p) (increase (total-cost) 5))) (:action drop :effect (not (p))))
file (define (problem v1) (:domain v) (:init (p)) (:goal (and)))
| (pay)
| (drop)
| (pay)
file
| (pay)
| (drop)
| (pay)
good serial reverse
again
| valid: 3 steps in 3 happenings, total-cost 5
good plan

row an action without objects
copy flips
file
copy flipped
file
| 1: (flip)
file
| (flip)
good serial
again
| valid: 1 steps in 1 happenings, total-cost 0
good plan

row a plan that is not accepted
growths 40
copy lamps
file
copy two
change (and (on a) (on b)) => (and)
file
| (light a)
| (light a)
file
| invalid: happening 2, step 2: precondition is false
invalid serial
| invalid: happening 2, step 2: precondition is false
invalid serial reverse
| invalid: happening 2, step 2: precondition is false
invalid groups 1

row steps that interfere
copy lamps
file
copy two
file
| 1: (check a)
| 1: (light a)
file
| invalid: happening 1, steps 1 and 2 interfere on (ok a)
invalid serial
| invalid: happening 1, steps 1 and 2 interfere on (ok a)
invalid groups 2 reverse

row a goal that is not reached
copy lamps
file
copy two
file
| (light a)
file
| invalid: goal is false
invalid serial
| invalid: goal is false
invalid groups 1

row an object that is not known
copy lamps
file
copy two
file
| (light c)
file
| plan: fault 42 UnknownObject at step 1
refused serial
| plan: fault 42 UnknownObject at step 1
refused serial reverse
| plan: fault 42 UnknownObject at step 1
refused groups 1

row plain and timed steps
copy lamps
file
copy two
file
| (light a)
| 1: (light b)
file
| plan: fault 16 Mixed at 2:1
refused serial
| plan: fault 16 Mixed at 2:1
refused groups 3 reverse

row a domain that does not link
copy idle
file
copy two
file
| (light a)
file
| link: fault 20 DomainName lamps
refused serial
| link: fault 20 DomainName lamps
refused groups 1

row nothing is read behind a domain that is not closed
file (
copy two
file
| (light a)
file
| domain: fault 7 Unclosed at 1:1
only 1 refused serial
| domain: fault 7 Unclosed at 1:1
only 1 refused groups 1

row nothing is read behind a problem without a goal
copy lamps
file
file (define (problem p) (:domain lamps) (:init))
| (light a)
file
| problem: fault 14 Missing :goal
only 2 refused serial reverse
| problem: fault 14 Missing :goal
only 2 refused groups 1 reverse

row as many steps as may be
copy lamps
file
copy two
change (and (on a) (on b)) => (and)
file
times 1000000 1: (check a)\n
file
times 1000000 (check a)\n
once good serial reverse
times 1000000 1: (check a)\n
once good groups 1000000
";
