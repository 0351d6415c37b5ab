//! Plans that are refused, and files before them.

pub static REFUSED_PLANS: &[u8] = br"row an object that is not known
growths 40
copy lamps
file
copy two
file
| (light c)
file
| plan: fault 42 UnknownObject at step 1
refused plan

row an action that is not known
growths 40
copy lamps
file
copy two
file
| (glow a)
file
| plan: fault 40 UnknownAction at step 1
refused plan

row a step with too few objects
growths 40
copy lamps
file
copy two
file
| (light)
file
| plan: fault 41 StepArity at step 1
refused plan

row a step with too many objects
copy lamps
file
copy two
file
| (check a)
| (check b)
| (dark a)
file
| plan: fault 41 StepArity at step 3
refused plan

row an object that does not fit
copy lamps
file
copy two
change b - big => b - big c
file
| (check a)
| (light c)
file
| plan: fault 43 StepType at step 2
refused plan

row an object that does not fit a parameter of an either of many types
part (define (domain d) (:types
series 20  t#0
part  u) (:predicates (p ?x)) (:action see :parameters (?x - (either
series 20  t#0
file )) :effect (p ?x)))
file (define (problem p) (:domain d) (:objects a - t7 b - u) (:init) (:goal (p a)))
| (see a)
| (see b)
file
| plan: fault 43 StepType at step 2
refused plan

row a step without a cost
copy lamps
file
copy two
change \s(= (price a) 3)
file
| (check a)
| (light a)
file
| plan: fault 44 CostUndefined at step 2
refused plan

row the first faulty step in file order, though it comes later
copy lamps
file
copy two
file
| 9: (light c)
| 1: (glow a)
file
| plan: fault 42 UnknownObject at step 1
refused plan

row the tenth step
copy lamps
file
copy two
file
times 9 (check a)\n
| (glow)
file
| plan: fault 40 UnknownAction at step 10
refused plan

row a step that is too large
part (define (domain t) (:constants o0) (:predicates (p ?x)) (:action big :precondition\s
copy large
times 11 (p o0)
file )))
file (define (problem q) (:domain t) (:objects o1 o2 o3 o4 o5 o6 o7 o8 o9) (:init) (:goal (and)))
file (big)
| plan: fault 46 StepTooLarge at step 1
refused plan

row one step too many
copy lamps
file
copy two
file
times 1000001 (check a)
file
| plan: fault 45 PlanTooLong
once refused plan

row one byte too many
copy lamps
file
copy two
file
times 16777217 \s
file
| plan: fault 1 TooLong
once refused plan

row a step that is not closed
copy lamps
file
copy two
file
| (light a)
| (light
file
| plan: fault 7 Unclosed at 2:1
refused plan

row plain and timed steps
copy lamps
file
copy two
file
| (light a)
| 1: (light b)
file
| plan: fault 16 Mixed at 2:1
refused plan

row a duration
copy lamps
file
copy two
file
| 0.0: (light a) [1]
file
| plan: fault 17 Duration at 1:16
refused plan

row nothing is read behind a domain that is not closed
file (
copy two
file
| (light a)
file
| domain: fault 7 Unclosed at 1:1
only 1 refused plan

row nothing is read behind a problem without a goal
copy lamps
file
file (define (problem p) (:domain lamps) (:init))
| (light a)
file
| problem: fault 14 Missing :goal
only 2 refused plan

row nothing is read behind a domain without a head
file x
file &
file [
| domain: fault 10 Head at 1:1
only 1 refused plan

row a plan is read before a domain and a problem are linked
copy idle
file
copy two
file
| [
file
| plan: fault 15 Step at 1:1
refused plan

row a domain and a problem are linked before a plan is
copy idle
file
copy two
file
| (glow a)
file
| link: fault 20 DomainName lamps
refused plan

row a goal of an object that is not known
copy lamps
file
copy two
change (and (on a) (on b)) => (on c)
file
| (light a)
file
| link: fault 26 UnknownName c
refused plan
";
