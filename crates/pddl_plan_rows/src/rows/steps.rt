//! Steps of plans that are linked: the numbers of their actions and objects, and their moments.

pub static STEPS: &[u8] = br"row plan 1
copy lamps
file
copy two
file
file
good list steps

row plan 2
copy lamps
file
copy two
file
file (check a)(light a)(dark)
| 1 0
| 0 0
| 2
good list steps

row plan 3
copy lamps
file
copy two
file
file 2: (light b) 1: (CHECK B) 1: (check b)
| 0 1 at 2000000000
| 1 1 at 1000000000
| 1 1 at 1000000000
good list steps

row plan 4
copy lamps
file
copy two
file
file (light c)
| fault 42 step 0
refused list steps

row plan 5
copy lamps
file
copy two
file
file (glow a)
| fault 40 step 0
refused list steps

row plan 6
copy lamps
file
copy two
file
file (light)
| fault 41 step 0
refused list steps

row plan 7
copy lamps
file
copy two
file
file (light c c)
| fault 41 step 0
refused list steps

row plan 8
copy lamps
file
copy two
file
file (light a b)
| fault 41 step 0
refused list steps

row plan 9
copy lamps
file
copy two
file
file (dark a)
| fault 41 step 0
refused list steps

row plan 10
copy lamps
file
copy two
file
file (glow c c)
| fault 40 step 0
refused list steps

row plan 11
copy lamps
file
copy two
file
file (check a)(check b)(light lamp)
| fault 42 step 2
refused list steps

row plan 12
copy lamps
file
copy two
file
file (check a)(light c)(glow)
| fault 42 step 1
refused list steps

row plan 13
copy lamps
file
copy two
file
file 1: (check a) 0: (light)
| fault 41 step 1
refused list steps

row plan 14
copy lamps
file
copy two
file
file (on a)
| fault 40 step 0
refused list steps

row plan 15
copy lamps
file
copy two
file
file (lights a)
| fault 40 step 0
refused list steps

row plan 16
copy lamps
file
copy two
file
file (lamp)
| fault 40 step 0
refused list steps

row plan 17
copy lamps
file
copy two
file
file (dark)(dark)(dark)
| 2
| 2
| 2
good list steps

row an object without a type
copy lamps
file
copy two
change b - big => b - big c
file
file (check a)(light c)
| fault 43 step 1
refused list steps

row an object that fits
copy lamps
change :parameters (?x - lamp) => :parameters (?x - big)
file
copy two
file
file (light b)
| 0 1
good list steps

row an object that does not fit
copy lamps
change :parameters (?x - lamp) => :parameters (?x - big)
file
copy two
file
file (light a)
| fault 43 step 0
refused list steps

row a type is looked at before a cost
copy lamps
change :parameters (?x - lamp) => :parameters (?x - big)
file
copy two
change \s(= (price a) 3)
file
file (light a)
| fault 43 step 0
refused list steps

row a step with a cost
copy lamps
file
copy two
change \s(= (price a) 3)
file
file (light b)
| 0 1
good list steps

row a step without a cost
copy lamps
file
copy two
change \s(= (price a) 3)
file
file (check a)(light b)(light a)(light a)
| fault 44 step 2
refused list steps

row a cost under a quantifier and a condition
copy lamps
change (not (on ?x))))) => (and (not (on ?x)) (increase (total-cost) (price ?x))))))
file
copy two
file
file (light a)(light b)(dark)
| 0 0
| 0 1
| 2
good list steps

row a cost under a quantifier and a condition that has no value
copy lamps
change (not (on ?x))))) => (and (not (on ?x)) (increase (total-cost) (price ?x))))))
file
copy two
change \s(= (price b) 4)
file
file (light a)(dark)
| fault 44 step 1
refused list steps

row a cost without a value where no condition holds
copy lamps
change (not (on ?x))))) => (and (not (on ?x)) (increase (total-cost) (price ?x))))))
file
copy two
change \s(= (price b) 4)
file
file (dark)
| fault 44 step 0
refused list steps

row a cost under a quantifier over no objects
copy lamps
change (forall (?x - lamp) (when (on ?x) (not (on ?x)))) => (forall (?x - big) (increase (total-cost) (price ?x)))
file
copy two
change \sb - big
change (ok b)\s
change \s(= (price a) 3) (= (price b) 4)
change \s(on b)
file
file (check a)(dark)
| 1 0
| 2
good list steps

row a size is looked at before a cost
copy lamps
change (exists (?x - lamp) (on ?x)) => (forall (?a ?b ?c ?d ?e ?f ?g ?h ?i ?j ?k ?l ?m ?n ?o ?p ?q ?r ?s ?t - lamp) (on ?a))
change (not (on ?x))))) => (and (not (on ?x)) (increase (total-cost) (price ?x))))))
file
copy two
change \s(= (price b) 4)
file
file (light a)(dark)
| fault 46 step 1
refused list steps

row a cost for each two objects
copy lamps
change (forall (?x - lamp) (when (on ?x) (not (on ?x)))) => (forall (?x ?y - lamp) (increase (total-cost) 1))
file
copy two
file
file (light a)(dark)
| 0 0
| 2
good list steps

row a cost under a condition
file (define (domain v) (:predicates (p)) (:functions (total-cost)) (:action pay :effect (when (p) (increase (total-cost) 5))) (:action drop :effect (not (p))))
file (define (problem v1) (:domain v) (:init (p)) (:goal (and)))
file (pay)(drop)(pay)
| 0
| 1
| 0
good list steps

row timed steps
copy lamps
file
copy two
file
file 1.5: (light b) 0: (dark) 0: (check a)
| 0 1 at 1500000000
| 2 at 0
| 1 0 at 0
good list steps

row a plain step
copy lamps
file
copy two
file
file (light b)
| 0 1
good list steps

row a step of 10 atoms
part (define (domain t) (:constants o0) (:predicates (p ?x)) (:action big :precondition\s
copy large
times 10 (p o0)
file )))
file (define (problem q) (:domain t) (:objects o1 o2 o3 o4 o5 o6 o7 o8 o9) (:init) (:goal (and)))
file (big)
| 0
good list steps

row a step of 11 atoms
part (define (domain t) (:constants o0) (:predicates (p ?x)) (:action big :precondition\s
copy large
times 11 (p o0)
file )))
file (define (problem q) (:domain t) (:objects o1 o2 o3 o4 o5 o6 o7 o8 o9) (:init) (:goal (and)))
file (big)
| fault 46 step 0
refused list steps

row as many steps as may be
copy lamps
file
copy two
file
times 1000000 (check a)
file
times 1000000 1 0\n
once good list steps

row one step more
copy lamps
file
copy two
file
times 1000000 (check a)
file (glow)
| fault 45
once refused list steps

row four steps whose growths are refused
growths 3
copy lamps
file
copy two
file
file (check a)(light a)(light b)(dark)
| 1 0
| 0 0
| 0 1
| 2
good list steps
";
