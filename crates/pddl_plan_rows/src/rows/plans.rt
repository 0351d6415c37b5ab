//! Valid and invalid plans.

pub static PLANS: &[u8] = br"row no steps, and a goal to be reached
copy lamps
file
copy two
file
file
| invalid: goal is false
invalid plan

row no steps, and no goal
copy lamps
file
copy two
change (and (on a) (on b)) => (and)
file
file
| valid: 0 steps in 0 happenings, total-cost 0
good plan

row two steps, one after the other
growths 40
copy lamps
file
copy two
file
| (LIGHT A)
| ; cost = 7
| (light b)
file
| valid: 2 steps in 2 happenings, total-cost 7
good plan

row an object of a type below one of a parameter's either of many types
part (define (domain d) (:types u - t7
series 20  t#0
part ) (:predicates (p ?x)) (:action see :parameters (?x - (either
series 20  t#0
file )) :effect (p ?x)))
file (define (problem p) (:domain d) (:objects a - u) (:init) (:goal (p a)))
file (see a)
| valid: 1 steps in 1 happenings, total-cost 0
good plan

row two steps at one moment
growths 40
copy lamps
file
copy two
file
| 0: (light a)
| 0.000: (light b)
file
| valid: 2 steps in 1 happenings, total-cost 7
good plan

row happenings are not in file order
copy lamps
file
copy two
file
| 2: (light b)
| 1: (light a)
file
| valid: 2 steps in 2 happenings, total-cost 7
good plan

row the other order
copy lamps
file
copy two
file
| (light b)
| (light a)
file
| valid: 2 steps in 2 happenings, total-cost 7
good plan

row equal steps at one moment
copy lamps
file
copy two
change (and (on a) (on b)) => (ok a)
file
| 1: (check a)
| 1: (check a)
file
| valid: 2 steps in 1 happenings, total-cost 0
good plan

row a step adds what another reads
copy lamps
file
copy two
change (and (on a) (on b)) => (on a)
file
| 1: (check a)
| 1: (light a)
file
| invalid: happening 1, steps 1 and 2 interfere on (ok a)
invalid plan

row a quantifier reads, and so does a condition that does not fire
growths 40
copy lamps
file
copy two
file
| 1: (light a)
| 2: (light b)
| 2: (dark)
file
| invalid: happening 2, steps 2 and 3 interfere on (on b)
invalid plan

row a lamp is lit twice
copy lamps
file
copy two
file
| (light a)
| (light a)
file
| invalid: happening 2, step 2: precondition is false
invalid plan

row preconditions come before interference
copy lamps
file
copy two
file
| 1: (check a)
| 1: (light a)
| 1: (dark)
file
| invalid: happening 1, step 3: precondition is false
invalid plan

row each of no objects
copy lamps
file
copy two
change \sb - big
change \s(ok b)
change \s(= (price b) 4)
change (and (on a) (on b)) => (forall (?x - big) (on ?x))
file
file
| valid: 0 steps in 0 happenings, total-cost 0
good plan

row some of no objects
copy lamps
file
copy two
change \sb - big
change \s(ok b)
change \s(= (price b) 4)
change (and (on a) (on b)) => (exists (?x - big) (ok ?x))
file
file
| invalid: goal is false
invalid plan

row a step deletes and adds an atom
growths 20
copy flips
file
copy flipped
file
| (flip)
file
| valid: 1 steps in 1 happenings, total-cost 0
good plan

row a step adds what another deletes
growths 20
copy flips
file
copy flipped
file
| 1: (flip)
| 1: (drop)
file
| invalid: happening 1, steps 1 and 2 interfere on (p)
invalid plan

row the first of two pairs
copy lamps
file
copy two
file
| 1: (light a)
| 1: (light b)
| 1: (check b)
| 1: (check a)
file
| invalid: happening 1, steps 1 and 4 interfere on (ok a)
invalid plan

row a pair of the first moment
copy lamps
file
copy two
file
| 2: (light b)
| 1: (light a)
| 1: (check a)
file
| invalid: happening 1, steps 2 and 3 interfere on (ok a)
invalid plan

row equal steps that interfere
copy lamps
file
copy two
file
| 1: (light a)
| 1: (light a)
file
| invalid: happening 1, steps 1 and 2 interfere on (on a)
invalid plan

row what no step of a moment reads or changes is free
copy lamps
file
copy two
change (and (on a) (on b)) => (and)
file
| 1: (light a)
| 2: (dark)
| 2: (check b)
file
| valid: 3 steps in 2 happenings, total-cost 3
good plan

row a moment's preconditions are looked at before it
copy lamps
file
copy two
change (and (on a) (on b)) => (and)
file
| 1: (light a)
| 1: (dark)
file
| invalid: happening 1, step 2: precondition is false
invalid plan

row steps that reach half of the goal
copy lamps
file
copy two
file
| (light a)
file
| invalid: goal is false
invalid plan

row a later moment stands first
copy lamps
file
copy two
change (and (on a) (on b)) => (and)
file
| 2: (dark)
| 1: (light a)
file
| valid: 2 steps in 2 happenings, total-cost 3
good plan

row the same steps without moments
copy lamps
file
copy two
change (and (on a) (on b)) => (and)
file
| (dark)
| (light a)
file
| invalid: happening 1, step 1: precondition is false
invalid plan

row the second happening has the first step
copy lamps
file
copy two
file
| 3: (light a)
| 1: (light a)
file
| invalid: happening 2, step 1: precondition is false
invalid plan

row each of two steps deletes what the other reads
copy lamps
file
copy two
change (and (on a) (on b)) => (and)
file
| 1: (light a)
| 2: (dark)
| 2: (dark)
file
| invalid: happening 2, steps 2 and 3 interfere on (on a)
invalid plan

row an atom of two objects
part (define (domain m) (:predicates (at ?x ?p)) (:action put :parameters (?x ?p) :effect (at ?x ?p))
file \s(:action take :parameters (?x ?p) :effect (not (at ?x ?p))))
file (define (problem m1) (:domain m) (:objects a b) (:init) (:goal (at b a)))
| 0.5: (put b a)
| 0.5: (take a b)
| 0.50: (put a b)
file
| invalid: happening 1, steps 2 and 3 interfere on (at a b)
invalid plan

row both add one atom, or both delete it
part (define (domain m) (:predicates (at ?x ?p)) (:action put :parameters (?x ?p) :effect (at ?x ?p))
file \s(:action take :parameters (?x ?p) :effect (not (at ?x ?p))))
file (define (problem m1) (:domain m) (:objects a b) (:init) (:goal (at b a)))
| 0.5: (put b a)
| 0.5: (take a b)
| 0.5: (put b a)
| 0.50: (take a b)
file
| valid: 4 steps in 1 happenings, total-cost 0
good plan

row the least atom of four, by predicates as declared and objects in order
part (define (domain n) (:predicates (q ?x) (p ?x)) (:action fill :effect (forall (?x) (and (p ?x) (q ?x))))
file \s(:action clear :effect (forall (?x) (and (not (p ?x)) (not (q ?x))))))
file (define (problem n1) (:domain n) (:objects b a) (:init) (:goal (and)))
| 1: (clear)
| 1: (fill)
file
| invalid: happening 1, steps 1 and 2 interfere on (q b)
invalid plan

row a cost under a condition, for each lamp that is on
copy lamps
change (not (on ?x))))) => (and (not (on ?x)) (increase (total-cost) (price ?x))))))
file
copy two
change (and (on a) (on b)) => (and)
file
| (light a)
| (light b)
| (dark)
file
| valid: 3 steps in 3 happenings, total-cost 14
good plan

row a cost under a condition, for one lamp
copy lamps
change (not (on ?x))))) => (and (not (on ?x)) (increase (total-cost) (price ?x))))))
file
copy two
change (and (on a) (on b)) => (and)
file
| 1: (light a)
| 2: (dark)
| 2: (check b)
file
| valid: 3 steps in 2 happenings, total-cost 6
good plan

row the same steps one after another
copy lamps
change (not (on ?x))))) => (and (not (on ?x)) (increase (total-cost) (price ?x))))))
file
copy two
change (and (on a) (on b)) => (and)
file
| (light a)
| (check b)
| (dark)
file
| valid: 3 steps in 3 happenings, total-cost 6
good plan

row a cost for each two lamps
copy lamps
change (forall (?x - lamp) (when (on ?x) (not (on ?x)))) => (forall (?x ?y - lamp) (increase (total-cost) 1))
file
copy two
change (and (on a) (on b)) => (and)
file
| (light a)
| (dark)
file
| valid: 2 steps in 2 happenings, total-cost 7
good plan

row what is paid while a fact holds
part (define (domain v) (:predicates (p)) (:functions (total-cost)) (:action pay :effect (when (p) (increase (total-cost) 5)))
file \s(:action drop :effect (not (p))))
file (define (problem v1) (:domain v) (:init (p)) (:goal (and)))
| (pay)
| (drop)
| (pay)
file
| valid: 3 steps in 3 happenings, total-cost 5
good plan

row what is paid is read
part (define (domain v) (:predicates (p)) (:functions (total-cost)) (:action pay :effect (when (p) (increase (total-cost) 5)))
file \s(:action drop :effect (not (p))))
file (define (problem v1) (:domain v) (:init (p)) (:goal (and)))
| 1: (pay)
| 1: (drop)
file
| invalid: happening 1, steps 1 and 2 interfere on (p)
invalid plan

row seventy lamps at one moment
copy lamps
file
part (define (problem seventy) (:domain lamps) (:objects
series 70  o#0
part \s- lamp) (:init
series 70  (ok o#0) (= (price o#0) 1)
file ) (:goal (forall (?x - lamp) (on ?x))))
| 1: (light o69) 1: (light o68) 1: (light o67) 1: (light o66) 1: (light o65) 1: (light o64) 1: (light o63)
| 1: (light o62) 1: (light o61) 1: (light o60) 1: (light o59) 1: (light o58) 1: (light o57) 1: (light o56)
| 1: (light o55) 1: (light o54) 1: (light o53) 1: (light o52) 1: (light o51) 1: (light o50) 1: (light o49)
| 1: (light o48) 1: (light o47) 1: (light o46) 1: (light o45) 1: (light o44) 1: (light o43) 1: (light o42)
| 1: (light o41) 1: (light o40) 1: (light o39) 1: (light o38) 1: (light o37) 1: (light o36) 1: (light o35)
| 1: (light o34) 1: (light o33) 1: (light o32) 1: (light o31) 1: (light o30) 1: (light o29) 1: (light o28)
| 1: (light o27) 1: (light o26) 1: (light o25) 1: (light o24) 1: (light o23) 1: (light o22) 1: (light o21)
| 1: (light o20) 1: (light o19) 1: (light o18) 1: (light o17) 1: (light o16) 1: (light o15) 1: (light o14)
| 1: (light o13) 1: (light o12) 1: (light o11) 1: (light o10) 1: (light o9) 1: (light o8) 1: (light o7)
| 1: (light o6) 1: (light o5) 1: (light o4) 1: (light o3) 1: (light o2) 1: (light o1) 1: (light o0)
file
| valid: 70 steps in 1 happenings, total-cost 70
good plan

row seventy lamps, and the first is checked
copy lamps
file
part (define (problem seventy) (:domain lamps) (:objects
series 70  o#0
part \s- lamp) (:init
series 70  (ok o#0) (= (price o#0) 1)
file ) (:goal (forall (?x - lamp) (on ?x))))
| 1: (light o69) 1: (light o68) 1: (light o67) 1: (light o66) 1: (light o65) 1: (light o64) 1: (light o63)
| 1: (light o62) 1: (light o61) 1: (light o60) 1: (light o59) 1: (light o58) 1: (light o57) 1: (light o56)
| 1: (light o55) 1: (light o54) 1: (light o53) 1: (light o52) 1: (light o51) 1: (light o50) 1: (light o49)
| 1: (light o48) 1: (light o47) 1: (light o46) 1: (light o45) 1: (light o44) 1: (light o43) 1: (light o42)
| 1: (light o41) 1: (light o40) 1: (light o39) 1: (light o38) 1: (light o37) 1: (light o36) 1: (light o35)
| 1: (light o34) 1: (light o33) 1: (light o32) 1: (light o31) 1: (light o30) 1: (light o29) 1: (light o28)
| 1: (light o27) 1: (light o26) 1: (light o25) 1: (light o24) 1: (light o23) 1: (light o22) 1: (light o21)
| 1: (light o20) 1: (light o19) 1: (light o18) 1: (light o17) 1: (light o16) 1: (light o15) 1: (light o14)
| 1: (light o13) 1: (light o12) 1: (light o11) 1: (light o10) 1: (light o9) 1: (light o8) 1: (light o7)
| 1: (light o6) 1: (light o5) 1: (light o4) 1: (light o3) 1: (light o2) 1: (light o1) 1: (light o0)
| 1: (check o69)
file
| invalid: happening 1, steps 1 and 71 interfere on (ok o69)
invalid plan

row a precondition as large as may be
part (define (domain t) (:constants o0) (:predicates (p ?x)) (:action big :precondition\s
copy large
times 10 (p o0)
file )))
file (define (problem q) (:domain t) (:objects o1 o2 o3 o4 o5 o6 o7 o8 o9) (:init) (:goal (and)))
file (big)
| invalid: happening 1, step 1: precondition is false
invalid plan

row as many steps as may be
copy lamps
file
copy two
change (and (on a) (on b)) => (ok a)
file
times 1000000 (check a)
file
| valid: 1000000 steps in 1000000 happenings, total-cost 0
once good plan

row blanks alone, as many as may be
copy lamps
file
copy two
change (and (on a) (on b)) => (and)
file
times 16777216 \s
file
| valid: 0 steps in 0 happenings, total-cost 0
once good plan

# No quantifier looks at each object.
row many quantifiers over a type that has one object of many
part (define (domain d) (:types t u) (:predicates (done)) (:action s :effect (and
times 20000  (forall (?x - t) (done))
file )))
part (define (problem p) (:domain d) (:objects o - t
series 200000  l#0
file  - u) (:init) (:goal (done)))
file (s)
| valid: 1 steps in 1 happenings, total-cost 0
once good plan

# No name is looked at once for each of its objects.
row a long name of an action with many objects
part (define (domain d) (:predicates (done)) (:action\s
times 400000 n
part  :parameters (
series 100000  ?v#0
part ) :effect (done)) (:action\s
times 399999 n
part  :parameters (
series 100000  ?v#0
file ) :effect (done)))
file (define (problem p) (:domain d) (:objects a) (:init) (:goal (done)))
part (
times 400000 n
times 100000  a
part ) (
times 399999 n
times 100000  a
file )
| valid: 2 steps in 2 happenings, total-cost 0
once good plan

row a step of seven objects, at the cost of a function of these
part (define (domain d) (:predicates (q ?a ?b ?c ?d ?e ?f ?g)) (:functions (total-cost) (h ?a ?b ?c ?d ?e ?f ?g))
part  (:action n :parameters (?a ?b ?c ?d ?e ?f ?g) :precondition (q ?a ?b ?c ?d ?e ?f ?g)
part  :effect (and (not (q ?a ?b ?c ?d ?e ?f ?g)) (q ?g ?f ?e ?d ?c ?b ?a) (increase (total-cost) (h ?a ?b ?c ?d ?e ?f ?g))))
file )
part (define (problem p) (:domain d) (:objects a b c d e f g) (:init (q a b c d e f g)
part  (= (h g f e d c b a) 7) (= (h a b c d e f g) 5)
file ) (:goal (q g f e d c b a)) (:metric minimize (total-cost)))
file (n a b c d e f g)
| valid: 1 steps in 1 happenings, total-cost 5
good plan
";
