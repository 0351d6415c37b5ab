//! What `problem` prints for the problem of two lamps with another part.

pub static CHANGED_PROBLEMS: &[u8] = br"row without a fault 1
copy lamps
file
copy two
change (ok b) => (ok b) (ok b) (not (on a))
file
| good: problem two
good problem

row without a fault 2
copy lamps
file
copy two
change (= (price b) 4) => (= (price b) 4) (= (price a) 3.0)
file
| good: problem two
good problem

row without a fault 3
copy lamps
file
copy two
change (= (price b) 4) => (= (price b) 4) (= total-cost 0)
file
| good: problem two
good problem

row without a fault 4
copy lamps
file
copy two
change (:metric minimize (total-cost)) => (:metric minimize total-cost)
file
| good: problem two
good problem

row without a fault 5
copy lamps
file
copy two
change (:metric minimize (total-cost))
file
| good: problem two
good problem

row without a fault 6
copy lamps
file
copy two
change (and (on a) (on b)) => (exists (?x - (either lamp big)) (on ?x))
file
| good: problem two
good problem

row without a fault 7
copy lamps
file
copy two
change a - lamp b - big => a - lamp b - big a - lamp
file
| good: problem two
good problem

row declarations 1
copy lamps
file
copy two
change lamps => lamp
file
| link: fault 20 DomainName lamp
refused problem

row declarations 2
copy lamps
file
copy two
change (:domain lamps)\n  (:objects a - lamp => (:domain LAMP)\n  (:objects a - huge
file
| link: fault 20 DomainName lamp
refused problem

row declarations 3
copy lamps
file
copy two
change b - big => b - huge
file
| link: fault 23 UnknownType huge
refused problem

row declarations 4
copy lamps
file
copy two
change b - big => b - (either big huge)
file
| link: fault 23 UnknownType huge
refused problem

row declarations 5
copy lamps
file
copy two
change (and (on a) (on b)) => (exists (?x - huge) (on ?x))
file
| link: fault 23 UnknownType huge
refused problem

row declarations 6
copy lamps
file
copy two
change (and (on a) (on b)) => (not (forall (?y ?x - huge) (on ?x)))
file
| link: fault 23 UnknownType huge
refused problem

row declarations 7
copy lamps
file
copy two
change b - big => b - big a - big
file
| link: fault 24 NameTwice a
refused problem

row declarations 8
copy lamps
file
copy two
change b - big => b - big a - (either lamp big)
file
| link: fault 24 NameTwice a
refused problem

row declarations 9
copy lamps
file
copy two
change (and (on a) (on b)) => (exists (?x ?x - lamp) (on ?x))
file
| link: fault 24 NameTwice x
refused problem

row declarations 10
copy lamps
file
copy two
change (and (on a) (on b)) => (and (on c) (forall (?x - lamp ?y ?x - lamp) (on ?x)))
file
| link: fault 24 NameTwice x
refused problem

row declarations 11
copy lamps
file
copy two
change b - big => b - (either lamp big)
file
| link: fault 25 ObjectTypes b
refused problem

row names 1
copy lamps
file
copy two
change (and (on a) (on b)) => (on c)
file
| link: fault 26 UnknownName c
refused problem

row names 2
copy lamps
file
copy two
change (and (on a) (on b)) => (lit a)
file
| link: fault 26 UnknownName lit
refused problem

row names 3
copy lamps
file
copy two
change (and (on a) (on b)) => (imply (on a) (lit c))
file
| link: fault 26 UnknownName lit
refused problem

row names 4
copy lamps
file
copy two
change (and (on a) (on b)) => (on ?x)
file
| link: fault 26 UnknownName x
refused problem

row names 5
copy lamps
file
copy two
change (and (on a) (on b)) => (or (exists (?x - lamp) (on ?x)) (on ?x))
file
| link: fault 26 UnknownName x
refused problem

row names 6
copy lamps
file
copy two
change (and (on a) (on b)) => (= a c)
file
| link: fault 26 UnknownName c
refused problem

row names 7
copy lamps
file
copy two
change (ok b) => (lit b)
file
| link: fault 26 UnknownName lit
refused problem

row names 8
copy lamps
file
copy two
change (ok b) => (not (lit b))
file
| link: fault 26 UnknownName lit
refused problem

row names 9
copy lamps
file
copy two
change (ok b) => (ok c)
file
| link: fault 26 UnknownName c
refused problem

row names 10
copy lamps
file
copy two
change (ok b) => (not (ok c))
file
| link: fault 26 UnknownName c
refused problem

row names 11
copy lamps
file
copy two
change (price b) => (fee b)
file
| link: fault 26 UnknownName fee
refused problem

row names 12
copy lamps
file
copy two
change (price b) => fee
file
| link: fault 26 UnknownName fee
refused problem

row names 13
copy lamps
file
copy two
change (price b) => (price c)
file
| link: fault 26 UnknownName c
refused problem

row names 14
copy lamps
file
copy two
change (price b) => (ok b)
file
| link: fault 26 UnknownName ok
refused problem

row names 15
copy lamps
file
copy two
change b - big => b abcdefghijklmnopqrstuv abcdefghijklmnopqrstuw - big
change (ok b) => (ok ABCDEFGHIJKLMNOPQRSTUV) (ok abcdefghijklmnopqrstuw)
file
| good: problem two
good problem

row names 16
copy lamps
file
copy two
change b - big => b abcdefghijklmnopqrstuvw abcdefghijklmnopqrstuvx - big
change (ok b) => (ok abcdefghijklmnopqrstuvW) (ok abcdefghijklmnopqrstuvx)
file
| good: problem two
good problem

row names 17
copy lamps
file
copy two
change b - big => b abcdefghijklmnopqrstuv - big
change (ok b) => (ok abcdefghijklmnopqrstux)
file
| link: fault 26 UnknownName abcdefghijklmnopqrstux
refused problem

row names 18
copy lamps
file
copy two
change b - big => b abcdefghijklmnopqrstuv - big
change (ok b) => (ok abcdefghijklmnopqrstuvw)
file
| link: fault 26 UnknownName abcdefghijklmnopqrstuvw
refused problem

row names 19
copy lamps
file
copy two
change b - big => b abcdefghijklmnopqrstuvw - big
change (ok b) => (ok abcdefghijklmnopqrstuv)
file
| link: fault 26 UnknownName abcdefghijklmnopqrstuv
refused problem

row names 20
copy lamps
file
copy two
change b - big => b abcdefghijklmnopqrstuvw - big abcdefghijklmnopqrstuvw - lamp
file
| link: fault 24 NameTwice abcdefghijklmnopqrstuvw
refused problem

row arities 1
copy lamps
file
copy two
change (and (on a) (on b)) => (on)
file
| link: fault 27 Arity on
refused problem

row arities 2
copy lamps
file
copy two
change (and (on a) (on b)) => (exists (?x - lamp) (on ?x ?x))
file
| link: fault 27 Arity on
refused problem

row arities 3
copy lamps
file
copy two
change (ok b) => (ok a b)
file
| link: fault 27 Arity ok
refused problem

row arities 4
copy lamps
file
copy two
change (ok b) => (not (ok))
file
| link: fault 27 Arity ok
refused problem

row arities 5
copy lamps
file
copy two
change (price b) => (price)
file
| link: fault 27 Arity price
refused problem

row arities 6
copy lamps
file
copy two
change (price b) => price
file
| link: fault 27 Arity price
refused problem

row arities 7
copy lamps
file
copy two
change (= (price b) 4) => (= (total-cost b) 0)
file
| link: fault 27 Arity total-cost
refused problem

row values 1
copy lamps
file
copy two
change (ok b) => (ok b) (not (ok a))
file
| link: fault 29 InitContradiction ok
refused problem

row values 2
copy lamps
file
copy two
change (ok b) => (ok b) (not (on b)) (on a) (on b)
file
| link: fault 29 InitContradiction on
refused problem

row values 3
copy lamps
file
copy two
change (ok b) => (not (on a)) (not (ok a)) (on a)
file
| link: fault 29 InitContradiction ok
refused problem

row values 4
copy lamps
file
copy two
change (= (price b) 4) => (= (price b) 4) (= (price a) 2.5)
file
| link: fault 30 FractionalCost price
refused problem

row values 5
copy lamps
file
copy two
change (price b) 4 => (price b) 0.000000001
file
| link: fault 30 FractionalCost price
refused problem

row values 6
copy lamps
file
copy two
change (= (price b) 4) => (= total-cost 0.5) (= (price b) 1.5)
file
| link: fault 30 FractionalCost total-cost
refused problem

row values 7
copy lamps
file
copy two
change (= (price b) 4) => (= (price b) 4) (= (price a) 5)
file
| link: fault 31 CostValue price
refused problem

row values 8
copy lamps
file
copy two
change (= (price b) 4) => (= total-cost 0) (= (price a) 4)
file
| link: fault 31 CostValue price
refused problem

row values 9
copy lamps
file
copy two
change (= (price b) 4) => (= total-cost 2)
file
| link: fault 31 CostValue total-cost
refused problem

row values 10
copy lamps
file
copy two
change (= (price b) 4) => (= (total-cost) 2) (= (price a) 5)
file
| link: fault 31 CostValue total-cost
refused problem

row values 11
copy lamps
file
copy two
change (= (price b) 4) => (= (price a) 5) (= (total-cost) 2)
file
| link: fault 31 CostValue price
refused problem

row metrics 1
copy lamps
file
copy two
change minimize => maximize
file
| link: fault 33 Metric
refused problem

row metrics 2
copy lamps
file
copy two
change minimize (total-cost) => minimize (price a)
file
| link: fault 33 Metric
refused problem

row metrics 3
copy lamps
file
copy two
change minimize (total-cost) => minimize (total-cost a)
file
| link: fault 33 Metric
refused problem

row metrics 4
copy lamps
file
copy two
change minimize (total-cost) => maximize (fee c)
file
| link: fault 33 Metric
refused problem

row the lowest of two faults
copy lamps
file
copy two
change minimize => maximize
change lamps => lamp
file
| link: fault 20 DomainName lamp
refused problem

row types that go round
copy lamps
change (:types lamp - object big - lamp) => (:TYPES lamp big - lamp)
file
copy two
file
| link: fault 22 TypeCycle lamp
refused problem

row types in another order
copy lamps
change (:types lamp - object big - lamp) => (:TYPES big - lamp lamp)
file
copy two
file
| good: problem two
good problem
";
