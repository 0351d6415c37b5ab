//! Faults of costs and functions, of a domain alone and with a problem that adds none.

pub static COSTS: &[u8] = br"row costs 1
file (define (domain d) (:functions (total-cost)) (:action n :effect (increase total-cost 1.5)))
| link: fault 30 FractionalCost total-cost
refused domain
copy bare
file
| link: fault 30 FractionalCost total-cost
refused problem

row costs 2
file (define (domain d) (:functions (total-cost)) (:action n :effect (and (increase total-cost 0.000000001))))
| link: fault 30 FractionalCost total-cost
refused domain
copy bare
file
| link: fault 30 FractionalCost total-cost
refused problem

row costs 3
file (define (domain d) (:functions (total-cost)) (:action n :effect (when (and) (increase total-cost 0.5))))
| link: fault 30 FractionalCost total-cost
refused domain
copy bare
file
| link: fault 30 FractionalCost total-cost
refused problem

row costs 4
file (define (domain d) (:functions (f) - object))
| link: fault 32 ObjectFluent f
refused domain
copy bare
file
| link: fault 32 ObjectFluent f
refused problem

row costs 5
file (define (domain d) (:functions (e) - number (f) (g) - lamp))
| link: fault 32 ObjectFluent f
refused domain
copy bare
file
| link: fault 32 ObjectFluent f
refused problem

row costs 6
file (define (domain d) (:functions (total-cost) - object) (:action n :effect (forall (?x) (increase total-cost 1))))
| link: fault 32 ObjectFluent total-cost
refused domain
copy bare
file
| link: fault 32 ObjectFluent total-cost
refused problem

row costs 7
file (define (domain d) (:functions (total-cost)) (:action n :effect (forall (?x) (increase total-cost 1))))
| good: domain d
good domain
copy bare
file
| good: problem p
good problem

row costs 8
file (define (domain d) (:functions (total-cost)) (:action n :effect (forall () (increase total-cost 1))))
| good: domain d
good domain
copy bare
file
| good: problem p
good problem

row costs 9
file (define (domain d) (:functions (total-cost)) (:action n :effect (when (and) (increase total-cost 1))))
| good: domain d
good domain
copy bare
file
| good: problem p
good problem

row costs 10
file (define (domain d) (:functions (total-cost)) (:action n :effect (and (when (and) (and (increase total-cost 1))))))
| good: domain d
good domain
copy bare
file
| good: problem p
good problem

row costs 11
file (define (domain d) (:functions (total-cost)) (:action m :effect (increase total-cost 1)) (:action n :effect (forall (?x) (when (and) (increase total-cost 1)))))
| good: domain d
good domain
copy bare
file
| good: problem p
good problem
";
