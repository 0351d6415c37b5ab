//! Steps whose quantifiers have variables of several types: some that no object fits, one object, or more.

pub static QUANTIFIERS: &[u8] =
    br"part (define (domain q) (:types a b c) (:predicates (p ?x ?y)) (:action look :precondition (and) :effect (and))
part \s(:action join :parameters (?x - a) :effect (p ?x ?x)) (:action cut :parameters (?x - a ?y - b) :effect (not (p ?x ?y)))
part \s(:action spread :effect (forall (?x ?y - a ?z - b) (when (p ?x ?z) (p ?y ?x)))))
keep pairs

# Two objects are an a, one is a b, and none is a c.
part (define (problem three) (:domain q) (:objects o u - a v - b) (:init (p o v) (p u v)) (:goal (and)))
keep three

row all of two and of one
copy pairs
change (:action look :precondition (and) => (:action look :precondition (forall (?x - a ?y - b) (p ?x ?y))
file
copy three
file
file (look)
| valid: 1 steps in 1 happenings, total-cost 0
good plan

row not all of two and of two
copy pairs
change (:action look :precondition (and) => (:action look :precondition (forall (?x ?y - a) (p ?x ?y))
file
copy three
file
file (look)
| invalid: happening 1, step 1: precondition is false
invalid plan

row none of two and of one
copy pairs
change (:action look :precondition (and) => (:action look :precondition (exists (?x - a ?y - b) (not (p ?x ?y)))
file
copy three
file
file (look)
| invalid: happening 1, step 1: precondition is false
invalid plan

row all where no object fits the first variable
copy pairs
change (:action look :precondition (and) => (:action look :precondition (forall (?z - c ?x ?y - a) (p ?x ?y))
file
copy three
file
file (look)
| valid: 1 steps in 1 happenings, total-cost 0
good plan

row all where no object fits the last variable
copy pairs
change (:action look :precondition (and) => (:action look :precondition (forall (?x ?y - a ?z - c) (p ?x ?y))
file
copy three
file
file (look)
| valid: 1 steps in 1 happenings, total-cost 0
good plan

row none where no object fits the last variable
copy pairs
change (:action look :precondition (and) => (:action look :precondition (exists (?x - a ?y - b ?z - c) (p ?x ?y))
file
copy three
file
file (look)
| invalid: happening 1, step 1: precondition is false
invalid plan

row one of two, of one and of two
copy pairs
change (:action look :precondition (and) => (:action look :precondition (exists (?x - a ?y - b ?w - a) (and (p ?x ?y) (not (p ?w ?w))))
file
copy three
file
file (look)
| valid: 1 steps in 1 happenings, total-cost 0
good plan

row an inner variable hides an outer one of the same name
copy pairs
change (:action look :precondition (and) => (:action look :precondition (forall (?x - a) (exists (?x - b ?y - a) (p ?y ?x)))
file
copy three
file
file (look)
| valid: 1 steps in 1 happenings, total-cost 0
good plan

row an outer variable is seen again behind a quantifier that hides it
copy pairs
change (:action look :precondition (and) => (:action look :precondition (forall (?x - a) (and (exists (?x - b) (not (p ?x ?x))) (exists (?y - b) (p ?x ?y))))
file
copy three
file
file (look)
| valid: 1 steps in 1 happenings, total-cost 0
good plan

row a variable that is hidden twice
copy pairs
change (:action look :precondition (and) => (:action look :precondition (forall (?x - a) (forall (?x - b) (exists (?x - a) (p ?x ?x))))
file
copy three
file
file (look)
| invalid: happening 1, step 1: precondition is false
invalid plan

row a quantifier reads each pair of its variables
copy pairs
change (:action look :precondition (and) => (:action look :precondition (exists (?x ?y - a) (not (p ?x ?y)))
file
copy three
file
| 1: (look)
| 1: (join u)
file
| invalid: happening 1, steps 1 and 2 interfere on (p u u)
invalid plan

row a quantifier of one object reads it
copy pairs
change (:action look :precondition (and) => (:action look :precondition (exists (?x - a ?y - b) (p ?x ?y))
file
copy three
file
| 1: (look)
| 1: (cut o v)
file
| invalid: happening 1, steps 1 and 2 interfere on (p o v)
invalid plan

row a quantifier reads nothing where no object fits its first variable
copy pairs
change (:action look :precondition (and) => (:action look :precondition (forall (?z - c ?x - a ?y - b) (not (p ?x ?y)))
file
copy three
file
| 1: (look)
| 1: (cut o v)
file
| valid: 2 steps in 1 happenings, total-cost 0
good plan

row a quantifier reads nothing where no object fits its last variable
copy pairs
change (:action look :precondition (and) => (:action look :precondition (forall (?x - a ?y - b ?z - c) (not (p ?x ?y)))
file
copy three
file
| 1: (look)
| 1: (cut o v)
file
| valid: 2 steps in 1 happenings, total-cost 0
good plan

row an effect for each of two, of two and of one
copy pairs
file
copy three
change (:goal (and)) => (:goal (forall (?x ?y - a) (p ?x ?y)))
file
file (spread)
| valid: 1 steps in 1 happenings, total-cost 0
good plan

row an effect for those of them whose condition is true
copy pairs
file
copy three
change (p o v) (p u v) => (p o v)
change (:goal (and)) => (:goal (forall (?x ?y - a) (p ?x ?y)))
file
file (spread)
| invalid: goal is false
invalid plan

row an effect for one of two, of two and of one
copy pairs
file
copy three
change (p o v) (p u v) => (p o v)
change (:goal (and)) => (:goal (and (p o o) (p u o) (not (p o u)) (not (p u u))))
file
file (spread)
| valid: 1 steps in 1 happenings, total-cost 0
good plan

row the condition of an effect for each reads also where it is false
copy pairs
file
copy three
change (p o v) (p u v) => (p o v)
file
| 1: (spread)
| 1: (cut u v)
file
| invalid: happening 1, steps 1 and 2 interfere on (p u v)
invalid plan
";
