//! Texts that rows of each subject may copy: files that are each their own canonical text, and parts of others.

pub static SAMPLES: &str = r"# Lamps that are lit at a cost, checked, and put out all at once.
| (define (domain lamps)
|   (:requirements :adl :action-costs)
|   (:types lamp - object big - lamp)
|   (:predicates (on ?x - lamp) (ok ?x - lamp))
|   (:functions (total-cost) - number (price ?x - lamp) - number)
|   (:action light
|     :parameters (?x - lamp)
|     :precondition (and (not (on ?x)) (ok ?x))
|     :effect (and (on ?x) (increase (total-cost) (price ?x))))
|   (:action check
|     :parameters (?x - lamp)
|     :precondition (and)
|     :effect (ok ?x))
|   (:action dark
|     :parameters ()
|     :precondition (exists (?x - lamp) (on ?x))
|     :effect (forall (?x - lamp) (when (on ?x) (not (on ?x)))))
| )
keep lamps

# A small lamp and a big one, both to be lit.
| (define (problem two)
|   (:domain lamps)
|   (:objects a - lamp b - big)
|   (:init (ok a) (ok b) (= (price a) 3) (= (price b) 4))
|   (:goal (and (on a) (on b)))
|   (:metric minimize (total-cost))
| )
keep two

# A fact that one action gives and takes at once, and another takes.
| (define (domain w)
|   (:predicates (p))
|   (:action flip
|     :parameters ()
|     :precondition (and)
|     :effect (and (not (p)) (p)))
|   (:action drop
|     :parameters ()
|     :precondition (and)
|     :effect (not (p)))
| )
keep flips

# The fact holds, and shall hold.
| (define (problem w1)
|   (:domain w)
|   (:init (p))
|   (:goal (p))
| )
keep flipped

# An action that does nothing.
| (define (domain d)
|   (:action n
|     :parameters (?x - lamp)
|     :precondition (and)
|     :effect (and))
| )
keep idle

# A problem that adds no fault to a domain with the name d.
part (define (problem p) (:domain d) (:init) (:goal (and)))
keep bare

# Quantifiers and an atom too few for a condition of size 1,000,000: with ten objects, and an atom of one variable in each, the
# quantifiers have the sizes 21, 211, 2,111, 21,111 and 211,111. With eleven atoms (p o0) and a closing parenthesis the size
# is 1,000,000.
part (and
times 8 (forall (?a) (p ?a))
times 6 (forall (?a ?b) (p ?a))
times 3 (forall (?a ?b ?c) (p ?a))
times 7 (forall (?a ?b ?c ?d) (p ?a))
times 4 (forall (?a ?b ?c ?d ?e) (p ?a))
keep large
";
