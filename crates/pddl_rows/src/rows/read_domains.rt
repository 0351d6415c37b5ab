//! Domains as they are read: their parts, or the number, the word and the span of the fault.

pub static READ_DOMAINS: &[u8] = br"row head 1
file
| fault 10 0..0
refused list domain

row head 2
file ; nothing
| fault 10 0..0
refused list domain

row head 3
file (define (problem p))
| fault 10 0..20
refused list domain

row head 4
file (define (domain d)) x
| fault 10 20..21
refused list domain

row head 5
file (define (domain d)) (define (domain e))
| fault 10 20..39
refused list domain

row head 6
file define
| fault 10 0..6
refused list domain

row head 7
file ()
| fault 10 0..2
refused list domain

row head 8
file (domain d)
| fault 10 0..10
refused list domain

row head 9
file (define)
| fault 10 0..8
refused list domain

row head 10
file (define domain d)
| fault 10 0..17
refused list domain

row head 11
file (define (domain))
| fault 10 0..17
refused list domain

row head 12
file (define (domain a b))
| fault 10 0..21
refused list domain

row head 13
file (define (domain ?d))
| fault 10 0..20
refused list domain

row head 14
file ((define) (domain d))
| fault 10 0..21
refused list domain

row head 15
file   x (define (domain d))
| fault 10 2..3
refused list domain

row section 1
file (define (domain d) (:action n :parameters (?x- lamp)))
| fault 11 19..53
refused list domain

row section 2
file (define (domain d) (:action n :precondition (preference p1 (on ?x))))
| fault 12 preference 44..67
refused list domain

row section 3
file (define (domain d) (:predicates (p)) (:predicates (q)))
| fault 13 :predicates 37..54
refused list domain

row section 4
file (define (domain d) (:predicates (p)) (:predicates x))
| fault 13 :predicates 37..52
refused list domain

row section 5
file (define (domain d) (:action n :effect (assign ?x) :precondition (preference p (q))))
| fault 12 assign 38..49
refused list domain

row section 6
file (define (domain d) (:derived (p) (q)))
| fault 12 :derived 19..37
refused list domain

row section 7
file (define (domain d) x)
| fault 11 19..20
refused list domain

row section 8
file (define (domain d) ())
| fault 11 19..21
refused list domain

row section 9
file (define (domain d) (p))
| fault 11 19..22
refused list domain

row section 10
file (define (domain d) (:objects a))
| fault 11 19..31
refused list domain

row section 11
file (define (domain d) (:requirements adl))
| fault 11 19..38
refused list domain

row section 12
file (define (domain d) (:types either))
| fault 11 19..34
refused list domain

row section 13
file (define (domain d) (:types a - either))
| fault 11 19..38
refused list domain

row section 14
file (define (domain d) (:types a - (either b c)))
| fault 12 either 31..43
refused list domain

row section 15
file (define (domain d) (:types a -))
| fault 11 19..31
refused list domain

row section 16
file (define (domain d) (:types - a))
| fault 11 19..31
refused list domain

row section 17
file (define (domain d) (:types ?a))
| fault 11 19..30
refused list domain

row section 18
file (define (domain d) (:constants c -))
| fault 11 19..35
refused list domain

row section 19
file (define (domain d) (:constants c - (either)))
| fault 11 19..44
refused list domain

row section 20
file (define (domain d) (:constants c - (either t either)))
| fault 11 19..53
refused list domain

row section 21
file (define (domain d) (:predicates p))
| fault 11 19..34
refused list domain

row section 22
file (define (domain d) (:predicates (and ?x)))
| fault 11 19..41
refused list domain

row section 23
file (define (domain d) (:predicates (increase ?x)))
| fault 12 increase 32..45
refused list domain

row section 24
file (define (domain d) (:predicates (p x)))
| fault 11 19..38
refused list domain

row section 25
file (define (domain d) (:functions f))
| fault 11 19..33
refused list domain

row section 26
file (define (domain d) (:functions (f) -))
| fault 11 19..37
refused list domain

row section 27
file (define (domain d) (:functions (f) - (g)))
| fault 11 19..41
refused list domain

row section 28
file (define (domain d) (:action))
| fault 11 19..28
refused list domain

row section 29
file (define (domain d) (:action n :parameters))
| fault 11 19..42
refused list domain

row section 30
file (define (domain d) (:action n :parameters ?x))
| fault 11 19..45
refused list domain

row section 31
file (define (domain d) (:action n :effect (p) :effect (q)))
| fault 11 19..54
refused list domain

row section 32
file (define (domain d) (:action n :precondition (p) (q)))
| fault 11 19..52
refused list domain

row section 33
file (define (domain d) (:action n :duration (p)))
| fault 11 19..44
refused list domain

row section 34
file (define (domain d) (:action n :effect (or (p))))
| fault 11 19..47
refused list domain

row section 35
file (define (domain d) (:action n :precondition (imply (p))))
| fault 11 19..56
refused list domain

row section 36
file (define (domain d) (:action n :precondition (not)))
| fault 11 19..50
refused list domain

row section 37
file (define (domain d) (:action n :precondition (= a)))
| fault 11 19..50
refused list domain

row section 38
file (define (domain d) (:action n :precondition (exists (?x) (p) (q))))
| fault 11 19..66
refused list domain

row section 39
file (define (domain d) (:action n :effect (not (not (p)))))
| fault 11 19..54
refused list domain

row section 40
file (define (domain d) (:action n :effect (when () (p))))
| fault 11 19..52
refused list domain

row section 41
file (define (domain d) (:durative-action n))
| fault 12 :durative-action 19..39
refused list domain

row section 42
file (define (domain d) (:CONSTRAINTS (p)))
| fault 12 :constraints 19..37
refused list domain

row section 43
file (define (domain d) (:length 1))
| fault 12 :length 19..30
refused list domain

row section 44
file (define (domain d) (:action n :effect (increase (f) 1)))
| fault 12 increase 38..54
refused list domain

row section 45
file (define (domain d) (:action n :effect (increase total-cost total-cost)))
| fault 12 increase 38..70
refused list domain

row section 46
file (define (domain d) (:action n :effect (increase total-cost 1) :precondition (>= (f) 1)))
| fault 12 >= 76..86
refused list domain

row section 47
file (define (domain d) (:action n :precondition (at 5 ?x)))
| fault 12 at 44..53
refused list domain

row section 48
file (define (domain d) (:action n :precondition (or (p) (< (f) 1) (- 1))))
| fault 12 < 52..61
refused list domain

row section 49
file (define (domain d) (:action n :effect (> (f) 1 ?x (q))))
| fault 12 > 38..54
refused list domain

row section 50
file (define (domain d) (:action n :effect (<= (f) 1 ?x (q))))
| fault 12 <= 38..55
refused list domain

row section 51
file (define (domain d) (:action n :effect (+ (f) 1 ?x (q))))
| fault 12 + 38..54
refused list domain

row section 52
file (define (domain d) (:action n :effect (* (f) 1 ?x (q))))
| fault 12 * 38..54
refused list domain

row section 53
file (define (domain d) (:action n :effect (/ (f) 1 ?x (q))))
| fault 12 / 38..54
refused list domain

row section 54
file (define (domain d) (:action n :effect (- (f) 1 ?x (q))))
| fault 12 - 38..54
refused list domain

row section 55
file (define (domain d) (:action n :effect (assign (f) 1 ?x (q))))
| fault 12 assign 38..59
refused list domain

row section 56
file (define (domain d) (:action n :effect (decrease (f) 1 ?x (q))))
| fault 12 decrease 38..61
refused list domain

row section 57
file (define (domain d) (:action n :effect (scale-up (f) 1 ?x (q))))
| fault 12 scale-up 38..61
refused list domain

row section 58
file (define (domain d) (:action n :effect (scale-down (f) 1 ?x (q))))
| fault 12 scale-down 38..63
refused list domain

row section 59
file (define (domain d) (:types a) (:action n) (:types b) (:derived))
| fault 13 :types 42..52
refused list domain

row section 60
file (define (domain d) (:requirements) (:requirements))
| fault 13 :requirements 35..50
refused list domain

row section 61
file (define (domain d) (:constants) (:constants c))
| fault 13 :constants 32..46
refused list domain

row section 62
file (define (domain d) (:functions (f)) (:functions))
| fault 13 :functions 36..48
refused list domain

row section 63
file (define (domain d) (:action n) (:action n :effect))
| fault 11 31..50
refused list domain

row domain 1
file (define (domain d))
| domain d
good list domain

row domain 2
| ; a comment
file (DEFINE (Domain d) (:TYPES a))
| domain d
| type a object
good list domain

row domain 3
file (define (domain d) (:requirements :durative-actions :no-such-flag))
| domain d
| requirement durative-actions
| requirement no-such-flag
good list domain

row domain 4
file (define (domain d) (:types) (:constants) (:predicates) (:functions) (:requirements))
| domain d
good list domain

row domain 5
file (define (domain d) (:types a b - c object - object))
| domain d
| type a c
| type b c
| type object object
good list domain

row domain 6
file (define (domain d) (:predicates (assign ?x)) (:action n :parameters (?x) :effect (assign ?x)))
| domain d
| predicate assign
| - parameter x object
| action n
| - parameter x object
good list domain

row domain 7
file (define (domain d) (:predicates (at ?x ?y - (either a b)) (either)) (:functions (f ?x) (g) - number (total-cost)))
| domain d
| predicate at
| - parameter x a b
| - parameter y a b
| predicate either
| function f number
| - parameter x object
| function g number
| function total-cost number
good list domain

row domain 8
file (define (domain d) (:action n :effect () :precondition () :parameters ()))
| domain d
| action n
good list domain

row domain 9
file (define (domain d) (:action n :precondition (exists () (forall (?x ?y - t) (imply (= ?x a) (or))))))
| domain d
| action n
good list domain

row domain 10
file (define (domain d) (:action n :effect (forall (?x) (when (and) (and (p ?x) (not (p a)) (increase (total-cost) (f ?x)))))))
| domain d
| action n
good list domain

row domain 11
file (define (domain d) (:action n :effect (increase total-cost 1.50)))
| domain d
| action n
good list domain

row domain 12
file (define (domain d) (:action n :effect (increase total-cost f)))
| domain d
| action n
good list domain

row domain 13
file (define (domain d) (:action and) (:constants when) (:functions (or)))
| domain d
| constant when object
| function or number
| action and
good list domain

row domain 14
file (define (domain define) (:action at :precondition (at ?x at)))
| domain define
| action at
good list domain

row the parts of lamps
copy lamps
file
| domain lamps
| requirement adl
| requirement action-costs
| type lamp object
| type big lamp
| predicate on
| - parameter x lamp
| predicate ok
| - parameter x lamp
| function total-cost number
| function price number
| - parameter x lamp
| action light
| - parameter x lamp
| action check
| - parameter x lamp
| action dark
good list domain

row lamps with their sections in another order and otherwise spelled, whose growths are refused
growths 50
| (define (domain Lamps)
|   (:action Light :effect (and (on ?x) (INCREASE total-cost (price ?X))) :parameters (?x - (either lamp))
|     :precondition (and (not (on ?x)) (ok ?x)))
|   (:functions (total-cost) (price ?x - lamp))
|   (:action check :parameters (?x - lamp) :effect (ok ?x))
|   (:predicates (on ?x - lamp) (ok ?x -lamp)) ; a comment
|   (:action dark :precondition (exists (?x - lamp) (on ?x))
|     :effect (forall (?x - lamp) (when (on ?x) (not (on ?x)))))
|   (:types lamp - object big - lamp)
file   (:requirements :ADL :action-costs))
| domain lamps
| requirement adl
| requirement action-costs
| type lamp object
| type big lamp
| predicate on
| - parameter x lamp
| predicate ok
| - parameter x lamp
| function total-cost number
| function price number
| - parameter x lamp
| action light
| - parameter x lamp
| action check
| - parameter x lamp
| action dark
good list domain

row an atom below 123 times not
part (define (domain d) (:action n :precondition\s
times 123 (not\s
part (p)
times 123 )
file ))
| domain d
| action n
good list domain

row an atom below 124 times not
part (define (domain d) (:action n :precondition\s
times 124 (not\s
part (p)
times 124 )
file ))
| domain d
| action n
good list domain

row an atom below 125 times not
part (define (domain d) (:action n :precondition\s
times 125 (not\s
part (p)
times 125 )
file ))
| domain d
| action n
good list domain

row an atom below 126 times not
part (define (domain d) (:action n :precondition\s
times 126 (not\s
part (p)
times 126 )
file ))
| TooDeep { at: 674 }
refused list domain
";
