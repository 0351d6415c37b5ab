//! What `format domain` prints.

pub static FORMAT_DOMAINS: &[u8] = br"row domain 1
copy lamps
file
copy lamps
good format domain

row domain 2
copy flips
file
copy flips
good format domain

row domain 3
copy idle
file
copy idle
good format domain

row domain 4
file (define (domain d) (:action n :parameters (?x -lamp)))
copy idle
good format domain

row domain 5
file (define (domain d) (:action n :parameters (?x- lamp)))
| domain: fault 11 Section at 1:20
refused format domain

row domain 6
file (define (domain d) (:action n :precondition (preference p1 (on ?x))))
| domain: fault 12 Unsupported preference at 1:45
refused format domain

row domain 7
file (define (domain d) (:predicates (p)) (:predicates (q)))
| domain: fault 13 Twice :predicates at 1:38
refused format domain

row domain 8
| (define (domain d)
|   (:PREDICATES (p))
|   (:Predicates x))
file
| domain: fault 13 Twice :predicates at 3:3
refused format domain

row domain 9
file (define (domain d) (:action n :effect (ASSIGN ?x) :precondition (preference p (q))))
| domain: fault 12 Unsupported assign at 1:39
refused format domain

row domain 10
file (define (domain d) (:derived (p) (q)))
| domain: fault 12 Unsupported :derived at 1:20
refused format domain

row domain 11
file (define (domain d) (:action n :precondition (<= (f) 3)))
| domain: fault 12 Unsupported <= at 1:45
refused format domain

row domain 12
file (define (domain d) (:types a - (Either b c)))
| domain: fault 12 Unsupported either at 1:32
refused format domain

row domain 13
file (define (domain d) x)
| domain: fault 11 Section at 1:20
refused format domain

row domain 14
file (define (domain d) (:Requirements :Durative-Actions))
| (define (domain d)
|   (:requirements :durative-actions)
| )
good format domain

row domain 15
file (DEFINE (Domain D))
| (define (domain d)
| )
good format domain

row domain 16
file
| domain: fault 10 Head at 1:1
refused format domain

row domain 17
|
file (define (problem p))
| domain: fault 10 Head at 2:1
refused format domain

row domain 18
file (define (domain d)) x
| domain: fault 10 Head at 1:21
refused format domain

row domain 19
file (define (domain d) &)
| domain: fault 2 Stray at 1:20
refused format domain

row domain 20
file (define (domain 5d))
| domain: fault 3 Glued at 1:17
refused format domain

row domain 21
file (define (domain d) (:action n :effect (increase total-cost 10000000000)))
| domain: fault 4 NumberRange at 1:60
refused format domain

row domain 22
file (define (domain d)))
| domain: fault 5 Unopened at 1:20
refused format domain

row domain 23
file (define (domain d)
| domain: fault 7 Unclosed at 1:1
refused format domain

row lamps spelled otherwise 1
copy lamps
change (total-cost) - number (price ?x - lamp) - number => (total-cost) (price ?x - lamp)
file
copy lamps
good format domain

row lamps spelled otherwise 2
copy lamps
change (increase (total-cost) (price ?x)) => (INCREASE total-cost (price ?X))
file
copy lamps
good format domain

row lamps spelled otherwise 3
copy lamps
change :precondition (and)\n => :precondition ()\n
file
copy lamps
good format domain

row lamps spelled otherwise 4
copy lamps
change :precondition (and)\n
file
copy lamps
good format domain

row lamps spelled otherwise 5
copy lamps
change :parameters ()
file
copy lamps
good format domain

row lamps spelled otherwise 6
copy lamps
change light\n    :parameters (?x - lamp) => light\n    :parameters (?x - (either lamp))
file
copy lamps
good format domain

row lamps spelled otherwise 7
copy lamps
change check\n    :parameters (?x - lamp) => check\n    :parameters (?x - (either lamp))
file
copy lamps
good format domain

row lamps spelled otherwise 8
copy lamps
change exists (?x - lamp) => exists (?x - (either lamp))
file
copy lamps
good format domain

row lamps spelled otherwise 9
copy lamps
change forall (?x - lamp) => forall (?x - (either lamp))
file
copy lamps
good format domain

row lamps spelled otherwise 10
copy lamps
change \n => \r\n
file
copy lamps
good format domain

row lamps spelled otherwise 11
copy lamps
change (domain lamps) => (domain lamps) ; a comment
file
copy lamps
good format domain

row lamps spelled otherwise 12
copy lamps
change ))))\n  (:action check => ))))(:ACTION check
file
copy lamps
good format domain

row lamps of other types 1
copy lamps
change (:types lamp - object big - lamp) => (:TYPES lamp big - lamp)
file
copy lamps
change (:types lamp - object big - lamp) => (:types lamp - lamp big - lamp)
good format domain

row lamps of other types 2
copy lamps
change (:types lamp - object big - lamp) => (:TYPES big - lamp lamp)
file
copy lamps
change (:types lamp - object big - lamp) => (:types big - lamp lamp - object)
good format domain

row lamps of a type that is refused
copy lamps
change (:types lamp - object => (:types lamp - (either object)
file
| domain: fault 12 Unsupported either at 3:18
refused format domain

row an effect that is printed one level deeper
part (define (domain d) (:action n :effect\s
times 125 (and\s
part (increase total-cost 1)
times 125 )
file ))
| (define (domain d)
|   (:action n
|     :parameters ()
|     :precondition (and)
part     :effect\s
times 125 (and\s
part (increase (total-cost) 1)
times 125 )
| )
| )
good format domain

row what is printed of it
| (define (domain d)
|   (:action n
|     :parameters ()
|     :precondition (and)
part     :effect\s
times 125 (and\s
part (increase (total-cost) 1)
times 125 )
| )
| )
file
| domain: fault 6 TooDeep at 5:648
refused format domain

row the longest text
times 16777216 \s
file
| domain: fault 10 Head at 1:1
once refused format domain

row one byte more
times 16777217 \s
file
| domain: fault 1 TooLong
once refused format domain

row a section that stands twice, whose growths are refused
growths 5
file (define (domain d) (:types a) (:types b))
| domain: fault 13 Twice :types at 1:31
refused format domain

row lamps whose growths are refused
growths 5
copy lamps
file
copy lamps
good format domain

row names of 22 letters, of 23 and of many, whose growths are refused
growths 7
file (define (domain ABCDEFGHIJKLMNOPQRSTUV) (:predicates (ABCDEFGHIJKLMNOPQRSTUVW) (abcdefghijklmnopqrstuv) (Abcdefghijklmnopqrstuvwxyz-abcdefghijklmnopqrstuvwxyz_0123456789)))
| (define (domain abcdefghijklmnopqrstuv)
|   (:predicates (abcdefghijklmnopqrstuvw) (abcdefghijklmnopqrstuv) (abcdefghijklmnopqrstuvwxyz-abcdefghijklmnopqrstuvwxyz_0123456789))
| )
good format domain
";
