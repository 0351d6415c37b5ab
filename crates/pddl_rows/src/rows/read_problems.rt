//! Problems as they are read: their parts, or the number, the word and the span of the fault.

pub static READ_PROBLEMS: &[u8] = br"row section 1
file (define (problem p))
| fault 14 :domain
refused list problem

row section 2
file
| fault 10 0..0
refused list problem

row section 3
file (define (domain d))
| fault 10 0..19
refused list problem

row section 4
file (define (problem p) (:domain d))
| fault 14 :init
refused list problem

row section 5
file (define (problem p) (:domain d) (:init))
| fault 14 :goal
refused list problem

row section 6
file (define (problem p) (:init) (:goal ()))
| fault 14 :domain
refused list problem

row section 7
file (define (problem p) (:domain d) (:goal (p)))
| fault 14 :init
refused list problem

row section 8
file (define (problem p) (:domain d) (:init (at 5 (p))) (:goal ()))
| fault 12 at 39..49
refused list problem

row section 9
file (define (problem p) (:domain d) (:init (= (f a) b)) (:goal ()))
| fault 11 32..51
refused list problem

row section 10
file (define (problem p) (:domain))
| fault 11 20..29
refused list problem

row section 11
file (define (problem p) (:domain a b))
| fault 11 20..33
refused list problem

row section 12
file (define (problem p) (:domain ?a))
| fault 11 20..32
refused list problem

row section 13
file (define (problem p) (:objects a -))
| fault 11 20..34
refused list problem

row section 14
file (define (problem p) (:objects ?a))
| fault 11 20..33
refused list problem

row section 15
file (define (problem p) (:requirements x))
| fault 11 20..37
refused list problem

row section 16
file (define (problem p) (:init p))
| fault 11 20..29
refused list problem

row section 17
file (define (problem p) (:init (p ?x)))
| fault 11 20..34
refused list problem

row section 18
file (define (problem p) (:init (and (p))))
| fault 11 20..37
refused list problem

row section 19
file (define (problem p) (:init (not (not (p)))))
| fault 11 20..43
refused list problem

row section 20
file (define (problem p) (:init (= (f) 1 2)))
| fault 11 20..39
refused list problem

row section 21
file (define (problem p) (:init (= (f (a)) 1)))
| fault 11 20..41
refused list problem

row section 22
file (define (problem p) (:init (= 1 1)))
| fault 11 20..35
refused list problem

row section 23
file (define (problem p) (:goal))
| fault 11 20..27
refused list problem

row section 24
file (define (problem p) (:goal (p) (q)))
| fault 11 20..35
refused list problem

row section 25
file (define (problem p) (:goal p))
| fault 11 20..29
refused list problem

row section 26
file (define (problem p) (:metric minimize))
| fault 11 20..38
refused list problem

row section 27
file (define (problem p) (:metric least (f)))
| fault 11 20..39
refused list problem

row section 28
file (define (problem p) (:metric minimize (f ?x)))
| fault 11 20..45
refused list problem

row section 29
file (define (problem p) (:metric minimize (+ (f) 1)))
| fault 12 + 38..47
refused list problem

row section 30
file (define (problem p) (:constraints (p)))
| fault 12 :constraints 20..38
refused list problem

row section 31
file (define (problem p) (:types (either a)))
| fault 12 either 28..38
refused list problem

row section 32
file (define (problem p) (:types a))
| fault 11 20..30
refused list problem

row section 33
file (define (problem p) (:domain d) (:domain d))
| fault 13 :domain 32..43
refused list problem

row section 34
file (define (problem p) (:domain d) (:init) (:init (p)))
| fault 13 :init 40..51
refused list problem

row section 35
file (define (problem p) (:goal ()) (:goal (p)))
| fault 13 :goal 31..42
refused list problem

row section 36
file (define (problem p) (:objects) (:objects a))
| fault 13 :objects 31..43
refused list problem

row section 37
file (define (problem p) (:metric minimize f) (:metric maximize f))
| fault 13 :metric 41..61
refused list problem

row section 38
file (define (problem p) (:requirements) (:requirements :adl))
| fault 13 :requirements 36..56
refused list problem

row problem 1
file (define (problem p) (:domain d) (:init) (:goal ()))
| problem p
| domain d
good list problem

row problem 2
file (define (problem p) (:goal (and)) (:init (at truck depot)) (:domain d))
| problem p
| domain d
| holds at truck depot
good list problem

row problem 3
file (define (problem p) (:domain d) (:init (not (p a)) (= f 1) (= (f) 1.5) (= (g a b) 0)) (:goal (p)))
| problem p
| domain d
| fails p a
| value 1000000000 of f
| value 1500000000 of f
| value 0 of g a b
good list problem

row problem 4
file (define (problem p) (:domain d) (:init) (:goal ()) (:metric maximize total-cost))
| problem p
| domain d
| maximize total-cost
good list problem

row problem 5
file (define (problem p) (:domain d) (:init) (:goal (forall (?x) (p ?x))) (:objects a b - (either t u)))
| problem p
| domain d
| object a t u
| object b t u
good list problem

row problem 6
file (define (problem p) (:domain d) (:init) (:goal ()) (:objects) (:requirements :strips))
| problem p
| domain d
| requirement strips
good list problem

row items of :init 1
file (define (problem p) (:domain d) (:init;a\n(P;b\nA\tb)(NOT(p a)) ( = ( F ) 1.5 ) (=\fg 2)(r)) (:goal ()))
| problem p
| domain d
| holds p a b
| fails p a
| value 1500000000 of f
| value 2000000000 of g
| holds r
good list problem

row items of :init 2
file (define (problem p) (:domain d) (:init (Abcdefghijklmnopqrst- abcdefghijklmnopqrstuV) (p abcdefghijklmnopqrstuvW) (= (abcdefghijklmnopqrstuvw-_0123456789-ABCDEF a0) 0)) (:goal ()))
| problem p
| domain d
| holds abcdefghijklmnopqrst- abcdefghijklmnopqrstuv
| holds p abcdefghijklmnopqrstuvw
| value 0 of abcdefghijklmnopqrstuvw-_0123456789-abcdef a0
good list problem

row items of :init 3
file (define (problem p) (:init (not (p) (q))))
| fault 11 20..41
refused list problem

row items of :init 4
file (define (problem p) (:init (p (a))))
| fault 11 20..35
refused list problem

row items of :init 5
file (define (problem p) (:init ()))
| fault 11 20..30
refused list problem

row items of :init 6
file (define (problem p) (:init (not p)))
| fault 11 20..35
refused list problem

row items of :init 7
file (define (problem p) (:init (= f)))
| fault 11 20..33
refused list problem

row items of :init 8
file (define (problem p) (:init (= (f 1) 2)))
| fault 11 20..39
refused list problem

row values of :init 1
file (define (problem p) (:domain d) (:init (= f 007.50)(= (g)9999999999.999999999) (= (h a);1 2\n0.0000000010) (= i 3;4\n)) (:goal ()))
| problem p
| domain d
| value 7500000000 of f
| value 9999999999999999999 of g
| value 1 of h a
| value 3000000000 of i
good list problem

row values of :init 2
file (define (problem p) (:init (= f 1a)))
| Glued { at: 32 }
refused list problem

row values of :init 3
file (define (problem p) (:init (= f 10000000000)))
| NumberRange { at: 32 }
refused list problem

row values of :init 4
file (define (problem p) (:init (= f 1.)))
| Stray { at: 33 }
refused list problem

row values of :init 5
file (define (problem p) (:init (= f -1)))
| fault 11 20..36
refused list problem

row objects 1
file (define (problem p) (:domain d) (:init) (:goal ()) (:objects A;1\nb-c - T d -(EITHER T u)e -v f g))
| problem p
| domain d
| object a t
| object b-c t
| object d t u
| object e v
| object f object
| object g object
good list problem

row objects 2
file (define (problem p) (:objects - t))
| fault 11 20..34
refused list problem

row objects 3
file (define (problem p) (:objects a - (either)))
| fault 11 20..43
refused list problem

row objects 4
file (define (problem p) (:objects a - either))
| fault 11 20..41
refused list problem

row objects 5
file (define (problem p) (:objects a - t - u))
| fault 11 20..40
refused list problem

row objects 6
file (define (problem p) (:objects a - 5))
| fault 11 20..36
refused list problem

row objects 7
file (define (problem p) (:objects (a)))
| fault 11 20..34
refused list problem

row objects 8
file (define (problem p) (:objects a - (t u) b))
| fault 11 20..42
refused list problem

row the parts of two lamps, whose growths are refused
growths 20
copy two
file
| problem two
| domain lamps
| object a lamp
| object b big
| holds ok a
| holds ok b
| value 3000000000 of price a
| value 4000000000 of price b
| minimize total-cost
good list problem
";
