//! What `format problem` prints.

pub static FORMAT_PROBLEMS: &[u8] = br"row problem 1
copy two
file
copy two
good format problem

row problem 2
copy flipped
file
copy flipped
good format problem

row problem 3
file (define (problem p) (:domain d) (:init))
| problem: fault 14 Missing :goal
refused format problem

row problem 4
file (define (problem p))
| problem: fault 14 Missing :domain
refused format problem

row problem 5
file (define (problem p) (:domain d) (:goal ()))
| problem: fault 14 Missing :init
refused format problem

row problem 6
file (define (problem p) (:domain d) (:init (AT 5 (p))) (:goal ()))
| problem: fault 12 Unsupported at at 1:40
refused format problem

row problem 7
file (define (problem p) (:goal ()) (:init (At truck Depot)) (:domain d))
| (define (problem p)
|   (:domain d)
|   (:init (at truck depot))
|   (:goal (and))
| )
good format problem

row problem 8
file (define (problem p) (:domain d) (:init (= (f a) b)) (:goal ()))
| problem: fault 11 Section at 1:33
refused format problem

row problem 9
| (define (problem p) (:domain d) (:init)
file (:domain e))
| problem: fault 13 Twice :domain at 2:1
refused format problem

row problem 10
file (define (problem p) (:init (not (p)) (= (f a) 02.50) (= f 0)) (:domain d) (:goal (p)) (:metric MAXIMIZE f))
| (define (problem p)
|   (:domain d)
|   (:init (not (p)) (= (f a) 2.5) (= (f) 0))
|   (:goal (p))
|   (:metric maximize (f))
| )
good format problem

row problem 11
file (define (domain d))
| problem: fault 10 Head at 1:1
refused format problem

row problem 12
file (define (problem p) ?)
| problem: fault 2 Stray at 1:21
refused format problem

row problem 13
file ((
| problem: fault 7 Unclosed at 1:1
refused format problem

row two lamps spelled otherwise 1
copy two
change (:objects a - lamp b - big) => (:objects a -lamp ; a comment\nb -big)
file
copy two
good format problem

row two lamps spelled otherwise 2
copy two
change (:metric minimize (total-cost)) => (:metric minimize total-cost)
file
copy two
good format problem

row two lamps spelled otherwise 3
copy two
change (= (price a) 3) => (= (PRICE A) 03.0)
file
copy two
good format problem

row a comment and capitals before :init
file (define (problem p) (:domain d) ( ; what holds\n :INIT (At truck Depot)) (:goal ()))
| (define (problem p)
|   (:domain d)
|   (:init (at truck depot))
|   (:goal (and))
| )
good format problem

row lists in lists of no, one and several items, whose growths are refused
growths 9
file (define (problem p) (:domain d) (:init (p) (q a b c d e f) (= (f a) 1) (p)) (:goal (and (or) (p) (and (q a b c d e f) (not (or (p) (and (p))))) (q a b c d e f))))
| (define (problem p)
|   (:domain d)
|   (:init (p) (q a b c d e f) (= (f a) 1) (p))
|   (:goal (and (or) (p) (and (q a b c d e f) (not (or (p) (and (p))))) (q a b c d e f)))
| )
good format problem

row a list in a list that does not end
file (define (problem p) (:domain d) (:init (p) (q a (b))
| problem: fault 7 Unclosed at 1:1
refused format problem

row the deepest goal
part (define (problem p) (:domain d) (:init) (:goal\s
times 125 (and\s
part (and)
times 125 )
file ))
| (define (problem p)
|   (:domain d)
|   (:init)
part   (:goal\s
times 125 (and\s
part (and)
times 125 )
| )
| )
good format problem

row a goal one level deeper
part (define (problem p) (:domain d) (:init) (:goal\s
times 126 (and\s
part (and)
times 126 )
file ))
| problem: fault 6 TooDeep at 1:678
refused format problem

row a text that is too long
times 16777217 \s
file
| problem: fault 1 TooLong
once refused format problem

row a problem without a domain, whose growths are refused
growths 5
file (define (problem p) (:init))
| problem: fault 14 Missing :domain
refused format problem

row two lamps whose growths are refused
growths 5
copy two
file
copy two
good format problem

row facts and values of up to six names of up to 32 bytes together, and of more of each
growths 17
part (define (problem p) (:domain d) (:init\s
part (q aaaaa bbbbb ccccc ddddd eeeeee ffffff)\s
part (Q AAAAA BBBBB CCCCC DDDDDD EEEEEE FFFFFF)\s
part (q a b c d e f g)\s
part (Q NNNNNNNNNNNNNNNNNNNNNNNNNNNNNNNN)\s
part (q nnnnnnnnnnnnnnnnnnnnnnnnnnnnnnnnn)\s
part (Q MMMMMMMMMMMMMMMMMMMMMM KKKKKKKKKK)\s
part (q mmmmmmmmmmmmmmmmmmmmmm kkkkkkkkkkk)\s
part (Q)\s
part (not (q aaaaa bbbbb ccccc ddddd eeeeee ffffff))\s
part (NOT (Q AAAAA BBBBB CCCCC DDDDDD EEEEEE FFFFFF))\s
part (not (q a b c d e f g))\s
part (= (F AAAAA BBBBB CCCCC DDDDD EEEEEE FFFFFF) 1)\s
part (= (f aaaaa bbbbb ccccc dddddd eeeeee ffffff) 2)\s
part (= (F A B C D E F G) 3)\s
part (= (f nnnnnnnnnnnnnnnnnnnnnnnnnnnnnnnn) 4)\s
part (= (F NNNNNNNNNNNNNNNNNNNNNNNNNNNNNNNNN) 5)
file ) (:goal (and)))
| (define (problem p)
|   (:domain d)
part   (:init\s
part (q aaaaa bbbbb ccccc ddddd eeeeee ffffff)\s
part (q aaaaa bbbbb ccccc dddddd eeeeee ffffff)\s
part (q a b c d e f g)\s
part (q nnnnnnnnnnnnnnnnnnnnnnnnnnnnnnnn)\s
part (q nnnnnnnnnnnnnnnnnnnnnnnnnnnnnnnnn)\s
part (q mmmmmmmmmmmmmmmmmmmmmm kkkkkkkkkk)\s
part (q mmmmmmmmmmmmmmmmmmmmmm kkkkkkkkkkk)\s
part (q)\s
part (not (q aaaaa bbbbb ccccc ddddd eeeeee ffffff))\s
part (not (q aaaaa bbbbb ccccc dddddd eeeeee ffffff))\s
part (not (q a b c d e f g))\s
part (= (f aaaaa bbbbb ccccc ddddd eeeeee ffffff) 1)\s
part (= (f aaaaa bbbbb ccccc dddddd eeeeee ffffff) 2)\s
part (= (f a b c d e f g) 3)\s
part (= (f nnnnnnnnnnnnnnnnnnnnnnnnnnnnnnnn) 4)\s
part (= (f nnnnnnnnnnnnnnnnnnnnnnnnnnnnnnnnn) 5)
| )
|   (:goal (and))
| )
good format problem
";
