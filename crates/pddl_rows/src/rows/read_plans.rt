//! Plans as they are read, at each cut: their steps, or the number and the span of the fault.

pub static READ_PLANS: &[u8] = br"row a plain plan
file (Light A)
| step light a
good list plan

row a timed plan
file 2.50: (a) 1: (b)
| at 2500000000 a
| at 1000000000 b
good list plan

row a timed step behind a plain one
file (a) 1 : (b) c
| fault 16 4..11
refused list plan

row a duration
file 1: (a) [ 2 ]
| fault 17 7..8
refused list plan

row a variable
| (a)
file (b ?x)
| fault 15 4..10
refused list plan

row a stray byte
file (a) &
| Stray { at: 4 }
refused list plan

row a comment, a fraction and several names, whose growths are refused
growths 5
| ; x
| 1.50: (Light a b)
file  0: (check C)
| at 1500000000 light a b
| at 0 check c
good list plan

row a moment that a cut may end
file 0.000: (light a)
| at 0 light a
good list plan

row a keyword that a cut may end
file 1:a (x)
| fault 15 0..1
refused list plan

row comments that a cut may end
| (light a) ; one (b)
| ; two
file (light b)
| step light a
| step light b
good list plan

row a step in a list
file (a) ((b)) (c)
| fault 15 4..9
refused list plan

row no name
file (a) ()
| fault 15 4..6
refused list plan

row a moment behind plain steps
file (a) 1: b
| fault 15 4..5
refused list plan

row a plain step behind timed ones
file 1: (a) (b)
| fault 16 7..10
refused list plan

row a bracket before any step
file [ (a)
| fault 15 0..1
refused list plan

row a bracket behind a plain step
file (a) [2]
| fault 17 4..5
refused list plan

row a moment alone
file 1: (a) 2
| fault 15 7..8
refused list plan

row a moment and a colon alone
file 2 :
| fault 15 0..1
refused list plan

row two colons
file 2 :: (a)
| fault 15 0..1
refused list plan

row a step that is not closed
file (a) (b c
| Unclosed { at: 4 }
refused list plan

row a step that is not opened
file (a) b)
| Unopened { at: 5 }
refused list plan

row a fault of the text behind one of the plan
file ?x (a) 1a
| Glued { at: 7 }
refused list plan

row a fault of the lists behind one of the plan
file ?x (a) (
| Unclosed { at: 7 }
refused list plan

row lists at the deepest level behind a step
part (a)
times 128 (
times 128 )
file
| fault 15 3..259
once refused list plan

row a list below the deepest level behind a step
part (a)
times 129 (
file
| TooDeep { at: 131 }
once refused list plan

row a keyword for an action
file (:action a)
| fault 15 0..11
refused list plan
";
