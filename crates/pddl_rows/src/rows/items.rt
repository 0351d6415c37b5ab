//! Items of texts, and what is in the outermost of them.

pub static ITEMS: &[u8] = br"row items 1
file
good list items
good list lists

row items 2
file ; none
good list items
good list lists

row items 3
file a
| Name 0..1 a
good list items
| Name 0..1 a
good list lists

row items 4
file ()
| List 0..2 of 0
good list items
| List 0..2 of 0
good list lists

row items 5
file ( ) ?x
| List 0..3 of 0
| Variable 4..6 ?x
good list items
| List 0..3 of 0
| Variable 4..6 ?x
good list lists

row items 6
file (a (b) 1.5) c
| List 0..11 of 3
| - Name 1..2 a
| - List 3..6 of 1
| - Number 7..10 1.5
| Name 12..13 c
good list items
| List 0..11 of 3
| - Name 1..2 a
| - List 3..6 of 1
| - Number 7..10 1.5
| Name 12..13 c
good list lists

row items 7
file ((()) ())()
| List 0..9 of 2
| - List 1..5 of 1
| - List 6..8 of 0
| List 9..11 of 0
good list items
| List 0..9 of 2
| - List 1..5 of 1
| - List 6..8 of 0
| List 9..11 of 0
good list lists

row fault 1
file )
| Unopened { at: 0 }
refused list items

row fault 2
file a ) (
| Unopened { at: 2 }
refused list items

row fault 3
file (a))(
| Unopened { at: 3 }
refused list items

row fault 4
file (
| Unclosed { at: 0 }
refused list items

row fault 5
file ((a)
| Unclosed { at: 0 }
refused list items

row fault 6
file (a ) ( b (c)
| Unclosed { at: 5 }
refused list items

row fault 7
| (light a)
file (light
| Unclosed { at: 10 }
refused list items

row fault 8
file ) &
| Stray { at: 2 }
refused list items

row fault 9
file ) 5a
| Glued { at: 2 }
refused list items

row fault 10
file ( 10000000000
| NumberRange { at: 2 }
refused list items

row 128 openings and 0 closings
times 128 (
file
| Unclosed { at: 0 }
refused list items

row 128 openings and 127 closings
times 128 (
times 127 )
file
| Unclosed { at: 0 }
refused list items

row 128 openings and 128 closings
times 128 (
times 128 )
file
| List 0..256 of 1
| - List 1..255 of 1
good list items

row 128 openings and 129 closings
times 128 (
times 129 )
file
| Unopened { at: 256 }
refused list items

row 129 openings and 0 closings
times 129 (
file
| TooDeep { at: 128 }
refused list items

row 129 openings and 129 closings
times 129 (
times 129 )
file
| TooDeep { at: 128 }
refused list items

row 129 openings and 200 closings
times 129 (
times 200 )
file
| TooDeep { at: 128 }
refused list items

row items whose growths are refused
growths 10
file (a b c d e f g h (i (j (k (l (m (n (o (p (q r))))))))) 1.5 2) (s)
| List 0..61 of 11
| - Name 1..2 a
| - Name 3..4 b
| - Name 5..6 c
| - Name 7..8 d
| - Name 9..10 e
| - Name 11..12 f
| - Name 13..14 g
| - Name 15..16 h
| - List 17..54 of 2
| - Number 55..58 1.5
| - Number 59..60 2
| List 62..65 of 1
| - Name 63..64 s
good list items
| List 0..61 of 11
| - Name 1..2 a
| - Name 3..4 b
| - Name 5..6 c
| - Name 7..8 d
| - Name 9..10 e
| - Name 11..12 f
| - Name 13..14 g
| - Name 15..16 h
| - List 17..54 of 2
| - Number 55..58 1.5
| - Number 59..60 2
| List 62..65 of 1
| - Name 63..64 s
good list lists

row what is said of TooLong
times 16777217 \s
file
| the text is longer than 16 MiB
once refused list fault

row what is said of Stray
file        &
| no word begins at byte 7
refused list fault

row what is said of Glued
file        5a
| a word stands against the number at byte 7
refused list fault

row what is said of NumberRange
file        10000000000
| the number at byte 7 is out of range
refused list fault

row what is said of Unopened
file        )
| nothing is open at byte 7
refused list fault

row what is said of TooDeep
row what is said of Unclosed
file        (
| the list at byte 7 is not closed
refused list fault

row what is said of TooDeep
times 129 (
file
| the list at byte 128 stands too deep
refused list fault
";
