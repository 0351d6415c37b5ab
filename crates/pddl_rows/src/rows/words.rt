//! Words of texts, each with its kind, its span and its bytes.

pub static WORDS: &str = r"row kind 1
file
good list words

row kind 2
file ()
| Open 0..1 (
| Close 1..2 )
good list words

row kind 3
file a A-1_b
| Name 0..1 a
| Name 2..7 A-1_b
good list words

row kind 4
file ?x ?Y-_9
| Variable 0..2 ?x
| Variable 3..8 ?Y-_9
good list words

row kind 5
file :k :init-1
| Keyword 0..2 :k
| Keyword 3..10 :init-1
good list words

row kind 6
file 7 007 1.50
| Number 0..1 7
| Number 2..5 007
| Number 6..10 1.50
good list words

row kind 7
file - =
| Dash 0..1 -
| Equal 2..3 =
good list words

row kind 8
file : [ ]
| Colon 0..1 :
| Bracket 2..3 [
| Bracket 4..5 ]
good list words

row kind 9
file < > <= >=
| Compare 0..1 <
| Compare 2..3 >
| Compare 4..6 <=
| Compare 7..9 >=
good list words

row kind 10
file + * /
| Arithmetic 0..1 +
| Arithmetic 2..3 *
| Arithmetic 4..5 /
good list words

row neighbours 1
file ?x- t
| Variable 0..3 ?x-
| Name 4..5 t
good list words

row neighbours 2
file ?x -t
| Variable 0..2 ?x
| Dash 3..4 -
| Name 4..5 t
good list words

row neighbours 3
file a-
| Name 0..2 a-
good list words

row neighbours 4
file a(b
| Name 0..1 a
| Open 1..2 (
| Name 2..3 b
good list words

row neighbours 5
file a?b:c
| Name 0..1 a
| Variable 1..3 ?b
| Keyword 3..5 :c
good list words

row neighbours 6
file a=b
| Name 0..1 a
| Equal 1..2 =
| Name 2..3 b
good list words

row neighbours 7
file --1
| Dash 0..1 -
| Dash 1..2 -
| Number 2..3 1
good list words

row neighbours 8
file 0: (
| Number 0..1 0
| Colon 1..2 :
| Open 3..4 (
good list words

row neighbours 9
file 0:k
| Number 0..1 0
| Keyword 1..3 :k
good list words

row neighbours 10
file :1
| Colon 0..1 :
| Number 1..2 1
good list words

row neighbours 11
file ::k
| Colon 0..1 :
| Keyword 1..3 :k
good list words

row neighbours 12
file <==
| Compare 0..2 <=
| Equal 2..3 =
good list words

row neighbours 13
file =<
| Equal 0..1 =
| Compare 1..2 <
good list words

row neighbours 14
file <>=
| Compare 0..1 <
| Compare 1..3 >=
good list words

row neighbours 15
file [1.5]
| Bracket 0..1 [
| Number 1..4 1.5
| Bracket 4..5 ]
good list words

row neighbours 16
|  \t
file \r\f
good list words

row neighbours 17
| a;b
file c
| Name 0..1 a
| Name 4..5 c
good list words

row neighbours 18
file a;b\rc
| Name 0..1 a
good list words

row neighbours 19
file ; é & 5a
good list words

row neighbours 20
file ;
good list words

row neighbours 21
| (define ; (a)
file  b)
| Open 0..1 (
| Name 1..7 define
| Name 15..16 b
| Close 16..17 )
good list words

row fault 1
file ?
| Stray { at: 0 }
refused list words

row fault 2
file ?1
| Stray { at: 0 }
refused list words

row fault 3
file ? x
| Stray { at: 0 }
refused list words

row fault 4
file a?
| Stray { at: 1 }
refused list words

row fault 5
file .5
| Stray { at: 0 }
refused list words

row fault 6
file 5.
| Stray { at: 1 }
refused list words

row fault 7
file 5.a
| Stray { at: 1 }
refused list words

row fault 8
file 1.5.2
| Stray { at: 3 }
refused list words

row fault 9
file _a
| Stray { at: 0 }
refused list words

row fault 10
file :_
| Stray { at: 1 }
refused list words

row fault 11
file \v
| Stray { at: 0 }
refused list words

row fault 12
file a é
| Stray { at: 2 }
refused list words

row fault 13
file (check a) &
| Stray { at: 10 }
refused list words

row fault 14
file 5a: (check a)
| Glued { at: 0 }
refused list words

row fault 15
file a 5-
| Glued { at: 2 }
refused list words

row fault 16
file 5_
| Glued { at: 0 }
refused list words

row fault 17
file 5.5a
| Glued { at: 0 }
refused list words

row fault 18
file 10000000000
| NumberRange { at: 0 }
refused list words

row fault 19
file  0.0000000001
| NumberRange { at: 1 }
refused list words

row fault 20
file & 5a 10000000000
| Stray { at: 0 }
refused list words

row fault 21
file 5a & 10000000000
| Glued { at: 0 }
refused list words

row fault 22
file 10000000000 5a &
| NumberRange { at: 0 }
refused list words

row fault 23
file 10000000000a
| Glued { at: 0 }
refused list words

row fault 24
file 10000000000.
| NumberRange { at: 0 }
refused list words

row words between comments
| ; steps
| 0.5: (Drive ?t-1 depot2)[1] ; c
file   <= :k
| Number 8..11 0.5
| Colon 11..12 :
| Open 13..14 (
| Name 14..19 Drive
| Variable 20..24 ?t-1
| Name 25..31 depot2
| Close 31..32 )
| Bracket 32..33 [
| Number 33..34 1
| Bracket 34..35 ]
| Compare 42..44 <=
| Keyword 45..47 :k
good list words

row the longest text
times 16777216 \s
file
once good list words

# Beyond the limit nothing else is said, a stray byte or not.
row one byte more
times 16777216 \s
file &
| TooLong
once refused list words
| TooLong
once refused list items

row a byte that is no text
file a \xff
| Stray { at: 2 }
refused list words

row words whose growths are refused
growths 3
file (a b c d e f g h (i (j (k (l (m (n (o (p (q r))))))))) 1.5 2) (s)
| Open 0..1 (
| Name 1..2 a
| Name 3..4 b
| Name 5..6 c
| Name 7..8 d
| Name 9..10 e
| Name 11..12 f
| Name 13..14 g
| Name 15..16 h
| Open 17..18 (
| Name 18..19 i
| Open 20..21 (
| Name 21..22 j
| Open 23..24 (
| Name 24..25 k
| Open 26..27 (
| Name 27..28 l
| Open 29..30 (
| Name 30..31 m
| Open 32..33 (
| Name 33..34 n
| Open 35..36 (
| Name 36..37 o
| Open 38..39 (
| Name 39..40 p
| Open 41..42 (
| Name 42..43 q
| Name 44..45 r
| Close 45..46 )
| Close 46..47 )
| Close 47..48 )
| Close 48..49 )
| Close 49..50 )
| Close 50..51 )
| Close 51..52 )
| Close 52..53 )
| Close 53..54 )
| Number 55..58 1.5
| Number 59..60 2
| Close 60..61 )
| Open 62..63 (
| Name 63..64 s
| Close 64..65 )
good list words
";
