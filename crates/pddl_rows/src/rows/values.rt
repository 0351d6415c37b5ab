//! Numbers in billionths, positions of places, and names.

pub static VALUES: &str = r"row numbers
| 0
| 0.0
| 000
| 1.0
| 1.000
| 01
| 0.000000001
| 2.50
| 9999999999.999999999
| 9999999999.9999999990
| 00009999999999
| 10000000000
| 99999999999999999999999999
| 0.0000000001
| 1.00000000001
file
| 0
| 0
| 0
| 1000000000
| 1000000000
| 1000000000
| 1
| 2500000000
| 9999999999999999999
| 9999999999999999999
| 9999999999000000000
| none
| none
| none
| none
good list numbers

row the largest number, and one more
| 9999999999999999999
| 10000000000000000000
file
| 9999999999999999999
| none
good list billionths

row place 1
file
file 0
| 1 1
good list places

row place 2
file
file 1
| none
good list places

row place 3
| (a)
file (b
file 0
| 1 1
good list places

row place 4
| (a)
file (b
file 4
| 2 1
good list places

row place 5
| (a)
file (b
file 6
| 2 3
good list places

row place 6
| (a)
file (b
file 7
| none
good list places

row place 7
| (a)
file
file 3
| 1 4
good list places

row place 8
| (a)
file
file 4
| 2 1
good list places

row place 9
|
| \r
file \t x
file 5
| 3 3
good list places

row the place of a list that is not closed
| (light a)
file (light
file 10
| 2 1
good list places

row the place of a list that is too deep
times 129 (
file
file 128
| 1 129
good list places

row the last place of the longest text
times 16777216 \s
file
file 16777216
| 1 16777217
once good list places

row a place in a text that is too long
times 16777216 \s
file &
file 16777217
| none
once good list places

row names
| Light-2_x
| a
| z-
file
| light-2_x
| a
| z-
good list names

row what is no name
|
| 2a
| -a
| _
| a b
| ?a
| a.
| ä
file
| none
| none
| none
| none
| none
| none
| none
| none
good list names

row a name of 22 letters, which takes no memory of its own
file ABCDEFGHIJKLMNOPQRSTUV
| abcdefghijklmnopqrstuv
good list names

row a name of 23 letters, whose growths are refused
growths 2
file ABCDEFGHIJKLMNOPQRSTUVW
| abcdefghijklmnopqrstuvw
good list names

row a text of 23 bytes that is no name
file abcdefghijklmnopqrstuv?
| none
good list names
";
