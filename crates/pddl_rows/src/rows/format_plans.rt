//! What `format plan` prints.

pub static FORMAT_PLANS: &[u8] = br"row printed 1
file
good format plan

row printed 2
file ; nothing but a comment
good format plan

row printed 3
|  \t\r\f
file
good format plan

row printed 4
| ; x
file  00.50 :( Light  A )
| 0.5: (light a)
good format plan

row printed 5
| (LIGHT A)
| ; cost = 7
| (light b)
file
| (light a)
| (light b)
good format plan

row printed 6
file (noop)
| (noop)
good format plan

row printed 7
file (a)(b)
| (a)
| (b)
good format plan

row printed 8
| (a
| b;c
file )
| (a b)
good format plan

row printed 9
file 1:(a)2:(b)
| 1: (a)
| 2: (b)
good format plan

row printed 10
| 2: (light b)
| 1: (light a)
file
| 2: (light b)
| 1: (light a)
good format plan

row printed 11
| 0: (light a)
| 0.000: (light b)
file
| 0: (light a)
| 0: (light b)
good format plan

row printed 12
| 1: (check a)
| 1: (check a)
file
| 1: (check a)
| 1: (check a)
good format plan

row printed 13
file (drive-2 t_1 d- e)
| (drive-2 t_1 d- e)
good format plan

row printed 14
file 9999999999.9999999990: (check a)
| 9999999999.999999999: (check a)
good format plan

row without items 1
file 1.: (a)
| plan: fault 2 Stray at 1:2
refused format plan

row without items 2
file () &
| plan: fault 2 Stray at 1:4
refused format plan

row without items 3
file (check a) &
| plan: fault 2 Stray at 1:11
refused format plan

row without items 4
| (check a)
|
file   ?
| plan: fault 2 Stray at 3:3
refused format plan

row without items 5
file 5a: (check a)
| plan: fault 3 Glued at 1:1
refused format plan

row without items 6
file 5-: (check a)
| plan: fault 3 Glued at 1:1
refused format plan

row without items 7
file 10000000000a
| plan: fault 3 Glued at 1:1
refused format plan

row without items 8
file 10000000000: (check a)
| plan: fault 4 NumberRange at 1:1
refused format plan

row without items 9
file 0.0000000001: (check a)
| plan: fault 4 NumberRange at 1:1
refused format plan

row without items 10
file () )
| plan: fault 5 Unopened at 1:4
refused format plan

row without items 11
file )
| plan: fault 5 Unopened at 1:1
refused format plan

row without items 12
| (light a)
file (light
| plan: fault 7 Unclosed at 2:1
refused format plan

row without items 13
file (
| plan: fault 7 Unclosed at 1:1
refused format plan

row without items 14
file ( ; )
| plan: fault 7 Unclosed at 1:1
refused format plan

row without items 15
| (a (b)
file (c)
| plan: fault 7 Unclosed at 1:1
refused format plan

row without steps 1
file ()
| plan: fault 15 Step at 1:1
refused format plan

row without steps 2
file 1:a (x)
| plan: fault 15 Step at 1:1
refused format plan

row without steps 3
file [
| plan: fault 15 Step at 1:1
refused format plan

row without steps 4
file (a) 1:
| plan: fault 15 Step at 1:5
refused format plan

row without steps 5
file (a) (b ?x)
| plan: fault 15 Step at 1:5
refused format plan

row without steps 6
file (a (b))
| plan: fault 15 Step at 1:1
refused format plan

row without steps 7
file (a 1)
| plan: fault 15 Step at 1:1
refused format plan

row without steps 8
file (:a)
| plan: fault 15 Step at 1:1
refused format plan

row without steps 9
file a
| plan: fault 15 Step at 1:1
refused format plan

row without steps 10
file 1 (a)
| plan: fault 15 Step at 1:1
refused format plan

row without steps 11
file 1: :(a)
| plan: fault 15 Step at 1:1
refused format plan

row without steps 12
file 1: (a) 2
| plan: fault 15 Step at 1:8
refused format plan

row without steps 13
file 1: (a) 2: ()
| plan: fault 15 Step at 1:8
refused format plan

row without steps 14
| (a)
file (b) c
| plan: fault 15 Step at 2:5
refused format plan

row without steps 15
file 1: (a) (b)
| plan: fault 16 Mixed at 1:8
refused format plan

row without steps 16
| (check a)
| 1: (check a)
file
| plan: fault 16 Mixed at 2:1
refused format plan

row without steps 17
file 1: (a) 2: (b) (c)
| plan: fault 16 Mixed at 1:15
refused format plan

row without steps 18
file 0.0: (check a) [1]
| plan: fault 17 Duration at 1:16
refused format plan

row without steps 19
file (a) [1]
| plan: fault 17 Duration at 1:5
refused format plan

row without steps 20
| (a)
file ]
| plan: fault 17 Duration at 2:1
refused format plan

row the last level
times 128 (
file
| plan: fault 7 Unclosed at 1:1
refused format plan

row one level more
times 129 (
file
| plan: fault 6 TooDeep at 1:129
refused format plan

row the longest text
times 16777216 \s
file
once good format plan

row one byte more
times 16777217 \s
file
| plan: fault 1 TooLong
once refused format plan

row a comment, a fraction and several names, whose growths are refused
growths 5
| ; x
| 1.50: (Light a b)
file  0: (check C)
| 1.5: (light a b)
| 0: (check c)
good format plan

row a duration, whose growths are refused
growths 5
| (a)
file (b) [1]
| plan: fault 17 Duration at 2:5
refused format plan
";
