//! The happenings of plans: the moment of each in billionths, and its steps.

pub static MOMENTS: &[u8] = br"row no steps
copy lamps
file
copy two
change (and (on a) (on b)) => (and)
file
file
good list happenings

row plain steps
growths 5
copy lamps
file
copy two
change (and (on a) (on b)) => (and)
file
| (check b)
| (light a)
| (check b)
file
| none : 0
| none : 1
| none : 2
good list happenings

row moments in another order than in the file
growths 5
copy lamps
file
copy two
change (and (on a) (on b)) => (and)
file
| 2: (light b)
| 1: (light a)
| 2.0: (check a)
| 0: (dark)
file
| 0 : 3
| 1000000000 : 1
| 2000000000 : 0 2
good list happenings

row fractions
copy lamps
file
copy two
change (and (on a) (on b)) => (and)
file
| 0.5: (check a)
| 0.50: (check b)
| 0.500000001: (check a)
| 00.5: (check a)
file
| 500000000 : 0 1 3
| 500000001 : 2
good list happenings

row the greatest moment, and moments that are not in the order of their words
copy lamps
file
copy two
change (and (on a) (on b)) => (and)
file
| 9999999999.999999999: (check a)
| 10: (check b)
| 9: (check b)
| 9.10: (check a)
| 9.9: (check a)
| 9.1: (check a)
file
| 9000000000 : 2
| 9100000000 : 3 5
| 9900000000 : 4
| 10000000000 : 1
| 9999999999999999999 : 0
good list happenings

row steps need not be accepted
copy lamps
file
copy two
change (and (on a) (on b)) => (and)
file
| 1: (light a)
| 1: (light a)
file
| 1000000000 : 0 1
good list happenings
";
