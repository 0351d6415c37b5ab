//! The atoms that hold at first.

pub static FIRST_ATOMS: &[u8] = br"row what holds at the beginning
copy lamps
file
copy two
change (ok b) => (on b) (not (on a)) (ok b) (ok b)
file
| 1 0
| 0 1
| 1 1
| 1 1
good list atoms
";
