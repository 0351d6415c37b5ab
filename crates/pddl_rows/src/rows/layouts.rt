//! Canonical texts, made in memory and written in pieces.

pub static LAYOUTS: &[u8] = br"row lamps
copy lamps
file
copy lamps
good text domain
copy lamps
good pieces domain

row two lamps
copy two
file
copy two
good text problem
copy two
good pieces problem

row a comment, a fraction and several names
growths 5
| ; x
| 1.50: (Light a b)
file  0: (check C)
| 1.5: (light a b)
| 0: (check c)
good text plan
| 1.5: (light a b)
| 0: (check c)
good pieces plan
";
