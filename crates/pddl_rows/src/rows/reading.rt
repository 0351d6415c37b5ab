//! Texts that are read up to a limit and written.

pub static READING: &[u8] = br"row nothing and a limit of 0
file
file 0
good read

row nothing and a limit of 1
file
file 1
good read

row nothing and a limit of 4096
file
file 4096
good read

row one byte and a limit of 1
part x
file
file 1
part x
good read

row one byte and a limit of 2
part x
file
file 2
part x
good read

row one byte and a limit of 4097
part x
file
file 4097
part x
good read

row one byte and a limit of 0
part x
file
file 0
| too long
refused read

row twenty bytes and a limit of 20
| (light a)
| (light b)
file
file 20
| (light a)
| (light b)
good read

row twenty bytes and a limit of 21
| (light a)
| (light b)
file
file 21
| (light a)
| (light b)
good read

row twenty bytes and a limit of 4116
| (light a)
| (light b)
file
file 4116
| (light a)
| (light b)
good read

row twenty bytes and a limit of 19
| (light a)
| (light b)
file
file 19
| too long
refused read

row as many bytes as grow more than once and a limit of 5000
growths 2
times 5000 x
file
file 5000
times 5000 x
good read

row as many bytes as grow more than once and a limit of 5001
growths 2
times 5000 x
file
file 5001
times 5000 x
good read

row as many bytes as grow more than once and a limit of 9096
growths 2
times 5000 x
file
file 9096
times 5000 x
good read

row as many bytes as grow more than once and a limit of 4999
times 5000 x
file
file 4999
| too long
refused read
";
