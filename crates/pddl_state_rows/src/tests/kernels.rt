use pddl_bit_rows::{rows_disjoint, rows_subtract, rows_unite};

#[test]
fn rows_of_the_table(rt: HostRuntime) {
    assert!(rt; disjoint_rows(), "disjoint");
    assert!(rt; unites(&mut [1, 4], &[2], &[3, 4]), "unite");
    assert!(rt; subtracts(&mut [7, 1], &[2], &[5, 1]), "subtract");
    assert!(rt; subtracts(&mut [7], &[2, 9], &[5]), "subtract more");
}

fn disjoint_rows() -> bool {
    rows_disjoint(&[], &[5]) && rows_disjoint(&[1], &[2, 1]) && !rows_disjoint(&[1, 4], &[2, 6])
}

// The condition is that the other row is no longer.
fn unites(row: &mut [u64], more: &[u64], united: &[u64]) -> bool {
    if more.len() <= row.len() {
        rows_unite(row, more);
    }
    *row == *united
}

fn subtracts(row: &mut [u64], less: &[u64], rest: &[u64]) -> bool {
    rows_subtract(row, less);
    *row == *rest
}

// Lengths about a whole number of eight words.
const LENGTHS: [usize; 6] = [0, 1, 7, 8, 9, 17];

// A word of one row has bits that no word of the other has, and bits that each word of the other has.
const OWN: u64 = 0xF0F0_0F0F_0000_1111;

const OTHER: u64 = 0x0F0F_F0F0_0000_2222;

const BOTH: u64 = 0x0000_0000_8000_4444;

fn first(row: &[u64], length: usize) -> &[u64] {
    &row[..length.min(row.len())]
}

#[test]
fn at_each_length(rt: HostRuntime) {
    for length in LENGTHS {
        for other_length in LENGTHS {
            assert!(rt;
                disjoint_at(length, other_length)
                    && unites_at(length, other_length)
                    && subtracts_at(length, other_length),
                "{length} words with {other_length}"
            );
        }
    }
}

// No bit in common, but for one that stands in one place of the shorter row in turn.
fn disjoint_at(length: usize, other_length: usize) -> bool {
    let mut is_right = rows_disjoint(first(&[OWN; 17], length), first(&[OTHER; 17], other_length));
    for at in 0..17usize {
        let apart = at >= length || at >= other_length;
        is_right = is_right && disjoint_touched(at, length, other_length) == apart;
    }
    is_right
}

// Whether the rows are disjoint where both have a bit more in one place.
fn disjoint_touched(at: usize, length: usize, other_length: usize) -> bool {
    let mut row = [OWN; 17];
    let mut other = [OTHER; 17];
    touch(&mut row, at);
    touch(&mut other, at);
    rows_disjoint(first(&row, length), first(&other, other_length))
}

fn touch(row: &mut [u64], at: usize) {
    if at < row.len() && at < 17 {
        row[at] |= 1 << (4 * at % 64);
    }
}

fn unites_at(length: usize, other_length: usize) -> bool {
    let mut row = [OWN | BOTH; 17];
    let other = [OTHER | BOTH; 17];
    let end = length.min(17);
    let more = first(&other, other_length);
    // The condition is that the other row is no longer.
    if more.len() <= end {
        rows_unite(&mut row[..end], more);
    }
    let united = if other_length <= length {
        other_length
    } else {
        0
    };
    has_words(&row, united, OWN | OTHER | BOTH, OWN | BOTH)
}

fn subtracts_at(length: usize, other_length: usize) -> bool {
    let mut row = [OWN | BOTH; 17];
    let other = [OTHER | BOTH; 17];
    let end = length.min(17);
    rows_subtract(&mut row[..end], first(&other, other_length));
    has_words(&row, length.min(other_length), OWN, OWN | BOTH)
}

// Whether each word before a place is the one, and each from it on the other.
fn has_words(row: &[u64], place: usize, before: u64, after: u64) -> bool {
    for at in 0..row.len() {
        if row[at] != if at < place { before } else { after } {
            return false;
        }
    }
    true
}
