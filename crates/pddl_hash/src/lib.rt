//! How tables of names and atoms hash: by a hasher that starts from a digest of the texts that these come from.
//!
//! Where a hasher starts from a number that is known beforehand, a file can have names that all begin their search at one place of a table, and each look-up
//! passes over them all. A digest of a text is another one with each byte of it, so no text has names that were chosen for its own.
#![tactic(auto)]

use std::hash::{BuildHasher, DefaultHasher, FoldHasher, Hasher};

/// How tables hash. What a table answers does not depend on it, and nothing is promised of it.
#[derive(Clone, Copy)]
pub struct Hashed {
    start: FoldHasher,
}

impl Hashed {
    /// By a digest of a text's bytes.
    pub fn of(text: &[u8]) -> Hashed {
        let mut digest = DefaultHasher::new();
        digest.write(text);
        Hashed::by(digest.finish())
    }

    /// By a digest of what this one and another hash by.
    pub fn with(self, other: Hashed) -> Hashed {
        let mut digest = DefaultHasher::new();
        digest.write_u64(self.start.finish());
        digest.write_u64(other.start.finish());
        Hashed::by(digest.finish())
    }

    fn by(digest: u64) -> Hashed {
        let mut start = FoldHasher::default();
        start.write_u64(digest);
        Hashed { start }
    }
}

impl BuildHasher for Hashed {
    type Hasher = FoldHasher;

    ghost build_hasher = { λ hashed. hashed.start };

    fn build_hasher(&self) -> FoldHasher {
        self.start
    }
}
