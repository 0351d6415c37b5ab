//! Growths in the order in which they are asked for, and which of them are refused.

use std::cell::Cell;

/// Which growths are refused.
#[derive(Clone, Copy, Debug, PartialEq, Eq)]
pub(crate) enum Refused {
    /// The one of this number, counted from 1.
    Nth(u64),
    /// All.
    Each,
}

/// How many growths were asked for so far, and whether one was refused.
#[derive(Drop)]
pub(crate) struct Growths {
    refused: Refused,
    asked: Cell<u64>,
    has_refused: Cell<bool>,
}

impl Growths {
    /// No growth was asked for yet.
    pub(crate) fn new(refused: Refused) -> Self {
        Growths {
            refused,
            asked: Cell::new(0),
            has_refused: Cell::new(false),
        }
    }

    /// Counts one more growth, and answers whether it is refused.
    pub(crate) fn refuses_next(&self) -> bool {
        let number = self.asked.get().saturating_add(1);
        self.asked.set(number);
        let refuses = match self.refused {
            Refused::Nth(nth) => number == nth,
            Refused::Each => true,
        };
        if refuses {
            self.has_refused.set(true);
        }
        refuses
    }

    /// How many growths were asked for; at `u64::MAX` the count stays.
    pub(crate) fn asked(&self) -> u64 {
        self.asked.get()
    }

    /// Whether a growth was refused.
    pub(crate) fn has_refused(&self) -> bool {
        self.has_refused.get()
    }
}
