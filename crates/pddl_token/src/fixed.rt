//! Numbers in billionths.

ghost use Rattle.std.specs.Prelude.{◌≡◌, ◌≤◌, ◌↔◌, ℕ, Some, IsSome, IfSome};
ghost use Rattle.pddl_token.specs.Words.{IsNumber};
ghost use Rattle.pddl_token.specs.Number.{value_of};
ghost use Rattle.pddl_token.specs.NumberText.{number_text};

use std::marker::Model;

/// The largest number in billionths, which is 9999999999.999999999. Own.
pub const LARGEST: u64 = 9_999_999_999_999_999_999;

/// A number of at most 9999999999.999999999, as a whole number of billionths. Two are equal where their billionths are.
/// Own: PDDL's numbers have no range. Contracts see it as its billionths.
#[derive(Clone, Copy, Debug, PartialEq, Eq)]
pub struct Fixed {
    billionths: u64,
}

impl Model for Fixed {
    ghost use Rattle.std.specs.Prelude.{ℕ, ◌≤◌};
    ghost use Rattle.pddl_token.specs.Number.{largest};

    ghost Value = { ℕ };

    ghost view = { λ n. n.billionths };

    ghost inverse = { λ n. record { billionths = n } };

    ghost invariant = { λ n. n.billionths ≤ largest };
}

impl Fixed {
    /// The number of so many billionths; None over [`LARGEST`].
    pub fn new(billionths: u64) -> Option<Fixed>
        ensures some { IsSome result ↔ (billionths ≤ LARGEST) }
        ensures value { IfSome result (λ n. n ≡ billionths) }
    {
        if billionths <= LARGEST {
            Some(Fixed { billionths })
        } else {
            None
        }
    }

    /// How many billionths the number is.
    pub fn billionths(&self) -> u64
        ensures value { result ≡ self.now }
        ensures in_range { result ≤ LARGEST }
    {
        self.billionths
    }
}

/// The canonical text of a number in range, its digits with neither zeros in front nor zeros at the end of its decimals,
/// is a number with that value.
pub fn number_reads_back()
    ensures number { (n : ℕ) → n ≤ LARGEST → IsNumber (number_text n) }
    ensures value { (n : ℕ) → n ≤ LARGEST → value_of (number_text n) ≡ Some n }
{}
