//! Names that are lent, as keys of tables.

ghost use Rattle.std.proofs.Common.{ap};
ghost use Rattle.std.specs.Prelude.{◌≡◌, ◌≤◌, take, bytes_eq};
ghost use Rattle.std.specs.Cmp.{partial_equiv_from_equiv};
ghost use Rattle.std.specs.Cmp.Lexicographic.{bytes_decides, nat_list_eq_equiv};
ghost use Rattle.pddl_token.specs.Names.{fed_name};

use crate::name::{FEW, NameText};
use std::hash::{Hash, Hasher};
use std::marker::Model;

/// A name that is lent, as a key of a table holds it: a short one's bytes lie in the value itself, so that to compare it no other memory is looked at.
///
/// Contracts see it as its bytes.
#[derive(Drop)]
pub struct LentName<'n> {
    text: NameText<&'n [u8]>,
}

impl<'n> Model for LentName<'n> {
    ghost use Rattle.std.specs.Prelude.{List, ℕ};
    ghost use Rattle.pddl_token.specs.NameTexts.{letters_of, HasRoom};

    ghost Value = { List ℕ };

    ghost view = { λ n. letters_of (λ t. t.now) n.text };

    ghost invariant = { λ n. HasRoom n.text };
}

impl<'n> LentName<'n> {
    /// So many of these bytes, which have zeros behind them.
    pub(crate) fn few(len: u8, bytes: [u8; FEW]) -> LentName<'n>
        requires { len ≤ FEW }
        ensures { result ≡ take len bytes }
    {
        LentName {
            text: NameText::Few(len, bytes),
        }
    }

    /// These bytes, whether they are a name or not: of up to 22 a copy.
    pub fn of(bytes: &'n [u8]) -> LentName<'n>
        ensures { result ≡ bytes.now }
    {
        let len = bytes.len();
        if len <= FEW {
            let mut few = [0; FEW];
            few[..len].copy_from_slice(bytes);
            LentName::few(len as u8, few)
        } else {
            LentName {
                text: NameText::Many(bytes),
            }
        }
    }

    /// The bytes.
    pub fn as_bytes(&self) -> &[u8]
        ensures { result.now ≡ self.now }
    {
        match &self.text {
            NameText::Few(len, bytes) => &bytes[..*len as usize],
            NameText::Many(bytes) => *bytes,
        }
    }
}

/// Names are equal where their bytes are.
impl<'n> PartialEq for LentName<'n> {
    ghost eq = { bytes_eq };

    ghost laws = { partial_equiv_from_equiv nat_list_eq_equiv };

    fn eq(&self, other: &LentName<'n>) -> bool {
        self.text.is_same_few(&other.text) || self.as_bytes() == other.as_bytes()
    }
}

impl<'n> Eq for LentName<'n> {
    ghost laws = { nat_list_eq_equiv };
}

impl<'n> Hash for LentName<'n> {
    ghost hash_input = { fed_name };

    ghost respects_eq = { λ m n same. ap fed_name ((bytes_decides m n).0 same) };

    fn hash<H: Hasher>(&self, state: &mut H) {
        state.write(self.as_bytes());
    }
}
