//! Entries of tables by key.
//!
//! Their values are of any type here: a check does little for a value of which nothing is known, wherever memory is refused.

ghost use Rattle.std.specs.Prelude.{◌≡◌, ◌<◌, ◌^◌, ◌++◌, ◌∷◌, [], Err, IfOk, OnOk, MatchOption, MatchResult};
ghost use Rattle.indexmap.specs.IndexMap.{index_of, insert_index, IsUnique};
ghost use Rattle.pddl_faults.specs.declared.fault.LinkFault.TheVariants.{Memory};

use indexmap::IndexMap;
use indexmap::map::Entry;
use pddl_faults::LinkFault;
use pddl_hash::Hashed;
use std::alloc::Allocator;
use std::hash::Hash;

/// Puts what is made last, under a key, where it could be made and the key is new. Answers the place of the key's entry.
///
/// # Errors
///
/// Why it could not be made; `LinkFault::Memory` where memory for the entry is refused.
pub(crate) fn put_new<'m, K: Eq + Hash + Drop, V: Drop, B: Allocator>(
    table: &mut IndexMap<K, V, Hashed, B>,
    key: K,
    made: Result<V, LinkFault<'m>>,
) -> Result<usize, LinkFault<'m>>
    ensures place { IfOk result (λ place. (place ≡ insert_index K.eq table.old key) × (place < 2 ^ 63)) }
    ensures entries { MatchResult made.entry
        (λ value. MatchResult result
        (λ _. MatchOption (index_of K.eq table.old key) (table.new.entries ≡ table.old.entries ++ (key, value) ∷ []) (λ _. table.new.entries ≡ table.old.entries))
        (λ fault. (table.new.entries ≡ table.old.entries) × (fault ≡ Memory)))
        (λ fault. (table.new.entries ≡ table.old.entries) × (result ≡ Err fault)) }
    ensures unique { OnOk result (IsUnique K.eq table.new) }
{
    match made {
        Ok(value) => {
            let last = table.len();
            match table.entry(key)? {
                Entry::Occupied(first) => Ok(first.index()),
                Entry::Vacant(new) => {
                    new.insert(value);
                    Ok(last)
                }
            }
        }
        Err(fault) => Err(fault),
    }
}
