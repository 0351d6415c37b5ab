//! The lowest fault, of what is found in two parts, and the fault of a name that does not stand alone.

ghost use Rattle.std.specs.Prelude.{◌++◌, ℕ, List, OnOk, IsOk, not};
ghost use Rattle.pddl_task.specs.Names.{Name, word_if};
ghost use Rattle.pddl_faults.specs.Passes.{Passes};
ghost use Rattle.pddl_faults.specs.Found.{IsFound};

use crate::fault::LinkFault;

/// The lower of the faults that are found in two parts, the first of two with one number. `Memory` is lower than any fault, since what
/// was not looked at may have one.
pub fn lower<'d>(
    first: Result<(), LinkFault<'d>>,
    second: Result<(), LinkFault<'d>>,
) -> Result<(), LinkFault<'d>>
    ensures found { (xs ys : List (ℕ × Name)) → IsFound xs first.entry → IsFound ys second.entry → IsFound (xs ++ ys) result }
    ensures both { OnOk result (IsOk first.entry × IsOk second.entry) }
{
    match first {
        Ok(()) => second,
        Err(fault) => match second {
            Ok(()) => Err(fault),
            Err(other) => if other.number() < fault.number() {
                Err(other)
            } else {
                Err(fault)
            },
        },
    }
}

/// A name stands alone.
pub fn once<'d>(is_alone: bool, name: &'d [u8]) -> Result<(), LinkFault<'d>>
    ensures { Passes 24 (word_if (not is_alone) name.now) result }
{
    if is_alone {
        Ok(())
    } else {
        Err(LinkFault::NameTwice(name))
    }
}
