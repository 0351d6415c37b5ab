//! Atoms that are looked up.

ghost use Rattle.std.specs.Prelude.{◌≡◌, OnOk, map};
ghost use Rattle.pddl_compiled.specs.Views.{frame_view, place_view};
ghost use Rattle.pddl_compiled.specs.CompiledMeaning.{atom_in};

use crate::compiled::Place;
use crate::frame::{Frame, object_in};
use pddl_state::Atom;
use std::alloc::{AllocError, Allocator};

/// Makes an atom that of a predicate and the objects at places. Its memory is used again.
///
/// Fails where memory for its arguments is refused.
pub fn fill<'f, B: Allocator>(
    atom: &mut Atom<B>,
    predicate: usize,
    places: &[Place],
    frame: &'f Frame<'f>,
) -> Result<(), AllocError>
    ensures { OnOk result (atom.new ≡ atom_in (frame_view frame.now) predicate (map place_view places.now)) }
{
    atom.predicate = predicate;
    atom.args.clear();
    for place in places {
        atom.args.push(object_in(&*frame, *place))?;
    }
    Ok(())
}
