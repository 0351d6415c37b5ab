//! The objects of the variables in scope.

ghost use Rattle.std.specs.Prelude.{◌≡◌, get_or};
ghost use Rattle.pddl_compiled.specs.CompiledMeaning.{object_in};
ghost use Rattle.pddl_compiled.specs.Views.{place_view, frame_view};

use crate::compiled::Place;

/// The objects of the variables in scope: those of a step, in the order of its action's parameters, or that of a quantifier's variable
/// and a frame outside it.
#[derive(Drop)]
pub enum Frame<'f> {
    Step(&'f [usize]),
    Bound(usize, &'f Frame<'f>),
}

/// The object at a place of a frame, or 0 behind the last.
fn held<'f>(frame: &'f Frame<'f>, place: usize) -> usize
    ensures { result ≡ get_or (frame_view frame.now) place 0 }
{
    match frame {
        Frame::Step(objects) => {
            if place < objects.len() {
                objects[objects.len() - 1 - place]
            } else {
                0
            }
        }
        Frame::Bound(object, outer) => {
            if place == 0 {
                *object
            } else {
                held(outer, place - 1)
            }
        }
    }
}

/// The object that a place is or holds.
pub fn object_in<'f>(frame: &'f Frame<'f>, place: Place) -> usize
    ensures { result ≡ object_in (frame_view frame.now) (place_view place) }
{
    match place {
        Place::Fixed(object) => object,
        Place::Held(at) => held(frame, at),
    }
}
