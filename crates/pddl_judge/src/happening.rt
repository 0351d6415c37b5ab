use std::alloc::Allocator;
use std::marker::Model;

/// A happening: steps that are executed at once.
#[derive(Drop)]
pub struct Happening<B: Allocator> {
    /// Its moment, in billionths, of which a happening of a plain plan has none.
    pub moment: Option<u64>,
    /// The numbers of its steps, from 0, in file order.
    pub steps: Vec<u32, B>,
}

impl<B: Allocator> Model for Happening<B> {
    ghost use Rattle.pddl_judge.specs.HappeningValues.{HappeningValue};

    ghost Value = { HappeningValue };

    ghost view = { λ h. record { moment = h.moment; steps = h.steps.items } };
}
