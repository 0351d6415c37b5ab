ghost use Rattle.std.specs.Prelude.{◌≡◌, ◌<◌, ◌≤◌, ℕ, Bool, IfOk};
ghost use Rattle.pddl_state.specs.Atoms.{AtomValue};
ghost use Rattle.pddl_happenings.specs.Steps.{Step, IsFramed};

use pddl_state::AtomStore;
use std::alloc::{AllocError, Allocator};

/// The steps of a plan by number, from 0, and its goal, over any store.
///
/// A set handed in is one of the store handed in with it, and a set answered is so too. Whatever is answered, every set
/// of the store stays its own and keeps its content. Calls fail only for want of memory. The laws are this project's
/// own; what they speak of is that of Fox and Long, PDDL2.1, JAIR 20, 2003.
pub trait Course<A: Allocator, S: AtomStore<A>> {
    /// How many steps there are.
    ghost count_of: { Self → ℕ };

    /// What the step of a number does.
    ghost steps_of: { Self → ℕ → Step AtomValue };

    /// Whether the goal is true in a state.
    ghost goal_of: { Self → (AtomValue → Bool) → Bool };

    /// Whether the goal is true in a state.
    fn goal_holds(&self, store: &S, state: &S::Set) -> Result<bool, AllocError>
        requires { S.owns store.now state.now }
        ensures { IfOk result (λ yes. yes ≡ goal_of self.now (S.content store.now state.now)) };

    /// Whether a step's precondition is true in a state.
    fn holds(&self, step: u32, store: &S, state: &S::Set) -> Result<bool, AllocError>
        requires step { step < count_of self.now }
        requires own { S.owns store.now state.now }
        ensures { IfOk result (λ yes. yes ≡ (steps_of self.now step).ready (S.content store.now state.now)) };

    /// A set of the atoms that a step reads.
    fn reads(&self, step: u32, store: &mut S) -> Result<S::Set, AllocError>
        requires { step < count_of self.now }
        ensures own { IfOk result (λ set. S.owns store.new set) }
        ensures content { IfOk result (λ set. S.content store.new set ≡ (steps_of self.now step).reads) }
        ensures others_own { (t : S.Set) → S.owns store.old t → S.owns store.new t }
        ensures others { (t : S.Set) → S.owns store.old t → S.content store.new t ≡ S.content store.old t };

    /// A set of the atoms that a step adds in a state, and one of those that it deletes there.
    fn fired(
        &self,
        step: u32,
        store: &mut S,
        state: &S::Set,
    ) -> Result<(S::Set, S::Set), AllocError>
        requires step { step < count_of self.now }
        requires own { S.owns store.old state.now }
        ensures adds_own { IfOk result (λ sets. S.owns store.new sets.0) }
        ensures dels_own { IfOk result (λ sets. S.owns store.new sets.1) }
        ensures adds { IfOk result (λ sets. S.content store.new sets.0 ≡ (steps_of self.now step).adds (S.content store.old state.now)) }
        ensures dels { IfOk result (λ sets. S.content store.new sets.1 ≡ (steps_of self.now step).dels (S.content store.old state.now)) }
        ensures others_own { (t : S.Set) → S.owns store.old t → S.owns store.new t }
        ensures others { (t : S.Set) → S.owns store.old t → S.content store.new t ≡ S.content store.old t };

    /// What a step costs in a state: at most a million times 2^64.
    fn cost(&self, step: u32, store: &S, state: &S::Set) -> Result<u128, AllocError>
        requires step { step < count_of self.now }
        requires own { S.owns store.now state.now }
        ensures value { IfOk result (λ c. c ≡ (steps_of self.now step).cost (S.content store.now state.now)) }
        ensures bound { IfOk result (λ c. c ≤ 18446744073709551616000000) };

    /// What a step does depends only on what it reads.
    ghost framed: { (p : Self) (k : ℕ) → IsFramed (steps_of p k) };
}
