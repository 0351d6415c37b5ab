//! Why files are not linked.

ghost use Rattle.std.specs.Prelude.{◌≡◌};
ghost use Rattle.std.specs.Option.{option_map_or};
ghost use Rattle.pddl_faults.specs.Passes.{fault_of};
ghost use Rattle.pddl_faults.specs.declared.fault.LinkFault.TheVariants.{Memory};

use std::alloc::{AllocError, AllocFailed};
use std::error::Error;
use std::fmt::{self, Debug, Display, Formatter, Write};

/// Why a domain, or a domain with a problem, is not linked: the fault, and its word where it has one. A variable's word is its
/// name without `?`. Own.
#[derive(Clone, Copy)]
pub enum LinkFault<'d> {
    /// A growth was refused.
    Memory,
    /// 20: the problem's `:domain` is not the domain's name. The word is the name in `:domain`.
    DomainName(&'d [u8]),
    /// 21: a name is declared twice in `:types`. The word is the type.
    TypeTwice(&'d [u8]),
    /// 22: a type is above itself. The word is the first type in `:types` that is.
    TypeCycle(&'d [u8]),
    /// 23: a type that is used is no type of the domain. The word is the type.
    UnknownType(&'d [u8]),
    /// 24: a predicate, a function, an action or a variable stands twice, or an object with two types. The word is the name.
    NameTwice(&'d [u8]),
    /// 25: a constant or an object whose type has more than one primitive. The word is the object.
    ObjectTypes(&'d [u8]),
    /// 26: a predicate, a function, a constant, an object or a variable that is not declared. The word is the name.
    UnknownName(&'d [u8]),
    /// 27: another number of terms than declared. The word is the predicate or the function.
    Arity(&'d [u8]),
    /// 28: a term that does not fit its slot. The word is the predicate or the function.
    ArgumentType(&'d [u8]),
    /// 29: an atom holds and fails in `:init`. The word is the predicate.
    InitContradiction(&'d [u8]),
    /// 30: a number that is not whole, in an increase or in `:init`. The word is `total-cost`, or the function.
    FractionalCost(&'d [u8]),
    /// 31: two different values for one function of objects, or a start of `total-cost` other than 0. The word is the function.
    CostValue(&'d [u8]),
    /// 32: a declared function whose result is not `number`. The word is the function.
    ObjectFluent(&'d [u8]),
    /// 33: a metric that is not `minimize` of `total-cost` without arguments.
    Metric,
    /// 35: the goal's ground size is over 1,000,000.
    GoalTooLarge,
}

impl<'d> LinkFault<'d> {
    /// Its number, or 0 where memory was refused, and what it says.
    fn facts(&self) -> (u8, &'static str)
        ensures { result.0 ≡ option_map_or (λ f. f.0) (fault_of self.now) 0 }
    {
        match self {
            LinkFault::Memory => (0, "memory was refused"),
            LinkFault::DomainName(_) => (20, "the problem is of another domain"),
            LinkFault::TypeTwice(_) => (21, "a type is declared twice"),
            LinkFault::TypeCycle(_) => (22, "a type is above itself"),
            LinkFault::UnknownType(_) => (23, "a type is not known"),
            LinkFault::NameTwice(_) => (24, "a name stands twice"),
            LinkFault::ObjectTypes(_) => (25, "an object has several types"),
            LinkFault::UnknownName(_) => (26, "a name is not known"),
            LinkFault::Arity(_) => (27, "a number of terms other than declared"),
            LinkFault::ArgumentType(_) => (28, "a term does not fit its slot"),
            LinkFault::InitContradiction(_) => (29, "an atom holds and fails at the start"),
            LinkFault::FractionalCost(_) => (30, "a cost is not whole"),
            LinkFault::CostValue(_) => (31, "a cost has another value"),
            LinkFault::ObjectFluent(_) => (32, "a function does not give a number"),
            LinkFault::Metric => (33, "another metric than the total cost"),
            LinkFault::GoalTooLarge => (35, "the goal is too large"),
        }
    }

    /// Its number, or 0 where memory was refused.
    pub fn number(&self) -> u8
        ensures { result ≡ option_map_or (λ f. f.0) (fault_of self.now) 0 }
    {
        self.facts().0
    }
}

impl<'d> Display for LinkFault<'d> {
    fn fmt<W: Write>(&self, f: &mut Formatter<W>) -> fmt::Result {
        f.write_str(self.facts().1)
    }
}

impl<'d> Debug for LinkFault<'d> {
    fn fmt<W: Write>(&self, f: &mut Formatter<W>) -> fmt::Result {
        Display::fmt(self, f)
    }
}

impl<'d> Error for LinkFault<'d> {}

impl<'d> From<AllocError> for LinkFault<'d> {
    ghost from_gives = { λ _ fault. fault ≡ Memory };

    fn from(_error: AllocError) -> LinkFault<'d> {
        LinkFault::Memory
    }
}

impl<'d, T: Drop> From<AllocFailed<T>> for LinkFault<'d> {
    ghost from_gives = { λ _ fault. fault ≡ Memory };

    fn from(_error: AllocFailed<T>) -> LinkFault<'d> {
        LinkFault::Memory
    }
}
