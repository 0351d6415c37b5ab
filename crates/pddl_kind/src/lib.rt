//! What a file can hold: the one type that the words of a command line and the commands share.
#![tactic(auto)]

ghost use Rattle.std.specs.Prelude.{◌≡◌};
ghost use Rattle.pddl_kind.specs.Kinds.{kind_word};

/// What a file holds.
#[derive(Clone, Copy, Debug, PartialEq, Eq)]
pub enum Kind {
    /// A planning domain, as Kovacs' BNF definition of PDDL 3.1 has it.
    Domain,
    /// A planning problem, likewise.
    Problem,
    /// A plan, in the form of VAL's plan files.
    Plan,
}

impl Kind {
    /// What a file of the kind is called, on the command line and in the line that refuses it.
    pub fn word(self) -> &'static [u8]
        ensures { result.now ≡ kind_word self }
    {
        match self {
            Kind::Domain => b"domain",
            Kind::Problem => b"problem",
            Kind::Plan => b"plan",
        }
    }
}
