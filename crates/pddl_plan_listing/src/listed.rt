//! What is listed.

use pddl_serial_plans::Order;

/// What is listed of the task of the first two files.
#[derive(Clone, Copy)]
pub enum Listed {
    /// The atoms that hold at first, by numbers.
    Atoms,
    /// What is listed of the plan in the third file.
    Plan(OfPlan),
}

/// What is listed of a linked plan.
#[derive(Clone, Copy)]
pub enum OfPlan {
    /// Its steps by numbers.
    Steps,
    /// The moment of each happening, and its steps.
    Happenings,
    /// The end of each serial run of which a line of the fourth file has the steps.
    Replays,
    /// What depends on a store of atoms.
    Stored(Stored),
}

/// What is listed of a linked plan over a store of atoms.
#[derive(Clone, Copy)]
pub enum Stored {
    /// The verdict, as `plan` prints it.
    Verdict,
    /// The verdict, and the end of an accepted plan.
    End,
    /// The plan that is made of an accepted one.
    Made(Made),
    /// What its steps are in the state that it starts in, and then that state and its goal.
    Asked(Asked),
}

/// Plans that are made of an accepted one. Each is listed with its own verdict and end.
#[derive(Clone, Copy)]
pub enum Made {
    /// Its serial form.
    Serial(Order),
    /// Its split by the groups of each line of the fourth file.
    Splits,
}

/// What is asked of each step in a state.
#[derive(Clone, Copy)]
pub enum Asked {
    /// Whether its precondition is true.
    Truth,
    /// The atoms that it reads.
    Reads,
    /// The atoms that it adds and deletes.
    Fired,
    /// What it costs.
    Costs,
}
