//! Texts of rows, each for a subject. They are bytes, so that a check need not prove that they are UTF-8.

mod ends;
mod first_atoms;
mod groups;
mod moments;
mod plans;
mod quantifiers;
mod refused_plans;
mod replays;
mod serial_forms;
mod serials;
mod splits;
mod states;
mod steps;

pub use ends::ENDS;
pub use first_atoms::FIRST_ATOMS;
pub use groups::GROUPS;
pub use moments::MOMENTS;
pub use plans::PLANS;
pub use quantifiers::QUANTIFIERS;
pub use refused_plans::REFUSED_PLANS;
pub use replays::REPLAYS;
pub use serial_forms::SERIAL_FORMS;
pub use serials::SERIALS;
pub use splits::SPLITS;
pub use states::STATES;
pub use steps::STEPS;
