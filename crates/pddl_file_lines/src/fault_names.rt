//! Names of faults in the lines of refused files.

ghost use Rattle.std.specs.Prelude.{◌≡◌, ◌++◌, IfSome};
ghost use Rattle.pddl_faults.specs.Passes.{fault_of};
ghost use Rattle.pddl_file_lines.specs.Inner.Faults.{whole_name};
ghost use Rattle.pddl_file_lines.specs.Lines.{text_fault_name, fault_name, file_fault_name, link_fault_text};

use pddl_faults::LinkFault;
use pddl_file::FileFault;
use pddl_scan::TextFault;
use pddl_step_reader::ReadFault;

/// The number and the name of a fault, and behind these the word or the keyword that it is about, which can be empty.
#[derive(Clone, Copy)]
pub struct FaultName<'t> {
    /// The number and the name, and a space where it is about something.
    pub numbered: &'static str,
    /// What it is about.
    pub about: &'t [u8],
}

impl<'t> FaultName<'t> {
    /// A name that is about nothing further.
    pub fn plain(numbered: &'static str) -> FaultName<'t>
        ensures { whole_name result ≡ numbered.now }
    {
        FaultName::of(numbered, b"")
    }

    /// A name, a space at its end, and what it is about.
    pub fn of(numbered: &'static str, about: &'t [u8]) -> FaultName<'t>
        ensures { whole_name result ≡ numbered.now ++ about.now }
    {
        FaultName { numbered, about }
    }
}

/// The name of a fault of a text.
pub fn text_fault_name(fault: &TextFault) -> FaultName<'static>
    ensures { whole_name result ≡ text_fault_name fault.now }
{
    FaultName::plain(match fault {
        TextFault::Memory => "0 Memory",
        TextFault::TooLong => "1 TooLong",
        TextFault::Stray { .. } => "2 Stray",
        TextFault::Glued { .. } => "3 Glued",
        TextFault::NumberRange { .. } => "4 NumberRange",
        TextFault::Unopened { .. } => "5 Unopened",
        TextFault::TooDeep { .. } => "6 TooDeep",
        TextFault::Unclosed { .. } => "7 Unclosed",
        TextFault::AlreadyFailed => "9 AlreadyFailed",
    })
}

/// The name of a fault of a plan.
pub fn fault_name(fault: &ReadFault) -> FaultName<'static>
    ensures { whole_name result ≡ fault_name fault.now }
{
    match fault {
        ReadFault::Text(fault) => text_fault_name(fault),
        ReadFault::Step { .. } => FaultName::plain("15 Step"),
        ReadFault::Mixed { .. } => FaultName::plain("16 Mixed"),
        ReadFault::Duration { .. } => FaultName::plain("17 Duration"),
    }
}

/// The name of a fault of a domain or a problem.
pub fn file_fault_name(fault: &FileFault) -> FaultName<'static>
    ensures { whole_name result ≡ file_fault_name fault.now }
{
    match fault {
        FileFault::Text(fault) => text_fault_name(fault),
        FileFault::Head { .. } => FaultName::plain("10 Head"),
        FileFault::Section { .. } => FaultName::plain("11 Section"),
        FileFault::Unsupported { word, .. } => FaultName::of("12 Unsupported ", word.word()),
        FileFault::Twice { keyword, .. } => FaultName::of("13 Twice ", keyword.text()),
        FileFault::Missing { keyword } => FaultName::of("14 Missing ", keyword.text()),
    }
}

/// The name of a fault of linking.
pub fn link_fault_name<'t>(fault: &LinkFault<'t>) -> FaultName<'t>
    ensures { IfSome (fault_of fault.now) (λ f. whole_name result ≡ link_fault_text f.0 f.1) }
{
    match fault {
        LinkFault::Memory => return FaultName::plain("0 Memory"),
        LinkFault::DomainName(word) => return FaultName::of("20 DomainName ", word),
        LinkFault::TypeTwice(word) => return FaultName::of("21 TypeTwice ", word),
        LinkFault::TypeCycle(word) => return FaultName::of("22 TypeCycle ", word),
        LinkFault::UnknownType(word) => return FaultName::of("23 UnknownType ", word),
        LinkFault::NameTwice(word) => return FaultName::of("24 NameTwice ", word),
        LinkFault::ObjectTypes(word) => return FaultName::of("25 ObjectTypes ", word),
        LinkFault::UnknownName(word) => return FaultName::of("26 UnknownName ", word),
        LinkFault::Arity(word) => return FaultName::of("27 Arity ", word),
        LinkFault::ArgumentType(word) => return FaultName::of("28 ArgumentType ", word),
        LinkFault::InitContradiction(word) => return FaultName::of("29 InitContradiction ", word),
        LinkFault::FractionalCost(word) => return FaultName::of("30 FractionalCost ", word),
        LinkFault::CostValue(word) => return FaultName::of("31 CostValue ", word),
        LinkFault::ObjectFluent(word) => return FaultName::of("32 ObjectFluent ", word),
        LinkFault::Metric => return FaultName::plain("33 Metric"),
        LinkFault::GoalTooLarge => return FaultName::plain("35 GoalTooLarge"),
    }
}
