//! Plans read from texts.

ghost use Rattle.std.specs.Prelude.{◌≡◌, ◌≢◌, ◌≤◌, ◌<◌, ◌++◌, [], ◌⊎◌, ◌↔◌, Some, ℕ, false, List, length, IfOk, IfErr, OnOk, OnErr, MatchResult, Err};
ghost use Rattle.pddl_scan.specs.declared.fault.TextFault.TheVariants.{Memory, TooLong, AlreadyFailed};
ghost use Rattle.pddl_token.specs.Spelling.{PlacedWord, Spells};
ghost use Rattle.pddl_scan.specs.Faults.{AreValued, Stands};
ghost use Rattle.pddl_text.specs.StandsFor.{IsGoing};
ghost use Rattle.pddl_step_reader.specs.declared.fault.ReadFault.{ReadFault};
ghost use Rattle.pddl_step_reader.specs.declared.fault.ReadFault.TheVariants.{Text};
ghost use Rattle.pddl_plan.specs.Plans.{PlanValue, plan_view, built_plan};
ghost use Rattle.pddl_step_reader.specs.PlanTexts.{SpellsPlan, PlanStands, without_near};
ghost use Rattle.pddl_step_reader.specs.Places.{fault_place};
ghost use Rattle.pddl_step_reader.specs.Inner.StepWords.{AreStepWords, ReadsTo};

use pddl_plan::{Plan, PlanBuilder};
use pddl_scan::{LONGEST, TextFault, WordList};
use pddl_step_reader::{Place, ReadFault, add_steps, read_on};
use pddl_text::{PlanLexer, lists};
use std::alloc::Allocator;

/// The plan that a text spells which comes in pieces: what [`read_plan`] answers for the whole, however it is cut.
///
/// It keeps the plan's steps, and of the text the words behind the last whole step: those of the step that has begun, and
/// where a word fits no step all from the beginning of that step on, of which [`finish`](PlanReader::finish) says what is
/// wrong. Of blanks and comments it keeps nothing. Own.
#[derive(Drop)]
pub struct PlanReader<A: Allocator> {
    alloc: A,
    lexer: PlanLexer<A>,
    /// The words of the piece.
    words: WordList<A>,
    plan: PlanBuilder<A>,
    place: Place,
    /// The words behind the last whole step.
    kept: WordList<A>,
    /// Whether a piece was refused.
    failed: bool,
    ghost lexes: { failed ≡ false → IsGoing lexer },
}

/// Reads the words that are kept, behind those of whole steps that were read.
fn read_rest<'a, B: Allocator>(
    alloc: &'a B,
    plan: &mut PlanBuilder<&'a B>,
    kept: &WordList<&'a B>,
) -> Result<(), ReadFault>
    ensures plan { (text : List ℕ) (done : List PlacedWord) → length text ≤ LONGEST → Spells (done ++ kept.now) text → AreValued (done ++ kept.now) → AreStepWords plan.old done
        → OnOk result (SpellsPlan (built_plan plan.new) text) }
    ensures fault { (text : List ℕ) (done : List PlacedWord) → length text ≤ LONGEST → Spells (done ++ kept.now) text → AreValued (done ++ kept.now) → AreStepWords plan.old done
        → IfErr result (λ fault. PlanStands fault text) }
    ensures faults { IfErr result (λ fault. fault ≢ Text AlreadyFailed) }
{
    if kept.len() == 0 {
        return Ok(());
    }
    plan.give_up_step();
    let tokens = kept.tokens(alloc)?;
    let items = match lists(alloc, &tokens) {
        Ok(items) => items,
        Err(fault) => return Err(ReadFault::Text(fault)),
    };
    add_steps(plan, &items)
}

/// Reads the last words of a text, if no fault of theirs came in their place, and those that are kept.
fn read_last<'a, B: Allocator>(
    alloc: &'a B,
    ended: Result<(), TextFault>,
    plan: &mut PlanBuilder<&'a B>,
    place: Place,
    words: &WordList<&'a B>,
    kept: &mut WordList<&'a B>,
) -> Result<(), ReadFault>
    ensures plan { (text : List ℕ) (done : List PlacedWord) → length text ≤ LONGEST
        → OnOk ended (Spells ((done ++ kept.old) ++ words.now) text × AreValued ((done ++ kept.old) ++ words.now)) → ReadsTo place plan.old done kept.old
        → OnOk result (SpellsPlan (built_plan plan.new) text) }
    ensures fault { (text : List ℕ) (done : List PlacedWord) → length text ≤ LONGEST
        → OnOk ended (Spells ((done ++ kept.old) ++ words.now) text × AreValued ((done ++ kept.old) ++ words.now)) → ReadsTo place plan.old done kept.old
        → IfErr ended (λ fault. Stands fault text) → IfErr result (λ fault. PlanStands fault text) }
    ensures faults { ended ≢ Err AlreadyFailed → result ≢ Err (Text AlreadyFailed) }
{
    if let Err(fault) = ended {
        return Err(ReadFault::Text(fault));
    }
    if let Err(error) = read_on(plan, place, words, kept) {
        return Err(ReadFault::from(error));
    }
    read_rest(alloc, plan, kept)
}

/// The plan of the steps that were read, if all of them were.
fn read_whole<A: Allocator>(
    plan: PlanBuilder<A>,
    read: Result<(), ReadFault>,
) -> Result<Plan<A>, ReadFault>
    ensures plan { (text : List ℕ) → OnOk read (SpellsPlan (built_plan plan) text) → IfOk result (λ plan. SpellsPlan (plan_view plan) text) }
    ensures fault { IfErr result (λ fault. read ≡ Err fault) }
{
    read?;
    Ok(plan.finish())
}

impl<'a, B: Allocator> PlanReader<&'a B> {
    ghost use Rattle.pddl_plan_reader.specs.StandsForPlan.{StandsForPlan, HasRefused};

    /// A reader to which no piece has come. It takes no memory.
    pub fn new(alloc: &'a B) -> PlanReader<&'a B>
        ensures { StandsForPlan result [] }
    {
        PlanReader {
            alloc,
            lexer: PlanLexer::new(alloc),
            words: WordList::new(alloc),
            plan: PlanBuilder::new(alloc),
            place: Place::Between,
            kept: WordList::new(alloc),
            failed: false,
        }
    }

    /// Takes the next piece.
    ///
    /// What is wrong with the text, [`finish`](PlanReader::finish) answers.
    ///
    /// # Errors
    ///
    /// [`TextFault::TooLong`] where the text so far has more than [`LONGEST`] bytes with the piece, and
    /// [`TextFault::Memory`] where a growth was refused. After either each call answers [`TextFault::AlreadyFailed`].
    pub fn feed(&mut self, piece: &[u8]) -> Result<(), TextFault>
        // What it stood for, it stands for with the piece added.
        ensures stands { (text : List ℕ) → StandsForPlan self.old text → OnOk result (StandsForPlan self.new (text ++ piece.now)) }
        // The length alone decides whether the text is too long, whatever memory does.
        ensures too_long { (text : List ℕ) → StandsForPlan self.old text → (result ≡ Err TooLong) ↔ (LONGEST < length (text ++ piece.now)) }
        ensures refusals { IfErr result (λ fault. (fault ≡ AlreadyFailed) ⊎ ((fault ≡ TooLong) ⊎ (fault ≡ Memory))) }
        // A piece that is refused is the last.
        ensures failed { (result ≡ Err AlreadyFailed) ↔ HasRefused self.old }
        ensures refused { OnErr result (HasRefused self.new) }
    {
        if self.failed {
            return Err(TextFault::AlreadyFailed);
        }
        self.words.clear();
        if let Err(fault) = self.lexer.feed_into(piece, &mut self.words) {
            self.failed = true;
            return Err(fault);
        }
        match read_on(&mut self.plan, self.place, &self.words, &mut self.kept) {
            Ok(place) => {
                self.place = place;
                Ok(())
            }
            Err(_) => {
                self.failed = true;
                Err(TextFault::Memory)
            }
        }
    }

    /// The plan that the whole text spells.
    ///
    /// # Errors
    ///
    /// Those of [`read_plan`], but that a text that is too long was refused by [`feed`](PlanReader::feed).
    /// [`TextFault::AlreadyFailed`] after a piece that was refused.
    pub fn finish(self) -> Result<Plan<&'a B>, ReadFault>
        // What is answered is the plan that the text spells.
        ensures plan { (text : List ℕ) → StandsForPlan self.entry text → IfOk result (λ plan. SpellsPlan (plan_view plan) text) }
        // A plan that spells the text is answered.
        ensures only { (text : List ℕ) (plan : PlanValue) → StandsForPlan self.entry text → SpellsPlan plan text
            → MatchResult result (λ found. plan_view found ≡ plan) (λ fault. fault ≡ Text Memory) }
        // What is wrong stands in the text.
        ensures fault { (text : List ℕ) → StandsForPlan self.entry text → IfErr result (λ fault. PlanStands fault text) }
        // A refused piece, and nothing else, is answered so.
        ensures failed { (result ≡ Err (Text AlreadyFailed)) ↔ HasRefused self.entry }
    {
        if self.failed {
            return Err(ReadFault::Text(TextFault::AlreadyFailed));
        }
        let mut plan = self.plan;
        let mut words = self.words;
        let mut kept = self.kept;
        words.clear();
        let ended = self.lexer.finish_into(&mut words);
        let read = read_last(self.alloc, ended, &mut plan, self.place, &words, &mut kept);
        read_whole(plan, read)
    }
}

/// The plan that a text spells, in the form of VAL's plan files: steps, each a list of names, either all alone or each
/// behind a number and a colon, with comments and blanks between. The empty text is the plan without steps.
///
/// # Errors
///
/// - Those of [`items_of`]: memory, the limit of length, and the faults of tokens and lists.
/// - [`ReadFault::Mixed`], [`ReadFault::Duration`], [`ReadFault::Step`]: the text's items are no steps of one kind; the fault
///   stands at the one place behind whole steps of one kind where no step of that kind follows.
pub fn read_plan<'a, B: Allocator>(alloc: &'a B, text: &[u8]) -> Result<Plan<&'a B>, ReadFault>
    // What is answered is the plan that the text spells.
    ensures plan { IfOk result (λ plan. SpellsPlan (plan_view plan) text.now) }
    // A plan that spells the text is answered.
    ensures only { (plan : PlanValue) → SpellsPlan plan text.now
        → MatchResult result (λ found. plan_view found ≡ plan) (λ fault. fault ≡ Text Memory) }
    // What is wrong stands in the text.
    ensures fault { IfErr result (λ fault. PlanStands fault text.now) }
{
    let mut reader = PlanReader::new(alloc);
    if let Err(fault) = reader.feed(text) {
        return Err(ReadFault::Text(fault));
    }
    reader.finish()
}

/// At most one plan spells a text.
pub fn one_plan()
    ensures { (text : List ℕ) (plan other : PlanValue) → SpellsPlan plan text → SpellsPlan other text → plan ≡ other }
{}

/// A text has at most one fault, `near` aside, neither of two being want of memory.
pub fn one_plan_fault()
    ensures { (text : List ℕ) (fault other : ReadFault) → PlanStands fault text → PlanStands other text
        → fault ≢ Text Memory → other ≢ Text Memory → without_near fault ≡ without_near other }
{}

/// A fault that has a place stands in its text, and before the limit of length.
pub fn plan_fault_in_text()
    ensures { (text : List ℕ) (fault : ReadFault) (at : ℕ) → PlanStands fault text → fault_place fault ≡ Some at
        → (at ≤ length text) × (at ≤ LONGEST) }
{}

/// A text that a plan spells has no fault: what may be answered beside the plan is want of memory alone.
pub fn no_fault_in_plan()
    ensures { (text : List ℕ) (fault : ReadFault) (plan : PlanValue) → PlanStands fault text → SpellsPlan plan text → fault ≡ Text Memory }
{}
