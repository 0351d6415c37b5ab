//! Steps read word by word.
//!
//! A plan grows by whole steps alone. Where a word fits no step the place is lost, and what is wrong there the reading of
//! items says.

ghost use Rattle.std.specs.Prelude.{◌≡◌, ◌≢◌, ◌<◌, ◌≤◌, ◌+◌, ◌++◌, ◌∷◌, [], Some, None, List, length, IfOk, IfSome, OnOk};
ghost use Rattle.pddl_token.specs.declared.token.TokenKind.TheVariants.{Close};
ghost use Rattle.pddl_token.specs.Spelling.{PlacedWord, view};
ghost use Rattle.pddl_plan.specs.Building.{Building};
ghost use Rattle.pddl_step_reader.specs.declared.plan_words.Place.TheVariants as places;
ghost use Rattle.pddl_step_reader.specs.Inner.StepWords.{ReadsTo, ReadsOn, ReadsWords, HasMoved};

use pddl_plan::PlanBuilder;
use pddl_scan::WordList;
use pddl_token::{Fixed, Token, TokenKind, value_of};
use std::alloc::{AllocError, Allocator};

/// What stands between the last whole step of a plan and the next word.
#[derive(Clone, Copy)]
pub enum Place {
    /// Nothing.
    Between,
    /// A moment.
    Moment(Fixed),
    /// A moment and a colon.
    Colon(Fixed),
    /// An opening, in a timed step behind its moment and a colon, and names.
    Inside(Option<Fixed>),
    /// What may be no step.
    Lost,
}

/// Where words were read to, and how many of them end with the last step that was ended, if one was.
#[derive(Clone, Copy)]
struct Reach {
    place: Place,
    ended: Option<usize>,
}

/// The place behind the first word of a step.
fn begin(word: &Token<'_>) -> Place
    ensures { (b : Building) (done kept : List PlacedWord) → ReadsTo places.Between b done kept → ReadsOn result b done (kept ++ view word.now ∷ []) }
{
    match word.kind {
        TokenKind::Open => Place::Inside(None),
        TokenKind::Number => match value_of(word.text) {
            Some(moment) => Place::Moment(moment),
            None => Place::Lost,
        },
        _ => Place::Lost,
    }
}

/// The place behind a word that follows a moment.
fn behind_moment(moment: Fixed, word: &Token<'_>) -> Place
    ensures { (b : Building) (done kept : List PlacedWord) → ReadsTo (places.Moment moment) b done kept → ReadsOn result b done (kept ++ view word.now ∷ []) }
{
    match word.kind {
        TokenKind::Colon => Place::Colon(moment),
        _ => Place::Lost,
    }
}

/// The place behind a word that follows a moment and a colon.
fn behind_colon(moment: Fixed, word: &Token<'_>) -> Place
    ensures { (b : Building) (done kept : List PlacedWord) → ReadsTo (places.Colon moment) b done kept → ReadsOn result b done (kept ++ view word.now ∷ []) }
{
    match word.kind {
        TokenKind::Open => Place::Inside(Some(moment)),
        _ => Place::Lost,
    }
}

/// Ends the plain step of which the closing is read, where it has names and no step before it has a moment.
fn end_plain<A: Allocator>(plan: &mut PlanBuilder<A>) -> Result<Place, AllocError>
    ensures { (done kept : List PlacedWord) (closing : PlacedWord) → closing.kind ≡ Close → ReadsTo (places.Inside None) plan.old done kept
        → IfOk result (λ next. ReadsOn next plan.new done (kept ++ closing ∷ [])) }
{
    if !plan.is_plain() {
        return Ok(Place::Lost);
    }
    if !plan.has_names() {
        return Ok(Place::Lost);
    }
    plan.end_step()?;
    Ok(Place::Between)
}

/// Ends the timed step of which the closing is read, where it has names and each step before it has a moment.
fn end_timed<A: Allocator>(plan: &mut PlanBuilder<A>, moment: Fixed) -> Result<Place, AllocError>
    ensures { (done kept : List PlacedWord) (closing : PlacedWord) → closing.kind ≡ Close → ReadsTo (places.Inside (Some moment)) plan.old done kept
        → IfOk result (λ next. ReadsOn next plan.new done (kept ++ closing ∷ [])) }
{
    if !plan.is_timed() {
        return Ok(Place::Lost);
    }
    if !plan.has_names() {
        return Ok(Place::Lost);
    }
    plan.end_step_at(moment)?;
    Ok(Place::Between)
}

/// Reads a word behind an opening and names.
fn read_inside<A: Allocator>(
    plan: &mut PlanBuilder<A>,
    moment: Option<Fixed>,
    word: &Token<'_>,
) -> Result<Place, AllocError>
    ensures { (done kept : List PlacedWord) → ReadsTo (places.Inside moment) plan.old done kept
        → IfOk result (λ next. ReadsOn next plan.new done (kept ++ view word.now ∷ [])) }
{
    match word.kind {
        TokenKind::Name => {
            if plan.push_word(word.text)? {
                Ok(Place::Inside(moment))
            } else {
                Ok(Place::Lost)
            }
        }
        TokenKind::Close => match moment {
            None => end_plain(plan),
            Some(moment) => end_timed(plan, moment),
        },
        _ => Ok(Place::Lost),
    }
}

/// Reads a word.
fn read_word<A: Allocator>(
    plan: &mut PlanBuilder<A>,
    place: Place,
    word: &Token<'_>,
) -> Result<Place, AllocError>
    ensures { (done kept : List PlacedWord) → ReadsTo place plan.old done kept
        → IfOk result (λ next. ReadsOn next plan.new done (kept ++ view word.now ∷ [])) }
{
    match place {
        Place::Between => Ok(begin(word)),
        Place::Moment(moment) => Ok(behind_moment(moment, word)),
        Place::Colon(moment) => Ok(behind_colon(moment, word)),
        Place::Inside(moment) => read_inside(plan, moment, word),
        Place::Lost => Ok(Place::Lost),
    }
}

/// How many words end with the last step that was ended, where so many were read to a place.
fn ended_by(place: &Place, count: usize, before: Option<usize>) -> Option<usize>
    ensures between { place.now ≡ places.Between → result ≡ Some count }
    ensures other { place.now ≢ places.Between → result ≡ before }
    ensures in_range { IfSome before (λ ended. ended < count) → IfSome result (λ ended. ended ≤ count) }
{
    match place {
        Place::Between => Some(count),
        _ => before,
    }
}

/// Reads a word behind others, and counts it.
fn read_next<A: Allocator>(
    plan: &mut PlanBuilder<A>,
    reach: &mut Reach,
    word: &Token<'_>,
    count: usize,
) -> Result<(), AllocError>
    requires { IfSome reach.old.ended (λ ended. ended < count) }
    ensures reads { (done kept words : List PlacedWord) → count ≡ length words + 1 → ReadsWords reach.old.ended reach.old.place plan.old done kept words
        → OnOk result (ReadsWords reach.new.ended reach.new.place plan.new done kept (words ++ view word.now ∷ [])) }
    ensures in_range { OnOk result (IfSome reach.new.ended (λ ended. ended ≤ count)) }
{
    let place = read_word(plan, reach.place, word)?;
    reach.ended = ended_by(&place, count, reach.ended);
    reach.place = place;
    Ok(())
}

/// Reads words.
fn read_words<A: Allocator>(
    plan: &mut PlanBuilder<A>,
    place: Place,
    words: &WordList<A>,
) -> Result<Reach, AllocError>
    ensures reads { (done kept : List PlacedWord) → ReadsTo place plan.old done kept
        → IfOk result (λ to. ReadsWords to.ended to.place plan.new done kept words.now) }
    ensures in_range { IfOk result (λ to. IfSome to.ended (λ ended. ended ≤ length words.now)) }
{
    let mut reach = Reach { place, ended: None };
    let mut number = 0;
    while number < words.len() {
        read_next(plan, &mut reach, &words.get(number), number + 1)?;
        number += 1;
    }
    Ok(reach)
}

/// Reads words, and keeps those behind the last whole step beside those that stand there.
pub fn read_on<A: Allocator>(
    plan: &mut PlanBuilder<A>,
    place: Place,
    words: &WordList<A>,
    kept: &mut WordList<A>,
) -> Result<Place, AllocError>
    ensures { (done : List PlacedWord) → ReadsTo place plan.old done kept.old
        → IfOk result (λ next. HasMoved next plan.new (done ++ (kept.old ++ words.now)) kept.new) }
{
    let reach = read_words(plan, place, words)?;
    match reach.ended {
        None => kept.push_from(words, 0)?,
        Some(count) => {
            kept.clear();
            kept.push_from(words, count)?
        }
    }
    Ok(reach.place)
}
