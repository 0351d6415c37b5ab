//! The types that are written in files, by number, with the tops of their primitives.

ghost use Rattle.std.specs.Prelude.{◌≡◌, ◌||◌, [], ℕ, List, map, filter, length, not, IfOk, IfSome, OnOk};
ghost use Rattle.pddl_bit_rows.specs.BitRows.{has_bit};
ghost use Rattle.pddl_forest.specs.Spans.{holds, hold_all, AreApart};
ghost use Rattle.pddl_formula.specs.TypedLists.{typed_view};
ghost use Rattle.pddl_task.specs.Names.{is_in};
ghost use Rattle.pddl_task.specs.Types.{types_of, pairs, fits};
ghost use Rattle.pddl_faults.specs.Passes.{Passes};
ghost use Rattle.pddl_types.specs.TopRows.{AreRowsOf};
ghost use Rattle.pddl_types.specs.TypeSpans.{IsTold};
ghost use Rattle.pddl_types.specs.Told.{ToldValue, tops_at, first_at, IsAt, AreAt, AreTold, AreKept, HasTops, AreFitting, unknown_among};

use crate::entries::put_new;
use crate::types::Types;
use indexmap::IndexMap;
use pddl_bit_rows::{clear_bits, is_bit_set, set_bit, share_no_bit};
use pddl_faults::LinkFault;
use pddl_forest::{Span, hold_all};
use pddl_formula::{TypeNames, TypedList};
use pddl_hash::Hashed;
use std::alloc::{AllocError, Allocator};
use std::marker::Model;

/// Which numbers some tops begin at, and which they hold.
#[derive(Drop)]
struct Rows<'a, B: Allocator> {
    begun: Vec<u64, &'a B>,
    held: Vec<u64, &'a B>,
}

/// Sets the bits of the numbers of a span.
///
/// Fails where memory for them is refused.
fn set_span<'a, B: Allocator>(row: &mut Vec<u64, &'a B>, span: Span) -> Result<(), AllocError>
    ensures { OnOk result ((i : ℕ) → has_bit row.new.items i ≡ (holds span i || has_bit row.old.items i)) }
{
    for number in span.first..=span.last {
        set_bit(row, number as usize)?;
    }
    Ok(())
}

/// Sets the bits of rows that have none, for some tops.
///
/// Fails where memory for them is refused.
fn set_rows<'a, B: Allocator>(rows: &mut Rows<'a, B>, spans: &[Span]) -> Result<(), AllocError>
    requires begun { rows.old.begun.items ≡ [] }
    requires held { rows.old.held.items ≡ [] }
    ensures { OnOk result (AreRowsOf rows.new.begun.items rows.new.held.items spans.now) }
{
    for span in spans {
        set_bit(&mut rows.begun, span.first as usize)?;
        set_span(&mut rows.held, *span)?;
    }
    Ok(())
}

/// The rows of some tops, where these are eight or more and on the average not more than 128 numbers apart: they take four words for each at most.
///
/// Fails where memory for them is refused.
fn rows_of<'a, B: Allocator>(
    alloc: &'a B,
    spans: &[Span],
) -> Result<Option<Rows<'a, B>>, AllocError>
    ensures { IfOk result (λ rows. IfSome rows (λ r. AreRowsOf r.begun.items r.held.items spans.now)) }
{
    match spans.last() {
        Some(last) if 8 <= spans.len() && last.last as usize / 128 < spans.len() => {
            let mut rows = Rows {
                begun: Vec::new(alloc),
                held: Vec::new(alloc),
            };
            let set = set_rows(&mut rows, spans);
            set.and(Ok(Some(rows)))
        }
        _ => Ok(None),
    }
}

/// The tops of a type that is told, with their rows where they are many and not far apart: whether they hold what others begin at is then found by a look at each
/// word of the others' rows, or at a bit for each of the others where these have none.
///
/// Contracts see the tops.
#[derive(Drop)]
struct Tops<'a, B: Allocator> {
    spans: Vec<Span, &'a B>,
    rows: Option<Rows<'a, B>>,
}

impl<'a, B: Allocator> Model for Tops<'a, B> {
    ghost use Rattle.std.specs.Prelude.{List, IfSome};
    ghost use Rattle.pddl_forest.specs.declared.spans.Span.{Span};
    ghost use Rattle.pddl_types.specs.TopRows.{AreRowsOf};

    ghost Value = { List Span };

    ghost view = { λ t. t.spans.items };

    ghost invariant = { λ t. IfSome t.rows (λ r. AreRowsOf r.begun.items r.held.items t.spans.items) };
}

impl<'a, B: Allocator> Tops<'a, B> {
    /// The tops of a type's primitives.
    ///
    /// # Errors
    ///
    /// `LinkFault::UnknownType` of the first primitive that is no type; `Memory` where memory for the tops or their rows is refused.
    fn of<'m, A: Allocator>(
        alloc: &'a B,
        types: &Types<'m, 'a, A, B>,
        names: &'m TypeNames<A>,
    ) -> Result<Tops<'a, B>, LinkFault<'m>>
        ensures told { IfOk result (IsTold types.now names.now) }
        ensures passes { Passes 23 (filter (λ t. not (is_in (types_of types.now.declared) t)) names.now) result }
    {
        types.known(names)?;
        let spans = types.tops(alloc, names)?;
        match rows_of(alloc, &spans) {
            Ok(rows) => Ok(Tops { spans, rows }),
            Err(_) => Err(LinkFault::Memory),
        }
    }

    /// The tops.
    fn as_slice(&self) -> &[Span]
        ensures { result.now ≡ self.now }
    {
        &self.spans
    }

    /// Whether they hold the first number of each of other tops.
    ///
    /// Fails where memory for a row is refused.
    fn hold_all(&self, others: &Tops<'a, B>) -> Result<bool, AllocError>
        requires outer { AreApart self.now }
        requires inner { AreApart others.now }
        ensures { IfOk result (λ all. all ≡ hold_all self.now others.now) }
    {
        match (&self.rows, &others.rows) {
            (Some(rows), Some(of_others)) => {
                let mut missed = Vec::from_slice(*of_others.begun.allocator(), &of_others.begun)?;
                clear_bits(&mut missed, &rows.held);
                Ok(share_no_bit(&missed, &missed))
            }
            (Some(rows), None) => Ok(
                others
                    .spans
                    .iter()
                    .all(|top| is_bit_set(&rows.held, top.first as usize)),
            ),
            (None, _) => Ok(hold_all(&self.spans, &others.spans)),
        }
    }
}

/// Whether one type fits another, by their numbers.
type Fitting<'a, B> = IndexMap<(usize, usize), bool, Hashed, &'a B>;

/// Whether the tops of a type hold those of another, which is kept under the pair of their numbers where both have many.
///
/// Fails where memory for that is refused.
fn told_fit<'a, B: Allocator>(
    fitting: &mut Fitting<'a, B>,
    pair: (usize, usize),
    told: &Tops<'a, B>,
    tops: &Tops<'a, B>,
) -> Result<bool, AllocError>
    requires outer { AreApart tops.now }
    requires inner { AreApart told.now }
    ensures { (types : ToldValue) → AreFitting types fitting.old.entries → HasTops types pair.0 told.now → HasTops types pair.1 tops.now
        → AreFitting types fitting.new.entries × IfOk result (λ fit. fit ≡ hold_all (tops_at types pair.1) (tops_at types pair.0)) }
{
    if told.as_slice().len() < 8 || tops.as_slice().len() < 8 {
        return tops.hold_all(told);
    }
    if let Some(fit) = fitting.get(&pair) {
        return Ok(*fit);
    }
    let fit = tops.hold_all(told)?;
    fitting.insert(pair, fit)?;
    Ok(fit)
}

/// The types that are written, each list of primitives once, with its tops. So two types are one where their numbers are, and the primitives of a type are
/// looked up once.
///
/// Contracts see each type with its tops.
#[derive(Drop)]
pub struct Told<'m, 'a, A: Allocator, B: Allocator> {
    types: IndexMap<&'m TypeNames<A>, Tops<'a, B>, Hashed, &'a B>,
    /// For types of many tops, which are gone over once.
    fitting: Fitting<'a, B>,
}

impl<'m, 'a, A: Allocator, B: Allocator> Model for Told<'m, 'a, A, B> {
    ghost use Rattle.pddl_types.specs.Told.{ToldValue, AreFitting};

    ghost Value = { ToldValue };

    ghost view = { λ t. t.types.entries };

    ghost invariant = { λ t. AreFitting t.types.entries t.fitting.entries };
}

impl<'m, 'a, A: Allocator, B: Allocator> Told<'m, 'a, A, B> {
    /// No types, of those that are declared.
    pub fn new(declared: &Types<'m, 'a, A, B>) -> Told<'m, 'a, A, B>
        ensures { result ≡ [] }
    {
        let alloc = declared.allocator();
        let hashed = declared.hashed();
        Told {
            types: IndexMap::with_hasher(alloc, hashed),
            fitting: IndexMap::with_hasher(alloc, hashed),
        }
    }

    /// The number of a type, which is told where it was not.
    ///
    /// # Errors
    ///
    /// `LinkFault::UnknownType` of the first primitive that is no type; `Memory` where memory for the tops is refused.
    fn tell(
        &mut self,
        types: &Types<'m, 'a, A, B>,
        names: &'m TypeNames<A>,
    ) -> Result<usize, LinkFault<'m>>
        requires told { AreTold types.now self.old }
        ensures told { AreTold types.now self.new }
        ensures kept { AreKept self.old self.new }
        ensures passes { Passes 23 (filter (λ t. not (is_in (types_of types.now.declared) t)) names.now) result }
        ensures number { IfOk result (IsAt self.new names.now) }
    {
        if let Some(number) = self.types.get_index_of(&names) {
            return Ok(number);
        }
        let tops = Tops::of(*self.types.allocator(), types, names);
        put_new(&mut self.types, names, tops)
    }

    /// The numbers of the types of a list's items, which are told once for a group where they were not.
    ///
    /// # Errors
    ///
    /// `LinkFault::UnknownType` of the first primitive that is no type; `Memory` where memory for tops and numbers is refused.
    pub fn tell_all<'c, C: Allocator>(
        &mut self,
        alloc: &'c C,
        types: &Types<'m, 'a, A, B>,
        list: &'m TypedList<A>,
    ) -> Result<Vec<usize, &'c C>, LinkFault<'m>>
        requires told { AreTold types.now self.old }
        ensures told { AreTold types.now self.new }
        ensures kept { AreKept self.old self.new }
        ensures passes { Passes 23 (unknown_among types.now.declared (map typed_view list.now.items)) result }
        ensures numbers { IfOk result (λ numbers. AreAt self.new (map typed_view list.now.items) numbers.items) }
        ensures many { IfOk result (λ numbers. length numbers.items ≡ length (map typed_view list.now.items)) }
    {
        let mut numbers = Vec::with_capacity(alloc, list.len())?;
        let mut number = 0;
        for place in 0..list.len() {
            if !list.shares(place) {
                number = self.tell(types, &list[place].types)?;
            }
            numbers.push(number)?;
        }
        Ok(numbers)
    }

    /// The tops of the type of a number, or none where no type has it.
    #[tactic(auto, using(crate::proofs::ToldTypes::tops_read))]
    pub fn at(&self, number: usize) -> &[Span]
        ensures { result.now ≡ tops_at self.now number }
    {
        match self.types.get_index(number) {
            Some((_, tops)) => tops.as_slice(),
            None => &[],
        }
    }

    /// The first number of these tops, or 0 where there are none.
    pub fn first_at(&self, number: usize) -> u32
        ensures { result ≡ first_at self.now number }
    {
        self.at(number).first().map_or(0, |top| top.first)
    }

    /// Whether a term of a type fits a slot of another, both by their numbers; a type fits itself, and where no type has a number nothing
    /// fits. Where both have many tops, what is found is kept.
    ///
    /// Fails where memory for that is refused.
    pub fn fits(
        &mut self,
        types: &Types<'m, 'a, A, B>,
        number: usize,
        slot: usize,
    ) -> Result<bool, AllocError>
        requires { AreTold types.now self.old }
        ensures kept { self.new ≡ self.old }
        ensures fits { (of : List (List ℕ)) (to : List (List ℕ)) → IsAt self.old of number → IsAt self.old to slot → IfOk result (λ fit. fit ≡ fits (pairs types.now.declared) of to) }
    {
        if number == slot {
            return Ok(true);
        }
        types.tops_decide();
        match (self.types.get_index(number), self.types.get_index(slot)) {
            (Some((_, told)), Some((_, tops))) => told_fit(
                &mut self.fitting,
                (number, slot),
                told,
                tops,
            ),
            _ => Ok(false),
        }
    }
}
