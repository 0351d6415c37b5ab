//! Objects in the order of the numbers of their types.

ghost use Rattle.std.specs.Prelude.{◌≡◌, ◌≤◌, ℕ, true, false, ltb, filter, length, slice_get, IfOk, sum_by, cond};
ghost use Rattle.std.specs.List.Sorted.{IsPartitionPoint};
ghost use Rattle.pddl_forest.specs.Forests.{number_at};
ghost use Rattle.pddl_forest.specs.Spans.{holds, some_holds, AreApart};
ghost use Rattle.pddl_task.specs.Tasks.{places_from};
ghost use Rattle.pddl_types.specs.ObjectOrders.{IsOrderOf};

use pddl_forest::Span;
use std::alloc::{AllocError, Allocator};

/// The numbers of the types of objects, and the objects in their order. So those whose types are under one stand side by side.
#[derive(Drop)]
pub struct ObjectOrder<'a, B: Allocator> {
    pub numbers: Vec<u32, &'a B>,
    objects: Vec<usize, &'a B>,
    ghost ordered: { ∥ IsOrderOf numbers.items objects.items ∥₁ },
}

/// The number of the type of an object, or 0 past the last.
fn type_number(numbers: &[u32], object: usize) -> u32
    ensures { result ≡ number_at numbers.now object }
{
    match numbers.get(object) {
        Some(number) => *number,
        None => 0,
    }
}

impl<'a, B: Allocator> ObjectOrder<'a, B> {
    /// That of objects whose types have these numbers.
    ///
    /// Fails where memory for it is refused.
    pub fn of(numbers: Vec<u32, &'a B>) -> Result<ObjectOrder<'a, B>, AllocError>
        ensures { IfOk result (λ order. order.numbers.items ≡ numbers.entry.items) }
    {
        let mut objects: Vec<usize, &'a B> = (0..numbers.len()).collect(*numbers.allocator())?;
        let held = numbers.as_slice();
        objects.sort_unstable_by_key(|object| type_number(held, *object));
        Ok(ObjectOrder { numbers, objects })
    }

    /// The number of the type of an object, or `None` past the last.
    pub fn number(&self, object: usize) -> Option<u32>
        ensures { result ≡ slice_get self.now.numbers.items object }
    {
        self.numbers.get(object).copied()
    }

    /// How many objects have types whose numbers are below one: these stand in front.
    fn below(&self, number: usize) -> usize
        ensures within { result ≤ length self.now.objects.items }
        ensures point { IsPartitionPoint (λ o. ltb (number_at self.now.numbers.items o) number ≡ true) (λ o. ltb (number_at self.now.numbers.items o) number ≡ false) self.now.objects.items result }
    {
        let numbers = self.numbers.as_slice();
        let objects = self.objects.as_slice();
        objects.partition_point(|object| (type_number(numbers, *object) as usize) < number)
    }

    /// The objects whose types have numbers in a span.
    fn under(&self, top: Span) -> &[usize]
        requires { top.first ≤ top.last }
        ensures { (f : ℕ → ℕ) → sum_by f result.now ≡ sum_by (λ o. cond (holds top (number_at self.now.numbers.items o)) (f o) 0) self.now.objects.items }
    {
        let start = self.below(top.first as usize);
        let end = self.below(top.last as usize + 1);
        &self.objects[start..end]
    }

    /// How many objects have types whose numbers are in some of these spans.
    pub fn count(&self, tops: &[Span]) -> usize
        requires { AreApart tops.now }
        ensures { result ≡ length (filter (some_holds tops.now) self.now.numbers.items) }
    {
        let mut count = 0;
        for top in tops {
            count += self.under(*top).len();
        }
        count
    }

    /// The numbers of these objects, rising.
    ///
    /// Fails where memory for them is refused.
    pub fn objects_under<'c, C: Allocator>(
        &self,
        alloc: &'c C,
        tops: &[Span],
    ) -> Result<Vec<usize, &'c C>, AllocError>
        requires { AreApart tops.now }
        ensures { IfOk result (λ objects. objects.items ≡ places_from 0 (some_holds tops.now) self.now.numbers.items) }
    {
        let mut found = Vec::new(alloc);
        for top in tops {
            found.extend_from_slice(self.under(*top))?;
        }
        found.sort_unstable();
        Ok(found)
    }
}
