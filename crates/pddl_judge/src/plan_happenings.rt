//! The happenings of a plan.

ghost use Rattle.std.specs.Prelude.{◌<◌, ◌^◌, ℕ, IfOk, length};
ghost use Rattle.std.specs.BTreeMap.{IsOrdered, get};
ghost use Rattle.std.specs.Ordering.{nat_cmp};
ghost use Rattle.pddl_happenings.specs.Happenings.{AreOfTimed, AreOfPlain, HaveEachOnce};
ghost use Rattle.pddl_judge.specs.HappeningValues.{groups_of, moments_of};
ghost use Rattle.pddl_judge.specs.Moments.{IsGroupAt};

use crate::happening::Happening;
use std::alloc::{AllocError, Allocator};
use std::collections::BTreeMap;

// The steps of each moment, in file order.
fn steps_by_moment<'a, B: Allocator>(
    alloc: &'a B,
    moments: &[u64],
) -> Result<BTreeMap<u64, Vec<u32, &'a B>, &'a B>, AllocError>
    requires { length moments.now < 2 ^ 32 }
    ensures ordered { IfOk result (λ groups. IsOrdered nat_cmp groups) }
    ensures groups { IfOk result (λ groups. (m : ℕ) → IsGroupAt (λ v. v.items) moments.now m (get nat_cmp groups m)) }
{
    let mut groups = BTreeMap::new(alloc);
    for (step, moment) in moments.iter().enumerate() {
        let mut steps = match groups.remove(moment) {
            Some(steps) => steps,
            None => Vec::new(alloc),
        };
        steps.push(step as u32)?;
        groups.insert(*moment, steps)?;
    }
    Ok(groups)
}

/// The happenings of a timed plan, from the moment of each of its steps: for the distinct moments in rising order, the
/// steps at that moment, in file order. Fails only for want of memory. Fox and Long, PDDL2.1, JAIR 20, 2003.
pub fn timed_happenings<'a, B: Allocator>(
    alloc: &'a B,
    moments: &[u64],
) -> Result<Vec<Happening<&'a B>, &'a B>, AllocError>
    requires { length moments.now < 2 ^ 32 }
    ensures happenings { IfOk result (λ hs. AreOfTimed moments.now (moments_of hs.items) (groups_of hs.items)) }
    ensures each { IfOk result (λ hs. HaveEachOnce (length moments.now) (groups_of hs.items)) }
{
    let groups = steps_by_moment(alloc, moments)?;
    let mut happenings = Vec::new(alloc);
    for (moment, steps) in groups {
        happenings.push(Happening {
            moment: Some(moment),
            steps,
        })?;
    }
    Ok(happenings)
}

/// The happenings of a plain plan of some steps: each step alone, in file order. Fails only for want of memory. Own.
pub fn plain_happenings<'a, B: Allocator>(
    alloc: &'a B,
    steps: u32,
) -> Result<Vec<Happening<&'a B>, &'a B>, AllocError>
    ensures happenings { IfOk result (λ hs. AreOfPlain steps (moments_of hs.items) (groups_of hs.items)) }
    ensures each { IfOk result (λ hs. HaveEachOnce steps (groups_of hs.items)) }
{
    let mut happenings = Vec::new(alloc);
    for step in 0..steps {
        happenings.push(Happening {
            moment: None,
            steps: vec![in alloc; step; 1]?,
        })?;
    }
    Ok(happenings)
}
