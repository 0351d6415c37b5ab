//! A thousand plans, each run in a random order of its steps within each moment: all end as the plans do.

use pddl_fakes::FakeSink;
use pddl_file_lines::Outcome;
use pddl_plan_listing::{Listed, OfPlan, Stored, list};
use pddl_row_driver::{Files, Lines, Memory};
use std::alloc::{AllocError, Global};
use std::test::Fail;

/// Switches, of which each costs 1 to be put on and 2 to be put off, and a bell that costs 1 for each switch that is lit.
static SWITCHES: &[u8] =
    b"(define (domain switches) (:predicates (on ?x) (lit ?x) (rung)) (:functions (total-cost))
(:action flip :parameters (?x) :effect (and (when (on ?x) (and (not (on ?x)) (increase (total-cost) 2)))
(when (not (on ?x)) (and (on ?x) (increase (total-cost) 1)))))
(:action ring :effect (and (rung) (forall (?x) (when (lit ?x) (increase (total-cost) 1))))))";

/// Eight of them. Nothing has to be reached.
static EIGHT: &[u8] =
    b"(define (problem eight) (:domain switches) (:objects o0 o1 o2 o3 o4 o5 o6 o7)
(:init (on o1) (lit o2) (lit o5)) (:goal (and)))";

/// How many moments a plan has at most: fewer than ten.
const MOMENTS: u8 = 5;

/// How many plans there are.
const PLANS: u64 = 1000;

/// A fixed sequence of numbers.
#[derive(Drop)]
struct Numbers {
    state: u64,
}

impl Numbers {
    /// The next number below another, or 0.
    fn below(&mut self, count: u64) -> u64 {
        self.state = self
            .state
            .wrapping_mul(6_364_136_223_846_793_005)
            .wrapping_add(1_442_695_040_888_963_407);
        let number = self.state >> 33;
        number.checked_rem(count).unwrap_or(0)
    }
}

/// What a moment's steps are chosen of, behind its number: some switches are flipped, and the bell is rung or not.
static STEPS: [&[u8]; 9] = [
    b": (flip o0)\n",
    b": (flip o1)\n",
    b": (flip o2)\n",
    b": (flip o3)\n",
    b": (flip o4)\n",
    b": (flip o5)\n",
    b": (flip o6)\n",
    b": (flip o7)\n",
    b": (ring)\n",
];

/// A plan, and the numbers of its steps in another order.
#[derive(Drop)]
struct Drawn {
    plan: Vec<u8>,
    order: Vec<u64>,
}

impl Drawn {
    /// Adds the number of the next step, at some place behind the first `start` numbers.
    fn place(&mut self, start: usize, numbers: &mut Numbers) -> Result<(), AllocError> {
        let last = self.order.len();
        self.order.push(last as u64)?;
        let many = last.saturating_sub(start) as u64;
        let drawn = numbers.below(many.saturating_add(1)) as usize;
        let place = start.saturating_add(drawn).min(last);
        self.order.swap(place, last);
        Ok(())
    }

    /// Adds a step of a moment, of one digit, at some place behind the first `start` numbers.
    fn add(
        &mut self,
        moment: u8,
        step: &[u8],
        start: usize,
        numbers: &mut Numbers,
    ) -> Result<(), AllocError> {
        self.plan.push(b'0'.saturating_add(moment))?;
        self.plan.extend_from_slice(step)?;
        self.place(start, numbers)
    }

    /// Adds some steps of a moment.
    fn add_moment(&mut self, moment: u8, numbers: &mut Numbers) -> Result<(), AllocError> {
        let start = self.order.len();
        for step in STEPS.iter() {
            if numbers.below(2) == 0 {
                self.add(moment, step, start, numbers)?;
            }
        }
        Ok(())
    }

    /// Adds a few moments.
    fn add_moments(&mut self, numbers: &mut Numbers) -> Result<(), AllocError> {
        let last = numbers.below(u64::from(MOMENTS));
        for moment in 0..MOMENTS {
            if u64::from(moment) <= last {
                self.add_moment(moment, numbers)?;
            }
        }
        Ok(())
    }
}

/// Lists what is asked for of a plan, or of its steps in an order, and tells whether that went well.
fn lists(
    listed: Listed,
    plan: &[u8],
    order: &[u8],
    out: &mut FakeSink<Global>,
    alloc: Global,
) -> bool {
    let memory = Memory::nth(alloc, 0);
    let files = Files {
        first: SWITCHES,
        second: EIGHT,
        third: plan,
        fourth: order,
    };
    matches!(list(alloc, &memory, listed, files, out), Ok(Outcome::Good))
}

/// How many lines a text has.
fn count_lines(text: &[u8]) -> u64 {
    let mut lines = 0u64;
    for byte in text {
        if *byte == b'\n' {
            lines = lines.saturating_add(1);
        }
    }
    lines
}

/// Whether a plan is accepted, and its end is that of a run: one line tells the atoms and the cost.
fn is_end(end: &[u8], run: &[u8]) -> bool {
    let is_valid = end.starts_with(b"valid: ") && count_lines(end) == 2;
    is_valid && count_lines(run) == 1 && end.ends_with(run)
}

/// Whether a plan is accepted, and its steps end as it does in another order too.
fn ends_alike(alloc: Global, plan: &[u8], order: &[u8]) -> bool {
    let verdict = Listed::Plan(OfPlan::Stored(Stored::End));
    let mut end = FakeSink::whole(alloc);
    let mut run = FakeSink::whole(alloc);
    let has_end = lists(verdict, plan, order, &mut end, alloc);
    let has_run = lists(Listed::Plan(OfPlan::Replays), plan, order, &mut run, alloc);
    has_end && has_run && is_end(end.held(), run.held())
}

/// Whether that is so of a plan and of its steps in the order that was drawn.
fn drawn_ends_alike(alloc: Global, drawn: &Drawn) -> bool {
    let mut order = Lines::new(alloc);
    order.numbers(&drawn.order);
    order.end();
    match order.text() {
        Ok(order) => ends_alike(alloc, &drawn.plan, order),
        Err(_) => false,
    }
}

/// Whether that is so of a plan of a few moments, and of its steps in an order that is random within each.
fn draws_alike(alloc: Global, numbers: &mut Numbers) -> bool {
    let mut drawn = Drawn {
        plan: Vec::new(alloc),
        order: Vec::new(alloc),
    };
    drawn.add_moments(numbers).is_ok() && drawn_ends_alike(alloc, &drawn)
}

#[test]
fn plans_end_alike_in_random_orders(rt: HostRuntime) -> Result<(), Fail> {
    let mut numbers = Numbers { state: 1 };
    for number in 0..PLANS {
        assert!(rt; draws_alike(rt.alloc(), &mut numbers), "plan {number}");
    }
    Ok(())
}
