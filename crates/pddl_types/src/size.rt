//! Ground sizes of formulas, effects and actions over the objects of tables, without writing any quantifier out.

ghost use Rattle.std.specs.Prelude.{◌≡◌, ◌+◌, map};
ghost use Rattle.pddl_formula.specs.TypedLists.{typed_view};
ghost use Rattle.pddl_formula.specs.Formulas.{formula_view};
ghost use Rattle.pddl_effect.specs.Effects.{effect_view};
ghost use Rattle.pddl_domain.specs.Actions.{action_view};
ghost use Rattle.pddl_task.specs.GroundSize.{capped, quantifier_size, formula_size, effect_size, action_size};
ghost use Rattle.pddl_types.specs.Known.{count_in};

use crate::known::Tables;
use pddl_domain::Action;
use pddl_effect::Effect;
use pddl_formula::{Formula, TypedList};
use std::alloc::Allocator;

/// The sum of two sizes.
fn sum(a: u32, b: u32) -> u32
    ensures { result ≡ capped (a + b) }
{
    a.saturating_add(b).min(1_000_001)
}

impl<'m, 'a, A: Allocator, B: Allocator> Tables<'m, 'a, A, B> {
    /// The size of a quantifier over variables, where what is quantified has a size. How many objects fit is counted once for each group of variables.
    fn quantifier_size<N: Allocator>(&self, variables: &TypedList<N>, body: u32) -> u32
        ensures { result ≡ capped (quantifier_size (count_in self.now.known) (map typed_view variables.now.items) body) }
    {
        let mut size = sum(1, body);
        let mut count = 0;
        for i in (0..variables.len()).rev() {
            if !variables.shares(i + 1) {
                count = self.fitting_count(&variables[i].types);
            }
            size = sum(1, count.saturating_mul(size as usize).min(1_000_001) as u32);
        }
        size
    }

    /// The ground size of a formula, or 1,000,001 where it is more than 1,000,000.
    #[tactic(auto, using(pddl_formula::specs::declared::formula::Formula::TheFolds::the_lemmas))]
    pub fn ground_size<N: Allocator>(&self, formula: &Formula<N>) -> u32
        ensures { result ≡ capped (formula_size (count_in self.now.known) (formula_view formula.now)) }
    {
        match formula {
            Formula::Atom(_) | Formula::Equal(_, _) => 1,
            Formula::Not(inner) => sum(1, self.ground_size(inner)),
            Formula::Imply(first, second) => {
                let first = self.ground_size(first);
                let second = self.ground_size(second);
                sum(1, sum(first, second))
            }
            Formula::And(parts) | Formula::Or(parts) => {
                let mut size = 1;
                for part in parts {
                    size = sum(size, self.ground_size(part));
                }
                size
            }
            Formula::Exists(variables, inner) | Formula::Forall(variables, inner) => {
                self.quantifier_size(variables, self.ground_size(inner))
            }
        }
    }

    /// The ground size of an effect, or 1,000,001 where it is more than 1,000,000.
    #[tactic(auto, using(pddl_effect::specs::declared::effect::Effect::TheFolds::the_lemmas))]
    pub fn effect_ground_size<N: Allocator>(&self, effect: &Effect<N>) -> u32
        ensures { result ≡ capped (effect_size (count_in self.now.known) (effect_view effect.now)) }
    {
        match effect {
            Effect::And(parts) => {
                let mut size = 1;
                for part in parts {
                    size = sum(size, self.effect_ground_size(part));
                }
                size
            }
            Effect::Forall(variables, inner) => {
                self.quantifier_size(variables, self.effect_ground_size(inner))
            }
            Effect::When(condition, inner) => {
                let condition = self.ground_size(condition);
                let inner = self.effect_ground_size(inner);
                sum(1, sum(condition, inner))
            }
            Effect::Add(_) | Effect::Del(_) | Effect::Increase(_) => 1,
        }
    }

    /// The ground size of an action's step, that of its precondition and its effect, or 1,000,001 where it is more than 1,000,000.
    pub fn action_ground_size<N: Allocator>(&self, action: &Action<N>) -> u32
        ensures { result ≡ capped (action_size (count_in self.now.known) (action_view action.now)) }
    {
        let precondition = self.ground_size(&action.precondition);
        let effect = self.effect_ground_size(&action.effect);
        sum(precondition, effect)
    }
}
