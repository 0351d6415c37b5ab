//! What holds of the meaning of every formula, effect and step, whatever code computes it.

ghost use Rattle.std.specs.Prelude.{◌≡◌, List, Contains};
ghost use Rattle.pddl_formula.specs.Formulas.{FormulaValue};
ghost use Rattle.pddl_effect.specs.Effects.{EffectValue};
ghost use Rattle.pddl_domain.specs.Actions.{ActionValue};
ghost use Rattle.pddl_problem.specs.Inits.{GroundValue};
ghost use Rattle.pddl_task.specs.Names.{Name};
ghost use Rattle.pddl_task.specs.Tasks.{TaskValue};
ghost use Rattle.pddl_task.specs.Known.{Spoken, effect_atoms};
ghost use Rattle.pddl_task.specs.Valuations.{Valuation};
ghost use Rattle.pddl_meaning.specs.Worlds.{Atoms, World};
ghost use Rattle.pddl_meaning.specs.Truth.{truth, formula_reads};
ghost use Rattle.pddl_meaning.specs.Effects.{effect_reads, fired, effect_adds, effect_dels, effect_cost};
ghost use Rattle.pddl_happenings.specs.Steps.{Agree, IsFramed};
ghost use Rattle.pddl_meaning.specs.Steps.{step_of};

/// The law of frame: a formula is as true in one state as in another that has the same atoms among those that it reads.
pub fn formulas_are_framed()
    ensures { (fit : List Name → List Name) (s t : Atoms) (f : FormulaValue) (v : Valuation)
        → Agree (formula_reads fit f v) s t → truth fit s f v ≡ truth fit t f v }
{}

/// An effect adds, deletes and costs the same in both, where they have the same atoms among those that its conditions read.
pub fn effects_are_framed()
    ensures adds { (w : World) (s t : Atoms) (e : EffectValue) (v : Valuation)
        → Agree (effect_reads w.fit e v) s t → (g : GroundValue) → effect_adds w.fit s e v g ≡ effect_adds w.fit t e v g }
    ensures dels { (w : World) (s t : Atoms) (e : EffectValue) (v : Valuation)
        → Agree (effect_reads w.fit e v) s t → (g : GroundValue) → effect_dels w.fit s e v g ≡ effect_dels w.fit t e v g }
    ensures cost { (w : World) (s t : Atoms) (e : EffectValue) (v : Valuation)
        → Agree (effect_reads w.fit e v) s t → effect_cost w s e v ≡ effect_cost w t e v }
{}

/// So what a step does depends only on what it reads.
pub fn steps_are_framed()
    ensures { (task : TaskValue) (a : ActionValue) (os : List Name) → IsFramed (step_of task a os) }
{}

/// Every atom that an effect adds or deletes in some state is one that it speaks of.
pub fn fired_are_spoken_of()
    ensures { (fit : List Name → List Name) (s : Atoms) (e : EffectValue) (v : Valuation) (x : Spoken)
        → Contains (fired fit s e v) x → Contains (effect_atoms fit e v) x }
{}
