//! What holds of canonical trees and texts, whatever code prints them.

ghost use Rattle.std.specs.Prelude.{◌≡◌, ◌≤◌, ◌↔◌, ℕ, List, IsTrue, length};
ghost use Rattle.pddl_text.specs.Lists.{deepest};
ghost use Rattle.pddl_text.specs.Pieces.{IsWithin};
ghost use Rattle.pddl_text.specs.Texts.{HasItems};
ghost use Rattle.pddl_token.specs.Trees.{Placed};
ghost use Rattle.pddl_formula.specs.Formulas.{FormulaValue, IsFormula};
ghost use Rattle.pddl_effect.specs.Effects.{EffectValue, IsEffect};
ghost use Rattle.pddl_domain.specs.Domains.{DomainValue};
ghost use Rattle.pddl_domain_reader.specs.DomainTexts.{SpellsDomain};
ghost use Rattle.pddl_problem.specs.Problems.{ProblemValue};
ghost use Rattle.pddl_problem_reader.specs.ProblemTexts.{SpellsProblem};
ghost use Rattle.pddl_file_layout.specs.FormulaValues.{is_formula, is_effect};
ghost use Rattle.pddl_file_layout.specs.FormulaTrees.{formula_tree, effect_tree};
ghost use Rattle.pddl_file_layout.specs.DomainLayout.{is_domain, domain_tree, domain_text};
ghost use Rattle.pddl_file_layout.specs.ProblemLayout.{is_problem, problem_tree, problem_text};

use pddl_scan::LONGEST;

/// The canonical tree of a formula spells it. The formula is any that the program can hold.
pub fn formula_tree_spells()
    ensures { (f : FormulaValue) → IsTrue (is_formula f) → IsFormula f (formula_tree f) }
{}

/// The canonical tree of an effect spells it. The effect is any that the program can hold.
pub fn effect_tree_spells()
    ensures { (e : EffectValue) → IsTrue (is_effect e) → IsEffect e (effect_tree e) }
{}

/// The canonical text of a domain, where it keeps the limits of length and levels, spells the domain. The domain is any that
/// the program can hold.
pub fn domain_reads_back()
    ensures { (domain : DomainValue) → IsTrue (is_domain domain) → IsWithin deepest (domain_tree domain) → length (domain_text domain) ≤ LONGEST
        → SpellsDomain domain (domain_text domain) }
{}

/// A domain whose canonical text has items is within the limit of levels: its tree is as deep as its text. The domain is any that
/// the program can hold.
pub fn domain_levels_as_read()
    ensures { (domain : DomainValue) (items : List Placed) → IsTrue (is_domain domain) → HasItems (domain_text domain) items → IsWithin deepest (domain_tree domain) }
{}

/// Two texts that spell domains whose canonical texts keep the limits spell one domain exactly if these are one text.
pub fn one_canonical_domain()
    ensures { (domain other : DomainValue) (text more : List ℕ) → SpellsDomain domain text → SpellsDomain other more
        → IsWithin deepest (domain_tree domain) → IsWithin deepest (domain_tree other)
        → length (domain_text domain) ≤ LONGEST → length (domain_text other) ≤ LONGEST
        → (domain_text domain ≡ domain_text other) ↔ (domain ≡ other) }
{}

/// The canonical text of a problem, where it keeps the limits of length and levels, spells the problem. The problem is any
/// that the program can hold.
pub fn problem_reads_back()
    ensures { (problem : ProblemValue) → IsTrue (is_problem problem) → IsWithin deepest (problem_tree problem) → length (problem_text problem) ≤ LONGEST
        → SpellsProblem problem (problem_text problem) }
{}

/// A problem whose canonical text has items is within the limit of levels: its tree is as deep as its text. The problem is any that
/// the program can hold.
pub fn problem_levels_as_read()
    ensures { (problem : ProblemValue) (items : List Placed) → IsTrue (is_problem problem) → HasItems (problem_text problem) items → IsWithin deepest (problem_tree problem) }
{}

/// Two texts that spell problems whose canonical texts keep the limits spell one problem exactly if these are one text.
pub fn one_canonical_problem()
    ensures { (problem other : ProblemValue) (text more : List ℕ) → SpellsProblem problem text → SpellsProblem other more
        → IsWithin deepest (problem_tree problem) → IsWithin deepest (problem_tree other)
        → length (problem_text problem) ≤ LONGEST → length (problem_text other) ≤ LONGEST
        → (problem_text problem ≡ problem_text other) ↔ (problem ≡ other) }
{}
