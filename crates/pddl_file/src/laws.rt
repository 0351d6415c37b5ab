//! What holds of trees that are flags, begin sections, or are refused by name, whatever code reads them.

ghost use Rattle.std.specs.Prelude.{◌≡◌, ◌↔◌, ℕ, List, Some};
ghost use Rattle.pddl_token.specs.Trees.{Tree};
ghost use Rattle.pddl_token.specs.TreeWords.{IsKeyword};
ghost use Rattle.pddl_file.specs.declared.keyword.SectionKeyword.{SectionKeyword};
ghost use Rattle.pddl_file.specs.declared.mark.Mark.{Mark};
ghost use Rattle.pddl_file.specs.Flags.{IsFlag};
ghost use Rattle.pddl_file.specs.Keywords.{key_text, IsHeaded};
ghost use Rattle.pddl_file.specs.Marks.{IsMarked};
ghost use Rattle.pddl_file.specs.Inner.WordReading.{flag_at, head_key, key_at, mark_at};

/// What the reader of flags computes of a tree is the flag that the tree spells, and nothing where it spells none.
pub fn flags_as_spelled()
    ensures { (t : Tree) (name : List ℕ) → (flag_at t ≡ Some name) ↔ IsFlag name t }
{}

/// The same of the keywords of sections, by themselves and as heads of lists.
pub fn keywords_as_spelled()
    ensures words { (t : Tree) (key : SectionKeyword) → (head_key t ≡ Some key) ↔ IsKeyword (key_text key) t }
    ensures heads { (t : Tree) (key : SectionKeyword) → (key_at t ≡ Some key) ↔ IsHeaded key t }
{}

/// The same of the words by which a section's lists are refused.
pub fn marks_as_spelled()
    ensures { (section t : Tree) (mark : Mark) → (mark_at section t ≡ Some mark) ↔ IsMarked section mark t }
{}
