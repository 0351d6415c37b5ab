//! What holds of the heads of files, whatever code reads them.

ghost use Rattle.std.specs.Prelude.{◌≡◌, ℕ, List};
ghost use Rattle.pddl_token.specs.Trees.{Placed};
ghost use Rattle.pddl_token.specs.declared.token.Span.{Span};
ghost use Rattle.pddl_sections.specs.Files.{IsOpened, HeadFault};

/// Items open at most one file: it has one name and one list of sections.
pub fn one_opening()
    ensures { (word name other_name : List ℕ) (sections others items : List Placed) → IsOpened word name sections items
        → IsOpened word other_name others items → (name ≡ other_name) × (sections ≡ others) }
{}

/// There is at most one place where items open no file.
pub fn one_head_fault()
    ensures { (word : List ℕ) (items : List Placed) (span other_span : Span) → HeadFault word items span
        → HeadFault word items other_span → span ≡ other_span }
{}

/// Items that open a file have no fault at their head.
pub fn no_fault_at_opening()
    ensures { (word name : List ℕ) (sections items : List Placed) (span : Span) → IsOpened word name sections items
        → HeadFault word items span → ⊥ }
{}
