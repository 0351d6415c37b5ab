//! Texts that are written read back.

ghost use Rattle.std.specs.Prelude.{◌≡◌, ◌≤◌, List, [], ◌∷◌, length};
ghost use Rattle.pddl_token.specs.Trees.{Tree, Trees, Placed, list_of};
ghost use Rattle.pddl_text.specs.Lists.{deepest};
ghost use Rattle.pddl_text.specs.Pieces.{Piece, pieces_text, tokens_of, AreWritten, trees_words, IsWritable, AreWritable, IsWithin, AreWithin, tree_text};
ghost use Rattle.pddl_text.specs.Texts.{HasItems, ReadsAs};

use pddl_scan::LONGEST;

/// A text of pieces (words and blanks) that stand apart, and whose words are those of some trees, reads as these trees,
/// if it keeps the limits of length and levels.
pub fn pieces_read_back()
    ensures { (pieces : List Piece) (trees : Trees) → AreWritten pieces [] → tokens_of pieces ≡ trees_words trees → AreWritable trees → AreWithin deepest trees
        → length (pieces_text pieces) ≤ LONGEST → ReadsAs (pieces_text pieces) (list_of trees) }
{}

/// A tree's text with one space between two items of a list reads as the tree, if it keeps the limits of length and
/// levels.
pub fn tree_reads_back()
    ensures { (t : Tree) → IsWritable t → IsWithin deepest t → length (tree_text t) ≤ LONGEST → ReadsAs (tree_text t) (t ∷ []) }
{}

/// Trees whose words, in pieces that stand apart, make a text with items are within the limit of levels: they are as deep as
/// their text.
pub fn levels_as_read()
    ensures { (pieces : List Piece) (trees : Trees) (items : List Placed) → AreWritten pieces [] → tokens_of pieces ≡ trees_words trees → AreWritable trees
        → HasItems (pieces_text pieces) items → AreWithin deepest trees }
{}
