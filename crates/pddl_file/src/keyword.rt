//! Keywords of sections, and which of them stood.

ghost use Rattle.std.specs.Prelude.{◌≡◌, MatchOption};
ghost use Rattle.pddl_token.specs.Names.{folded};
ghost use Rattle.pddl_items.specs.ItemTrees.{item_tree, item_trees};
ghost use Rattle.pddl_file.specs.Keywords.{key_text, IsHeaded};
ghost use Rattle.pddl_file.specs.Inner.WordReading.{key_of, head_key, list_key, key_at, nothing_seen, has_seen, with_seen};

use pddl_items::{Item, is_word};
use pddl_token::TokenKind;
use std::alloc::Allocator;

/// The keyword of a section of a domain or a problem (Kovacs, BNF definition of PDDL 3.1).
#[derive(Clone, Copy, Debug)]
pub enum SectionKeyword {
    Requirements,
    Types,
    Constants,
    Predicates,
    Functions,
    Action,
    Domain,
    Objects,
    Init,
    Goal,
    Metric,
}

impl SectionKeyword {
    /// The keyword's text, in lower case, with its colon.
    pub fn text(self) -> &'static [u8]
        ensures { result.now ≡ key_text self }
    {
        match self {
            SectionKeyword::Requirements => b":requirements",
            SectionKeyword::Types => b":types",
            SectionKeyword::Constants => b":constants",
            SectionKeyword::Predicates => b":predicates",
            SectionKeyword::Functions => b":functions",
            SectionKeyword::Action => b":action",
            SectionKeyword::Domain => b":domain",
            SectionKeyword::Objects => b":objects",
            SectionKeyword::Init => b":init",
            SectionKeyword::Goal => b":goal",
            SectionKeyword::Metric => b":metric",
        }
    }
}

/// Which sections have stood so far.
#[derive(Clone, Copy)]
pub struct Seen {
    pub requirements: bool,
    pub types: bool,
    pub constants: bool,
    pub predicates: bool,
    pub functions: bool,
    pub domain: bool,
    pub objects: bool,
    pub init: bool,
    pub goal: bool,
    pub metric: bool,
}

impl Seen {
    /// No section has stood.
    pub fn nothing() -> Seen
        ensures { result ≡ nothing_seen }
    {
        Seen {
            requirements: false,
            types: false,
            constants: false,
            predicates: false,
            functions: false,
            domain: false,
            objects: false,
            init: false,
            goal: false,
            metric: false,
        }
    }

    /// Whether a section of the keyword has stood. Of `:action`, which may stand again, this is never told (own).
    pub fn has(self, keyword: SectionKeyword) -> bool
        ensures { result ≡ has_seen self keyword }
    {
        match keyword {
            SectionKeyword::Requirements => self.requirements,
            SectionKeyword::Types => self.types,
            SectionKeyword::Constants => self.constants,
            SectionKeyword::Predicates => self.predicates,
            SectionKeyword::Functions => self.functions,
            SectionKeyword::Action => false,
            SectionKeyword::Domain => self.domain,
            SectionKeyword::Objects => self.objects,
            SectionKeyword::Init => self.init,
            SectionKeyword::Goal => self.goal,
            SectionKeyword::Metric => self.metric,
        }
    }

    /// What stood, and a section of the keyword.
    pub fn with(self, keyword: SectionKeyword) -> Seen
        ensures { result ≡ with_seen self keyword }
    {
        let mut seen = self;
        match keyword {
            SectionKeyword::Requirements => seen.requirements = true,
            SectionKeyword::Types => seen.types = true,
            SectionKeyword::Constants => seen.constants = true,
            SectionKeyword::Predicates => seen.predicates = true,
            SectionKeyword::Functions => seen.functions = true,
            SectionKeyword::Action => {}
            SectionKeyword::Domain => seen.domain = true,
            SectionKeyword::Objects => seen.objects = true,
            SectionKeyword::Init => seen.init = true,
            SectionKeyword::Goal => seen.goal = true,
            SectionKeyword::Metric => seen.metric = true,
        }
        seen
    }
}

/// The keyword that an item begins with as a list, letter case aside, or `None` for a word and for a list that begins
/// otherwise. What follows the keyword does not count.
pub fn keyword_of<A: Allocator>(item: &Item<'_, A>) -> Option<SectionKeyword>
    ensures reads { result ≡ key_at (item_tree item.now) }
    ensures tells { MatchOption result
        ((key : SectionKeyword) → IsHeaded key (item_tree item.now) → ⊥)
        (λ key. IsHeaded key (item_tree item.now)) }
{
    match item {
        Item::Word(_) => None,
        Item::List(items, _) => list_keyword(items),
    }
}

fn list_keyword<A: Allocator>(items: &[Item<'_, A>]) -> Option<SectionKeyword>
    ensures { result ≡ list_key (item_trees items.now) }
{
    match items {
        [head, ..] => head_keyword_of(head),
        [] => None,
    }
}

/// The keyword of sections that an item is, letter case aside, or `None` where it is none.
pub fn head_keyword_of<A: Allocator>(item: &Item<'_, A>) -> Option<SectionKeyword>
    ensures { result ≡ head_key (item_tree item.now) }
{
    match item {
        Item::Word(token) => match token.kind {
            TokenKind::Keyword => text_keyword(token.text),
            _ => None,
        },
        Item::List(_, _) => None,
    }
}

fn text_keyword(text: &[u8]) -> Option<SectionKeyword>
    ensures { result ≡ key_of (folded text.now) }
{
    if is_word(text, b":requirements") {
        Some(SectionKeyword::Requirements)
    } else if is_word(text, b":types") {
        Some(SectionKeyword::Types)
    } else if is_word(text, b":constants") {
        Some(SectionKeyword::Constants)
    } else if is_word(text, b":predicates") {
        Some(SectionKeyword::Predicates)
    } else if is_word(text, b":functions") {
        Some(SectionKeyword::Functions)
    } else if is_word(text, b":action") {
        Some(SectionKeyword::Action)
    } else if is_word(text, b":domain") {
        Some(SectionKeyword::Domain)
    } else if is_word(text, b":objects") {
        Some(SectionKeyword::Objects)
    } else if is_word(text, b":init") {
        Some(SectionKeyword::Init)
    } else if is_word(text, b":goal") {
        Some(SectionKeyword::Goal)
    } else if is_word(text, b":metric") {
        Some(SectionKeyword::Metric)
    } else {
        None
    }
}
