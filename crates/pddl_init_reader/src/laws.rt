//! What holds of trees that spell items of `:init` and metrics, whatever code reads them.

ghost use Rattle.std.specs.Prelude.{◌≡◌, ◌↔◌, List, Some, map};
ghost use Rattle.pddl_token.specs.Trees.{Tree};
ghost use Rattle.pddl_token.specs.TreeWords.{Each};
ghost use Rattle.pddl_items.specs.Inner.TreeReading.{all_of};
ghost use Rattle.pddl_problem.specs.Inits.{InitValue, MetricValue, IsInit, AreMetric};
ghost use Rattle.pddl_init_reader.specs.Inner.InitReading.{init_at, metric_of};

/// What the reader of items of `:init` computes of trees is what the trees spell, one each, and nothing where one of them spells
/// none.
pub fn inits_as_spelled()
    ensures { (ts : List Tree) (xs : List InitValue) → (all_of (map init_at ts) ≡ Some xs) ↔ Each IsInit xs ts }
{}

/// The same of metrics.
pub fn metrics_as_spelled()
    ensures { (ts : List Tree) (m : MetricValue) → (metric_of ts ≡ Some m) ↔ AreMetric m ts }
{}
