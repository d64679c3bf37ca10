//! The law of trees.

ghost use Rattle.rx_trees.specs.Laws.{OneTree};

/// Tokens of a package have one tree, but for places in memory. Answers nothing: its clause is the law.
pub fn one_tree()
    ensures { OneTree }
{}
