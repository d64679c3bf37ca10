//! Laws of texts.

ghost use Rattle.rx_syntax.specs.Laws.{OneList, OneFault, NoFault};

/// A text has one list of tokens, or one first fault. Answers nothing: its clauses are the laws.
pub fn one_outcome()
    ensures list { OneList }
    ensures fault { OneFault }
    ensures either { NoFault }
{}
