//! The law of meanings.

ghost use Rattle.rx_meaning.specs.Laws.{OneMeaning};

/// Trees that are the same but for places in memory have one meaning. Answers nothing: its clause is the law.
pub fn one_meaning()
    ensures { OneMeaning }
{}
