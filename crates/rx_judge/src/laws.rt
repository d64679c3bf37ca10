//! What holds of every expression that stands, as the clause of a function that does nothing.

ghost use Rattle.rx_judge.specs.Sound.{MeaningIsSound};

/// What an expression means is typed, linear and narrow, and has no more operators than the text.
pub fn meanings_are_sound()
    ensures { MeaningIsSound }
{}
