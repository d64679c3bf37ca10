// Laws of exact elimination, each the clause of an empty function.
ghost use Rattle.rx_shadow.specs.Laws.{LosesNoPoint, GainsNoPoint, IsRecursive};

/// The elimination of an exact variable loses no integer point, and gains none.
pub fn elimination_keeps_the_points()
    ensures lost { LosesNoPoint }
    ensures gained { GainsNoPoint }
{}

/// Repeated elimination is a recursion: one round, and then the same for the rows that it leaves.
pub fn elimination_is_a_recursion()
    ensures { IsRecursive }
{}
