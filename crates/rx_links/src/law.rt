//! What stands where no link leads back, as the clause of a function that does nothing.

ghost use Rattle.rx_links.specs.Cycle.{StandsWithoutCycle};

/// A message whose links do not lead back has no cycle.
pub fn stands_without_cycle()
    ensures { StandsWithoutCycle }
{}
