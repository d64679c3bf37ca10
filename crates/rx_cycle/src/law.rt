//! What the test of cycles tells, as the clause of a function that does nothing.

ghost use Rattle.rx_cycle.specs.Graph.{FirstIsTold};

/// The first link that passes the test is the first that returns, and where none does there is no cycle.
pub fn first_is_told()
    ensures { FirstIsTold }
{}
