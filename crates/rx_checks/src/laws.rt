//! What reports show, each as the clause of a function that does nothing.

ghost use Rattle.rx_checks.specs.Laws.{VerdictsAreTrue, ReportsShowSoundness, ReportsShowOneReading, SoundMessagesPass, ReportsAreOne};

use rx_graph::Elaborated;

/// A check that has passed holds, and one that has failed does not.
pub fn verdicts_are_true(message: &Elaborated<'_>)
    ensures { VerdictsAreTrue message.now.domains message.now.graph }
{
    message.is_known();
}

/// A message is sound where every line of a report of it has passed.
pub fn reports_show_soundness(message: &Elaborated<'_>)
    ensures { ReportsShowSoundness message.now.domains message.now.graph }
{
    message.is_known();
}

/// Where every line of a report has passed, at most one path fits a buffer, and at most one a valuation, whose length it has.
pub fn reports_show_one_reading(message: &Elaborated<'_>)
    ensures { ReportsShowOneReading message.now.domains message.now.graph }
{
    message.is_known();
}

/// Where all checks of a message hold, no line of its report has failed, and every line has passed where no walk needs more inner
/// nodes than there are splits.
pub fn sound_messages_pass(message: &Elaborated<'_>)
    ensures { SoundMessagesPass message.now.domains message.now.graph }
{
    message.is_known();
}

/// Two reports of a message with as many splits tell the same, but for the steps of proofs, the length and the numbers.
pub fn reports_are_one(message: &Elaborated<'_>)
    ensures { ReportsAreOne message.now.domains message.now.graph }
{}
