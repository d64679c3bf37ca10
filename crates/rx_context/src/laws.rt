//! Which messages can be decoded along one path, as the clause of a function that does nothing.

ghost use Rattle.rx_context.specs.Plan.{MayBePlanned};

use rx_graph::Sound;

/// A message whose checks all hold can be decoded along one path.
pub fn sound_messages_may_be_planned(message: &Sound<'_>)
    ensures { MayBePlanned message.now.domains message.now.graph }
{
    message.is_sound();
}
