//! What reports tell, as the clause of a function that does nothing.

ghost use Rattle.std.specs.Prelude.{◌≡◌, Some, slice_get};
ghost use Rattle.rx_types.specs.Domain.{Domain, boolean};
ghost use Rattle.rx_graph.specs.Graph.{domains_of};
ghost use Rattle.rx_report.specs.Laws.{CountsTellSoundness};

use rx_graph::Spec;

/// Messages of whose checks none failed and none is undecided are sound. Where one failed, some check of one of the messages does not
/// hold; where one is undecided, the walk of some check needs more inner nodes than there are splits.
pub fn counts_tell_soundness(spec: &Spec)
    requires boolean { (d : Domain) → slice_get (domains_of spec.now) 0 ≡ Some d → d ≡ boolean }
    ensures { CountsTellSoundness (domains_of spec.now) }
{}
