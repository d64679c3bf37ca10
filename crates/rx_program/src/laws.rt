//! What the definitions of answers say together, as contracts of functions that do nothing.
ghost use Rattle.rx_program.specs.Laws.{OneAnswer};
ghost use Rattle.rx_program.specs.RoundTrips.{EncodedIsDecoded, DecodedIsEncoded};
ghost use Rattle.rx_program.specs.Soundness.{DoneShowsSoundness, NotAcceptedShowsFault, UndecidedShowsWalk};

use rx_meaning::one_meaning;
use rx_trees::one_tree;

/// Words, texts and an input have one answer, but for faults of the shelf and the source, and for steps, lengths and numbers of reports.
pub fn one_answer()
    ensures { OneAnswer }
{
    one_tree();
    one_meaning();
}

/// What one command encoded of a text, another over the same texts decodes as the text's values, where both end with status Done.
pub fn encoded_is_decoded()
    ensures { EncodedIsDecoded }
{
    one_tree();
    one_meaning();
}

/// What one command printed of a buffer, another over the same texts encodes as that buffer, where both end with status Done.
pub fn decoded_is_encoded()
    ensures { DecodedIsEncoded }
{
    one_tree();
    one_meaning();
}

/// The messages that a command checks are sound, where it ends with status Done; `check` checks all of its package, `decode` and
/// `encode` the one that they are asked for. Where it ends with NotAccepted some check of one of them does not hold. Where it ends
/// with Undecided the walk of some check needs more inner nodes than there are splits.
pub fn statuses_tell_soundness()
    ensures done { DoneShowsSoundness }
    ensures not_accepted { NotAcceptedShowsFault }
    ensures undecided { UndecidedShowsWalk }
{}
