//! What holds of what is encoded, each as the clause of a function that changes and answers nothing.

ghost use Rattle.rx_encode.specs.Encoded.{HasOneAnswer};
ghost use Rattle.rx_encode.specs.Laws.{PrintedIsEncoded, EncodedReads};

use crate::naming::all_are_named;
use rx_graph::{Elaborated, Sound, sizes_make_the_length, sound_is_exclusive};
use rx_serial::{
    unfit_valuations_fit_no_path, unfit_valuations_have_one_refusal, valuations_have_one_buffer,
};
use rx_values::printed_reads_back;

/// A text is one thing of a Sound message: one buffer, or refused for one reason.
pub fn one_text_answer(message: &Sound<'_>)
    ensures { HasOneAnswer message.now.domains message.now.graph }
{
    let elaborated = message.elaborated();
    sound_is_exclusive(message);
    sizes_make_the_length(message);
    unfit_valuations_fit_no_path(elaborated);
    unfit_valuations_have_one_refusal(elaborated);
    valuations_have_one_buffer(message);
}

/// The JSON of the valuation that a buffer reads as is encoded as that buffer.
pub fn printed_is_encoded(message: &Sound<'_>)
    ensures { PrintedIsEncoded message.now.domains message.now.graph }
{
    let elaborated = message.elaborated();
    message.is_sound();
    all_are_named(elaborated);
    sound_is_exclusive(message);
    sizes_make_the_length(message);
    printed_reads_back(elaborated);
    unfit_valuations_fit_no_path(elaborated);
    unfit_valuations_have_one_refusal(elaborated);
    valuations_have_one_buffer(message);
}

/// The buffer that a text is encoded as reads as the text's valuation, so that decoding prints the JSON of this.
pub fn encoded_reads(message: &Elaborated<'_>)
    ensures { EncodedReads message.now.domains message.now.graph }
{}
