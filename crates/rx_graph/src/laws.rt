//! What holds of every message, each as the clause of a function that does nothing.

ghost use Rattle.rx_graph.specs.Graph.{domains_of, graph_of};
ghost use Rattle.rx_graph.specs.Paths.{Exclusive, HasOnePath};
ghost use Rattle.rx_graph.specs.Elaborated.{IsElaborated};
ghost use Rattle.rx_graph.specs.Fits.{HasOneFit};
ghost use Rattle.rx_graph.specs.Laws.{ReasonMakesLongest, NoneWhereStuck, HasOneList, HasOneReason, SizesMakeLength, FitsHaveLength, FieldsAreDistinct, FieldsAreBounded};

use crate::message::Message;
use crate::sound::Sound;
use crate::spec::Spec;

/// The paths to a node stand in one list: all of them, alone, in order and each once.
pub fn paths_make_one_list(message: &Message)
    ensures { HasOneList (graph_of message.now) }
{}

/// Where no two links of a node are ever taken together, at most one whole path fits a buffer or a valuation.
pub fn one_path_fits(spec: &Spec, message: &Message)
    requires { Exclusive (domains_of spec.now) (graph_of message.now) }
    ensures path { HasOnePath (domains_of spec.now) (graph_of message.now) }
    ensures valuation { HasOneFit (domains_of spec.now) (graph_of message.now) }
{}

/// A path that is read and that has a reason to go no further is the longest.
pub fn reason_makes_the_longest_path(spec: &Spec, message: &Message)
    requires { Exclusive (domains_of spec.now) (graph_of message.now) }
    ensures { ReasonMakesLongest (domains_of spec.now) (graph_of message.now) }
{}

/// Where a reading is stuck, no whole path fits.
pub fn no_path_fits_where_stuck(spec: &Spec, message: &Message)
    requires { Exclusive (domains_of spec.now) (graph_of message.now) }
    ensures { NoneWhereStuck (domains_of spec.now) (graph_of message.now) }
{}

/// A reading is stuck for one reason.
pub fn longest_path_has_one_reason(spec: &Spec, message: &Message)
    requires { Exclusive (domains_of spec.now) (graph_of message.now) }
    ensures { HasOneReason (domains_of spec.now) (graph_of message.now) }
{}

/// The checks of a Sound message leave no two links of a node that are taken together.
pub fn sound_is_exclusive(message: &Sound<'_>)
    ensures { Exclusive message.now.domains message.now.graph }
{
    message.is_sound();
}

/// The sizes of the fields that are no overlays add up to the length of a Sound message, and so do those of a valuation.
pub fn sizes_make_the_length(message: &Sound<'_>)
    ensures fields { SizesMakeLength message.now.domains message.now.graph }
    ensures valuation { FitsHaveLength message.now.domains message.now.graph }
{
    message.is_sound();
}

/// No field stands twice on a partial path.
pub fn fields_of_a_path_are_distinct(spec: &Spec, message: &Message)
    requires { IsElaborated (domains_of spec.now) (graph_of message.now) }
    ensures { FieldsAreDistinct (domains_of spec.now) (graph_of message.now) }
{}

/// The fields of a partial path stay within the bounds by which expressions are narrow.
pub fn fields_of_a_path_are_bounded(spec: &Spec, message: &Message)
    requires { IsElaborated (domains_of spec.now) (graph_of message.now) }
    ensures { FieldsAreBounded (domains_of spec.now) (graph_of message.now) }
{}
