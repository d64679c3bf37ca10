//! The path limit of messages.

ghost use Rattle.std.specs.Prelude.{◌≡◌, IfOk, IfErr};
ghost use Rattle.rx_forms.specs.PathLimit.{keeps_limit};
ghost use Rattle.rx_graph.specs.Elaborated.{IsElaborated};
ghost use Rattle.rx_graph.specs.Graph.{graph_of};
ghost use Rattle.rx_judge.specs.Meaning.{Tells};
ghost use Rattle.rx_elab.specs.Types.{types_of};
ghost use Rattle.rx_spec.specs.Limit.{domains_known, HasBoolean, within_limit};

use rx_elab::Types;
use rx_graph::{Elaborated, Message};
use rx_judge::{Fault, NoMemory, refused_at};
use rx_syntax::{Named, Rule};
use std::alloc::Global;

// Whether the message keeps the path limit.
fn limit_is_kept(alloc: Global, types: &Types, message: &Message) -> Result<bool, NoMemory>
    requires boolean { HasBoolean (types_of types.now) }
    requires elaborated { IsElaborated (domains_known (types_of types.now)) (graph_of message.now) }
    ensures { IfOk result (λ kept. kept ≡ keeps_limit (domains_known (types_of types.now)) (graph_of message.now)) }
{
    let message = Elaborated::with(&types.scalars, message);
    match rx_forms::keeps_limit(alloc, &message) {
        Ok(kept) => Ok(kept),
        Err(rx_forms::NoMemory) => Err(NoMemory),
    }
}

/// The message, if its paths keep the path limit; else GraphLimit at its name.
pub(crate) fn within_limit(
    alloc: Global,
    types: &Types,
    name: &Named,
    message: Message,
) -> Result<Message, Fault>
    requires boolean { HasBoolean (types_of types.now) }
    requires elaborated { IsElaborated (domains_known (types_of types.now)) (graph_of message) }
    ensures meaning { IfOk result (λ m. within_limit (types_of types.now) name.now (graph_of message) ≡ Ok (graph_of m)) }
    ensures refusal { IfErr result (λ e. Tells e (within_limit (types_of types.now) name.now (graph_of message))) }
{
    let kept = limit_is_kept(alloc, types, &message)?;
    if kept {
        return Ok(message);
    }
    Err(Fault::Refused(refused_at(alloc, Rule::GraphLimit, name)?))
}
