// The walk along the one path that fits a buffer.
// - At each node the link that is taken leads to the next field, whose number is read where it is a scalar.
// - It ends at null, or where there is a reason to go no further, after at most 128 fields.
// It takes no memory.

ghost use Rattle.std.specs.Prelude.{◌≡◌, ◌<◌, ◌^◌, [], length, OnOk, IfErr};
ghost use Rattle.rx_types.specs.Environment.{in_message};
ghost use Rattle.rx_context.specs.Contexts.{ReadsBy, StopsBy};
ghost use Rattle.rx_context.specs.Plan.{planned, IsPlan};

use crate::kept::Kept;
use crate::step::{Step, next_step};
use rx_graph::Node;
use rx_types::{Env, Stuck};

/// Puts the fields of the path that fits the buffer into the environment, or says why none fits.
pub fn walk(kept: &Kept, bytes: &[u8], env: &mut Env) -> Result<(), Stuck>
    requires plan { IsPlan (planned kept.now) }
    requires short { length bytes.now < 2 ^ 24 }
    requires begins { env.old ≡ in_message (length bytes.now) [] }
    ensures reads { OnOk result (ReadsBy (planned kept.now) bytes.now env.new.fields) }
    ensures stops { IfErr result (λ stuck. StopsBy (planned kept.now) bytes.now stuck) }
{
    let mut at = Node::Start;
    loop {
        match next_step(kept, bytes, at, env) {
            Step::To(entry) => {
                env.push(entry);
                at = Node::At(entry.field);
            }
            Step::Done => return Ok(()),
            Step::Stop(stuck) => return Err(stuck),
        }
    }
}
