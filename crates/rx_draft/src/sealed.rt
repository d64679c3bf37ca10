//! A buffer that begins with a whole message.

ghost use Rattle.std.specs.Prelude.{◌≡◌, List, take};
ghost use Rattle.rx_types.specs.Domain.{Domain};
ghost use Rattle.rx_graph.specs.Fits.{Reads};
ghost use Rattle.rx_graph.specs.Graph.{Graph};
ghost use Rattle.rx_draft.specs.Drafts.{StandsForSound, drafted};
ghost use Rattle.rx_draft.specs.Seals.{IsSealed};

use rx_context::{Opened, Plan, Verified};
use rx_types::Env;
use std::marker::Model;

/// A buffer that begins with a whole message.
#[derive(Drop)]
pub struct Sealed<'b> {
    buffer: &'b mut [u8],
    plan: &'b Plan,
    env: Env,
}

impl<'b> Model for Sealed<'b> {
    ghost use Rattle.rx_draft.specs.Drafts.{Drafted};
    ghost use Rattle.rx_types.specs.contracts.expr.Expr as e;
    ghost use Rattle.std.specs.Coded.{codes};

    ghost Value = { Drafted };

    ghost coded = { Prim.hlevel (codes, e.the_row.coded) };

    ghost use Rattle.rx_draft.specs.Drafts.{drafted};
    ghost use Rattle.rx_draft.specs.Seals.{IsSealed};

    ghost view = { λ s. drafted s.buffer.now s.plan.now s.env };

    ghost invariant = { λ s. IsSealed (drafted s.buffer.now s.plan.now s.env) };
}

impl<'b> Sealed<'b> {
    /// The message whose fields these are.
    pub(crate) fn of(buffer: &'b mut [u8], plan: &'b Plan, env: Env) -> Sealed<'b>
        requires { IsSealed (drafted buffer.old plan.now env) }
        ensures { result ≡ drafted buffer.old plan.now env }
    {
        Sealed { buffer, plan, env }
    }

    /// The message.
    pub fn whole(&self) -> &[u8]
        ensures message { result.now ≡ take self.now.total self.now.bytes }
        ensures reads { (domains : List Domain) (m : Graph) → StandsForSound domains m self.now.plan → Reads domains m result.now self.now.fields }
    {
        &self.buffer[..self.env.total() as usize]
    }

    /// The message with the places of its fields.
    pub fn verified(&self) -> Verified<'_>
        ensures bytes { result.bytes ≡ take self.now.total self.now.bytes }
        ensures plan { result.plan ≡ self.now.plan }
        ensures fields { result.fields ≡ self.now.fields }
    {
        match Opened::over(self.whole(), self.plan).verify() {
            Ok(verified) => verified,
            Err(_) => unreachable!(),
        }
    }

    /// The buffer, with the message at its front.
    pub fn give_back(self) -> &'b mut [u8]
        ensures { result.now ≡ self.entry.bytes }
    {
        self.buffer
    }
}
