//! Plans: what is kept of a message to decode by.

ghost use Rattle.std.specs.Prelude.{◌≡◌, IfOk};
ghost use Rattle.rx_graph.specs.Graph.{domains_of, graph_of};
ghost use Rattle.rx_context.specs.Plan.{planned, IsPlan, MayBePlanned, StandsFor};

use crate::fault::NoMemory;
use crate::kept::Kept;
use crate::laws::sound_messages_may_be_planned;
use crate::making::kept_of;
use rx_graph::{Message, Sound, Spec};
use std::alloc::Global;
use std::marker::Model;

/// What is kept of a message to decode by it.
#[derive(Drop)]
pub struct Plan {
    kept: Kept,
}

impl Model for Plan {
    ghost use Rattle.rx_context.specs.Plan.{Planned};
    ghost use Rattle.rx_types.specs.contracts.expr.Expr as e;
    ghost use Rattle.std.specs.Coded.{codes};

    ghost Value = { Planned };

    ghost coded = { Prim.hlevel (codes, e.the_row.coded) };

    ghost use Rattle.rx_context.specs.Plan.{planned, IsPlan};

    ghost view = { λ plan. planned plan.kept };

    ghost invariant = { λ plan. IsPlan (planned plan.kept) };
}

impl Plan {
    /// The plan of a message of the specification, which is decoded along one path.
    pub fn make(alloc: Global, message: &Message, spec: &Spec) -> Result<Plan, NoMemory>
        requires may { MayBePlanned (domains_of spec.now) (graph_of message.now) }
        ensures { IfOk result (λ plan. StandsFor (domains_of spec.now) (graph_of message.now) plan) }
    {
        let kept = kept_of(alloc, message, spec.scalars.as_slice())?;
        Ok(Plan { kept })
    }

    /// The plan of a message whose checks all hold.
    pub fn of(alloc: Global, message: &Sound<'_>) -> Result<Plan, NoMemory>
        ensures { IfOk result (λ plan. StandsFor message.now.domains message.now.graph plan) }
    {
        sound_messages_may_be_planned(message);
        let message = message.elaborated();
        let kept = kept_of(alloc, message.message(), message.scalars())?;
        Ok(Plan { kept })
    }

    // What the plan keeps.
    pub fn kept(&self) -> &Kept
        ensures value { planned result.now ≡ self.now }
        ensures plan { IsPlan self.now }
    {
        &self.kept
    }
}
