//! A buffer into which a message is written field by field.

ghost use Rattle.std.specs.Prelude.{◌≡◌, ◌↔◌, ℕ, ◌<◌, ◌≤◌, ◌^◌, List, [], length, take, IfOk, IfErr, OnOk, OnErr, IsOk, IfSome, IfNone, IsTrue};
ghost use Rattle.rx_types.specs.Domain.{Domain};
ghost use Rattle.rx_graph.specs.Fits.{Number, Bytes, ReadsAs};
ghost use Rattle.rx_graph.specs.Graph.{Graph};
ghost use Rattle.rx_types.specs.Environment.{IsAmong};
ghost use Rattle.rx_graph.specs.Stuck.{field_of};
ghost use Rattle.rx_draft.specs.Drafts.{StandsForSound, IsSoundPlan, IsDraft, environment_of, end_node};
ghost use Rattle.rx_draft.specs.Puts.{IsScalar, IsOpaque, IsNext, IsAtNull, IsDone, Refuses, HasPut, values_of};
ghost use Rattle.rx_draft.specs.Seals.{KeepsRest};

use crate::fault::PutFault;
use crate::putting::{put_bytes, put_number};
use crate::sealed::Sealed;
use crate::stepping::{is_at_null, is_done, next_field};
use rx_context::Plan;
use rx_types::{Env, FieldId};
use std::marker::Model;

/// A buffer into which a message is written, field by field in the order of its path.
#[derive(Drop)]
pub struct Draft<'b> {
    buffer: &'b mut [u8],
    plan: &'b Plan,
    env: Env,
}

impl<'b> Model for Draft<'b> {
    ghost use Rattle.rx_draft.specs.Drafts.{Drafted};
    ghost use Rattle.rx_types.specs.contracts.expr.Expr as e;
    ghost use Rattle.std.specs.Coded.{codes};

    ghost Value = { Drafted };

    ghost coded = { Prim.hlevel (codes, e.the_row.coded) };

    ghost use Rattle.rx_draft.specs.Drafts.{drafted, IsDraft};

    ghost view = { λ d. drafted d.buffer.now d.plan.now d.env };

    ghost invariant = { λ d. IsDraft (drafted d.buffer.now d.plan.now d.env) };
}

impl<'b> Draft<'b> {
    /// A draft of a message of `total` bytes at the front of the buffer, with no field yet. The checks of the plan's
    /// message hold.
    pub fn over(buffer: &'b mut [u8], plan: &'b Plan, total: usize) -> Draft<'b>
        requires sound { IsSoundPlan plan.now }
        requires room { total ≤ length buffer.old }
        requires short { total < 2 ^ 24 }
        ensures bytes { result.bytes ≡ buffer.old }
        ensures plan { result.plan ≡ plan.now }
        ensures total { result.total ≡ total }
        ensures fields { result.fields ≡ [] }
    {
        Draft {
            buffer,
            plan,
            env: Env::new(total as u32),
        }
    }

    /// The field that is the next, if there is one.
    pub fn next(&self) -> Option<FieldId>
        ensures draft { IsDraft self.now }
        ensures some { IfSome result (λ f. (domains : List Domain) (m : Graph) → StandsForSound domains m self.now.plan → IsNext m (environment_of self.now) f) }
        ensures none { IfNone result ((domains : List Domain) (m : Graph) (f : ℕ) → StandsForSound domains m self.now.plan → IsNext m (environment_of self.now) f → ⊥) }
    {
        next_field(self.plan, &self.env)
    }

    /// Whether the path ends here.
    pub fn at_null(&self) -> bool
        ensures { (domains : List Domain) (m : Graph) → StandsForSound domains m self.now.plan → (IsTrue result ↔ IsAtNull domains m (environment_of self.now)) }
    {
        is_at_null(self.plan, &self.env)
    }

    /// Puts a number into the place of a scalar, if that is the next field. Over another field nothing is written.
    pub fn put_number(&mut self, field: FieldId, number: u64) -> Result<(), PutFault>
        requires { IsScalar self.old.plan field }
        ensures plan { self.new.plan ≡ self.old.plan }
        ensures total { self.new.total ≡ self.old.total }
        ensures put { OnOk result ((domains : List Domain) (m : Graph) → StandsForSound domains m self.old.plan → HasPut domains m self.old self.new field (Number number)) }
        ensures refused { IfErr result (λ fault. (domains : List Domain) (m : Graph) → StandsForSound domains m self.old.plan → Refuses domains m (environment_of self.old) (values_of domains m self.old) field (Number number) fault) }
        ensures same { OnErr result (self.new ≡ self.old) }
        ensures rest { (start : List ℕ) → KeepsRest start self.old → KeepsRest start self.new }
    {
        let plan = self.plan;
        put_number(plan, &mut *self.buffer, &mut self.env, field, number)
    }

    /// Puts bytes into the place of a field that is no scalar, if that is the next. Over another field nothing is
    /// written.
    pub fn put_bytes(&mut self, field: FieldId, bytes: &[u8]) -> Result<(), PutFault>
        requires { IsOpaque self.old.plan field }
        ensures plan { self.new.plan ≡ self.old.plan }
        ensures total { self.new.total ≡ self.old.total }
        ensures put { OnOk result ((domains : List Domain) (m : Graph) → StandsForSound domains m self.old.plan → HasPut domains m self.old self.new field (Bytes bytes.now)) }
        ensures refused { IfErr result (λ fault. (domains : List Domain) (m : Graph) → StandsForSound domains m self.old.plan → Refuses domains m (environment_of self.old) (values_of domains m self.old) field (Bytes bytes.now) fault) }
        ensures same { OnErr result (self.new ≡ self.old) }
        ensures rest { (start : List ℕ) → KeepsRest start self.old → KeepsRest start self.new }
    {
        let plan = self.plan;
        put_bytes(plan, &mut *self.buffer, &mut self.env, field, bytes)
    }

    /// The field that was put last, if any was.
    pub fn last(&self) -> Option<FieldId>
        ensures { result ≡ field_of (end_node self.now.fields) }
    {
        match self.env.entries().last() {
            None => None,
            Some(entry) => Some(entry.field),
        }
    }

    /// Whether the field was put.
    pub fn present(&self, field: FieldId) -> bool
        ensures { IsTrue result ↔ IsAmong field self.now.fields }
    {
        self.env.has(field)
    }

    // Whether the path ends here, and the message with it.
    fn is_done(&self) -> bool
        ensures { (domains : List Domain) (m : Graph) → StandsForSound domains m self.now.plan → (IsTrue result ↔ IsDone domains m (environment_of self.now)) }
    {
        is_done(self.plan, &self.env)
    }

    /// The message, if it ends here; else the same draft.
    pub fn seal(self) -> Result<Sealed<'b>, Draft<'b>>
        ensures sealed { IfOk result (λ s. s ≡ self.entry) }
        ensures reads { IfOk result (λ s. (domains : List Domain) (m : Graph) → StandsForSound domains m s.plan → ReadsAs domains m (take s.total s.bytes) (values_of domains m s)) }
        ensures same { IfErr result (λ d. d ≡ self.entry) }
        ensures done { (domains : List Domain) (m : Graph) → StandsForSound domains m self.entry.plan → (IsOk result ↔ IsDone domains m (environment_of self.entry)) }
    {
        if self.is_done() {
            let Draft { buffer, plan, env } = self;
            return Ok(Sealed::of(buffer, plan, env));
        }
        Err(self)
    }

    /// The buffer, with what was put.
    pub fn give_back(self) -> &'b mut [u8]
        ensures { result.now ≡ self.entry.bytes }
    {
        self.buffer
    }
}
