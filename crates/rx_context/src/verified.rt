// Buffers to be read, and buffers that one path fits.

ghost use Rattle.std.specs.Prelude.{◌≡◌, ◌*◌, ◌<◌, ◌^◌, ◌/◌, List, Some, None, length, IfOk, IfErr, pos, ◌+ℤ◌, nat_abs, slice_range, IsTrue, ◌↔◌};
ghost use Rattle.rx_types.specs.Domain.{Domain};
ghost use Rattle.rx_types.specs.Environment.{placed, place_of, IsAmong};
ghost use Rattle.rx_graph.specs.Graph.{Graph, type_of};
ghost use Rattle.rx_graph.specs.Fits.{content_at, Number, Bytes};
ghost use Rattle.rx_context.specs.Contexts.{IsReading, ReadsBy, ReadsNothingBy, StopsBy, IsOnlyReading};
ghost use Rattle.rx_context.specs.Plan.{StandsFor};

use crate::plan::Plan;
use crate::slots::{find, slots_of};
use crate::walk::walk;
use rx_types::{Entry, Env, FieldId, Stuck};
use std::marker::Model;

/// A buffer that is to be read by a plan.
#[derive(Drop)]
pub struct Opened<'b> {
    bytes: &'b [u8],
    plan: &'b Plan,
}

impl<'b> Model for Opened<'b> {
    ghost use Rattle.rx_context.specs.Contexts.{Source};
    ghost use Rattle.rx_types.specs.contracts.expr.Expr as e;
    ghost use Rattle.std.specs.Coded.{codes};

    ghost Value = { Source };

    ghost coded = { Prim.hlevel (codes, e.the_row.coded) };

    ghost use Rattle.std.specs.Prelude.{length, ◌<◌, ◌^◌};

    ghost view = { λ o. record { bytes = o.bytes.now; plan = o.plan.now } };

    ghost invariant = { λ o. length o.bytes.now < 2 ^ 24 };
}

/// A buffer that one path fits, with the places of its fields.
#[derive(Drop)]
pub struct Verified<'b> {
    bytes: &'b [u8],
    plan: &'b Plan,
    env: Env,
    // where the entry of each field stands
    slots: [u8; 128],
}

impl<'b> Model for Verified<'b> {
    ghost use Rattle.rx_context.specs.Contexts.{Reading};
    ghost use Rattle.rx_types.specs.contracts.expr.Expr as e;
    ghost use Rattle.std.specs.Coded.{codes};

    ghost Value = { Reading };

    ghost coded = { Prim.hlevel (codes, e.the_row.coded) };

    ghost use Rattle.rx_context.specs.Contexts.{IsReading};
    ghost use Rattle.rx_context.specs.Slots.{FindsFields};

    ghost view = { λ v. record { bytes = v.bytes.now; plan = v.plan.now; fields = v.env.fields } };

    ghost invariant = { λ v. IsReading (record { bytes = v.bytes.now; plan = v.plan.now; fields = v.env.fields }) × FindsFields v.env.fields v.slots };
}

/// A buffer that no path fits, as it was given, and why none fits.
#[derive(Drop)]
pub struct Refused<'b> {
    pub context: Opened<'b>,
    pub stuck: Stuck,
}

impl<'b> Opened<'b> {
    /// A buffer of at most 16,777,215 bytes, to be read by the plan.
    pub fn over(bytes: &'b [u8], plan: &'b Plan) -> Opened<'b>
        requires { length bytes.now < 2 ^ 24 }
        ensures { result ≡ record { bytes = bytes.now; plan = plan.now } }
    {
        Opened { bytes, plan }
    }

    /// The fields of the one path that fits the buffer, or why none fits.
    pub fn verify(self) -> Result<Verified<'b>, Refused<'b>>
        ensures same { IfOk result (λ v. (v.bytes ≡ self.entry.bytes) × (v.plan ≡ self.entry.plan)) }
        ensures reads { IfOk result (λ v. ReadsBy v.plan v.bytes v.fields) }
        ensures only { IfOk result (λ v. IsOnlyReading v.plan v.bytes v.fields) }

        // after a refusal
        ensures unchanged { IfErr result (λ r. r.context ≡ self.entry) }
        ensures none { IfErr result (λ r. ReadsNothingBy self.entry.plan self.entry.bytes) }
        ensures stops { IfErr result (λ r. StopsBy self.entry.plan self.entry.bytes r.stuck) }
    {
        let mut env = Env::new(self.bytes.len() as u32);
        match walk(self.plan.kept(), self.bytes, &mut env) {
            Ok(()) => {
                let slots = slots_of(env.entries());
                Ok(Verified {
                    bytes: self.bytes,
                    plan: self.plan,
                    env,
                    slots,
                })
            }
            Err(stuck) => Err(Refused {
                context: self,
                stuck,
            }),
        }
    }
}

impl<'b> Verified<'b> {
    // The field's entry, or one of zeros.
    fn entry(&self, field: FieldId) -> Entry
        ensures place { placed result ≡ place_of field self.now.fields }
        ensures reading { IsReading self.now }
    {
        match find(self.env.entries(), &self.slots, field) {
            Some(entry) => entry,
            None => Entry {
                field,
                first: 0,
                size: 0,
                number: 0,
            },
        }
    }

    /// Whether the field stands on the path.
    pub fn present(&self, field: FieldId) -> bool
        ensures { IsTrue result ↔ IsAmong field self.now.fields }
    {
        find(self.env.entries(), &self.slots, field).is_some()
    }

    /// The number of a scalar.
    pub fn number(&self, field: FieldId) -> u64
        requires { IsAmong field self.now.fields }
        ensures number { result ≡ (place_of field self.now.fields).number }
        ensures content { (domains : List Domain) (m : Graph) (t : Domain) → StandsFor domains m self.now.plan → type_of domains m field ≡ Some t → content_at m.low_order (Some t) self.now.bytes (place_of field self.now.fields) ≡ Number result }
    {
        self.entry(field).number
    }

    /// The bytes of a field that is no scalar.
    pub fn bytes(&self, field: FieldId) -> &'b [u8]
        requires { IsAmong field self.now.fields }
        ensures short { length result.now < 2 ^ 24 }
        ensures part { let p = place_of field self.now.fields in result.now ≡ slice_range self.now.bytes (nat_abs p.first / 8) (nat_abs (p.first +ℤ p.size) / 8) }
        ensures content { (domains : List Domain) (m : Graph) → StandsFor domains m self.now.plan → type_of domains m field ≡ None → content_at m.low_order None self.now.bytes (place_of field self.now.fields) ≡ Bytes result.now }
        ensures size { (domains : List Domain) (m : Graph) → StandsFor domains m self.now.plan → type_of domains m field ≡ None → pos (8 * length result.now) ≡ (place_of field self.now.fields).size }
    {
        let entry = self.entry(field);
        let first = entry.first as usize;
        let end = first + entry.size as usize;
        &self.bytes[first / 8..end / 8]
    }

    /// The whole buffer.
    pub fn whole(&self) -> &'b [u8]
        ensures { result.now ≡ self.now.bytes }
    {
        self.bytes
    }

    /// Where a field lies: its First and its Size, in bits.
    pub fn place(&self, field: FieldId) -> (u32, u32)
        requires { IsAmong field self.now.fields }
        ensures first { pos result.0 ≡ (place_of field self.now.fields).first }
        ensures size { pos result.1 ≡ (place_of field self.now.fields).size }
    {
        let entry = self.entry(field);
        (entry.first, entry.size)
    }

    /// The bytes of a field that is no scalar, to be read by another plan.
    pub fn inner(&self, field: FieldId, plan: &'b Plan) -> Opened<'b>
        requires { IsAmong field self.now.fields }
        ensures plan { result.plan ≡ plan.now }
        ensures part { let p = place_of field self.now.fields in result.bytes ≡ slice_range self.now.bytes (nat_abs p.first / 8) (nat_abs (p.first +ℤ p.size) / 8) }
        ensures content { (domains : List Domain) (m : Graph) → StandsFor domains m self.now.plan → type_of domains m field ≡ None → content_at m.low_order None self.now.bytes (place_of field self.now.fields) ≡ Bytes result.bytes }
    {
        Opened::over(self.bytes(field), plan)
    }
}
