//! The one buffer that reads as a valuation.

ghost use Rattle.std.specs.Prelude.{◌≡◌, ℕ, ◌<◌, ◌≤◌, ◌^◌, List, length, take, IfOk, IfErr};
ghost use Rattle.rx_types.specs.Domain.{Domain};
ghost use Rattle.rx_graph.specs.Fits.{ReadsAs, length_of};
ghost use Rattle.rx_graph.specs.Graph.{Graph};
ghost use Rattle.rx_draft.specs.Drafts.{StandsForSound, IsSoundPlan, IsDraft, environment_of};
ghost use Rattle.rx_draft.specs.Puts.{IsAtNull};
ghost use Rattle.rx_serial.specs.Filling.{Gives};
ghost use Rattle.rx_serial.specs.Rooms.{IsAtMost, HaveKinds, KeepsBehind};
ghost use Rattle.rx_serial.specs.Unfit.{IsUnfit, Tells};
ghost use Rattle.rx_serial.specs.declared.fault.WriteFault.TheVariants.{NoRoom};

use crate::fault::{Unfit, WriteFault};
use crate::filling::{fill, first_unused};
use crate::measuring::room;
use rx_context::Plan;
use rx_draft::{Draft, Sealed};
use rx_values::Valuation;

/// Writes the message of the valuation at the front of the buffer, or says why there is none. The checks of the plan's
/// message hold. Behind a message that has room nothing changes; where there is no room for it, the whole buffer stays.
pub fn write<'b>(
    plan: &'b Plan,
    valuation: &Valuation,
    buffer: &'b mut [u8],
) -> Result<Sealed<'b>, Unfit<'b>>
    requires sound { IsSoundPlan plan.now }
    requires kinds { HaveKinds plan.now valuation.now }
    requires short { IsAtMost plan.now valuation.now 16777215 }
    ensures plan { IfOk result (λ s. s.plan ≡ plan.now) }
    ensures total { IfOk result (λ s. (domains : List Domain) (m : Graph) → StandsForSound domains m plan.now → (s.total ≡ length_of domains m valuation.now) × (s.total ≤ length buffer.old)) }
    ensures reads { IfOk result (λ s. (domains : List Domain) (m : Graph) → StandsForSound domains m plan.now → ReadsAs domains m (take s.total s.bytes) valuation.now) }
    ensures rest { IfOk result (λ s. KeepsBehind s.total buffer.old s.bytes) }

    // after a refusal
    ensures told { IfErr result (λ u. (domains : List Domain) (m : Graph) → StandsForSound domains m plan.now → Tells domains m valuation.now (length buffer.old) u.why) }
    ensures unchanged { IfErr result (λ u. (needed had : ℕ) → u.why ≡ NoRoom needed had → u.buffer.now ≡ buffer.old) }
    ensures behind { IfErr result (λ u. (domains : List Domain) (m : Graph) → StandsForSound domains m plan.now → KeepsBehind (length_of domains m valuation.now) buffer.old u.buffer.now) }
{
    let needed = room(plan, valuation);
    let had = buffer.len();
    if had < needed {
        return Err(Unfit {
            buffer,
            why: WriteFault::NoRoom(needed, had),
        });
    }
    write_within(plan, valuation, buffer, needed)
}

// Writes the message of the valuation, which has room in the buffer.
fn write_within<'b>(
    plan: &'b Plan,
    valuation: &Valuation,
    buffer: &'b mut [u8],
    total: usize,
) -> Result<Sealed<'b>, Unfit<'b>>
    requires sound { IsSoundPlan plan.now }
    requires kinds { HaveKinds plan.now valuation.now }
    requires room { total ≤ length buffer.old }
    requires short { total < 2 ^ 24 }
    requires length { (domains : List Domain) (m : Graph) → StandsForSound domains m plan.now → total ≡ length_of domains m valuation.now }
    ensures plan { IfOk result (λ s. s.plan ≡ plan.now) }
    ensures total { IfOk result (λ s. s.total ≡ total) }
    ensures reads { IfOk result (λ s. (domains : List Domain) (m : Graph) → StandsForSound domains m plan.now → ReadsAs domains m (take s.total s.bytes) valuation.now) }
    ensures rest { IfOk result (λ s. KeepsBehind total buffer.old s.bytes) }
    ensures told { IfErr result (λ u. (domains : List Domain) (m : Graph) → StandsForSound domains m plan.now → IsUnfit domains m valuation.now u.why) }
    ensures behind { IfErr result (λ u. KeepsBehind total buffer.old u.buffer.now) }
{
    let mut draft = Draft::over(buffer, plan, total);
    match fill(valuation, &mut draft) {
        Ok(()) => finish(valuation, draft),
        Err(why) => Err(Unfit {
            buffer: draft.give_back(),
            why,
        }),
    }
}

// The message of a draft whose path ends, if nothing of the valuation is left.
fn finish<'b>(valuation: &Valuation, draft: Draft<'b>) -> Result<Sealed<'b>, Unfit<'b>>
    requires draft { IsDraft draft }
    requires gives { Gives valuation.now draft }
    requires null { (domains : List Domain) (m : Graph) → StandsForSound domains m draft.plan → IsAtNull domains m (environment_of draft) }
    requires length { (domains : List Domain) (m : Graph) → StandsForSound domains m draft.plan → draft.total ≡ length_of domains m valuation.now }
    ensures sealed { IfOk result (λ s. s ≡ draft.entry) }
    ensures reads { IfOk result (λ s. (domains : List Domain) (m : Graph) → StandsForSound domains m draft.entry.plan → ReadsAs domains m (take s.total s.bytes) valuation.now) }
    ensures told { IfErr result (λ u. (domains : List Domain) (m : Graph) → StandsForSound domains m draft.entry.plan → IsUnfit domains m valuation.now u.why) }
    ensures bytes { IfErr result (λ u. u.buffer.now ≡ draft.entry.bytes) }
{
    match first_unused(valuation, &draft) {
        Some(field) => Err(Unfit {
            buffer: draft.give_back(),
            why: WriteFault::Unused(field),
        }),
        None => match draft.seal() {
            Ok(sealed) => Ok(sealed),
            Err(_) => unreachable!(),
        },
    }
}
