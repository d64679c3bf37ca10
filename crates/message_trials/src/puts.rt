//! What is put into a draft, and what a draft tells of itself.
ghost use Rattle.std.specs.Prelude.{◌≡◌};

use rx_context::Plan;
use rx_draft::{Draft, PutFault};
use rx_types::FieldId;
use std::test::Fail;

/// A field, and what is put into it.
#[derive(Clone, Copy)]
pub enum Given {
    Number(FieldId, u64),
    Bytes(FieldId, &'static [u8]),
}

/// A field that is put, and why it is refused, if it is.
pub type Step = (Given, Option<PutFault>);

fn put_number<'b>(
    plan: &Plan,
    draft: &mut Draft<'b>,
    field: FieldId,
    number: u64,
) -> Result<Option<PutFault>, Fail>
    requires { draft.old.plan ≡ plan.now }
    ensures { draft.new.plan ≡ plan.now }
{
    match plan.scalar_size(field) {
        Some(_) => Ok(draft.put_number(field, number).err()),
        None => Err(Fail::new("the field is no scalar")),
    }
}

fn put_bytes<'b>(
    plan: &Plan,
    draft: &mut Draft<'b>,
    field: FieldId,
    bytes: &[u8],
) -> Result<Option<PutFault>, Fail>
    requires { draft.old.plan ≡ plan.now }
    ensures { draft.new.plan ≡ plan.now }
{
    match plan.scalar_size(field) {
        Some(_) => Err(Fail::new("the field is a scalar")),
        None => Ok(draft.put_bytes(field, bytes).err()),
    }
}

/// Puts a field. None: it was put.
pub fn put<'b>(plan: &Plan, draft: &mut Draft<'b>, what: Given) -> Result<Option<PutFault>, Fail>
    requires { draft.old.plan ≡ plan.now }
    ensures { draft.new.plan ≡ plan.now }
{
    match what {
        Given::Number(field, number) => put_number(plan, draft, field, number),
        Given::Bytes(field, bytes) => put_bytes(plan, draft, field, bytes),
    }
}

/// What a draft tells: the field that was put last, the next one, and whether the path ends.
pub fn told<'b>(draft: &Draft<'b>) -> (Option<FieldId>, Option<FieldId>, bool) {
    (draft.last(), draft.next(), draft.at_null())
}

// Whether the step ends as it says, and what the draft tells stays where it is refused.
fn ends_as_told<'b>(plan: &Plan, draft: &mut Draft<'b>, step: &Step) -> Result<bool, Fail>
    requires { draft.old.plan ≡ plan.now }
    ensures { draft.new.plan ≡ plan.now }
{
    let before = told(draft);
    let fault = put(plan, draft, step.0)?;
    Ok(fault == step.1 && (fault.is_none() || told(draft) == before))
}

/// Whether all steps do, one after the other.
pub fn all_end_as_told<'b>(plan: &Plan, draft: &mut Draft<'b>, steps: &[Step]) -> Result<bool, Fail>
    requires { draft.old.plan ≡ plan.now }
    ensures { draft.new.plan ≡ plan.now }
{
    for step in steps {
        if !ends_as_told(plan, draft, step)? {
            return Ok(false);
        }
    }
    Ok(true)
}
