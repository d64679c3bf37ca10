//! Choices of links at the end of a path: whether their conditions stay within the path limit, one or two at a time.

ghost use Rattle.std.specs.Prelude.{◌≡◌, ◌≤◌, ◌<◌, ◌+◌, ◌&&◌, [], ◌∷◌, true, false, drop, length, IfOk, IfErr, OnOk};
ghost use Rattle.std.specs.List.{list_all};
ghost use Rattle.rx_types.specs.Tree.{tree_of};
ghost use Rattle.rx_types.specs.Narrow.{IsNarrow};
ghost use Rattle.rx_graph.specs.Graph.{arrow_of};
ghost use Rattle.rx_forms.specs.Normal.{IsCondition};
ghost use Rattle.rx_forms.specs.Steps.{links_on, scalars_on, into_fields};
ghost use Rattle.rx_forms.specs.Code.{formed_all, limits};
ghost use Rattle.rx_forms.specs.Fronts.{front_of};
ghost use Rattle.rx_forms.specs.PathLimit.{ones_and_pairs};
ghost use Rattle.rx_forms.specs.Choices.{conditions_within, asked, front_along, front_within};

use crate::builder::{Builder, start};
use crate::condition::condition_form;
use crate::fault::{FormFault, NoMemory};
use crate::field::FieldForms;
use crate::forms::gather_path;
use crate::laws::links_have_forms;
use crate::work::Work;
use rx_graph::{Elaborated, Link};
use sqlite_items::Items;
use std::alloc::Global;

/// What stands behind a path with so many scalars.
pub fn reach(
    alloc: Global,
    count: usize,
    path: &[u16],
    message: &Elaborated<'_>,
) -> Result<Builder, FormFault>
    requires count { count ≡ scalars_on message.now.domains message.now.graph (into_fields (links_on message.now.domains message.now.graph path.now)) }
    requires few { count < 190 }
    ensures front { IfOk result (λ b. front_of b ≡ front_along message.now.domains message.now.graph path.now) }
    ensures within { OnOk result (front_within message.now.domains message.now.graph path.now ≡ true) }
    ensures room { IfOk result (λ b. b.work.next ≤ 190) }
    ensures limit { IfErr result (λ e. e ≡ FormFault.PathLimit → front_within message.now.domains message.now.graph path.now ≡ false) }
{
    let mut builder = start(alloc, count);
    gather_path(alloc, path, message, &mut builder)?;
    Ok(builder)
}

// The number of the next variable behind the condition of a link, if it stays within the limit.
fn ask_link(
    alloc: Global,
    link: &Link,
    message: &Elaborated<'_>,
    fields: &[FieldForms],
    next: usize,
) -> Result<Option<usize>, NoMemory>
    requires condition { IsCondition (limits message.now) (tree_of link.now.condition) }
    requires narrow { IsNarrow (limits message.now) (tree_of link.now.condition) }
    requires room { next ≤ 190 }
    ensures { IfOk result (λ after. after ≡ asked (formed_all fields.now) next (arrow_of link.now ∷ [])) }
{
    let rows = Items::new(alloc);
    let mut work = Work { next, rows };
    match condition_form(alloc, &link.condition, true, message, fields, &mut work) {
        Ok(_) => Ok(Some(work.next)),
        Err(FormFault::PathLimit) => Ok(None),
        Err(FormFault::NoMemory) => Err(NoMemory),
    }
}

// The same of the link at an index.
fn ask(
    alloc: Global,
    index: u16,
    message: &Elaborated<'_>,
    fields: &[FieldForms],
    next: usize,
) -> Result<Option<usize>, NoMemory>
    requires room { next ≤ 190 }
    ensures { IfOk result (λ after. after ≡ asked (formed_all fields.now) next (links_on message.now.domains message.now.graph (index ∷ []))) }
{
    links_have_forms(message);
    match message.link(index) {
        Some(link) => ask_link(alloc, link, message, fields, next),
        None => Ok(Some(next)),
    }
}

// Whether the condition of a link alone does.
fn keeps_one(
    alloc: Global,
    index: u16,
    message: &Elaborated<'_>,
    fields: &[FieldForms],
    next: usize,
) -> Result<bool, NoMemory>
    requires room { next ≤ 190 }
    ensures { IfOk result (λ kept. kept ≡ conditions_within (formed_all fields.now) next (links_on message.now.domains message.now.graph (index ∷ []))) }
{
    let after = ask(alloc, index, message, fields, next)?;
    match after {
        None => Ok(false),
        Some(_) => Ok(true),
    }
}

// Whether the condition of each link alone does.
fn keeps_ones(
    alloc: Global,
    numbers: &[u16],
    message: &Elaborated<'_>,
    fields: &[FieldForms],
    next: usize,
) -> Result<bool, NoMemory>
    requires room { next ≤ 190 }
    ensures { IfOk result (λ kept. kept ≡ list_all (λ i. conditions_within (formed_all fields.now) next (links_on message.now.domains message.now.graph (i ∷ []))) numbers.now) }
{
    for index in numbers {
        let kept = keeps_one(alloc, *index, message, fields, next)?;
        if !kept {
            return Ok(false);
        }
    }
    Ok(true)
}

// Whether that of one link does, and those of it and each later one. A condition without divisions leaves a later one as it is
// alone, which is asked in its turn.
fn keeps_first(
    alloc: Global,
    numbers: &[u16],
    place: usize,
    message: &Elaborated<'_>,
    fields: &[FieldForms],
    next: usize,
) -> Result<bool, NoMemory>
    requires room { next ≤ 190 }
    requires place { place < length numbers.now }
    ensures { IfOk result (λ kept. list_all (λ out. conditions_within (formed_all fields.now) next (links_on message.now.domains message.now.graph out)) (ones_and_pairs (drop place numbers.now)) ≡ (kept && list_all (λ out. conditions_within (formed_all fields.now) next (links_on message.now.domains message.now.graph out)) (ones_and_pairs (drop (place + 1) numbers.now)))) }
{
    let after = ask(alloc, numbers[place], message, fields, next)?;
    match after {
        None => Ok(false),
        Some(after) => {
            if after == next {
                return Ok(true);
            }
            let later = &numbers[place + 1..];
            keeps_ones(alloc, later, message, fields, after)
        }
    }
}

/// Whether the condition of each link does, and those of each two.
pub fn keeps_choices(
    alloc: Global,
    numbers: &[u16],
    message: &Elaborated<'_>,
    fields: &[FieldForms],
    next: usize,
) -> Result<bool, NoMemory>
    requires room { next ≤ 190 }
    ensures { IfOk result (λ kept. kept ≡ list_all (λ out. conditions_within (formed_all fields.now) next (links_on message.now.domains message.now.graph out)) (ones_and_pairs numbers.now)) }
{
    for place in 0..numbers.len() {
        let kept = keeps_first(alloc, numbers, place, message, fields, next)?;
        if !kept {
            return Ok(false);
        }
    }
    Ok(true)
}
