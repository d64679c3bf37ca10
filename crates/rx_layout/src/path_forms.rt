//! A path of a message with the forms of its fields, from which the query of each goal at its end is made.

ghost use Rattle.std.specs.Prelude.{◌≡◌, ℕ, ◌≤◌, ◌++◌, map, IfOk};
ghost use Rattle.rx_graph.specs.declared.message.Node.TheVariants.{Start};
ghost use Rattle.rx_graph.specs.Cycles.{IsPath};
ghost use Rattle.rx_forms.specs.Code.{formed_all};
ghost use Rattle.rx_forms.specs.Fronts.{front_of};
ghost use Rattle.rx_layout.specs.Fitting.{IsFitting};
ghost use Rattle.rx_layout.specs.Goals.{source, IsGoal};
ghost use Rattle.rx_layout.specs.Laid.{end_front, IsLaid, path_facts, path_front};
ghost use Rattle.rx_layout.specs.QueryOf.{query_for};
ghost use Rattle.rx_layout.specs.TypedPath.{typed_path, message_of};

use crate::asked::Asked;
use crate::fault::NoMemory;
use crate::fields::{add_overlays, add_places, add_types, row_facts};
use crate::goal::Goal;
use crate::goal_parts::ask;
use crate::laws::types_are_proper;
use crate::parts::query_of_all;
use crate::types::between;
use rx_forms::{
    Builder, Checkable, FieldForms, Form, FormFault, gather_fields, links_have_forms,
    scalars_along, start,
};
use rx_graph::{Elaborated, Path};
use rx_proof::Query;
use sqlite_items::Items;
use std::alloc::Global;
use std::marker::Model;

/// A path of a message with the forms of its fields. They are made once; each goal lays its own parts on top.
#[derive(Drop)]
pub struct PathForms<'s> {
    message: &'s Elaborated<'s>,
    path: &'s Path,
    fields: Vec<FieldForms>,
    next: usize,
    facts: Items<Form>,
    rows: Items<Form>,
}

impl<'s> Model for PathForms<'s> {
    ghost use Rattle.rx_layout.specs.TypedPath.{TypedPath, typed_path, typed_path_code};

    ghost Value = { TypedPath };

    ghost coded = { typed_path_code };

    ghost use Rattle.rx_layout.specs.Laid.{HasForms};

    ghost view = { λ p. typed_path p.message.now p.path.now };

    ghost invariant = { λ p. HasForms (typed_path p.message.now p.path.now) p.fields.items p.next p.facts p.rows };
}

// The fields of a path with their forms, and what was gathered along it.
#[tactic(none)]
fn gathered(alloc: Global, path: &[u16], message: &Elaborated<'_>) -> Result<Builder, FormFault>
    ensures gone { IfOk result (λ b. front_of b ≡ path_front message.now.domains message.now.graph path.now) }
    ensures room { IfOk result (λ b. b.work.next ≤ 190) }
    ensures fits { IfOk result (λ b. (n : ℕ) → b.work.next ≤ n → IsFitting n (front_of b)) }
{
    links_have_forms(message);
    let count = scalars_along(path, message);
    if count >= 190 {
        return Err(FormFault::PathLimit);
    }
    let mut builder = start(alloc, count);
    gather_fields(alloc, path, message, &mut builder)?;
    Ok(builder)
}

// Types, length, places and overlays of the fields of a path, and the conditions of its links.
fn path_facts(
    alloc: Global,
    fields: &[FieldForms],
    message: &Elaborated<'_>,
    conditions: Items<Form>,
) -> Result<Items<Form>, FormFault>
    ensures { IfOk result (λ facts. facts ≡ path_facts message.now.domains message.now.graph fields.now conditions) }
{
    let mut facts = Items::new(alloc);
    add_types(alloc, fields, message, &mut facts)?;
    let length = between(alloc, 0, 16_777_215, 0)?;
    facts.push(length)?;
    add_places(alloc, fields, &mut facts)?;
    add_overlays(alloc, fields, message, &mut facts)?;
    facts.append(conditions)?;
    Ok(facts)
}

impl<'s> PathForms<'s> {
    /// The forms of a path.
    pub fn of(
        alloc: Global,
        message: &'s Checkable<'s>,
        path: &'s Path,
    ) -> Result<PathForms<'s>, NoMemory>
        ensures { IfOk result (λ forms. forms ≡ typed_path message.now path.now) }
    {
        let message = message.elaborated();
        let builder = gathered(alloc, path.links(), message)?;
        let forms = PathForms::with(alloc, message, path, builder)?;
        Ok(forms)
    }

    // The forms of a path along which this was gathered.
    #[tactic(none)]
    fn with(
        alloc: Global,
        message: &'s Elaborated<'s>,
        path: &'s Path,
        builder: Builder,
    ) -> Result<PathForms<'s>, FormFault>
        requires gone { front_of builder ≡ path_front message.now.domains message.now.graph path.now }
        requires room { builder.work.next ≤ 190 }
        requires fits { (n : ℕ) → builder.work.next ≤ n → IsFitting n (front_of builder) }
        ensures { IfOk result (λ forms. forms ≡ typed_path message.now path.now) }
    {
        let Builder {
            fields,
            work,
            conditions,
            ..
        } = builder;
        let facts = path_facts(alloc, fields.as_slice(), message, conditions)?;
        let rows = row_facts(alloc, work.rows.as_slice())?;
        Ok(PathForms {
            message,
            path,
            fields,
            next: work.next,
            facts,
            rows,
        })
    }

    /// The message.
    pub(crate) fn message(&self) -> &'s Elaborated<'s>
        ensures { result.now ≡ message_of self.now }
    {
        self.message
    }

    /// The fields of the path, with their forms.
    pub(crate) fn fields(&self) -> &[FieldForms]
        ensures { formed_all result.now ≡ (end_front self.now).fields }
    {
        self.fields.as_slice()
    }

    /// Nothing is asked at the end of the path.
    #[tactic(none)]
    pub(crate) fn nothing(&self, alloc: Global) -> Asked
        ensures { IsLaid self.now 190 (end_front self.now) result }
    {
        Asked::nothing(alloc, self.next)
    }

    /// The query of the path and a goal at its end.
    #[tactic(none)]
    pub fn query(&self, alloc: Global, goal: &Goal) -> Result<Query, NoMemory>
        requires goal { IsGoal self.now.domains self.now.graph goal.now }
        requires path { IsPath self.now.graph Start self.now.path (source goal.now) }
        ensures { IfOk result (λ query. query ≡ query_for self.now.domains self.now.graph goal.now self.now.path) }
    {
        self.message.is_known();
        types_are_proper(self.message);
        let asked = ask(alloc, goal, self)?;
        let variables = asked.work.next;
        let rows = row_facts(alloc, asked.work.rows.as_slice())?;
        let (facts, asked) = (self.facts.as_slice(), asked.forms.as_slice());
        query_of_all(
            alloc,
            variables,
            facts,
            asked,
            self.rows.as_slice(),
            rows.as_slice(),
        )
    }
}
