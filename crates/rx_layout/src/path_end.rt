//! A link behind a path: its condition, and the First and the Size of its target.

ghost use Rattle.std.specs.Prelude.{◌≡◌, ℕ, ◌≤◌, IfOk};
ghost use Rattle.rx_graph.specs.Cycles.{IsLink};
ghost use Rattle.rx_graph.specs.Graph.{arrow_of};
ghost use Rattle.rx_forms.specs.Code.{formed_all, limits};
ghost use Rattle.rx_forms.specs.Fronts.{Front, after_end};
ghost use Rattle.rx_forms.specs.Steps.{target_field};
ghost use Rattle.rx_forms.specs.Links.{IsFormable, IsNarrowLink};
ghost use Rattle.rx_layout.specs.Laid.{end_front, IsLaid, IsBegun, IsPlaced};
ghost use Rattle.rx_layout.specs.TypedPath.{message_of, path_of, typed_end};

use crate::asked::Asked;
use crate::path_forms::PathForms;
use rx_forms::{
    FieldForms, FormFault, Linear, condition_form, first_form, links_have_forms, size_form,
};
use rx_graph::{Elaborated, Link, Node};
use rx_types::FieldId;
use std::alloc::Global;
use std::marker::Model;

/// A link of a message behind a path of it.
#[derive(Drop)]
pub struct PathEnd<'p> {
    path: &'p PathForms<'p>,
    link: &'p Link,
}

impl<'p> Model for PathEnd<'p> {
    ghost use Rattle.rx_layout.specs.TypedPath.{TypedEnd, typed_end, typed_end_code};

    ghost Value = { TypedEnd };

    ghost coded = { typed_end_code };

    ghost use Rattle.std.specs.Prelude.{ℕ};
    ghost use Rattle.rx_graph.specs.Cycles.{IsLink};
    ghost use Rattle.rx_graph.specs.Graph.{arrow_of};

    ghost view = { λ e. typed_end e.path.now (arrow_of e.link.now) };

    ghost invariant = { λ e. (i : ℕ) × IsLink e.path.now.graph i (arrow_of e.link.now) };
}

/// The First of a link's target, with what is asked for it.
#[derive(Drop)]
pub struct Begun {
    pub first: Linear,
    pub asked: Asked,
}

/// The First and the Size of a link's target, with what is asked for them.
#[derive(Drop)]
pub struct Target {
    pub first: Linear,
    pub size: Linear,
    pub asked: Asked,
}

impl<'p> PathEnd<'p> {
    /// A link of the path's message.
    pub fn of(path: &'p PathForms<'p>, link: &'p Link) -> PathEnd<'p>
        requires { (i : ℕ) × IsLink path.now.graph i (arrow_of link.now) }
        ensures { result ≡ typed_end path.now (arrow_of link.now) }
    {
        PathEnd { path, link }
    }

    /// The message.
    pub fn message(&self) -> &'p Elaborated<'p>
        ensures { result.now ≡ message_of (path_of self.now) }
    {
        self.path.message()
    }

    /// The fields of the path, with their forms.
    pub fn fields(&self) -> &'p [FieldForms]
        ensures { formed_all result.now ≡ (end_front (path_of self.now)).fields }
    {
        self.path.fields()
    }

    /// Nothing is asked behind the path.
    pub fn nothing(&self, alloc: Global) -> Asked
        ensures { IsLaid (path_of self.now) 190 (end_front (path_of self.now)) result }
    {
        self.path.nothing(alloc)
    }

    /// The link as it stands in memory.
    pub fn link(&self) -> &'p Link
        ensures { arrow_of result.now ≡ self.now.arrow }
    {
        self.link
    }

    /// The expressions of the link have forms, and are narrow.
    pub fn has_forms(&self)
        ensures formable { IsFormable (limits (message_of (path_of self.now))) self.now.arrow }
        ensures narrow { IsNarrowLink (limits (message_of (path_of self.now))) self.now.arrow }
    {
        links_have_forms(self.path.message());
    }

    /// The field that the link leads to, 0 where it leads to none.
    pub fn target_field(&self) -> FieldId
        ensures { result ≡ target_field self.now.arrow.target }
    {
        match self.link.target {
            Node::At(field) => field,
            _ => 0,
        }
    }

    /// The condition of the link, besides what is asked.
    #[tactic(none)]
    pub fn condition_besides(&self, alloc: Global, asked: Asked) -> Result<Asked, FormFault>
        requires room { asked.work.next ≤ 190 }
        ensures { IfOk result (λ new. (front : Front) → IsLaid (path_of self.now) 190 front asked → IsLaid (path_of self.now) 190 (after_end self.now.domains self.now.graph front self.now.arrow) new) }
    {
        self.has_forms();
        let Asked { forms, mut work } = asked;
        let condition = &self.link().condition;
        let fact = condition_form(
            alloc,
            condition,
            true,
            self.message(),
            self.fields(),
            &mut work,
        )?;
        Asked { forms, work }.with(fact)
    }

    /// The condition of the link.
    #[tactic(none)]
    pub fn condition(&self, alloc: Global) -> Result<Asked, FormFault>
        ensures { IfOk result (IsLaid (path_of self.now) 190 (after_end self.now.domains self.now.graph (end_front (path_of self.now)) self.now.arrow)) }
    {
        let nothing = self.nothing(alloc);
        self.condition_besides(alloc, nothing)
    }

    /// The First of the target, behind the condition.
    #[tactic(none)]
    pub fn first(&self, alloc: Global) -> Result<Begun, FormFault>
        ensures { IfOk result (λ begun. IsBegun self.now begun.first begun.asked) }
    {
        self.has_forms();
        let Asked { forms, mut work } = self.condition(alloc)?;
        let first = &self.link().first;
        let first = first_form(alloc, first, self.message(), self.fields(), &mut work)?;
        let asked = Asked { forms, work };
        Ok(Begun { first, asked })
    }

    /// The First and the Size of the target, behind the condition.
    #[tactic(none)]
    pub fn placed(&self, alloc: Global) -> Result<Target, FormFault>
        ensures { IfOk result (λ target. IsPlaced self.now target.first target.size target.asked) }
    {
        self.has_forms();
        let Begun { first, asked } = self.first(alloc)?;
        let Asked { forms, mut work } = asked;
        let (field, size) = (self.target_field(), &self.link().size);
        let size = size_form(
            alloc,
            field,
            size,
            &first,
            self.message(),
            self.fields(),
            &mut work,
        )?;
        let asked = Asked { forms, work };
        Ok(Target { first, size, asked })
    }
}
