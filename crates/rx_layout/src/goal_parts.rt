//! What a goal asks at the end of a path.

ghost use Rattle.std.specs.Prelude.{◌≡◌, ℕ, [], ◌∷◌, ◌≤◌, Some, None, IfOk, IfSome, slice_get};
ghost use Rattle.rx_types.specs.Narrow.{IsShort, places_in_bits};
ghost use Rattle.rx_types.specs.Tree.{tree_if_any};
ghost use Rattle.rx_graph.specs.Cycles.{IsLink};
ghost use Rattle.rx_graph.specs.Graph.{arrow_of, type_of, overlay_of};
ghost use Rattle.rx_forms.specs.Code.{limits};
ghost use Rattle.rx_forms.specs.Steps.{target_field};
ghost use Rattle.rx_forms.specs.Links.{IsNarrowIfAny};
ghost use Rattle.rx_layout.specs.Goals.{IsGoal, HasLink, LeadsToBytes};
ghost use Rattle.rx_layout.specs.Laid.{end_front, IsLaid, IsAsked, asked_link, behind};
ghost use Rattle.rx_layout.specs.QueryOf.{link_numbered, interval_or, rest_interval, taken_asked, position_asked, grid_asked, overlay_asked, cover_asked, cover_to, whole_asked, asked_by, with_link};
ghost use Rattle.rx_layout.specs.TypedPath.{message_of, path_of};

use crate::asked::Asked;
use crate::checklist::{LinkCheck, Subject, subject_of};
use crate::formula::{
    cover_formula, grid_formula, last_end, no_multiple, null_formula, overlay_formula,
    position_formula,
};
use crate::goal::Goal;
use crate::path_end::PathEnd;
use crate::path_forms::PathForms;
use rx_forms::{Form, FormFault, interval_of, size_of};
use rx_graph::{Elaborated, Link, Node};
use rx_types::{Expr, FieldId, Interval};
use sqlite_items::Items;
use std::alloc::Global;

// ---- intervals

// The interval of an aspect, another one where there is none.
fn interval_or(aspect: &Option<Expr>, otherwise: Interval, message: &Elaborated<'_>) -> Interval
    requires narrow { IsNarrowIfAny (limits message.now) (tree_if_any aspect.now) }
    requires short { IsShort otherwise }
    ensures value { result ≡ interval_or (limits message.now) (tree_if_any aspect.now) otherwise }
    ensures short { IsShort result }
{
    match aspect {
        Some(aspect) => interval_of(aspect, message),
        None => otherwise,
    }
}

// What a First lies between, and any end.
fn places() -> Interval
    ensures value { result ≡ places_in_bits }
    ensures short { IsShort result }
{
    Interval {
        low: 0,
        high: 1 << 27,
    }
}

// What the rest of the message lies between.
fn rest() -> Interval
    ensures value { result ≡ rest_interval }
    ensures short { IsShort result }
{
    Interval {
        low: -(1 << 27),
        high: 1 << 27,
    }
}

// ---- what a check asks of a link

// The link is taken.
#[tactic(none)]
fn taken(alloc: Global, end: &PathEnd<'_>) -> Result<Asked, FormFault>
    ensures { IfOk result (IsAsked 190 end.now (asked_link end.now.domains end.now.graph LinkCheck.Taken)) }
{
    end.condition(alloc)
}

// First or Size of the target is below 0.
#[tactic(none)]
fn position(alloc: Global, end: &PathEnd<'_>) -> Result<Asked, FormFault>
    ensures { IfOk result (IsAsked 190 end.now (position_asked end.now.domains end.now.graph)) }
{
    let target = end.placed(alloc)?;
    let formula = position_formula(alloc, &target.first, &target.size)?;
    target.asked.with(formula)
}

// First or Size of the target, a field of bytes, is no multiple of 8.
#[tactic(none)]
fn grid(alloc: Global, end: &PathEnd<'_>) -> Result<Asked, FormFault>
    requires bytes { type_of end.now.domains end.now.graph (target_field end.now.arrow.target) ≡ None }
    ensures { IfOk result (IsAsked 192 end.now (grid_asked end.now.domains end.now.graph)) }
{
    end.has_forms();
    let target = end.placed(alloc)?;
    let quotient = target.asked.work.next;
    let formula = grid_formula(alloc, &target.first, &target.size, quotient)?;
    let first = interval_or(&end.link().first, places(), end.message());
    let size = interval_or(&end.link().size, rest(), end.message());
    let asked = target.asked.with_quotient(alloc, &first)?;
    let asked = asked.with_quotient(alloc, &size)?;
    asked.with(formula)
}

// The Size of the target is not that of the field below.
#[tactic(none)]
fn overlay(alloc: Global, end: &PathEnd<'_>, below: FieldId) -> Result<Asked, FormFault>
    ensures { IfOk result (IsAsked 190 end.now (λ fields n link. overlay_asked end.now.domains end.now.graph fields n link below)) }
{
    let target = end.placed(alloc)?;
    let below = size_of(alloc, end.fields(), below)?;
    let formula = overlay_formula(alloc, &target.size, &below)?;
    target.asked.with(formula)
}

// The target does not begin at the greatest end before it.
#[tactic(none)]
fn cover(alloc: Global, end: &PathEnd<'_>) -> Result<Asked, FormFault>
    ensures { IfOk result (IsAsked 190 end.now (cover_asked end.now.domains end.now.graph None)) }
{
    let begun = end.first(alloc)?;
    let formula = cover_formula(alloc, end.fields(), &begun.first)?;
    begun.asked.with(formula)
}

// The link is taken, and nothing holds.
#[tactic(none)]
fn never(alloc: Global, end: &PathEnd<'_>) -> Result<Asked, FormFault>
    ensures { IfOk result (IsAsked 190 end.now (cover_asked end.now.domains end.now.graph (Some 0))) }
{
    let asked = end.condition(alloc)?;
    asked.with(Form::Any(Items::new(alloc)))
}

// The last field does not have the greatest end.
#[tactic(none)]
fn null(alloc: Global, end: &PathEnd<'_>) -> Result<Asked, FormFault>
    ensures { IfOk result (IsAsked 190 end.now (cover_to end.now.domains end.now.graph Node.Null)) }
{
    let asked = end.condition(alloc)?;
    let formula = null_formula(alloc, end.fields())?;
    asked.with(formula)
}

// The last field does not end on a byte.
#[tactic(none)]
fn whole(alloc: Global, end: &PathEnd<'_>) -> Result<Asked, FormFault>
    ensures { IfOk result (IsAsked 191 end.now (whole_asked end.now.domains end.now.graph)) }
{
    let asked = end.condition(alloc)?;
    let last = last_end(alloc, end.fields())?;
    let formula = no_multiple(alloc, &last, asked.work.next)?;
    let asked = asked.with_quotient(alloc, &places())?;
    asked.with(formula)
}

// What a check of covering asks of a link into a field.
#[tactic(none)]
fn field_cover(alloc: Global, end: &PathEnd<'_>, field: FieldId) -> Result<Asked, FormFault>
    ensures { IfOk result (IsAsked 190 end.now (cover_asked end.now.domains end.now.graph (overlay_of (slice_get end.now.graph.fields field)))) }
{
    match end.message().overlay(field) {
        Some(_) => never(alloc, end),
        None => cover(alloc, end),
    }
}

// What a check of covering asks of a link.
#[tactic(none)]
fn link_cover(alloc: Global, end: &PathEnd<'_>) -> Result<Asked, FormFault>
    ensures { IfOk result (IsAsked 190 end.now (asked_link end.now.domains end.now.graph LinkCheck.Cover)) }
{
    match end.link().target {
        Node::Start => taken(alloc, end),
        Node::At(field) => field_cover(alloc, end, field),
        Node::Null => null(alloc, end),
    }
}

// What a check of overlays asks of a link.
#[tactic(none)]
fn link_overlay(alloc: Global, end: &PathEnd<'_>) -> Result<Asked, FormFault>
    ensures { IfOk result (IsAsked 190 end.now (asked_link end.now.domains end.now.graph LinkCheck.Overlay)) }
{
    match end.message().overlay(end.target_field()) {
        Some(below) => overlay(alloc, end, below),
        None => taken(alloc, end),
    }
}

// What a check of a link asks.
#[tactic(none)]
fn link_parts(alloc: Global, check: LinkCheck, end: &PathEnd<'_>) -> Result<Asked, FormFault>
    requires bytes { check ≡ LinkCheck.Grid → type_of end.now.domains end.now.graph (target_field end.now.arrow.target) ≡ None }
    ensures { IfOk result (IsAsked 192 end.now (asked_link end.now.domains end.now.graph check)) }
{
    match check {
        LinkCheck::Taken => taken(alloc, end),
        LinkCheck::Position => position(alloc, end),
        LinkCheck::Grid => grid(alloc, end),
        LinkCheck::Overlay => link_overlay(alloc, end),
        LinkCheck::Cover => link_cover(alloc, end),
        LinkCheck::Whole => whole(alloc, end),
    }
}

// ---- what a goal asks

// The link of a node that has a number.
fn link_numbered<'s>(message: &Elaborated<'s>, node: Node, number: u16) -> Option<&'s Link>
    ensures none { result ≡ None → link_numbered message.now.graph node number ≡ None }
    ensures found { IfSome result (λ link. link_numbered message.now.graph node number ≡ Some (arrow_of link.now)) }
    ensures is { IfSome result (λ link. (i : ℕ) × IsLink message.now.graph i (arrow_of link.now)) }
{
    let mut before = number.saturating_sub(1);
    for link in message.links() {
        if node.is(link.source) {
            if before == 0 {
                return Some(link);
            }
            before -= 1;
        }
    }
    None
}

// What a check of the link with a number asks, nothing where there is none.
#[tactic(none)]
fn numbered(
    alloc: Global,
    check: LinkCheck,
    node: Node,
    number: u16,
    path: &PathForms<'_>,
) -> Result<Asked, FormFault>
    requires bytes { check ≡ LinkCheck.Grid → HasLink path.now.domains path.now.graph node number (LeadsToBytes path.now.domains path.now.graph) }
    ensures { IfOk result (IsLaid path.now 192 (behind (with_link path.now.domains path.now.graph (link_numbered path.now.graph node number) (end_front path.now).fields (end_front path.now).division (λ l. asked_link path.now.domains path.now.graph check (end_front path.now).fields (end_front path.now).division l)) (end_front path.now))) }
{
    match link_numbered(path.message(), node, number) {
        Some(link) => link_parts(alloc, check, &PathEnd::of(path, link)),
        None => Ok(path.nothing(alloc)),
    }
}

// Two links of a node are taken, nothing where there is none with one of the numbers.
#[tactic(none)]
fn both_taken(
    alloc: Global,
    node: Node,
    one: u16,
    other: u16,
    path: &PathForms<'_>,
) -> Result<Asked, FormFault>
    ensures { IfOk result (IsLaid path.now 192 (behind (asked_by path.now.domains path.now.graph (Goal.Exclusive node one other) (end_front path.now).fields (end_front path.now).division) (end_front path.now))) }
{
    let Some(one) = link_numbered(path.message(), node, one) else {
        return Ok(path.nothing(alloc));
    };
    let Some(other) = link_numbered(path.message(), node, other) else {
        return Ok(path.nothing(alloc));
    };
    let asked = PathEnd::of(path, one).condition(alloc)?;
    PathEnd::of(path, other).condition_besides(alloc, asked)
}

/// What a goal asks at the end of a path.
#[tactic(none)]
pub fn ask(alloc: Global, goal: &Goal, path: &PathForms<'_>) -> Result<Asked, FormFault>
    requires goal { IsGoal path.now.domains path.now.graph goal.now }
    ensures { IfOk result (IsLaid path.now 192 (behind (asked_by path.now.domains path.now.graph goal.now (end_front path.now).fields (end_front path.now).division) (end_front path.now))) }
{
    match subject_of(goal) {
        Subject::Links(node, one, other) => both_taken(alloc, node, one, other, path),
        Subject::Field(_) => Ok(path.nothing(alloc)),
        Subject::Link(check, node, number) => numbered(alloc, check, node, number, path),
    }
}
