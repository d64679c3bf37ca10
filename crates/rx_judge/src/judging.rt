//! What an expression means.

ghost use Rattle.std.specs.Prelude.{◌≡◌, ◌^◌, ◌-◌, IfOk, IfErr, true, false, pos, neg_ℤ};
ghost use Rattle.rx_types.specs.Narrow.{from_to, single, IsShort};
ghost use Rattle.rx_types.specs.Tree.{tree_of, Number, Total, Binary};
ghost use Rattle.rx_judge.specs.Form.{leaf_of};
ghost use Rattle.rx_judge.specs.Meaning.{Tells};
ghost use Rattle.rx_judge.specs.Names.{scope_of, names_of};
ghost use Rattle.rx_judge.specs.Judged.{judged, typed, plain, spelled_truth, number, negative, opposite, value_of_thing, value_of_field, attribute_of_thing, attribute_of_message, is_message, name_as_value, name_with_attribute, name_with_member};

use crate::about::{self, About};
use crate::fault::{Fault, NoMemory, refused, refused_at};
use crate::form::{LinearForm, Unknown};
use crate::joining::joined;
use crate::judged::Judged;
use crate::names::{self, FieldKind, KnownField, KnownLiteral, Names, Scope, Thing};
use rx_syntax::{Attr, ExprTree, NameTree, Named, Place, Rule, Word};
use rx_types::{Expr, Interval, Kind, Operator};
use std::alloc::Global;

// What is known of an expression that is neither a number alone nor a literal True or False.
fn plain(kind: Kind, is_constant: bool, low: i128, high: i128) -> About
    ensures { result ≡ record { kind = kind; is_static = false; is_literal = false; is_constant = is_constant; interval = from_to low high } }
{
    About {
        kind,
        is_static: false,
        is_literal: false,
        is_constant,
        interval: Interval { low, high },
    }
}

fn number(alloc: Global, owner: &Word, place: Place, value: i128) -> Result<Judged, Fault>
    ensures meaning { IfOk result (λ x. number owner.now place value ≡ Ok (typed x)) }
    ensures refusal { IfErr result (λ e. Tells e (number owner.now place value)) }
{
    if !rx_types::is_short(value, value) {
        return Err(Fault::Refused(refused(alloc, Rule::TooWide, place, owner)?));
    }
    Ok(Judged {
        expr: Expr::Number(value),
        about: About {
            kind: Kind::Number,
            is_static: true,
            is_literal: false,
            is_constant: true,
            interval: Interval {
                low: value,
                high: value,
            },
        },
        form: LinearForm::of_none(alloc),
    })
}

fn value_of_field(alloc: Global, name: &Named, field: KnownField) -> Result<Judged, Fault>
    ensures meaning { IfOk result (λ x. value_of_field name.now field.id field.kind ≡ Ok (typed x)) }
    ensures refusal { IfErr result (λ e. Tells e (value_of_field name.now field.id field.kind)) }
{
    match field.kind {
        FieldKind::Scalar(kind, greatest) => {
            let form = LinearForm::of_leaf(alloc, Unknown::NumberOf(field.id))?;
            Ok(Judged {
                expr: Expr::Field(field.id),
                about: plain(kind, false, 0, i128::from(greatest)),
                form,
            })
        }
        FieldKind::Bytes => Err(Fault::Refused(refused_at(alloc, Rule::WrongType, name)?)),
    }
}

fn literal(alloc: Global, literal: KnownLiteral) -> Judged
    ensures { typed result ≡ plain (Number (pos literal.number)) (Kind.Of literal.kind) (single (pos literal.number)) }
{
    let number = i128::from(literal.number);
    Judged {
        expr: Expr::Number(number),
        about: plain(Kind::Of(literal.kind), true, number, number),
        form: LinearForm::of_none(alloc),
    }
}

fn spelled(alloc: Global, truth: bool) -> Judged
    ensures { typed result ≡ spelled_truth truth }
{
    let value = if truth { 1 } else { 0 };
    Judged {
        expr: Expr::Truth(truth),
        about: About {
            kind: Kind::Truth,
            is_static: false,
            is_literal: true,
            is_constant: false,
            interval: Interval {
                low: value,
                high: value,
            },
        },
        form: LinearForm::of_none(alloc),
    }
}

fn value_of_thing(alloc: Global, name: &Named, thing: Thing) -> Result<Judged, Fault>
    ensures meaning { IfOk result (λ x. value_of_thing name.now thing ≡ Ok (typed x)) }
    ensures refusal { IfErr result (λ e. Tells e (value_of_thing name.now thing)) }
{
    match thing {
        Thing::Field(field) => value_of_field(alloc, name, field),
        Thing::Literal(known) => Ok(literal(alloc, known)),
        Thing::Truth(truth) => Ok(spelled(alloc, truth)),
    }
}

// A leaf that is a number, between the two.
fn leaf(
    alloc: Global,
    expr: Expr,
    unknown: Unknown,
    low: i128,
    high: i128,
) -> Result<Judged, NoMemory>
    requires leaf { leaf_of unknown ≡ tree_of expr }
    requires short { IsShort (from_to low high) }
    ensures { IfOk result (λ x. typed x ≡ plain (leaf_of unknown) Kind.Number (from_to low high)) }
{
    let form = LinearForm::of_leaf(alloc, unknown)?;
    Ok(Judged {
        expr,
        about: plain(Kind::Number, false, low, high),
        form,
    })
}

fn attribute_of_thing(
    alloc: Global,
    name: &Named,
    attr: Attr,
    thing: Thing,
) -> Result<Judged, Fault>
    ensures meaning { IfOk result (λ x. attribute_of_thing name.now attr thing ≡ Ok (typed x)) }
    ensures refusal { IfErr result (λ e. Tells e (attribute_of_thing name.now attr thing)) }
{
    match (attr, thing) {
        (Attr::First, Thing::Field(field)) => {
            let judged = leaf(
                alloc,
                Expr::First(field.id),
                Unknown::FirstOf(field.id),
                0,
                1 << 27,
            )?;
            Ok(judged)
        }
        (Attr::Last, Thing::Field(field)) => {
            let judged = leaf(
                alloc,
                Expr::Last(field.id),
                Unknown::LastOf(field.id),
                -1,
                1 << 27,
            )?;
            Ok(judged)
        }
        (Attr::Size, Thing::Field(field)) => {
            let judged = leaf(
                alloc,
                Expr::Size(field.id),
                Unknown::SizeOf(field.id),
                0,
                1 << 27,
            )?;
            Ok(judged)
        }
        _ => Err(Fault::Refused(refused_at(alloc, Rule::WrongType, name)?)),
    }
}

fn last_of_message(alloc: Global) -> Result<Judged, NoMemory>
    ensures { IfOk result (λ x. typed x ≡ plain (Binary Operator.Sub Total (Number (pos 1))) Kind.Number (from_to (neg_ℤ (pos 1)) (pos (2 ^ 27 - 1)))) }
{
    let form = LinearForm::of_leaf(alloc, Unknown::Bits)?;
    let expr = Expr::binary(alloc, Operator::Sub, Expr::Total, Expr::Number(1))?;
    Ok(Judged {
        expr,
        about: plain(Kind::Number, false, -1, (1 << 27) - 1),
        form,
    })
}

fn first_of_message(alloc: Global) -> Judged
    ensures { typed result ≡ plain (Number (pos 0)) Kind.Number (single (pos 0)) }
{
    Judged {
        expr: Expr::Number(0),
        about: plain(Kind::Number, true, 0, 0),
        form: LinearForm::of_none(alloc),
    }
}

fn attribute_of_message(alloc: Global, name: &Named, attr: Attr) -> Result<Judged, Fault>
    ensures meaning { IfOk result (λ x. attribute_of_message name.now attr ≡ Ok (typed x)) }
    ensures refusal { IfErr result (λ e. Tells e (attribute_of_message name.now attr)) }
{
    match attr {
        Attr::First => Ok(first_of_message(alloc)),
        Attr::Last => {
            let judged = last_of_message(alloc)?;
            Ok(judged)
        }
        Attr::Size => {
            let judged = leaf(alloc, Expr::Total, Unknown::Bits, 0, 1 << 27)?;
            Ok(judged)
        }
        _ => Err(Fault::Refused(refused_at(alloc, Rule::WrongType, name)?)),
    }
}

fn is_message(name: &NameTree) -> bool
    ensures { result ≡ is_message name.now }
{
    match &name.package {
        None => name.name.word.is("Message"),
        Some(_) => false,
    }
}

fn name_as_value(alloc: Global, names: &Names<'_>, name: &NameTree) -> Result<Judged, Fault>
    ensures meaning { IfOk result (λ x. name_as_value (names_of names.now) name.now ≡ Ok (typed x)) }
    ensures refusal { IfErr result (λ e. Tells e (name_as_value (names_of names.now) name.now)) }
{
    match names {
        Names::Nothing => Err(Fault::Refused(refused_at(alloc, Rule::NotStatic, &name.name)?)),
        Names::Within(scope) => {
            let thing = names::thing_of(alloc, scope, name)?;
            let value = value_of_thing(alloc, &name.name, thing)?;
            Ok(value)
        }
    }
}

fn name_with_attribute(
    alloc: Global,
    names: &Names<'_>,
    name: &NameTree,
    attr: Attr,
) -> Result<Judged, Fault>
    ensures meaning { IfOk result (λ x. name_with_attribute (names_of names.now) name.now attr ≡ Ok (typed x)) }
    ensures refusal { IfErr result (λ e. Tells e (name_with_attribute (names_of names.now) name.now attr)) }
{
    match names {
        Names::Nothing => Err(Fault::Refused(refused_at(alloc, Rule::NotStatic, &name.name)?)),
        Names::Within(scope) => {
            if is_message(name) {
                return attribute_of_message(alloc, &name.name, attr);
            }
            let thing = names::thing_of(alloc, scope, name)?;
            let value = attribute_of_thing(alloc, &name.name, attr, thing)?;
            Ok(value)
        }
    }
}

fn name_with_member(alloc: Global, names: &Names<'_>, name: &NameTree) -> Result<Judged, Fault>
    ensures meaning { IfOk result (λ x. name_with_member (names_of names.now) name.now ≡ Ok (typed x)) }
    ensures refusal { IfErr result (λ e. Tells e (name_with_member (names_of names.now) name.now)) }
{
    match names {
        Names::Nothing => Err(Fault::Refused(refused_at(alloc, Rule::NotStatic, &name.name)?)),
        Names::Within(scope) => {
            names::thing_of(alloc, scope, name)?;
            Err(Fault::Refused(refused_at(alloc, Rule::WrongType, &name.name)?))
        }
    }
}

fn negative(alloc: Global, owner: &Word, place: Place, part: Judged) -> Result<Judged, Fault>
    ensures meaning { IfOk result (λ x. negative owner.now place (typed part) ≡ Ok (typed x)) }
    ensures refusal { IfErr result (λ e. Tells e (negative owner.now place (typed part))) }
{
    if !about::is_number(part.about.kind) {
        return Err(Fault::Refused(refused(alloc, Rule::WrongType, place, owner)?));
    }
    let interval = rx_types::negation(part.about.interval.low, part.about.interval.high);
    let about = About {
        interval,
        ..part.about
    };
    let form = part.form.scaled(alloc, -1)?;
    let expr = Expr::neg(alloc, part.expr)?;
    Ok(Judged { expr, about, form })
}

fn opposite(alloc: Global, owner: &Word, place: Place, part: Judged) -> Result<Judged, Fault>
    ensures meaning { IfOk result (λ x. opposite owner.now place (typed part) ≡ Ok (typed x)) }
    ensures refusal { IfErr result (λ e. Tells e (opposite owner.now place (typed part))) }
{
    if !about::is_truth(part.about.kind) {
        return Err(Fault::Refused(refused(alloc, Rule::WrongType, place, owner)?));
    }
    let expr = Expr::not(alloc, part.expr)?;
    Ok(Judged {
        expr,
        about: plain(Kind::Truth, false, 0, 1),
        form: LinearForm::of_none(alloc),
    })
}

/// What an expression means, where `owner` is the name of what it stands in: the expression and what is known of
/// it, or the refusal that comes first, its operands being judged from left to right before their operator.
pub fn judge(
    alloc: Global,
    names: &Names<'_>,
    owner: &Word,
    tree: &ExprTree,
) -> Result<Judged, Fault>
    ensures meaning { IfOk result (λ x. judged (names_of names.now) owner.now tree.now ≡ Ok (typed x)) }
    ensures refusal { IfErr result (λ e. Tells e (judged (names_of names.now) owner.now tree.now)) }
{
    match tree {
        ExprTree::Number(value, place) => number(alloc, owner, *place, *value),
        ExprTree::Name(name) => name_as_value(alloc, names, name),
        ExprTree::Attribute(name, attr) => name_with_attribute(alloc, names, name, *attr),
        ExprTree::Member(name, _) => name_with_member(alloc, names, name),
        ExprTree::Neg(place, part) => {
            let part = judge(alloc, names, owner, part)?;
            negative(alloc, owner, *place, part)
        }
        ExprTree::Not(place, part) => {
            let part = judge(alloc, names, owner, part)?;
            opposite(alloc, owner, *place, part)
        }
        ExprTree::Binary(operator, place, left, right) => {
            let left = judge(alloc, names, owner, left)?;
            let right = judge(alloc, names, owner, right)?;
            joined(
                alloc,
                owner,
                about::operator_of(*operator),
                *place,
                left,
                right,
            )
        }
    }
}
