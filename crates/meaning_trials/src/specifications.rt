//! Worked packages, with what they mean, or what is refused of them first.

use crate::worked::{tells, tree_of};
use rx_graph::{Link, Message, Node, Spec};
use rx_judge::spelled;
use rx_spec::{ElabFault, elaborate};
use rx_syntax::PackageTree;
use rx_types::{Expr, FieldType, Name, Operator};
use std::alloc::Global;
use std::test::Fail;

// Adds a package, which is asked for under its own name.
fn add(
    alloc: Global,
    asked: &mut Vec<Name>,
    trees: &mut Vec<PackageTree>,
    text: &str,
) -> Result<(), Fail> {
    let tree = tree_of(alloc, text)?;
    asked.push(spelled(alloc, &tree.header.name)?)?;
    trees.push(tree)?;
    Ok(())
}

fn one(alloc: Global, text: &str) -> Result<Result<Spec, ElabFault>, Fail> {
    let mut asked = Vec::new(alloc);
    let mut trees = Vec::new(alloc);
    add(alloc, &mut asked, &mut trees, text)?;
    Ok(elaborate(alloc, &asked, &trees))
}

fn two(alloc: Global, first: &str, second: &str) -> Result<Result<Spec, ElabFault>, Fail> {
    let mut asked = Vec::new(alloc);
    let mut trees = Vec::new(alloc);
    add(alloc, &mut asked, &mut trees, first)?;
    add(alloc, &mut asked, &mut trees, second)?;
    Ok(elaborate(alloc, &asked, &trees))
}

// The package, the number and the place of the refusal, which tells this name; None where there is none.
fn told(
    outcome: Result<Spec, ElabFault>,
    name: &str,
) -> Result<Option<(usize, u8, u32, u32)>, Fail> {
    match outcome {
        Ok(_) => Ok(None),
        Err(ElabFault::NoMemory) => Err(Fail::new("no memory")),
        Err(ElabFault::Refused { package, refusal }) => {
            if !tells(&refusal, name) {
                return Err(Fail::new("another name is told"));
            }
            let place = refusal.place;
            Ok(Some((package, refusal.rule.number(), place.line, place.column)))
        }
    }
}

// What is refused of the message M that is made so, on line 3, with types of 8 and of 12 bits.
fn of_message(
    alloc: Global,
    text: &str,
    name: &str,
) -> Result<Option<(usize, u8, u32, u32)>, Fail> {
    let mut whole = String::from_str(alloc, "package Q is type U8 is unsigned 8;")?;
    whole.push_str(" type U12 is unsigned 12;\ntype M is message\n")?;
    whole.push_str(text)?;
    whole.push_str(";\nend Q;")?;
    told(one(alloc, &whole)?, name)
}

const FRAME: &str = "package Frame is
   type Kind is (Data => 1, Fault => 3) with Size => 8;
   type Length is unsigned 16;
   type Empty is null message;
   type Message is
      message
         Kind : Kind
            if Kind /= Fault
            then Length if Kind = Data
            then Value with Size => 16;
         Length : Length
            then Value with Size => Length * 8;
         Value : Opaque;
         Rest : Opaque with Size => 8;
      end message;
end Frame;";

fn message_at(spec: &Spec, index: usize) -> Result<&Message, Fail> {
    match spec.messages.get(index) {
        Some(message) => Ok(message),
        None => Err(Fail::new("no such message")),
    }
}

fn link_at(message: &Message, index: usize) -> Result<&Link, Fail> {
    match message.links.get(index) {
        Some(link) => Ok(link),
        None => Err(Fail::new("no such link")),
    }
}

fn frame(alloc: Global) -> Result<Spec, Fail> {
    match one(alloc, FRAME)? {
        Ok(spec) => Ok(spec),
        Err(_) => Err(Fail::new("the frame is refused")),
    }
}

#[test]
fn messages_have_fields_of_their_types(rt: HostRuntime) -> Result<(), Fail> {
    let spec = frame(rt.alloc())?;
    assert_eq!(rt; spec.scalars.len(), 3);
    assert_eq!(rt; spec.messages.len(), 2);
    let message = message_at(&spec, 1)?;
    assert_eq!(rt; message.fields.len(), 4);
    let kind = message.fields.first().map(|field| field.kind);
    assert_eq!(rt; kind, Some(FieldType::Scalar(1)));
    let rest = message.fields.last().map(|field| field.kind);
    assert_eq!(rt; rest, Some(FieldType::Opaque));
    assert!(rt; !message.low_order);
    Ok(())
}

#[test]
fn links_have_both_conditions(rt: HostRuntime) -> Result<(), Fail> {
    let spec = frame(rt.alloc())?;
    let message = message_at(&spec, 1)?;
    assert_eq!(rt; message.links.len(), 6);
    let link = link_at(message, 0)?;
    assert_eq!(rt; (link.source, link.target), (Node::Start, Node::At(0)));
    assert!(rt; matches!(link.condition, Expr::Truth(true)));
    let link = link_at(message, 1)?;
    assert_eq!(rt; (link.source, link.target), (Node::At(0), Node::At(1)));
    assert!(rt; matches!(link.condition, Expr::Binary(Operator::And, _, _)));
    let link = link_at(message, 2)?;
    assert_eq!(rt; (link.source, link.target), (Node::At(0), Node::At(2)));
    assert!(rt; matches!(link.condition, Expr::Binary(Operator::NotEqual, _, _)));
    Ok(())
}

#[test]
fn links_have_their_own_size_or_that_of_their_target(rt: HostRuntime) -> Result<(), Fail> {
    let spec = frame(rt.alloc())?;
    let message = message_at(&spec, 1)?;
    let link = link_at(message, 2)?;
    assert!(rt; matches!(link.size, Some(Expr::Number(16))));
    assert_eq!(rt; (link.place.line, link.place.column), (10, 18));
    let link = link_at(message, 3)?;
    assert!(rt; matches!(link.size, Some(Expr::Binary(Operator::Mul, _, _))));
    let link = link_at(message, 4)?;
    assert!(rt; matches!(link.size, Some(Expr::Number(8))));
    assert_eq!(rt; (link.place.line, link.place.column), (14, 10));
    let link = link_at(message, 5)?;
    assert_eq!(rt; (link.source, link.target), (Node::At(3), Node::Null));
    assert!(rt; link.size.is_none());
    Ok(())
}

const OVERLAY: &str = "package Q is
   type U8 is unsigned 8;
   type M is
      message
         A : U8
            then C with First => A'First if A = 1
            then B if A /= 1;
         B : U8
            then C with First => A'First;
         C : U8;
         D : U8 with First => C'Last + 9;
      end message;
end Q;";

#[test]
fn fields_lie_over_others(rt: HostRuntime) -> Result<(), Fail> {
    let spec = match one(rt.alloc(), OVERLAY)? {
        Ok(spec) => spec,
        Err(_) => return Err(Fail::new("the message is refused")),
    };
    let message = message_at(&spec, 0)?;
    let first = message.fields.first().map(|field| field.overlay);
    assert_eq!(rt; first, Some(None));
    let over = message.fields.get(2).map(|field| field.overlay);
    assert_eq!(rt; over, Some(Some(0)));
    let last = message.fields.last().map(|field| field.overlay);
    assert_eq!(rt; last, Some(None));
    assert!(rt; matches!(link_at(message, 1)?.first, Some(Expr::First(0))));
    assert!(rt;
        matches!(
            link_at(message, 4)?.first,
            Some(Expr::Binary(Operator::Add, _, _))
        )
    );
    Ok(())
}

#[test]
fn null_messages_have_one_link(rt: HostRuntime) -> Result<(), Fail> {
    let spec = frame(rt.alloc())?;
    let message = message_at(&spec, 0)?;
    assert!(rt; message.name.is(b"Empty"));
    assert!(rt; message.fields.is_empty());
    assert_eq!(rt; message.links.len(), 1);
    let link = link_at(message, 0)?;
    assert_eq!(rt; (link.source, link.target), (Node::Start, Node::Null));
    Ok(())
}

#[test]
fn tells_names_types_and_messages_in_turn(rt: HostRuntime) -> Result<(), Fail> {
    let alloc = rt.alloc();
    let first = "package P is type T is unsigned 8; type M is message A : X; end message; end P;";
    let second = "package R is type T is unsigned 64; end R;";
    let third = "package R is type T is unsigned 6; type T is unsigned 7; end R;";
    assert_eq!(rt; told(two(alloc, first, third)?, "T")?, Some((1, 9, 1, 41)));
    assert_eq!(rt;
        told(two(alloc, first, second)?, "T")?,
        Some((1, 20, 1, 19))
    );
    let told_of_first = told(two(alloc, first, "package R is end R;")?, "X")?;
    assert_eq!(rt; told_of_first, Some((0, 8, 1, 58)));
    Ok(())
}

#[test]
fn fields_of_bytes_have_a_size(rt: HostRuntime) -> Result<(), Fail> {
    let alloc = rt.alloc();
    let told = of_message(alloc, "A : U8; B : Opaque; end message", "")?;
    assert_eq!(rt; told, None);
    let told = of_message(alloc, "A : Opaque; B : U8; end message", "A")?;
    assert_eq!(rt; told, Some((0, 14, 3, 1)));
    let told = of_message(
        alloc,
        "A : Opaque then null if A'Size = 8 then null; end message",
        "A",
    )?;
    assert_eq!(rt; told, Some((0, 14, 3, 1)));
    let told = of_message(alloc, "A : U8 with Size => 8; end message", "Size")?;
    assert_eq!(rt; told, Some((0, 10, 3, 13)));
    Ok(())
}

#[test]
fn numbers_in_low_order_have_whole_bytes(rt: HostRuntime) -> Result<(), Fail> {
    let alloc = rt.alloc();
    let told = of_message(alloc, "A : U12; B : U12; end message", "")?;
    assert_eq!(rt; told, None);
    let low = " end message with Byte_Order => Low_Order_First";
    let mut text = String::from_str(alloc, "A : U8; B : U12;")?;
    text.push_str(low)?;
    let told = of_message(alloc, &text, "B")?;
    assert_eq!(rt; told, Some((0, 19, 3, 9)));
    Ok(())
}

#[test]
fn links_do_not_lead_back(rt: HostRuntime) -> Result<(), Fail> {
    let told = of_message(rt.alloc(), "A : U8 then B; B : U8 then A; end message", "B")?;
    assert_eq!(rt; told, Some((0, 16, 3, 13)));
    Ok(())
}

// A message of so many fields, each with two links to the next, where the start may have one more to null.
fn doubled(alloc: Global, count: usize, more: bool) -> Result<String, Fail> {
    let mut text = String::new(alloc);
    if more {
        text.push_str("null then F0, then null;")?;
    }
    for k in 0..count.min(200) {
        let next = k + 1;
        let field = format!(in alloc; "F{k} : U8 then F{next} if F{k} = 1 then F{next};")?;
        text.push_str(&field)?;
    }
    let last = format!(in alloc; "F{count} : U8; end message")?;
    text.push_str(&last)?;
    Ok(text)
}

#[test]
fn messages_have_4096_paths(rt: HostRuntime) -> Result<(), Fail> {
    let alloc = rt.alloc();
    let told = of_message(alloc, &doubled(alloc, 12, false)?, "")?;
    assert_eq!(rt; told, None);
    let told = of_message(alloc, &doubled(alloc, 12, true)?, "M")?;
    assert_eq!(rt; told, Some((0, 21, 2, 6)));
    Ok(())
}

#[test]
fn messages_have_128_fields(rt: HostRuntime) -> Result<(), Fail> {
    let alloc = rt.alloc();
    let mut text = String::new(alloc);
    for k in 0..128 {
        let field = format!(in alloc; "F{k} : U8;")?;
        text.push_str(&field)?;
    }
    let mut most = text.clone()?;
    most.push_str("end message")?;
    assert_eq!(rt; of_message(alloc, &most, "")?, None);
    text.push_str("G : U8; end message")?;
    let told = of_message(alloc, &text, "M")?;
    assert_eq!(rt; told, Some((0, 21, 2, 6)));
    Ok(())
}

// Adds a field of this name, in whose condition A is halved so often.
fn push_halving(text: &mut String, name: &str, count: usize) -> Result<(), Fail> {
    text.push_str(name)?;
    text.push_str(" : U8 if 0")?;
    for _ in 0..count {
        text.push_str(" + A / 2")?;
    }
    text.push_str(" = 0;")?;
    Ok(())
}

// A message of two fields, in whose conditions A is halved so often.
fn halving(alloc: Global, first: usize, second: usize) -> Result<String, Fail> {
    let mut text = String::new(alloc);
    push_halving(&mut text, "A", first)?;
    push_halving(&mut text, "B", second)?;
    text.push_str("end message")?;
    Ok(text)
}

#[test]
fn paths_have_189_scalars_and_divisions(rt: HostRuntime) -> Result<(), Fail> {
    let alloc = rt.alloc();
    let told = of_message(alloc, &halving(alloc, 94, 93)?, "")?;
    assert_eq!(rt; told, None);
    let told = of_message(alloc, &halving(alloc, 95, 93)?, "M")?;
    assert_eq!(rt; told, Some((0, 21, 2, 6)));
    Ok(())
}
