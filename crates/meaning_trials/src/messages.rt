//! Messages: what their fields hold, where their links go, and what is refused of them.

use crate::worked::{TLV, of_message, parts_of, told, tree_of, types_of};
use rx_elab::{Held, KnownScalar, fields_held};
use rx_links::{Stop, Way, counts_stand, links_of, positions};
use rx_syntax::{DeclKind, DefTree, MessageTree, PackageTree};
use rx_types::{Expr, Kind};
use std::test::Fail;

// The message that is declared last.
fn message_of(tree: &PackageTree) -> Result<&MessageTree, Fail> {
    match tree.decls.last() {
        Some(decl) => match &decl.kind {
            DeclKind::Defined(_, DefTree::Message(message)) => Ok(message),
            _ => Err(Fail::new("no message")),
        },
        None => Err(Fail::new("no declaration")),
    }
}

#[test]
fn fields_hold_numbers_or_bytes(rt: HostRuntime) -> Result<(), Fail> {
    let alloc = rt.alloc();
    let tree = tree_of(alloc, TLV)?;
    let types = types_of(alloc, &tree)?;
    let message = message_of(&tree)?;
    let header = &tree.header;
    let held = fields_held(
        alloc,
        &types.types,
        &header.name.word,
        &header.withs,
        &message.fields,
    )?;
    let tag = Held::Scalar(KnownScalar {
        id: 1,
        kind: Kind::Of(1),
        greatest: 3,
        size: 8,
    });
    assert_eq!(rt; held.len(), 3);
    assert_eq!(rt; held.first().copied(), Some(tag));
    assert_eq!(rt; held.last().copied(), Some(Held::Opaque));
    Ok(())
}

#[test]
fn links_go_where_they_say_or_to_the_next(rt: HostRuntime) -> Result<(), Fail> {
    let alloc = rt.alloc();
    let tree = tree_of(alloc, TLV)?;
    let message = message_of(&tree)?;
    let table = positions(alloc, &message.fields)?;
    let ways = links_of(alloc, &table, &message.start, &message.fields)?;
    let want = [
        way(Stop::Start, None, Stop::At(0)),
        way(Stop::At(0), Some(0), Stop::At(1)),
        way(Stop::At(0), Some(1), Stop::Null),
        way(Stop::At(1), None, Stop::At(2)),
        way(Stop::At(2), None, Stop::Null),
    ];
    assert!(rt; ways.as_slice() == want.as_slice());
    Ok(())
}

fn way(source: Stop, clause: Option<usize>, target: Stop) -> Way {
    Way {
        source,
        clause,
        target,
    }
}

#[test]
fn messages_have_128_fields_and_512_links(rt: HostRuntime) -> Result<(), Fail> {
    let alloc = rt.alloc();
    let tree = tree_of(alloc, TLV)?;
    let name = &tree.header.name;
    let most = told(counts_stand(alloc, name, 128, 512), "")?;
    assert_eq!(rt; most, None);
    let fields = told(counts_stand(alloc, name, 129, 512), "TLV")?;
    assert_eq!(rt; fields, Some((21, 1, 9)));
    let links = told(counts_stand(alloc, name, 128, 513), "TLV")?;
    assert_eq!(rt; links, Some((21, 1, 9)));
    Ok(())
}

#[test]
fn parts_stand_where_they_are_written(rt: HostRuntime) -> Result<(), Fail> {
    let alloc = rt.alloc();
    let tree = tree_of(alloc, TLV)?;
    let types = types_of(alloc, &tree)?;
    let message = message_of(&tree)?;
    let parts = parts_of(alloc, &types, &tree.header, &tree.header.name, message)?;
    assert!(rt; parts.start.is_empty());
    assert_eq!(rt; parts.fields.len(), 3);
    if let Some(tag) = parts.fields.first() {
        assert!(rt; tag.own.condition.is_none());
        assert_eq!(rt; tag.thens.len(), 2);
        assert!(rt; tag.thens.iter().all(|then| then.condition.is_some()));
    }
    if let Some(value) = parts.fields.last() {
        assert!(rt; matches!(value.own.size, Some(Expr::Binary(_, _, _))));
        assert!(rt; value.own.first.is_none() && value.thens.is_empty());
    }
    Ok(())
}

#[test]
fn fields_have_a_known_type(rt: HostRuntime) -> Result<(), Fail> {
    let told = of_message(
        rt.alloc(),
        "A : u8; B : boolean; C : E; D : OPAQUE with Size => 8; F : Q::U8;",
        "",
    )?;
    assert_eq!(rt; told, None);
    let told = of_message(rt.alloc(), "A : U8; B : U9;", "U9")?;
    assert_eq!(rt; told, Some((8, 4, 13)));
    let told = of_message(rt.alloc(), "A : Other::U8;", "Other")?;
    assert_eq!(rt; told, Some((8, 4, 5)));
    let told = of_message(rt.alloc(), "A : q::U9;", "U9")?;
    assert_eq!(rt; told, Some((8, 4, 8)));
    Ok(())
}

#[test]
fn fields_hold_no_messages(rt: HostRuntime) -> Result<(), Fail> {
    let told = of_message(rt.alloc(), "A : M;", "M")?;
    assert_eq!(rt; told, Some((10, 4, 5)));
    let told = of_message(rt.alloc(), "A : U8; B : Q::m;", "m")?;
    assert_eq!(rt; told, Some((10, 4, 16)));
    let told = of_message(rt.alloc(), "A : M; B : U9;", "M")?;
    assert_eq!(rt; told, Some((10, 4, 5)));
    Ok(())
}

#[test]
fn links_go_to_fields(rt: HostRuntime) -> Result<(), Fail> {
    let told = of_message(
        rt.alloc(),
        "A : U8 then a2 if A = 1, then null if A = 2; A2 : U8;",
        "",
    )?;
    assert_eq!(rt; told, None);
    let told = of_message(rt.alloc(), "A : U8 then C; B : U8;", "C")?;
    assert_eq!(rt; told, Some((8, 4, 13)));
    let told = of_message(rt.alloc(), "null then B; A : U8;", "B")?;
    assert_eq!(rt; told, Some((8, 4, 11)));
    let told = of_message(rt.alloc(), "A : U8 then B; B : U8 then M;", "M")?;
    assert_eq!(rt; told, Some((8, 4, 28)));
    Ok(())
}

#[test]
fn links_do_not_lead_back(rt: HostRuntime) -> Result<(), Fail> {
    let told = of_message(rt.alloc(), "A : U8 then A;", "A")?;
    assert_eq!(rt; told, Some((16, 4, 13)));
    let told = of_message(
        rt.alloc(),
        "A : U8 then B; B : U8 then c; C : U8 then B;",
        "c",
    )?;
    assert_eq!(rt; told, Some((16, 4, 28)));
    let told = of_message(
        rt.alloc(),
        "A : U8 then null; B : U8 then C; C : U8 then B;",
        "C",
    )?;
    assert_eq!(rt; told, Some((16, 4, 31)));
    let told = of_message(
        rt.alloc(),
        "A : U8 then C; B : U8 then null; C : U8 then B;",
        "",
    )?;
    assert_eq!(rt; told, None);
    Ok(())
}

#[test]
fn links_without_clauses_do_not_lead_back(rt: HostRuntime) -> Result<(), Fail> {
    let told = of_message(rt.alloc(), "A : U8; B : U8 then A;", "B")?;
    assert_eq!(rt; told, Some((16, 4, 9)));
    let told = of_message(rt.alloc(), "A : U8; B : U8; C : U8; D : U8 then B;", "C")?;
    assert_eq!(rt; told, Some((16, 4, 17)));
    Ok(())
}

#[test]
fn tells_the_first_step(rt: HostRuntime) -> Result<(), Fail> {
    let told = of_message(rt.alloc(), "A : U8 then A; B : U9;", "U9")?;
    assert_eq!(rt; told, Some((8, 4, 20)));
    let told = of_message(rt.alloc(), "A : U8 then A; B : U8 then C;", "C")?;
    assert_eq!(rt; told, Some((8, 4, 28)));
    let told = of_message(rt.alloc(), "A : U8 if X = 1 then A;", "A")?;
    assert_eq!(rt; told, Some((16, 4, 22)));
    Ok(())
}

#[test]
fn scalars_have_no_size(rt: HostRuntime) -> Result<(), Fail> {
    let told = of_message(rt.alloc(), "A : U8 with Size => X;", "Size")?;
    assert_eq!(rt; told, Some((10, 4, 13)));
    let told = of_message(rt.alloc(), "A : U8 then B with Size => 8; B : U8;", "Size")?;
    assert_eq!(rt; told, Some((10, 4, 20)));
    let told = of_message(rt.alloc(), "A : U8 then B with Size => 8; B : Opaque;", "")?;
    assert_eq!(rt; told, None);
    let told = of_message(rt.alloc(), "A : U8 then null with Size => 8;", "")?;
    assert_eq!(rt; told, None);
    Ok(())
}

#[test]
fn conditions_are_truths(rt: HostRuntime) -> Result<(), Fail> {
    let told = of_message(rt.alloc(), "A : U8 if A;", "A")?;
    assert_eq!(rt; told, Some((10, 4, 11)));
    let told = of_message(rt.alloc(), "A : U8 if A + 1;", "A")?;
    assert_eq!(rt; told, Some((10, 4, 13)));
    let told = of_message(rt.alloc(), "A : U8 then null if 1;", "A")?;
    assert_eq!(rt; told, Some((10, 4, 21)));
    let told = of_message(rt.alloc(), "null then A if 1 * 1; A : U8;", "M")?;
    assert_eq!(rt; told, Some((10, 4, 18)));
    Ok(())
}

#[test]
fn aspects_are_numbers(rt: HostRuntime) -> Result<(), Fail> {
    let told = of_message(rt.alloc(), "A : Opaque with Size => 8 = 8;", "A")?;
    assert_eq!(rt; told, Some((10, 4, 27)));
    let told = of_message(rt.alloc(), "A : U8; B : Opaque with Size => True;", "True")?;
    assert_eq!(rt; told, Some((10, 4, 33)));
    let told = of_message(rt.alloc(), "A : E; B : Opaque with Size => A;", "A")?;
    assert_eq!(rt; told, Some((10, 4, 32)));
    let told = of_message(
        rt.alloc(),
        "A : U8; B : Opaque with Size => Message'Last - A'Last;",
        "",
    )?;
    assert_eq!(rt; told, None);
    Ok(())
}

#[test]
fn tells_the_first_expression(rt: HostRuntime) -> Result<(), Fail> {
    let told = of_message(rt.alloc(), "A : U8 if X = 1 then B if Y = 1; B : U8;", "X")?;
    assert_eq!(rt; told, Some((8, 4, 11)));
    let told = of_message(
        rt.alloc(),
        "A : U8 then B with Size => X if Y = 1; B : Opaque;",
        "X",
    )?;
    assert_eq!(rt; told, Some((8, 4, 28)));
    let told = of_message(rt.alloc(), "A : U8 then null if A / 0 = X;", "A")?;
    assert_eq!(rt; told, Some((12, 4, 23)));
    let told = of_message(
        rt.alloc(),
        "A : U8 then B if A = 1 then B if X = 1; B : U8 if Y = 1;",
        "X",
    )?;
    assert_eq!(rt; told, Some((8, 4, 34)));
    Ok(())
}
