//! What is declared twice, and names of packages and ends that stand for nothing.

use crate::worked::{of_message, of_types, told, tree_of};
use rx_elab::package_stands;
use rx_types::Name;
use std::alloc::Global;
use std::test::Fail;

// What the first pass refuses where Q and Other are fetched, and the text is that of Q.
fn standing(alloc: Global, text: &str, name: &str) -> Result<Option<(u8, u32, u32)>, Fail> {
    let tree = tree_of(alloc, text)?;
    let mut asked = Vec::new(alloc);
    asked.push(Name::make(alloc, b"Q")?)?;
    asked.push(Name::make(alloc, b"Other")?)?;
    told(package_stands(alloc, &asked, 0, &tree), name)
}

#[test]
fn knows_its_packages(rt: HostRuntime) -> Result<(), Fail> {
    let told = standing(rt.alloc(), "with Other;\npackage Q is end Q;", "")?;
    assert_eq!(rt; told, None);
    let told = standing(
        rt.alloc(),
        "with Other; with Third;\npackage Q is end Q;",
        "Third",
    )?;
    assert_eq!(rt; told, Some((8, 1, 18)));
    let told = standing(rt.alloc(), "package Other is end Other;", "Other")?;
    assert_eq!(rt; told, Some((8, 1, 9)));
    let told = standing(rt.alloc(), "package q is end Q;", "")?;
    assert_eq!(rt; told, None);
    Ok(())
}

#[test]
fn ends_as_it_begins(rt: HostRuntime) -> Result<(), Fail> {
    let told = standing(rt.alloc(), "package Q is end R;", "R")?;
    assert_eq!(rt; told, Some((8, 1, 18)));
    let told = standing(
        rt.alloc(),
        "package Q is\n   type T is unsigned 8;\nend Other;",
        "Other",
    )?;
    assert_eq!(rt; told, Some((8, 3, 5)));
    Ok(())
}

#[test]
fn declares_a_type_once(rt: HostRuntime) -> Result<(), Fail> {
    let told = of_types(
        rt.alloc(),
        "type T is unsigned 8; type t is unsigned 8;",
        "t",
    )?;
    assert_eq!(rt; told, Some((9, 2, 28)));
    let told = of_types(rt.alloc(), "type Boolean is unsigned 8;", "Boolean")?;
    assert_eq!(rt; told, Some((9, 2, 6)));
    let told = of_types(rt.alloc(), "type opaque is unsigned 8;", "opaque")?;
    assert_eq!(rt; told, Some((9, 2, 6)));
    Ok(())
}

#[test]
fn declares_a_literal_once(rt: HostRuntime) -> Result<(), Fail> {
    let told = of_types(
        rt.alloc(),
        "type T is (A, B) with Size => 8; type U is (C, b) with Size => 8;",
        "b",
    )?;
    assert_eq!(rt; told, Some((9, 2, 48)));
    let told = of_types(rt.alloc(), "type T is (A, True) with Size => 8;", "True")?;
    assert_eq!(rt; told, Some((9, 2, 15)));
    let told = of_types(rt.alloc(), "type T is (FALSE) with Size => 8;", "FALSE")?;
    assert_eq!(rt; told, Some((9, 2, 12)));
    Ok(())
}

#[test]
fn declares_a_field_once(rt: HostRuntime) -> Result<(), Fail> {
    let told = of_message(rt.alloc(), "A : U8; B : U8; a : U8;", "a")?;
    assert_eq!(rt; told, Some((9, 4, 17)));
    let told = of_message(rt.alloc(), "Message : U8;", "Message")?;
    assert_eq!(rt; told, Some((9, 4, 1)));
    let told = of_message(rt.alloc(), "A : U8; M : U8; Off : U8;", "")?;
    assert_eq!(rt; told, None);
    Ok(())
}

#[test]
fn has_an_aspect_of_a_type_once(rt: HostRuntime) -> Result<(), Fail> {
    let told = of_types(
        rt.alloc(),
        "type T is (A) with Size => 8, Size => 8;",
        "Size",
    )?;
    assert_eq!(rt; told, Some((9, 2, 31)));
    let told = of_types(
        rt.alloc(),
        "type T is (A) with Always_Valid, Size => 8, ALWAYS_VALID => False;",
        "Always_Valid",
    )?;
    assert_eq!(rt; told, Some((9, 2, 45)));
    Ok(())
}

#[test]
fn has_an_aspect_of_a_field_once(rt: HostRuntime) -> Result<(), Fail> {
    let told = of_message(rt.alloc(), "A : Opaque with Size => 8, size => 8;", "Size")?;
    assert_eq!(rt; told, Some((9, 4, 28)));
    let told = of_message(
        rt.alloc(),
        "A : U8 then null with First => 1, Size => 8, First => 2;",
        "First",
    )?;
    assert_eq!(rt; told, Some((9, 4, 46)));
    Ok(())
}

#[test]
fn has_an_aspect_at_the_field_or_its_links(rt: HostRuntime) -> Result<(), Fail> {
    let told = of_message(
        rt.alloc(),
        "A : U8 then B with Size => 8; B : Opaque with Size => 8;",
        "Size",
    )?;
    assert_eq!(rt; told, Some((9, 4, 47)));
    let told = of_message(
        rt.alloc(),
        "A : Opaque with Size => 8; B : U8 then A with Size => 8;",
        "Size",
    )?;
    assert_eq!(rt; told, Some((9, 4, 47)));
    let told = of_message(
        rt.alloc(),
        "null then B with Size => 8; A : U8 then B with Size => 8; B : Opaque;",
        "",
    )?;
    assert_eq!(rt; told, None);
    Ok(())
}

#[test]
fn tells_the_first_name(rt: HostRuntime) -> Result<(), Fail> {
    let told = standing(
        rt.alloc(),
        "package Q is\n   type T is unsigned 8;\n   type T is unsigned 8;\nend R;",
        "T",
    )?;
    assert_eq!(rt; told, Some((9, 3, 9)));
    let told = standing(rt.alloc(), "with Third;\npackage R is end Q;", "Third")?;
    assert_eq!(rt; told, Some((8, 1, 6)));
    Ok(())
}
