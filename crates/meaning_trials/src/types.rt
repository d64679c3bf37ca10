//! Scalar types: their numbers, and what is refused of them.

use crate::worked::{add_types, messages_stand, of_types, told, tree_of, types_of};
use rx_elab::{KnownScalar, KnownType};
use rx_judge::KnownLiteral;
use rx_types::Kind;
use std::alloc::Global;
use std::test::Fail;

// A type of numbers.
fn numbers(id: u32, greatest: u64, size: u8) -> KnownType {
    KnownType::Scalar(KnownScalar {
        id,
        kind: Kind::Number,
        greatest,
        size,
    })
}

// An enumeration.
fn names(id: u32, greatest: u64, size: u8) -> KnownType {
    KnownType::Scalar(KnownScalar {
        id,
        kind: Kind::Of(id),
        greatest,
        size,
    })
}

// What the name stands for in the package Q of these declarations.
fn known_in(alloc: Global, text: &str, name: &str) -> Result<Option<KnownType>, Fail> {
    let tree = tree_of(alloc, text)?;
    let types = types_of(alloc, &tree)?;
    let known = types.types.find(alloc, b"Q", name.as_bytes())?;
    Ok(known)
}

#[test]
fn knows_the_greatest_numbers(rt: HostRuntime) -> Result<(), Fail> {
    let text =
        "package Q is type Tag is (Data => 1, Error => 3) with Size => 8; type Length is unsigned 16; type Any is (One) with Size => 4, Always_Valid; end Q;";
    let tag = known_in(rt.alloc(), text, "TAG")?;
    assert_eq!(rt; tag, Some(names(1, 3, 8)));
    let length = known_in(rt.alloc(), text, "Length")?;
    assert_eq!(rt; length, Some(numbers(2, 65_535, 16)));
    let any = known_in(rt.alloc(), text, "any")?;
    assert_eq!(rt; any, Some(names(3, 15, 4)));
    Ok(())
}

#[test]
fn knows_ranges_and_other_types(rt: HostRuntime) -> Result<(), Fail> {
    let text =
        "package Q is type M is null message; type TPID is range 16#8100# .. 16#8100# with Size => 16; type Address is unsigned 48; end Q;";
    let message = known_in(rt.alloc(), text, "M")?;
    assert_eq!(rt; message, Some(KnownType::Other));
    let range = known_in(rt.alloc(), text, "TPID")?;
    assert_eq!(rt; range, Some(numbers(1, 33_024, 16)));
    let address = known_in(rt.alloc(), text, "Address")?;
    assert_eq!(rt; address, Some(numbers(2, 281_474_976_710_655, 48)));
    let unknown = known_in(rt.alloc(), text, "Frame")?;
    assert_eq!(rt; unknown, None);
    Ok(())
}

#[test]
fn knows_the_numbers_of_literals(rt: HostRuntime) -> Result<(), Fail> {
    let alloc = rt.alloc();
    let text =
        "package Q is type A is (Off, On) with Size => 8; type B is (Data => 2 + 1) with Size => 8; end Q;";
    let tree = tree_of(alloc, text)?;
    let types = types_of(alloc, &tree)?;
    let on = types.literals.find(alloc, b"q", b"ON")?;
    assert_eq!(rt; on, Some(KnownLiteral { kind: 1, number: 1 }));
    let data = types.literals.find(alloc, b"Q", b"Data")?;
    assert_eq!(rt; data, Some(KnownLiteral { kind: 2, number: 3 }));
    assert_eq!(rt; types.scalars.len(), 3);
    Ok(())
}

// What is refused of a field of this type in the package Q, on line 2, which has a `with` clause for Other but none for
// Third.
fn beside_others(alloc: Global, text: &str, name: &str) -> Result<Option<(u8, u32, u32)>, Fail> {
    let mut whole = String::from_str(alloc, "with Other; package Q is type M is message A :\n")?;
    whole.push_str(text)?;
    whole.push_str("; end message; end Q;")?;
    let tree = tree_of(alloc, &whole)?;
    let other = tree_of(alloc, "package Other is type T is unsigned 8; end Other;")?;
    let third = tree_of(alloc, "package Third is type T is unsigned 8; end Third;")?;
    let mut types = types_of(alloc, &other)?;
    add_types(alloc, &mut types, &third)?;
    told(messages_stand(alloc, &types, &tree), name)
}

#[test]
fn sees_packages_with_a_clause(rt: HostRuntime) -> Result<(), Fail> {
    let told = beside_others(rt.alloc(), "oTHER::t", "")?;
    assert_eq!(rt; told, None);
    let told = beside_others(rt.alloc(), "Other::U", "U")?;
    assert_eq!(rt; told, Some((8, 2, 8)));
    let told = beside_others(rt.alloc(), "Third::T", "Third")?;
    assert_eq!(rt; told, Some((8, 2, 1)));
    let told = beside_others(rt.alloc(), "T", "T")?;
    assert_eq!(rt; told, Some((8, 2, 1)));
    Ok(())
}

#[test]
fn sizes_are_1_to_63(rt: HostRuntime) -> Result<(), Fail> {
    let told = of_types(
        rt.alloc(),
        "type T is unsigned 63; type U is unsigned 1;",
        "",
    )?;
    assert_eq!(rt; told, None);
    let told = of_types(rt.alloc(), "type T is unsigned 64;", "T")?;
    assert_eq!(rt; told, Some((20, 2, 6)));
    let told = of_types(rt.alloc(), "type T is unsigned 0;", "T")?;
    assert_eq!(rt; told, Some((20, 2, 6)));
    let told = of_types(rt.alloc(), "type T is unsigned -8;", "T")?;
    assert_eq!(rt; told, Some((20, 2, 6)));
    Ok(())
}

#[test]
fn ranges_are_of_their_size(rt: HostRuntime) -> Result<(), Fail> {
    let told = of_types(
        rt.alloc(),
        "type T is range 0 .. 2 ** 4 - 1 with Size => 4;",
        "",
    )?;
    assert_eq!(rt; told, None);
    let told = of_types(
        rt.alloc(),
        "type T is range 0 .. 2 ** 4 with Size => 4;",
        "T",
    )?;
    assert_eq!(rt; told, Some((20, 2, 6)));
    let told = of_types(rt.alloc(), "type T is range 3 .. 2 with Size => 4;", "T")?;
    assert_eq!(rt; told, Some((20, 2, 6)));
    let told = of_types(rt.alloc(), "type T is range -1 .. 2 with Size => 4;", "T")?;
    assert_eq!(rt; told, Some((20, 2, 6)));
    Ok(())
}

#[test]
fn enumerations_are_of_their_size(rt: HostRuntime) -> Result<(), Fail> {
    let told = of_types(
        rt.alloc(),
        "type T is (A => 255, B => 0) with Size => 8;",
        "",
    )?;
    assert_eq!(rt; told, None);
    let told = of_types(rt.alloc(), "type T is (A, B, C) with Size => 1;", "T")?;
    assert_eq!(rt; told, Some((20, 2, 6)));
    let told = of_types(
        rt.alloc(),
        "type T is (A => 3, B => 3) with Size => 8;",
        "T",
    )?;
    assert_eq!(rt; told, Some((20, 2, 6)));
    let told = of_types(rt.alloc(), "type T is (A => -1) with Size => 8;", "T")?;
    assert_eq!(rt; told, Some((20, 2, 6)));
    Ok(())
}

#[test]
fn enumerations_have_a_size(rt: HostRuntime) -> Result<(), Fail> {
    let told = of_types(rt.alloc(), "type T is (A, B);", "T")?;
    assert_eq!(rt; told, Some((14, 2, 6)));
    let told = of_types(
        rt.alloc(),
        "type T is (A => 1, B => 1) with Always_Valid;",
        "T",
    )?;
    assert_eq!(rt; told, Some((14, 2, 6)));
    let told = of_types(rt.alloc(), "type T is (A => X);", "X")?;
    assert_eq!(rt; told, Some((11, 2, 17)));
    Ok(())
}

#[test]
fn types_are_written_in_numbers(rt: HostRuntime) -> Result<(), Fail> {
    let told = of_types(rt.alloc(), "type T is unsigned T;", "T")?;
    assert_eq!(rt; told, Some((11, 2, 20)));
    let told = of_types(rt.alloc(), "type T is unsigned Message'Size;", "Message")?;
    assert_eq!(rt; told, Some((11, 2, 20)));
    let told = of_types(
        rt.alloc(),
        "type T is range 0 .. True with Size => 8;",
        "True",
    )?;
    assert_eq!(rt; told, Some((11, 2, 22)));
    let told = of_types(rt.alloc(), "type T is range 0 .. 1 with Size => Q::T;", "T")?;
    assert_eq!(rt; told, Some((11, 2, 40)));
    Ok(())
}

#[test]
fn types_divide_by_what_is_positive(rt: HostRuntime) -> Result<(), Fail> {
    let told = of_types(rt.alloc(), "type T is unsigned 17 / 2;", "")?;
    assert_eq!(rt; told, None);
    let told = of_types(rt.alloc(), "type T is unsigned 8 / 0;", "T")?;
    assert_eq!(rt; told, Some((12, 2, 22)));
    let told = of_types(rt.alloc(), "type T is unsigned 8 mod (-3);", "T")?;
    assert_eq!(rt; told, Some((12, 2, 22)));
    Ok(())
}

#[test]
fn types_raise_to_at_most_127(rt: HostRuntime) -> Result<(), Fail> {
    let told = of_types(rt.alloc(), "type T is unsigned 1 ** 127;", "")?;
    assert_eq!(rt; told, None);
    let told = of_types(rt.alloc(), "type T is unsigned 1 ** 128;", "T")?;
    assert_eq!(rt; told, Some((12, 2, 22)));
    let told = of_types(rt.alloc(), "type T is unsigned 2 ** (-1);", "T")?;
    assert_eq!(rt; told, Some((12, 2, 22)));
    let told = of_types(rt.alloc(), "type T is unsigned 0 ** 0;", "")?;
    assert_eq!(rt; told, None);
    Ok(())
}

#[test]
fn types_are_narrow(rt: HostRuntime) -> Result<(), Fail> {
    let told = of_types(rt.alloc(), "type T is unsigned 2 ** 99 mod 2 + 1;", "")?;
    assert_eq!(rt; told, None);
    let told = of_types(rt.alloc(), "type T is unsigned 2 ** 100;", "T")?;
    assert_eq!(rt; told, Some((13, 2, 22)));
    let told = of_types(rt.alloc(), "type T is unsigned 2 ** 99 + 2 ** 99;", "T")?;
    assert_eq!(rt; told, Some((13, 2, 28)));
    let told = of_types(
        rt.alloc(),
        "type T is unsigned 1267650600228229401496703205376;",
        "T",
    )?;
    assert_eq!(rt; told, Some((13, 2, 20)));
    Ok(())
}

#[test]
fn types_take_numbers(rt: HostRuntime) -> Result<(), Fail> {
    let told = of_types(rt.alloc(), "type T is unsigned 1 = 1;", "T")?;
    assert_eq!(rt; told, Some((10, 2, 22)));
    let told = of_types(rt.alloc(), "type T is unsigned not 1;", "T")?;
    assert_eq!(rt; told, Some((10, 2, 20)));
    let told = of_types(rt.alloc(), "type T is unsigned (1 = 1) + 1;", "T")?;
    assert_eq!(rt; told, Some((10, 2, 28)));
    Ok(())
}

#[test]
fn tells_the_first_type(rt: HostRuntime) -> Result<(), Fail> {
    let told = of_types(
        rt.alloc(),
        "type T is unsigned 64; type U is unsigned X;",
        "T",
    )?;
    assert_eq!(rt; told, Some((20, 2, 6)));
    let told = of_types(
        rt.alloc(),
        "type T is unsigned 1 / 0 + X; type U is unsigned 64;",
        "T",
    )?;
    assert_eq!(rt; told, Some((12, 2, 22)));
    let told = of_types(
        rt.alloc(),
        "type T is range X .. 1 / 0 with Size => 8;",
        "X",
    )?;
    assert_eq!(rt; told, Some((11, 2, 17)));
    Ok(())
}
