//! Expressions of a message: what their names and operators mean, and what is refused of them.

use crate::worked::{of_message, tree_of};
use rx_judge::{
    FieldKind, Judged, KnownField, KnownLiteral, Names, Scope, Table, judge, static_value,
};
use rx_syntax::{DeclKind, DefTree, ExprTree, PackageTree};
use rx_types::{Expr, Kind};
use std::alloc::Global;
use std::test::Fail;

// The size of the numbers that are declared last.
fn size_of(tree: &PackageTree) -> Result<&ExprTree, Fail> {
    match tree.decls.last() {
        Some(decl) => match &decl.kind {
            DeclKind::Defined(_, DefTree::Unsigned(size)) => Ok(size),
            _ => Err(Fail::new("no numbers")),
        },
        None => Err(Fail::new("no declaration")),
    }
}

// The field Length, of 8 bits.
fn length(alloc: Global) -> Result<Table<KnownField>, Fail> {
    let mut fields = Table::new(alloc);
    let length = KnownField {
        id: 0,
        kind: FieldKind::Scalar(Kind::Number, 255),
    };
    fields.add(alloc, b"", b"Length", length)?;
    Ok(fields)
}

// What an expression means beside the field Length.
fn judged(alloc: Global, tree: &PackageTree) -> Result<Judged, Fail> {
    let fields = length(alloc)?;
    let literals: Table<KnownLiteral> = Table::new(alloc);
    let package = &tree.header.name.word;
    let names = Names::Within(Scope {
        package,
        withs: &tree.header.withs,
        fields: &fields,
        literals: &literals,
    });
    let size = size_of(tree)?;
    let judged = judge(alloc, &names, package, size)?;
    Ok(judged)
}

#[test]
fn products_have_an_interval_and_a_form(rt: HostRuntime) -> Result<(), Fail> {
    let tree = tree_of(
        rt.alloc(),
        "package Q is type T is unsigned lENGTH * 8 - 16; end Q;",
    )?;
    let judged = judged(rt.alloc(), &tree)?;
    assert!(rt; matches!(judged.expr, Expr::Binary(_, _, _)));
    assert_eq!(rt; judged.about.kind, Kind::Number);
    assert!(rt; !judged.about.is_static);
    assert_eq!(rt; judged.about.interval.low, -16);
    assert_eq!(rt; judged.about.interval.high, 2024);
    assert_eq!(rt;
        judged.form.terms.first().map(|term| term.coefficient),
        Some(8)
    );
    Ok(())
}

#[test]
fn powers_are_static(rt: HostRuntime) -> Result<(), Fail> {
    let alloc = rt.alloc();
    let tree = tree_of(alloc, "package Q is type T is unsigned 2 ** 16 - 1; end Q;")?;
    let value = static_value(alloc, &tree.header.name.word, size_of(&tree)?)?;
    assert_eq!(rt; value, 65_535);
    Ok(())
}

// What is refused where this is the condition of the field Z, on line 5.
fn in_condition(alloc: Global, text: &str, name: &str) -> Result<Option<(u8, u32, u32)>, Fail> {
    let mut body = String::from_str(
        alloc,
        "A : U8; B : Boolean; E : E; V : Opaque with Size => 8; Z : U8 if\n",
    )?;
    body.push_str(text)?;
    body.push_str(";")?;
    of_message(alloc, &body, name)
}

#[test]
fn names_stand_for_something(rt: HostRuntime) -> Result<(), Fail> {
    let told = in_condition(
        rt.alloc(),
        "A = 1 and e = ON and B = True and Q::On = E",
        "",
    )?;
    assert_eq!(rt; told, None);
    let told = in_condition(rt.alloc(), "A = X", "X")?;
    assert_eq!(rt; told, Some((8, 5, 5)));
    let told = in_condition(rt.alloc(), "X'First = 1", "X")?;
    assert_eq!(rt; told, Some((8, 5, 1)));
    let told = in_condition(rt.alloc(), "Q::X = E", "X")?;
    assert_eq!(rt; told, Some((8, 5, 4)));
    let told = in_condition(rt.alloc(), "R::On = E", "R")?;
    assert_eq!(rt; told, Some((8, 5, 1)));
    Ok(())
}

#[test]
fn values_are_numbers_of_fields(rt: HostRuntime) -> Result<(), Fail> {
    let told = in_condition(rt.alloc(), "V = 1", "V")?;
    assert_eq!(rt; told, Some((10, 5, 1)));
    let told = in_condition(rt.alloc(), "a'Valid", "a")?;
    assert_eq!(rt; told, Some((10, 5, 1)));
    let told = in_condition(rt.alloc(), "A.B = 1", "A")?;
    assert_eq!(rt; told, Some((10, 5, 1)));
    let told = in_condition(rt.alloc(), "On'Size = 1", "On")?;
    assert_eq!(rt; told, Some((10, 5, 1)));
    Ok(())
}

#[test]
fn attributes_are_places(rt: HostRuntime) -> Result<(), Fail> {
    let told = in_condition(
        rt.alloc(),
        "A'First = 0 and V'Size = 8 and V'Last > 0 and Message'First = 0",
        "",
    )?;
    assert_eq!(rt; told, None);
    let told = in_condition(rt.alloc(), "Message'Size = 8 and Message'Last = 7", "")?;
    assert_eq!(rt; told, None);
    let told = in_condition(rt.alloc(), "Message'Valid", "Message")?;
    assert_eq!(rt; told, Some((10, 5, 1)));
    let told = in_condition(rt.alloc(), "MESSAGE'Has_Data", "MESSAGE")?;
    assert_eq!(rt; told, Some((10, 5, 1)));
    Ok(())
}

#[test]
fn both_sides_are_of_one_kind(rt: HostRuntime) -> Result<(), Fail> {
    let told = in_condition(rt.alloc(), "A = E", "Z")?;
    assert_eq!(rt; told, Some((10, 5, 3)));
    let told = in_condition(rt.alloc(), "E = 1", "Z")?;
    assert_eq!(rt; told, Some((10, 5, 3)));
    let told = in_condition(rt.alloc(), "A = True", "Z")?;
    assert_eq!(rt; told, Some((10, 5, 3)));
    let told = in_condition(rt.alloc(), "E < On", "Z")?;
    assert_eq!(rt; told, Some((10, 5, 3)));
    Ok(())
}

#[test]
fn truths_are_compared_with_literals(rt: HostRuntime) -> Result<(), Fail> {
    let told = in_condition(rt.alloc(), "B = True and False /= B and (A = 1) = True", "")?;
    assert_eq!(rt; told, None);
    let told = in_condition(rt.alloc(), "B = (A = 1)", "Z")?;
    assert_eq!(rt; told, Some((10, 5, 3)));
    let told = in_condition(rt.alloc(), "B /= B", "Z")?;
    assert_eq!(rt; told, Some((10, 5, 3)));
    let told = in_condition(rt.alloc(), "(A = 1) < True", "Z")?;
    assert_eq!(rt; told, Some((10, 5, 9)));
    Ok(())
}

#[test]
fn operators_take_their_kinds(rt: HostRuntime) -> Result<(), Fail> {
    let told = in_condition(rt.alloc(), "A and B", "Z")?;
    assert_eq!(rt; told, Some((10, 5, 3)));
    let told = in_condition(rt.alloc(), "not (A)", "Z")?;
    assert_eq!(rt; told, Some((10, 5, 1)));
    let told = in_condition(rt.alloc(), "-B = 1", "Z")?;
    assert_eq!(rt; told, Some((10, 5, 1)));
    let told = in_condition(rt.alloc(), "A + B = 1", "Z")?;
    assert_eq!(rt; told, Some((10, 5, 3)));
    let told = in_condition(rt.alloc(), "not B or B and A = 1", "")?;
    assert_eq!(rt; told, None);
    Ok(())
}

#[test]
fn products_have_a_side_of_numbers(rt: HostRuntime) -> Result<(), Fail> {
    let told = in_condition(rt.alloc(), "A * 3 + (1 + 1) * A = 8", "")?;
    assert_eq!(rt; told, None);
    let told = in_condition(rt.alloc(), "A * A = 1", "Z")?;
    assert_eq!(rt; told, Some((12, 5, 3)));
    let told = in_condition(rt.alloc(), "A * Message'First = 0", "Z")?;
    assert_eq!(rt; told, Some((12, 5, 3)));
    let told = in_condition(rt.alloc(), "A * B = 1", "Z")?;
    assert_eq!(rt; told, Some((10, 5, 3)));
    Ok(())
}

#[test]
fn divisors_are_positive_numbers(rt: HostRuntime) -> Result<(), Fail> {
    let told = in_condition(rt.alloc(), "A / 2 + A mod 3 = 1", "")?;
    assert_eq!(rt; told, None);
    let told = in_condition(rt.alloc(), "A / 0 = 1", "Z")?;
    assert_eq!(rt; told, Some((12, 5, 3)));
    let told = in_condition(rt.alloc(), "A mod (1 - 2) = 1", "Z")?;
    assert_eq!(rt; told, Some((12, 5, 3)));
    let told = in_condition(rt.alloc(), "8 / A = 1", "Z")?;
    assert_eq!(rt; told, Some((12, 5, 3)));
    let told = in_condition(rt.alloc(), "8 mod Message'First = 1", "Z")?;
    assert_eq!(rt; told, Some((12, 5, 3)));
    Ok(())
}

#[test]
fn powers_are_of_numbers(rt: HostRuntime) -> Result<(), Fail> {
    let told = in_condition(rt.alloc(), "A = 2 ** 7", "")?;
    assert_eq!(rt; told, None);
    let told = in_condition(rt.alloc(), "A ** 2 = 1", "Z")?;
    assert_eq!(rt; told, Some((12, 5, 3)));
    let told = in_condition(rt.alloc(), "2 ** A = 1", "Z")?;
    assert_eq!(rt; told, Some((12, 5, 3)));
    let told = in_condition(rt.alloc(), "2 ** 128 = 1", "Z")?;
    assert_eq!(rt; told, Some((12, 5, 3)));
    Ok(())
}

#[test]
fn coefficients_are_below_2_to_20(rt: HostRuntime) -> Result<(), Fail> {
    let told = in_condition(rt.alloc(), "A * 1048575 = 1", "")?;
    assert_eq!(rt; told, None);
    let told = in_condition(rt.alloc(), "A * 1048576 = 1", "Z")?;
    assert_eq!(rt; told, Some((13, 5, 3)));
    let told = in_condition(rt.alloc(), "A * 1048575 + A = 1", "Z")?;
    assert_eq!(rt; told, Some((13, 5, 13)));
    let told = in_condition(rt.alloc(), "A * 1048575 - A = 1", "")?;
    assert_eq!(rt; told, None);
    let told = in_condition(rt.alloc(), "A * (-1048576) = 1", "Z")?;
    assert_eq!(rt; told, Some((13, 5, 3)));
    Ok(())
}

#[test]
fn divisors_are_below_2_to_20(rt: HostRuntime) -> Result<(), Fail> {
    let told = in_condition(rt.alloc(), "A / 1048575 = 1", "")?;
    assert_eq!(rt; told, None);
    let told = in_condition(rt.alloc(), "A / 1048576 = 1", "Z")?;
    assert_eq!(rt; told, Some((13, 5, 3)));
    let told = in_condition(rt.alloc(), "A mod 2 ** 20 = 1", "Z")?;
    assert_eq!(rt; told, Some((13, 5, 3)));
    let told = in_condition(rt.alloc(), "A * 1048575 mod 2 = 1", "")?;
    assert_eq!(rt; told, None);
    Ok(())
}

#[test]
fn values_are_below_2_to_100(rt: HostRuntime) -> Result<(), Fail> {
    let told = in_condition(rt.alloc(), "A + 2 ** 99 = 1", "")?;
    assert_eq!(rt; told, None);
    let told = in_condition(rt.alloc(), "2 ** 100 = A", "Z")?;
    assert_eq!(rt; told, Some((13, 5, 3)));
    let told = in_condition(rt.alloc(), "A = 2 ** 99 + 2 ** 99", "Z")?;
    assert_eq!(rt; told, Some((13, 5, 13)));
    let told = in_condition(rt.alloc(), "A + (2 ** 99 + (2 ** 99 - 1)) = 0", "Z")?;
    assert_eq!(rt; told, Some((13, 5, 3)));
    Ok(())
}
