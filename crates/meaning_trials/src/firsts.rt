//! Firsts: their two forms, and what is refused of them.

use crate::worked::of_message;
use std::test::Fail;

#[test]
fn firsts_have_two_forms(rt: HostRuntime) -> Result<(), Fail> {
    let alloc = rt.alloc();
    let told = of_message(alloc, "A : U8; B : U8 with First => a'First;", "")?;
    assert_eq!(rt; told, None);
    let told = of_message(alloc, "A : U8; B : U8 with First => A'Last + 2 ** 3;", "")?;
    assert_eq!(rt; told, None);
    let told = of_message(alloc, "A : U8; B : U8 with First => 1 + A'Last;", "First")?;
    assert_eq!(rt; told, Some((18, 4, 21)));
    let told = of_message(alloc, "A : U8 then B with First => 8; B : U8;", "First")?;
    assert_eq!(rt; told, Some((18, 4, 20)));
    let told = of_message(alloc, "A : U8 then null with First => A'Size;", "First")?;
    assert_eq!(rt; told, Some((18, 4, 23)));
    Ok(())
}

#[test]
fn steps_are_static_numbers_from_1_on(rt: HostRuntime) -> Result<(), Fail> {
    let alloc = rt.alloc();
    let told = of_message(alloc, "A : U8; B : U8 with First => A'Last + 0;", "First")?;
    assert_eq!(rt; told, Some((18, 4, 21)));
    let told = of_message(alloc, "A : U8; B : U8 with First => A'Last + A;", "First")?;
    assert_eq!(rt; told, Some((18, 4, 21)));
    let told = of_message(
        alloc,
        "A : U8; B : U8 with First => A'Last + 1 + 1;",
        "First",
    )?;
    assert_eq!(rt; told, Some((18, 4, 21)));
    let told = of_message(alloc, "A : U8; B : U8 with First => A'Last + (1 + 1);", "")?;
    assert_eq!(rt; told, None);
    Ok(())
}

#[test]
fn expressions_tell_what_is_no_other_form(rt: HostRuntime) -> Result<(), Fail> {
    let alloc = rt.alloc();
    let told = of_message(alloc, "A : U8; B : U8 with First => A'Last + 1 / 0;", "B")?;
    assert_eq!(rt; told, Some((12, 4, 41)));
    let told = of_message(alloc, "A : U8; B : U8 with First => Y'First;", "Y")?;
    assert_eq!(rt; told, Some((8, 4, 30)));
    let told = of_message(alloc, "A : U8; B : U8 with First => True'First;", "First")?;
    assert_eq!(rt; told, Some((18, 4, 21)));
    let told = of_message(
        alloc,
        "A : U8; B : U8 with First => Message'First;",
        "First",
    )?;
    assert_eq!(rt; told, Some((18, 4, 21)));
    Ok(())
}

#[test]
fn links_lay_a_field_alike(rt: HostRuntime) -> Result<(), Fail> {
    let alloc = rt.alloc();
    let one = "A : U8 then B if A = 1 then C; B : U8 then C with First => A'First; C : U8;";
    let told = of_message(alloc, one, "First")?;
    assert_eq!(rt; told, Some((17, 4, 51)));
    let other =
        "A : U8 then C with First => A'First if A = 1 then B; B : U8 then C with First => B'First; C : U8;";
    let told = of_message(alloc, other, "First")?;
    assert_eq!(rt; told, Some((17, 4, 20)));
    let behind =
        "A : U8 then C with First => A'Last + 1 if A = 1 then B; B : U8 then C with First => B'First; C : U8;";
    let told = of_message(alloc, behind, "First")?;
    assert_eq!(rt; told, Some((17, 4, 76)));
    let unknown = "A : U8 then C with First => Y'First if A = 1 then B; B : U8; C : U8;";
    let told = of_message(alloc, unknown, "First")?;
    assert_eq!(rt; told, Some((17, 4, 20)));
    let literal = "A : U8 then C with First => True'First if A = 1 then B; B : U8; C : U8;";
    let told = of_message(alloc, literal, "First")?;
    assert_eq!(rt; told, Some((17, 4, 20)));
    let alike =
        "A : U8 then C with First => Y'First if A = 1 then B; B : U8 then C with First => y'First; C : U8;";
    let told = of_message(alloc, alike, "Y")?;
    assert_eq!(rt; told, Some((8, 4, 29)));
    let alike =
        "A : U8 then C with First => A'First if A = 1 then B; B : U8 then C with First => A'First; C : U8;";
    let told = of_message(alloc, alike, "")?;
    assert_eq!(rt; told, None);
    let told = of_message(alloc, "A : U8 then null; B : U8 with First => A'First;", "")?;
    assert_eq!(rt; told, None);
    Ok(())
}
