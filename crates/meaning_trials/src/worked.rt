//! Worked packages, with what is refused of them first.

use rx_elab::{
    Held, MessageParts, Types, built_in_types, fields_held, layings_of, message_parts,
    package_stands, package_types,
};
use rx_grammar::parse_package;
use rx_judge::{Fault, FieldKind, KnownField, Scope, Table, spelled};
use rx_links::{Way, counts_stand, links_of, no_cycle, positions};
use rx_syntax::{
    DeclKind, DeclTree, DefTree, FieldTree, HeaderTree, MessageTree, Named, PackageTree, Refusal,
    lex,
};
use rx_types::FieldId;
use std::alloc::Global;
use std::test::Fail;

pub const TLV: &str = "package TLV is
   type Tag is (Msg_Data => 1, Msg_Error => 3) with Size => 8;
   type Length is unsigned 16;
   type Message is
      message
         Tag : Tag
            then Length if Tag = Msg_Data
            then null if Tag = Msg_Error;
         Length : Length;
         Value : Opaque with Size => Length * 8;
      end message;
end TLV;";

// The tree of a text.
pub fn tree_of(alloc: Global, text: &str) -> Result<PackageTree, Fail> {
    let bytes = text.as_bytes();
    if bytes.len() > 1_048_576 {
        return Err(Fail::new("the text is too long"));
    }
    let tokens = lex(alloc, bytes)?;
    let tree = parse_package(alloc, &tokens)?;
    Ok(tree)
}

/// Whether the refusal tells this name.
pub fn tells(refusal: &Refusal, name: &str) -> bool {
    match &refusal.word {
        Some(word) => word.is_written(name),
        None => false,
    }
}

// The number and the place of the refusal, which tells this name; None where there is none.
pub fn told(outcome: Result<(), Fault>, name: &str) -> Result<Option<(u8, u32, u32)>, Fail> {
    match outcome {
        Ok(()) => Ok(None),
        Err(Fault::NoMemory) => Err(Fail::new("no memory")),
        Err(Fault::Refused(refusal)) => {
            if !tells(&refusal, name) {
                return Err(Fail::new("another name is told"));
            }
            Ok(Some((
                refusal.rule.number(),
                refusal.place.line,
                refusal.place.column,
            )))
        }
    }
}

// The types that are built in and those of the package.
pub fn types_of(alloc: Global, tree: &PackageTree) -> Result<Types, Fault> {
    let mut types = built_in_types(alloc)?;
    add_types(alloc, &mut types, tree)?;
    Ok(types)
}

// Adds the types of a package.
pub fn add_types(alloc: Global, types: &mut Types, tree: &PackageTree) -> Result<(), Fault> {
    if types.scalars.len() > 1000 || tree.decls.len() > 1000 {
        return Err(Fault::NoMemory);
    }
    package_types(alloc, types, tree)
}

fn kind_of(held: Held) -> FieldKind {
    match held {
        Held::Scalar(scalar) => FieldKind::Scalar(scalar.kind, scalar.greatest),
        Held::Opaque => FieldKind::Bytes,
    }
}

// The fields by their names, where each field holds what stands at its place.
fn known_fields(
    alloc: Global,
    fields: &[FieldTree],
    held: &[Held],
) -> Result<Table<KnownField>, Fault> {
    let mut table = Table::new(alloc);
    let mut id: FieldId = 0;
    for (field, held) in fields.iter().zip(held) {
        let kind = kind_of(*held);
        let name = field.name.word.as_str().as_bytes();
        table.add(alloc, b"", name, KnownField { id, kind })?;
        id = id.wrapping_add(1);
    }
    Ok(table)
}

// The links of a message, which stand.
fn ways_of(alloc: Global, name: &Named, message: &MessageTree) -> Result<Vec<Way>, Fault> {
    let table = positions(alloc, &message.fields)?;
    let ways = links_of(alloc, &table, &message.start, &message.fields)?;
    no_cycle(alloc, name, &message.start, &message.fields, &ways)?;
    counts_stand(alloc, name, message.fields.len(), ways.len())?;
    Ok(ways)
}

// The parts of a message, after what its fields hold.
pub fn parts_of(
    alloc: Global,
    types: &Types,
    header: &HeaderTree,
    name: &Named,
    message: &MessageTree,
) -> Result<MessageParts, Fault> {
    let package = &header.name.word;
    let held = fields_held(alloc, &types.types, package, &header.withs, &message.fields)?;
    let ways = ways_of(alloc, name, message)?;
    let fields = known_fields(alloc, &message.fields, &held)?;
    let scope = Scope {
        package,
        withs: &header.withs,
        fields: &fields,
        literals: &types.literals,
    };
    let layings = layings_of(alloc, &scope, message, &ways)?;
    message_parts(alloc, &scope, &layings, &name.word, message)
}

fn declaration_stands(
    alloc: Global,
    types: &Types,
    header: &HeaderTree,
    decl: &DeclTree,
) -> Result<(), Fault> {
    match &decl.kind {
        DeclKind::Defined(name, DefTree::Message(message)) => {
            let _parts = parts_of(alloc, types, header, name, message)?;
            Ok(())
        }
        _ => Ok(()),
    }
}

pub fn messages_stand(alloc: Global, types: &Types, tree: &PackageTree) -> Result<(), Fault> {
    for decl in &tree.decls {
        declaration_stands(alloc, types, &tree.header, decl)?;
    }
    Ok(())
}

// The passes over one package.
fn stands(alloc: Global, tree: &PackageTree) -> Result<(), Fault> {
    let mut asked = Vec::new(alloc);
    asked.push(spelled(alloc, &tree.header.name)?)?;
    package_stands(alloc, &asked, 0, tree)?;
    let types = types_of(alloc, tree)?;
    messages_stand(alloc, &types, tree)
}

// What is refused of a text, which tells this name.
pub fn refusal_of(alloc: Global, text: &str, name: &str) -> Result<Option<(u8, u32, u32)>, Fail> {
    let tree = tree_of(alloc, text)?;
    told(stands(alloc, &tree), name)
}

// What is refused of the package Q that has these declarations, on line 2.
pub fn of_types(alloc: Global, text: &str, name: &str) -> Result<Option<(u8, u32, u32)>, Fail> {
    let mut whole = String::from_str(alloc, "package Q is\n")?;
    whole.push_str(text)?;
    whole.push_str("\nend Q;")?;
    refusal_of(alloc, &whole, name)
}

// What is refused of the message M that is made so, on line 4, with a type of numbers and one of names.
pub fn of_message(alloc: Global, text: &str, name: &str) -> Result<Option<(u8, u32, u32)>, Fail> {
    let mut whole = String::from_str(alloc, "type U8 is unsigned 8;")?;
    whole.push_str(" type E is (Off, On) with Size => 8;\ntype M is message\n")?;
    whole.push_str(text)?;
    whole.push_str("\nend message;")?;
    of_types(alloc, &whole, name)
}

#[test]
fn takes_the_message_of_a_tag_and_a_length(rt: HostRuntime) -> Result<(), Fail> {
    assert_eq!(rt; refusal_of(rt.alloc(), TLV, "")?, None);
    Ok(())
}

#[test]
fn takes_the_frame_with_a_field_over_another(rt: HostRuntime) -> Result<(), Fail> {
    let text = "package Ethernet is
   type Address is unsigned 48;
   type Type_Length is range 46 .. 2 ** 16 - 1 with Size => 16;
   type TPID is range 16#8100# .. 16#8100# with Size => 16;
   type TCI is unsigned 16;
   type Frame is
      message
         Destination : Address;
         Source : Address;
         Type_Length_TPID : Type_Length
            then TPID
               with First => Type_Length_TPID'First
               if Type_Length_TPID = 16#8100#
            then Payload
               with Size => Type_Length_TPID * 8
               if Type_Length_TPID <= 1500
            then Payload
               with Size => Message'Last - Type_Length_TPID'Last
               if Type_Length_TPID >= 1536 and Type_Length_TPID /= 16#8100#;
         TPID : TPID;
         TCI : TCI;
         Type_Length : Type_Length
            then Payload
               with Size => Type_Length * 8
               if Type_Length <= 1500
            then Payload
               with Size => Message'Last - Type_Length'Last
               if Type_Length >= 1536;
         Payload : Opaque
            then null
               if Payload'Size / 8 >= 46 and Payload'Size / 8 <= 1500;
      end message;
end Ethernet;";
    assert_eq!(rt; refusal_of(rt.alloc(), text, "")?, None);
    Ok(())
}

#[test]
fn takes_the_box(rt: HostRuntime) -> Result<(), Fail> {
    let text = "package Box is
   type Kind is (Off, On) with Size => 8;
   type Len is unsigned 8;
   type M is message
      Kind : Kind if Kind = On;
      Len : Len;
      Data : Opaque with Size => Len * 8;
      Rest : Opaque;
   end message;
end Box;";
    assert_eq!(rt; refusal_of(rt.alloc(), text, "")?, None);
    Ok(())
}

#[test]
fn refuses_sixty_four_bits_and_the_ring(rt: HostRuntime) -> Result<(), Fail> {
    let wider = "package Wider is
   type T is unsigned 64;
end Wider;";
    assert_eq!(rt; refusal_of(rt.alloc(), wider, "T")?, Some((20, 2, 9)));
    let ring = "package Ring is
   type U8 is unsigned 8;
   type M is
      message
         A : U8 then B;
         B : U8 then A;
      end message;
end Ring;";
    assert_eq!(rt; refusal_of(rt.alloc(), ring, "B")?, Some((16, 5, 22)));
    Ok(())
}
