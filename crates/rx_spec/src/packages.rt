//! The messages of a package.

ghost use Rattle.std.specs.Prelude.{◌≡◌, ◌++◌, [], ◌∷◌, map, IfOk, IfErr};
ghost use Rattle.rx_graph.specs.Graph.{graph_of};
ghost use Rattle.rx_judge.specs.Meaning.{Tells};
ghost use Rattle.rx_elab.specs.Through.{through};
ghost use Rattle.rx_elab.specs.Types.{types_of};
ghost use Rattle.rx_spec.specs.Limit.{HasBoolean};
ghost use Rattle.rx_spec.specs.Messages.{message_of, null_message, with_message, definition_meant, declaration_meant, package_messages};
ghost use Rattle.rx_spec.specs.Ready.{MessageMakes, MakesElaborated, DeclarationMakes, PackageMakes};

use crate::messages::{message_of, null_message};
use rx_elab::Types;
use rx_graph::Message;
use rx_judge::{Fault, NoMemory};
use rx_syntax::{DeclKind, DeclTree, DefTree, HeaderTree, MessageTree, Named, PackageTree};
use std::alloc::Global;

fn add(messages: &mut Vec<Message>, message: Message) -> Result<(), NoMemory>
    ensures { IfOk result (λ x. map graph_of messages.new.items ≡ map graph_of messages.old.items ++ graph_of message ∷ []) }
{
    messages.push(message)?;
    Ok(())
}

fn add_message(
    alloc: Global,
    types: &Types,
    header: &HeaderTree,
    messages: &mut Vec<Message>,
    name: &Named,
    tree: &MessageTree,
) -> Result<(), Fault>
    requires boolean { HasBoolean (types_of types.now) }
    requires elaborated { MessageMakes (types_of types.now) header.now name.now tree.now }
    ensures meaning { IfOk result (λ x. with_message (map graph_of messages.old.items) (message_of (types_of types.now) header.now name.now tree.now) ≡ Ok (map graph_of messages.new.items)) }
    ensures refusal { IfErr result (λ e. Tells e (with_message (map graph_of messages.old.items) (message_of (types_of types.now) header.now name.now tree.now))) }
{
    let message = message_of(alloc, types, header, name, tree)?;
    add(messages, message)?;
    Ok(())
}

fn add_null(
    alloc: Global,
    types: &Types,
    header: &HeaderTree,
    messages: &mut Vec<Message>,
    name: &Named,
) -> Result<(), Fault>
    requires boolean { HasBoolean (types_of types.now) }
    ensures meaning { IfOk result (λ x. with_message (map graph_of messages.old.items) (null_message (types_of types.now) header.now name.now) ≡ Ok (map graph_of messages.new.items)) }
    ensures refusal { IfErr result (λ e. Tells e (with_message (map graph_of messages.old.items) (null_message (types_of types.now) header.now name.now))) }
{
    let message = null_message(alloc, types, header, name)?;
    add(messages, message)?;
    Ok(())
}

fn definition_meant(
    alloc: Global,
    types: &Types,
    header: &HeaderTree,
    messages: &mut Vec<Message>,
    name: &Named,
    def: &DefTree,
) -> Result<(), Fault>
    requires boolean { HasBoolean (types_of types.now) }
    requires elaborated { MakesElaborated (types_of types.now) header.now name.now def.now }
    ensures meaning { IfOk result (λ x. definition_meant (types_of types.now) header.now (map graph_of messages.old.items) name.now def.now ≡ Ok (map graph_of messages.new.items)) }
    ensures refusal { IfErr result (λ e. Tells e (definition_meant (types_of types.now) header.now (map graph_of messages.old.items) name.now def.now)) }
{
    match def {
        DefTree::Message(tree) => add_message(alloc, types, header, messages, name, tree),
        DefTree::NullMessage => add_null(alloc, types, header, messages, name),
        DefTree::Unsigned(_) => Ok(()),
        DefTree::Range(_, _, _) => Ok(()),
        DefTree::Enumeration(_, _) => Ok(()),
        DefTree::Sequence(_) => Ok(()),
        DefTree::Derived(_) => Ok(()),
    }
}

fn declaration_meant(
    alloc: Global,
    types: &Types,
    header: &HeaderTree,
    messages: &mut Vec<Message>,
    decl: &DeclTree,
) -> Result<(), Fault>
    requires boolean { HasBoolean (types_of types.now) }
    requires elaborated { DeclarationMakes (types_of types.now) header.now decl.now }
    ensures meaning { IfOk result (λ x. declaration_meant (types_of types.now) header.now (map graph_of messages.old.items) decl.now ≡ Ok (map graph_of messages.new.items)) }
    ensures refusal { IfErr result (λ e. Tells e (declaration_meant (types_of types.now) header.now (map graph_of messages.old.items) decl.now)) }
{
    match &decl.kind {
        DeclKind::Refine(_) => Ok(()),
        DeclKind::Defined(name, def) => {
            definition_meant(alloc, types, header, messages, name, def)
        }
    }
}

/// Adds the messages of a package in order of text, or gives the first refusal.
pub(crate) fn package_messages(
    alloc: Global,
    types: &Types,
    messages: &mut Vec<Message>,
    package: &PackageTree,
) -> Result<(), Fault>
    requires boolean { HasBoolean (types_of types.now) }
    requires elaborated { PackageMakes (types_of types.now) «package».now }
    ensures meaning { IfOk result (λ x. package_messages (types_of types.now) (map graph_of messages.old.items) «package».now ≡ Ok (map graph_of messages.new.items)) }
    ensures refusal { IfErr result (λ e. Tells e (package_messages (types_of types.now) (map graph_of messages.old.items) «package».now)) }
{
    for decl in &package.decls {
        declaration_meant(alloc, types, &package.header, messages, decl)?;
    }
    Ok(())
}
