//! The specification of a closure of packages.

ghost use Rattle.std.specs.Prelude.{◌≡◌, [], map, IfOk, IfErr};
ghost use Rattle.rx_graph.specs.Graph.{graph_of, spec_of};
ghost use Rattle.rx_judge.specs.Meaning.{all_stand_from};
ghost use Rattle.rx_elab.specs.Types.{types_of, built_in_types};
ghost use Rattle.rx_spec.specs.Elaboration.{package_stands_in, package_types_in, package_messages_in, through_from, elaborated, TellsOf};
ghost use Rattle.rx_spec.specs.Kept.{specified, typed};
ghost use Rattle.rx_spec.specs.Laws.{IsSoundSpec};
ghost use Rattle.rx_spec.specs.Limit.{HasBoolean};
ghost use Rattle.rx_spec.specs.Ready.{PackageMakes, AreReady, AreReadyOnceTyped};

use crate::fault::{ElabFault, fault_in};
use crate::packages::package_messages;
use rx_elab::{Types, built_in_types, package_stands, package_types};
use rx_graph::{Message, Spec};
use rx_judge::NoMemory;
use rx_syntax::PackageTree;
use rx_types::Name;
use std::alloc::Global;

const MOST_SCALARS: usize = 4_294_967_296;

// ---- names

fn package_stands_in(
    alloc: Global,
    asked: &[Name],
    index: usize,
    package: &PackageTree,
) -> Result<(), ElabFault>
    ensures meaning { IfOk result (λ x. package_stands_in asked.now index «package».now ≡ Ok x) }
    ensures refusal { IfErr result (λ e. TellsOf e (package_stands_in asked.now index «package».now)) }
{
    match package_stands(alloc, asked, index, package) {
        Ok(()) => Ok(()),
        Err(fault) => Err(fault_in(index, fault)),
    }
}

fn names_stand(alloc: Global, asked: &[Name], packages: &[PackageTree]) -> Result<(), ElabFault>
    ensures meaning { IfOk result (λ x. all_stand_from (package_stands_in asked.now) 0 packages.now ≡ Ok x) }
    ensures refusal { IfErr result (λ e. TellsOf e (all_stand_from (package_stands_in asked.now) 0 packages.now)) }
{
    for (index, package) in packages.iter().enumerate() {
        package_stands_in(alloc, asked, index, package)?;
    }
    Ok(())
}

// ---- scalar types

fn add_types(
    alloc: Global,
    types: &mut Types,
    index: usize,
    package: &PackageTree,
) -> Result<(), ElabFault>
    ensures meaning { IfOk result (λ x. package_types_in index (types_of types.old) «package».now ≡ Ok (types_of types.new)) }
    ensures refusal { IfErr result (λ e. TellsOf e (package_types_in index (types_of types.old) «package».now)) }
{
    if types.scalars.len() + package.decls.len() > MOST_SCALARS {
        return Err(ElabFault::NoMemory);
    }
    match package_types(alloc, types, package) {
        Ok(()) => Ok(()),
        Err(fault) => Err(fault_in(index, fault)),
    }
}

fn types_of(alloc: Global, packages: &[PackageTree]) -> Result<Types, ElabFault>
    ensures meaning { IfOk result (λ t. through_from package_types_in 0 built_in_types packages.now ≡ Ok (types_of t)) }
    ensures refusal { IfErr result (λ e. TellsOf e (through_from package_types_in 0 built_in_types packages.now)) }
{
    let mut types = built_in_types(alloc)?;
    for (index, package) in packages.iter().enumerate() {
        add_types(alloc, &mut types, index, package)?;
    }
    Ok(types)
}

// ---- messages

fn add_messages(
    alloc: Global,
    types: &Types,
    messages: &mut Vec<Message>,
    index: usize,
    package: &PackageTree,
) -> Result<(), ElabFault>
    requires boolean { HasBoolean (types_of types.now) }
    requires elaborated { PackageMakes (types_of types.now) «package».now }
    ensures meaning { IfOk result (λ x. package_messages_in (types_of types.now) index (map graph_of messages.old.items) «package».now ≡ Ok (map graph_of messages.new.items)) }
    ensures refusal { IfErr result (λ e. TellsOf e (package_messages_in (types_of types.now) index (map graph_of messages.old.items) «package».now)) }
{
    match package_messages(alloc, types, messages, package) {
        Ok(()) => Ok(()),
        Err(fault) => Err(fault_in(index, fault)),
    }
}

fn messages_of(
    alloc: Global,
    types: &Types,
    packages: &[PackageTree],
) -> Result<Vec<Message>, ElabFault>
    requires ready { AreReady (types_of types.now) packages.now }
    ensures meaning { IfOk result (λ ms. through_from (package_messages_in (types_of types.now)) 0 [] packages.now ≡ Ok (map graph_of ms.items)) }
    ensures refusal { IfErr result (λ e. TellsOf e (through_from (package_messages_in (types_of types.now)) 0 [] packages.now)) }
{
    let mut messages = Vec::new(alloc);
    for (index, package) in packages.iter().enumerate() {
        add_messages(alloc, types, &mut messages, index, package)?;
    }
    Ok(messages)
}

// ---- the whole

fn specified(alloc: Global, packages: &[PackageTree], types: Types) -> Result<Spec, ElabFault>
    requires ready { AreReady (types_of types) packages.now }
    ensures meaning { IfOk result (λ s. specified packages.now (types_of types) ≡ Ok (spec_of s)) }
    ensures refusal { IfErr result (λ e. TellsOf e (specified packages.now (types_of types))) }
{
    let messages = messages_of(alloc, &types, packages)?;
    Ok(Spec {
        scalars: types.scalars,
        messages,
        refinements: Vec::new(alloc),
    })
}

fn typed(alloc: Global, packages: &[PackageTree]) -> Result<Spec, ElabFault>
    requires ready { AreReadyOnceTyped packages.now }
    ensures meaning { IfOk result (λ s. typed packages.now ≡ Ok (spec_of s)) }
    ensures refusal { IfErr result (λ e. TellsOf e (typed packages.now)) }
{
    let types = types_of(alloc, packages)?;
    specified(alloc, packages, types)
}

/// The scalar types and messages of packages, which were fetched under the names `asked`, or the refusal that comes
/// first: names of all packages, then their scalar types, then their messages. The last that is asked of a message is
/// whether its paths keep the path limit (GraphLimit).
pub fn elaborate(alloc: Global, asked: &[Name], packages: &[PackageTree]) -> Result<Spec, ElabFault>
    ensures meaning { IfOk result (λ s. elaborated asked.now packages.now ≡ Ok (spec_of s)) }
    ensures refusal { IfErr result (λ e. TellsOf e (elaborated asked.now packages.now)) }
    ensures sound { IfOk result (λ s. IsSoundSpec (spec_of s)) }
{
    names_stand(alloc, asked, packages)?;
    typed(alloc, packages)
}
