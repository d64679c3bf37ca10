//! Messages of texts, with their plans.
ghost use Rattle.std.specs.Prelude.{◌≡◌, Some, IfOk, map, slice_get};
ghost use Rattle.std.specs.List.{AllByRecursion};
ghost use Rattle.rx_types.specs.Domain.{Domain, boolean};
ghost use Rattle.rx_graph.specs.Graph.{domains_of, graph_of};
ghost use Rattle.rx_graph.specs.Typed.{typed, HasBoolean};
ghost use Rattle.rx_forms.specs.PathLimit.{MayBeChecked};
ghost use Rattle.rx_draft.specs.Drafts.{StandsForSound, IsSoundPlan};

use rx_checks::{accepted, check, reports_show_soundness};
use rx_context::Plan;
use rx_grammar::parse_package;
use rx_graph::{Elaborated, Message, Path, Sound, Spec, paths};
use rx_judge::spelled;
use rx_spec::elaborate;
use rx_syntax::{PackageTree, lex};
use std::alloc::Global;
use std::test::Fail;

/// A tag that decides whether a length and bytes follow: fields 0, 1 and 2.
pub const TLV: &[u8] =
    b"package TLV is type Tag is (Data => 1, Error => 3) with Size => 8; type Length is unsigned 16;
type Message is message Tag : Tag then Length if Tag = Data then null if Tag = Error; Length : Length; Value : Opaque with Size => Length * 8; end message; end TLV;";

/// A byte, and another that lies over it.
pub const OVER: &[u8] =
    b"package Over is type U8 is unsigned 8; type M is message A : U8; B : U8 with First => A'First; end message; end Over;";

// The tree of a text.
fn tree_of(alloc: Global, text: &[u8]) -> Result<PackageTree, Fail> {
    if text.len() > 1_048_576 {
        return Err(Fail::new("the text is too long"));
    }
    let tokens = lex(alloc, text)?;
    let tree = parse_package(alloc, &tokens)?;
    Ok(tree)
}

/// What a package means.
pub fn spec_of(alloc: Global, text: &[u8]) -> Result<Spec, Fail>
    ensures messages { IfOk result (λ s. AllByRecursion (MayBeChecked (domains_of s)) (map graph_of s.messages.items)) }
    ensures boolean { IfOk result (λ s. (d : Domain) → slice_get (domains_of s) 0 ≡ Some d → d ≡ boolean) }
{
    let tree = tree_of(alloc, text)?;
    let name = spelled(alloc, &tree.header.name)?;
    let asked = vec![in alloc; name]?;
    let trees = vec![in alloc; tree]?;
    match elaborate(alloc, &asked, &trees) {
        Ok(spec) => Ok(spec),
        Err(_) => Err(Fail::new("the package is refused")),
    }
}

/// The first message.
pub fn message_of(spec: &Spec) -> Result<&Message, Fail>
    requires { AllByRecursion (MayBeChecked (domains_of spec.now)) (map graph_of spec.now.messages.items) }
    ensures { IfOk result (λ m. MayBeChecked (domains_of spec.now) (graph_of m.now)) }
{
    match spec.messages.first() {
        Some(message) => Ok(message),
        None => Err(Fail::new("there is no message")),
    }
}

/// The whole paths of a message.
pub fn paths_of(alloc: Global, spec: &Spec, message: &Message) -> Result<Vec<Path>, Fail>
    requires message { MayBeChecked (domains_of spec.now) (graph_of message.now) }
{
    Ok(paths(alloc, message)?)
}

/// A message with its scalar types.
pub fn known<'s>(spec: &'s Spec, message: &'s Message) -> Elaborated<'s>
    requires message { MayBeChecked (domains_of spec.now) (graph_of message.now) }
    requires boolean { HasBoolean (domains_of spec.now) }
    ensures { result ≡ typed (domains_of spec.now) (graph_of message.now) }
{
    Elaborated::over(spec, message)
}

/// The plan of a message whose checks pass.
pub fn plan_of(alloc: Global, spec: &Spec, message: &Message) -> Result<Plan, Fail>
    requires message { MayBeChecked (domains_of spec.now) (graph_of message.now) }
    requires boolean { (d : Domain) → slice_get (domains_of spec.now) 0 ≡ Some d → d ≡ boolean }
    ensures { IfOk result (λ plan. StandsForSound (domains_of spec.now) (graph_of message.now) plan) }
{
    let report = check(alloc, message, spec, 1024)?;
    let elaborated = known(spec, message);
    reports_show_soundness(&elaborated);
    if accepted(&report) {
        let sound = Sound::over(spec, message);
        let plan = Plan::of(alloc, &sound)?;
        Ok(plan)
    } else {
        Err(Fail::new("a check does not pass"))
    }
}

/// The plan of a package's first message.
pub fn planned(alloc: Global, text: &[u8]) -> Result<Plan, Fail>
    ensures { IfOk result IsSoundPlan }
{
    let spec = spec_of(alloc, text)?;
    let message = message_of(&spec)?;
    plan_of(alloc, &spec, message)
}
