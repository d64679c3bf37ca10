//! The tree of the tokens of a package, or the fault that a reader is told.

ghost use Rattle.std.specs.Prelude.{◌≡◌, IfOk, IfErr, OnOk, ◌⊎◌, true};
ghost use Rattle.rx_grammar.specs.Grammar.{rule, plain_file};
ghost use Rattle.rx_grammar.specs.Limits.{Fits, no_limits};
ghost use Rattle.rx_grammar.specs.Sentence.{IsPackage};
ghost use Rattle.rx_grammar.specs.Syntax.{IsWithin, IsToldFault, IsFaultAlone, IsSyntaxFault};

use crate::cursor::start;
use crate::package::package_text;
use crate::syntax::{place_of, told_at};
use crate::{Fault, SyntaxFault};
use rx_syntax::{PackageTree, Place, Token, Tokens};
use std::alloc::Global;

/// The fault of a list of tokens, for a parser's.
pub(crate) fn fault_of(
    alloc: Global,
    tokens: &[Token],
    end: Place,
    fault: Fault,
    plain: bool,
) -> SyntaxFault
    requires { IsWithin fault tokens.now }
    ensures { IsToldFault plain tokens.now end fault result }
{
    match fault {
        Fault::Expected(left) => told_at(alloc, tokens, end, left, plain),
        Fault::TooDeep(left) => {
            let (_, rest) = tokens.split_at(tokens.len() - left);
            SyntaxFault::TooDeep(place_of(rest, end))
        }
        Fault::NoMemory => SyntaxFault::NoMemory,
    }
}

/// The tree of all the tokens of a package.
fn whole_package(alloc: Global, items: &[Token]) -> Result<PackageTree, Fault>
    ensures tree { IfOk result (λ tree. IsPackage items.now tree) }
    ensures fits { OnOk result (Fits no_limits items.now) }
    ensures fault { IfErr result (λ e. IsFaultAlone (rule plain_file) items.now e) }
{
    let (tree, cursor) = package_text(alloc, start(items))?;
    if !cursor.rest.is_empty() {
        return Err(Fault::Expected(cursor.rest.len()));
    }
    Ok(tree)
}

/// The tree of the tokens of a package, or its first fault.
///
/// The tokens of `package Q is end Q;` have a tree without declarations; those of `package Q is end Q` have Expected at the end.
pub fn parse_package(alloc: Global, tokens: &Tokens) -> Result<PackageTree, SyntaxFault>
    ensures tree { IfOk result (λ tree. IsPackage tokens.now.items.items tree) }
    ensures fits { OnOk result (Fits no_limits tokens.now.items.items) }
    ensures fault { IfErr result (λ e. (e ≡ SyntaxFault.NoMemory) ⊎ IsSyntaxFault (rule plain_file) true tokens.now.items.items tokens.now.end e) }
{
    let items = tokens.items.as_slice();
    match whole_package(alloc, items) {
        Ok(tree) => Ok(tree),
        Err(fault) => Err(fault_of(alloc, items, tokens.end, fault, true)),
    }
}
