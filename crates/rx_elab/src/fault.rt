//! Why packages have no meaning.

ghost use Rattle.std.specs.Prelude.{◌≡◌, IfOk};
ghost use Rattle.std.specs.Str.{IsAscii};

use rx_judge::NoMemory;
use rx_syntax::{Place, Refusal, Rule, Word};
use std::alloc::Global;

/// A refusal that tells a name of the language.
pub fn refused_with(
    alloc: Global,
    rule: Rule,
    place: Place,
    name: &str,
) -> Result<Refusal, NoMemory>
    requires { IsAscii name.now }
    ensures { IfOk result (λ r. r ≡ record { rule = rule; place = place; word = Some name.now }) }
{
    let word = Word::make(alloc, name)?;
    Ok(Refusal {
        rule,
        place,
        word: Some(word),
    })
}
