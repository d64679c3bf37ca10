//! The refusal of a text that has no tokens, or whose tokens have no tree.
ghost use Rattle.std.specs.Prelude.{◌≡◌, IfOk, Some, None};
ghost use Rattle.rx_closure.specs.Refusals.{lexer_refusal, parser_refusal};

use crate::fault::NoMemory;
use rx_grammar::SyntaxFault;
use rx_syntax::{LexFault, Place, Refusal, Rule};

// The refusal by a rule at a place, with no word.
fn at(rule: Rule, place: Place) -> Refusal
    ensures { result ≡ record { rule = rule; place = place; word = None } }
{
    Refusal {
        rule,
        place,
        word: None,
    }
}

/// The refusal of a text that has no tokens.
pub fn lexer_refusal(fault: LexFault) -> Result<Refusal, NoMemory>
    ensures { IfOk result (λ refusal. lexer_refusal fault ≡ Some refusal) }
{
    match fault {
        LexFault::BadByte(place) => Ok(at(Rule::BadByte, place)),
        LexFault::BadNumber(place) => Ok(at(Rule::BadNumber, place)),
        LexFault::BadName(place) => Ok(at(Rule::BadName, place)),
        LexFault::TextLimit(place) => Ok(at(Rule::TextLimit, place)),
        LexFault::NoMemory => Err(NoMemory),
    }
}

/// The refusal of tokens that have no tree.
pub fn parser_refusal(fault: SyntaxFault) -> Result<Refusal, NoMemory>
    ensures { IfOk result (λ refusal. parser_refusal fault ≡ Some refusal) }
{
    match fault {
        SyntaxFault::Expected(place) => Ok(at(Rule::Expected, place)),
        SyntaxFault::TooDeep(place) => Ok(at(Rule::TooDeep, place)),
        SyntaxFault::Unsupported(place, word) => Ok(Refusal {
            rule: Rule::Unsupported,
            place,
            word: Some(word),
        }),
        SyntaxFault::NoMemory => Err(NoMemory),
    }
}
