ghost use Rattle.std.specs.Str.{IsAscii};

use crate::{counts_stand, links_of, no_cycle, positions};
use rx_judge::Fault;
use rx_syntax::{FieldTree, NameTree, Named, NoMemory, Place, ThenTree, Word};
use std::alloc::Global;
use std::test::Fail;

fn named(alloc: Global, text: &str, line: u32) -> Result<Named, NoMemory>
    requires { IsAscii text.now }
{
    let word = Word::make(alloc, text)?;
    Ok(Named {
        word,
        place: Place { line, column: 1 },
    })
}

// A field that leads to the target, or to the next field.
fn field(alloc: Global, name: &str, line: u32, target: &str) -> Result<FieldTree, NoMemory>
    requires name { IsAscii name.now }
    requires target { IsAscii target.now }
{
    let name = named(alloc, name, line)?;
    let kind = named(alloc, "U8", line)?;
    let mut thens = Vec::new(alloc);
    if !target.is_empty() {
        let target = Word::make(alloc, target)?;
        thens.push(ThenTree {
            target: Some(target),
            place: Place { line, column: 20 },
            aspects: Vec::new(alloc),
            condition: None,
        })?;
    }
    Ok(FieldTree {
        name,
        kind: NameTree {
            package: None,
            name: kind,
        },
        aspects: Vec::new(alloc),
        condition: None,
        thens,
    })
}

// The number and the column of the refusal; 0 where there is none.
fn told(fault: &Fault) -> (u8, u32) {
    match fault {
        Fault::Refused(refusal) => (refusal.rule.number(), refusal.place.column),
        Fault::NoMemory => (0, 0),
    }
}

// What is told of a message of two fields, the second of which leads to the target.
fn told_of(alloc: Global, target: &str) -> Result<(u8, u32), NoMemory>
    requires { IsAscii target.now }
{
    let name = named(alloc, "M", 1)?;
    let mut fields = Vec::new(alloc);
    fields.push(field(alloc, "A", 2, "")?)?;
    fields.push(field(alloc, "B", 3, target)?)?;
    let Ok(table) = positions(alloc, &fields) else {
        return Err(NoMemory);
    };
    let ways = match links_of(alloc, &table, &[], &fields) {
        Ok(ways) => ways,
        Err(fault) => return Ok(told(&fault)),
    };
    if let Err(fault) = no_cycle(alloc, &name, &[], &fields, &ways) {
        return Ok(told(&fault));
    }
    match counts_stand(alloc, &name, 129, ways.len()) {
        Ok(()) => Ok((0, 1)),
        Err(fault) => Ok(told(&fault)),
    }
}

#[test]
fn tells_what_comes_first(rt: HostRuntime) -> Result<(), Fail> {
    let unknown = told_of(rt.alloc(), "C")?;
    assert_eq!(rt; unknown, (8, 20));
    let cycle = told_of(rt.alloc(), "a")?;
    assert_eq!(rt; cycle, (16, 1));
    let counts = told_of(rt.alloc(), "")?;
    assert_eq!(rt; counts, (21, 1));
    Ok(())
}
