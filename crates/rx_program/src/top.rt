//! The top call.
ghost use Rattle.std.specs.Prelude.{◌≡◌, ℕ, List, map, IfOk, IfErr, IfSome, Ok, string_bytes};
ghost use Rattle.std.specs.Io.KnownBytes.{Appends, IsAtEnd};
ghost use Rattle.rx_io.specs.Faults.{HasRisen};
ghost use Rattle.rx_io.specs.Shelf.{Texts, SameTexts};
ghost use Rattle.rx_closure.specs.Closure.{ArePaired, IsClosure};
ghost use Rattle.rx_closure.specs.Stop.{Stops};
ghost use Rattle.rx_program.specs.Words.{HaveNoForm, HaveInput, HaveNoInput};
ghost use Rattle.rx_program.specs.Heard.{IsOfWalk, IsEarly, IfAnswered, IsTold, IsHeard, settled};
ghost use Rattle.rx_program.specs.Answers.{EndsAt, Answers};
ghost use Rattle.rx_program.specs.Outcome.{Outcome, MayRefuseWords, ReadsAll, LeavesInput};

use crate::answer::{Answer, Early};
use crate::fault::NoMemory;
use crate::print::print;
use crate::serving::{meaning_of, serve};
use crate::status::Status;
use crate::words::read_words;
use rx_closure::{Packages, Stop, close};
use rx_io::{Shelf, Sink, Source};
use rx_types::Name;
use std::alloc::Global;

// The answer where the walk from this package ends.
fn stopped(alloc: Global, name: &Name, stop: Stop) -> Result<Answer, NoMemory>
    ensures ends { IfOk result (λ answer. (texts : Texts) → Stops texts name.now stop → EndsAt texts name.now answer) }
    ensures kind { IfOk result IsOfWalk }
    ensures fault { result ≡ Ok Answer.ShelfFault → stop ≡ Stop.Fault }
{
    match stop {
        Stop::Fault => Ok(Answer::ShelfFault),
        Stop::NoPackage => Ok(Answer::NoPackage(name.copy(alloc)?)),
        Stop::TextLimit(file) => Ok(Answer::TextLimit(file)),
        Stop::Refused(file, refusal) => Ok(Answer::Refused(file, refusal)),
        Stop::PackageLimit => Ok(Answer::PackageLimit),
        Stop::NoMemory => Err(NoMemory),
    }
}

// The packages of the closure of this one.
fn packages_of<H: Shelf>(alloc: Global, name: &Name, shelf: &mut H) -> Result<Packages, Early>
    ensures closed { IfOk result (λ packages. IfSome (H.texts shelf.old) (λ texts. IsClosure texts name.now packages.asked.items packages.trees.items)) }
    ensures paired { IfOk result (λ packages. ArePaired packages.asked.items packages.trees.items) }
    ensures ends { IfErr result (IsEarly (λ answer. IfSome (H.texts shelf.old) (λ texts. EndsAt texts name.now answer))) }
    ensures kind { IfErr result (IsEarly IsOfWalk) }
    ensures same { SameTexts (H.texts shelf.old) (H.texts shelf.new) }
    ensures cause { IfErr result (IsEarly (λ answer. answer ≡ Answer.ShelfFault → HasRisen (H.faults shelf.old) (H.faults shelf.new))) }
{
    match close(alloc, name, shelf) {
        Ok(packages) => Ok(packages),
        Err(stop) => {
            let answer = stopped(alloc, name, stop)?;
            Err(Early::Answer(answer))
        }
    }
}

// What the words, the shelf and the input give.
fn answer<H: Shelf, I: Source>(
    alloc: Global,
    words: &[String],
    shelf: &mut H,
    input: &mut I,
) -> Result<Answer, Early>
    ensures answers { IfAnswered result (λ answer. IfSome (H.texts shelf.old) (λ texts. IfSome (I.left input.old) (λ left. Answers (map string_bytes words.now) texts left answer))) }
    ensures told { IfAnswered result (IsTold (map string_bytes words.now) (HasRisen (H.faults shelf.old) (H.faults shelf.new))) }
    ensures heard { IfAnswered result (IsHeard (HaveNoInput (map string_bytes words.now)) (input.new ≡ input.old) (IsAtEnd (I.left input.new)) (HasRisen (I.faults input.old) (I.faults input.new))) }
    ensures same { SameTexts (H.texts shelf.old) (H.texts shelf.new) }
    ensures untouched { HaveNoInput (map string_bytes words.now) → input.new ≡ input.old }
{
    let ask = read_words(alloc, words)?;
    let packages = packages_of(alloc, &ask.name, shelf)?;
    let spec = meaning_of(alloc, &packages)?;
    serve(alloc, &ask, &spec, input)
}

// An early answer is an answer.
fn settled(ended: Result<Answer, Early>) -> Result<Answer, NoMemory>
    ensures { result ≡ settled ended }
{
    match ended {
        Ok(answer) => Ok(answer),
        Err(Early::Answer(answer)) => Ok(answer),
        Err(Early::NoMemory) => Err(NoMemory),
    }
}

/// Runs a command. What is written to `out`, and the status, are those of the answer to the words, the texts on the
/// shelf and the input, where shelf and input tell them; with a fault of `out`, a front of the answer's text. A fault of shelf
/// or input is the answer only where that object counted one.
/// The other clauses hold of all shelves, inputs and outputs; `same` and `at_end` speak of one that tells its contents.
pub fn run<H: Shelf, I: Source, O: Sink>(
    alloc: Global,
    words: &[String],
    shelf: &mut H,
    input: &mut I,
    out: &mut O,
) -> Status
    ensures outcome { IfSome (H.texts shelf.old) (λ texts. IfSome (I.left input.old) (λ left.
        (written : List ℕ) × Appends (O.written out.old) (O.written out.new) written
        × Outcome (map string_bytes words.now) texts left (record { shelf_before = H.faults shelf.old; shelf_after = H.faults shelf.new; source_before = I.faults input.old; source_after = I.faults input.new }) result written)) }
    // status Words exactly where the words have no form
    ensures usage { result ≡ Status.Words → HaveNoForm (map string_bytes words.now) }
    ensures no_form { HaveNoForm (map string_bytes words.now) → MayRefuseWords result }
    // a fault only where that object counted one
    ensures shelf_fault { result ≡ Status.ShelfFault → HasRisen (H.faults shelf.old) (H.faults shelf.new) }
    ensures source_fault { result ≡ Status.SourceFault → HasRisen (I.faults input.old) (I.faults input.new) }
    ensures sink_fault { result ≡ Status.SinkFault → HasRisen (O.faults out.old) (O.faults out.new) }
    // the texts stay; an input that was decoded, encoded or refused was read to its end; `check` leaves it alone, and so
    // does a command that ends with 1, 2, 3, 4 or 7; after 6, 8, 9 and 10 it may have been read or not
    ensures same { SameTexts (H.texts shelf.old) (H.texts shelf.new) }
    ensures at_end { HaveInput (map string_bytes words.now) → ReadsAll result (IsAtEnd (I.left input.new)) }
    ensures untouched { HaveNoInput (map string_bytes words.now) → input.new ≡ input.old }
    ensures unread { LeavesInput result (input.new ≡ input.old) }
{
    match settled(answer(alloc, words, shelf, input)) {
        Ok(answer) => print(alloc, answer, out),
        Err(NoMemory) => Status::NoMemory,
    }
}
