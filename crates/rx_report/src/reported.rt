//! What is reported of messages.

ghost use Rattle.std.specs.Prelude.{◌≡◌, ◌++◌, ◌<◌, ◌≤◌, OnOk, [], length};
ghost use Rattle.rx_checks.specs.declared.verdict.Verdict.{Verdict};
ghost use Rattle.rx_report.specs.Counts.{closing_text, none_counted, with_verdict};
ghost use Rattle.rx_report.specs.Reported.{counts_in, total_in};

use crate::fault::NoMemory;
use rx_checks::Verdict;
use rx_lines::put_counted;
use std::alloc::Global;

/// A line for each check of some messages and a last line, and how many checks passed, failed and are undecided.
#[derive(Debug, Drop)]
pub struct Reported {
    pub text: Vec<u8>,
    pub passed: u64,
    pub failed: u64,
    pub undecided: u64,
}

/// Whether all checks of a message passed, or the report where they did not.
#[derive(Debug, Drop)]
pub enum Examined {
    Accepted,
    Rejected(Reported),
}

impl Reported {
    // The report of no message, without its last line.
    pub(crate) fn new(alloc: Global) -> Reported
        ensures text { result.text.items ≡ [] }
        ensures counts { counts_in result ≡ none_counted }
        ensures bounded { total_in result ≤ length result.text.items }
    {
        Reported {
            text: Vec::new(alloc),
            passed: 0,
            failed: 0,
            undecided: 0,
        }
    }

    // Counts a check whose line stands in the text.
    pub(crate) fn count(&mut self, verdict: &Verdict)
        requires { total_in self.old < length self.old.text.items }
        ensures text { self.new.text ≡ self.old.text }
        ensures counts { counts_in self.new ≡ with_verdict verdict.now (counts_in self.old) }
    {
        match verdict {
            Verdict::Passed(_) => self.passed += 1,
            Verdict::Failed(_) => self.failed += 1,
            Verdict::Undecided { .. } => self.undecided += 1,
        }
    }

    // Puts the last line at the end.
    pub(crate) fn close(&mut self, alloc: Global) -> Result<(), NoMemory>
        ensures text { OnOk result (self.new.text.items ≡ self.old.text.items ++ closing_text (counts_in self.old)) }
        ensures counts { counts_in self.new ≡ counts_in self.old }
    {
        put_counted(alloc, &mut self.text, self.passed, b" passed, ")?;
        put_counted(alloc, &mut self.text, self.failed, b" failed, ")?;
        put_counted(alloc, &mut self.text, self.undecided, b" undecided\n")?;
        Ok(())
    }
}
