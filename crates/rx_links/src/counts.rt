//! The limits on the counts of a message's fields and links.

ghost use Rattle.std.specs.Prelude.{◌≡◌, IfOk, IfErr};
ghost use Rattle.rx_judge.specs.Meaning.{Tells};
ghost use Rattle.rx_links.specs.Counts.{counts_stand};

use rx_judge::{Fault, refused_at};
use rx_syntax::{Named, Rule};
use std::alloc::Global;

const MOST_FIELDS: usize = 128;

const MOST_LINKS: usize = 512;

/// That a message has at most 128 fields and 512 links; else GraphLimit at its name.
pub fn counts_stand(alloc: Global, name: &Named, fields: usize, links: usize) -> Result<(), Fault>
    ensures meaning { IfOk result (λ x. counts_stand name.now fields links ≡ Ok x) }
    ensures refusal { IfErr result (λ e. Tells e (counts_stand name.now fields links)) }
{
    if fields <= MOST_FIELDS && links <= MOST_LINKS {
        Ok(())
    } else {
        Err(Fault::Refused(refused_at(alloc, Rule::GraphLimit, name)?))
    }
}
