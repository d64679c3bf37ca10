//! How many steps proofs have.

ghost use Rattle.std.specs.Prelude.{◌≡◌, IfSome};
ghost use Rattle.rx_checks.specs.Steps.{steps_of, total_steps};

use rx_proof::Proof;

/// How many steps the proofs have; none where more than a word counts.
#[cycle(steps)]
pub(crate) fn total_steps(proofs: &[Proof]) -> Option<usize>
    ensures { IfSome result (λ n. n ≡ total_steps proofs.now) }
{
    let mut sum = 0_usize;
    for proof in proofs {
        sum = sum.checked_add(steps_of(proof)?)?;
    }
    Some(sum)
}

// The steps of all leaves of a proof.
#[cycle(steps)]
fn steps_of(proof: &Proof) -> Option<usize>
    ensures { IfSome result (λ n. n ≡ steps_of proof.now) }
{
    match proof {
        Proof::Case(_, proofs) => {
            let sum = total_steps(proofs.as_slice())?;
            Some(sum)
        }
        Proof::Halve(_, _, low, high) => {
            let low = steps_of(low.get())?;
            let high = steps_of(high.get())?;
            low.checked_add(high)
        }
        Proof::Close(steps) => Some(steps.len()),
    }
}
