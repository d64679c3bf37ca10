// The walk of a query.
ghost use Rattle.std.specs.Prelude.{◌≡◌, ◌≤◌, [], IfOk};
ghost use Rattle.rx_linear.specs.Joining.{joined};
ghost use Rattle.rx_proof.specs.declared.query.Query.{out-Query};
ghost use Rattle.rx_proof.specs.Queries.{IsEven};
ghost use Rattle.rx_shadow.specs.Bounds.{HasUnitRows};
ghost use Rattle.rx_prover.specs.Answers.{AnswersWalk, IfNoPoint, HasNoPoint};
ghost use Rattle.rx_prover.specs.Walked.{AnswerOf};

use crate::pending::put;
use crate::walked::Walked;
use crate::walking::walk;
use crate::{Answer, NoMemory};
use rx_proof::Query;
use rx_shadow::JoinedRows;
use std::alloc::Global;

/// What a walk that ended so answers.
fn answer(walked: Walked) -> Answer
    ensures { AnswerOf walked result }
{
    match walked {
        Walked::Closed(proof, _) => Answer::NoPoint(proof),
        Walked::Found(point) => Answer::Point(point),
        Walked::Unfinished(tree) => Answer::Undecided(tree),
    }
}

/// A proof that the query has no point, a point of it, or the tree of a walk that needs more than so many inner nodes.
pub fn prove(alloc: Global, query: &Query, splits: u32) -> Result<Answer, NoMemory>
    requires few { (1 ≤ splits) × (splits ≤ 4096) }
    requires even { IsEven query.now }
    requires bounded { HasUnitRows (out-Query query.now).system.variables (joined [] (out-Query query.now).system.rows) }
    ensures value { IfOk result (AnswersWalk query.now splits) }
    ensures sound { IfOk result (λ answer. IfNoPoint answer (HasNoPoint query.now)) }
{
    let mut rows = JoinedRows::new(alloc, query.system.variables());
    rows.join_all(alloc, query.system.rows())?;
    let mut pending = Vec::new(alloc);
    put(&mut pending, query.either.as_slice())?;
    let walked = walk(alloc, &mut rows, &mut pending, 0, splits as usize)?;
    Ok(answer(walked))
}
