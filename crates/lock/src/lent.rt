// A step and a run on a state that the caller keeps: the tests, then the loop. A step is a run of one entry. If refused, state and trace are unchanged.
ghost use Rattle.std.specs.Prelude.{◌≡◌, length, IfOk};
ghost use Rattle.model.specs.Trees.{tree_of};
ghost use Rattle.model.specs.Refusals.{run_refusal};
ghost use Rattle.model.specs.Runs.{steps};
ghost use Rattle.model.specs.Answers.{run_answer, trace_answer};
ghost use Rattle.refusals.specs.Reasons.{refusal_of};
ghost use Rattle.lock.specs.Steps.Running.{codes_front};

use crate::steps::{limits, run};
use model::{Counts, LockState, TreeWords};
use refusals::reasons::Refusal;

// The steps of a schedule: the counts. Also written: one number for each step as far as the buffer reaches.
pub(crate) fn run_tested(
    tree: &TreeWords,
    state: &mut LockState,
    schedule: &[u16],
    trace: &mut [u16],
    codes: &mut [u16],
) -> Result<Counts, Refusal>
    ensures refused { refusal_of result ≡ run_refusal (tree_of tree.now) state.old schedule.now (length trace.old) }
    ensures counts { IfOk result (λ counts. counts ≡ (run_answer tree.now state.old schedule.now trace.old).counts) }
    ensures codes_after { IfOk result (λ _. codes.new ≡ codes_front codes.old (steps (tree_of tree.now) schedule.now state.old.words)) }
    ensures state_after { state.new ≡ (run_answer tree.now state.old schedule.now trace.old).state }
    ensures trace_after { trace.new ≡ trace_answer tree.now state.old schedule.now trace.old }
{
    limits::refusal_of(tree, state, schedule, trace.len())?;
    let mut kinds = [0u32; 6];
    run::run_lent(tree, state, schedule, trace, &mut kinds, codes);
    Ok(run::counts_of(&kinds))
}
