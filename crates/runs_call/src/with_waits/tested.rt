// A run with waits on a state that the caller keeps: the tests, then the run in pieces. If refused, state, trace, rows and numbers are unchanged.
ghost use Rattle.std.specs.Prelude.{◌≡◌, length, IfOk};
ghost use Rattle.model.specs.Trees.{tree_of};
ghost use Rattle.model.specs.Runs.{run};
ghost use Rattle.refusals.specs.Reasons.{refusal_of};
ghost use Rattle.waits.specs.Answers.{refused_on, waits_on_answer, waits_on_trace, waits_on_rows, waits_on_under_way};

use crate::with_waits::waiting;
use model::{Counts, LockState, TreeWords};
use refusals::reasons::Refusal;

// The run's counts.
pub(crate) fn waits_tested(
    tree: &TreeWords,
    state: &mut LockState,
    schedule: &[u16],
    trace: &mut [u16],
    rows: &mut [u64],
    under_way: &mut [u64; 256],
) -> Result<Counts, Refusal>
    ensures refused { refusal_of result ≡ refused_on tree.now state.old schedule.now trace.old rows.old under_way.old }
    ensures counts { IfOk result (λ counts. counts ≡ (run (tree_of tree.now) schedule.now state.old.words).counts) }
    ensures state_after { state.new ≡ (waits_on_answer tree.now state.old schedule.now trace.old rows.old under_way.old).state }
    ensures trace_after { trace.new ≡ waits_on_trace tree.now state.old schedule.now trace.old rows.old under_way.old }
    ensures rows_after { rows.new ≡ waits_on_rows tree.now state.old schedule.now trace.old rows.old under_way.old }
    ensures under_way_after { under_way.new ≡ waits_on_under_way tree.now state.old schedule.now trace.old rows.old under_way.old }
{
    crate::with_waits::refusal_of(tree, state, schedule, trace.len(), rows.len(), under_way)?;
    let mut kinds = [0u32; 6];
    waiting::run_counted(tree, state, schedule, trace, &mut kinds, rows, under_way);
    Ok(lock::steps::run::counts_of(&kinds))
}
