// The same on a state that the caller keeps: the tests, then the loop, which reports each step as one number, and then two numbers per step.
ghost use Rattle.std.specs.Prelude.{◌≡◌, ◌*◌, ◌≤◌, length, IfOk};
ghost use Rattle.model.specs.Trees.{tree_of};
ghost use Rattle.model.specs.Runs.{run};
ghost use Rattle.refusals.specs.Reasons.{refusal_of};
ghost use Rattle.kinds.specs.Answers.{kinds_refusal, kinds_answer, kinds_trace, kinds_rows};
ghost use Rattle.runs_call.specs.WithKinds.Spreading.{ThreadsFit, Spread};

use lock::steps::{limits, run};
use model::{Counts, LockState, TreeWords};
use refusals::reasons::{Reason, Refusal};

// Replaces the numbers that the run's loop reported, at the front of the rows, by two numbers each. It starts at the last step, so that no number is overwritten before it is read.
fn spread(homes: &[u8; 256], schedule: &[u16], rows: &mut [u16])
    requires schedule_in_bounds { 2 * length schedule.now ≤ length rows.old }
    requires threads_fit { ThreadsFit schedule.now }
    ensures { Spread homes.now schedule.now rows.old 0 rows.new }
{
    for k in (0..schedule.len()).rev() {
        let code = rows[k];
        let home = homes[usize::from(schedule[k])];
        let domain = run::domain_of_code(u16::from(home), code);
        rows[2 * k] = code % 8;
        rows[2 * k + 1] = domain;
    }
}

// The tests: 4 to 9, 16 and 10 to 13, then 28, then 19.
fn refusal_of(
    tree: &TreeWords,
    state: &LockState,
    schedule: &[u16],
    room: usize,
    row_room: usize,
) -> Result<(), Refusal>
    ensures { refusal_of result ≡ kinds_refusal (tree_of tree.now) state.now schedule.now room row_room }
{
    refusals::of_runs::lent_refusal_of(tree, state, schedule, room)?;
    if row_room / 2 < schedule.len() {
        return Err(Reason::KindsShort.at(0));
    }
    limits::lent_counter_refusal_of(tree, state, schedule)
}

// The steps of a schedule, reported; the run's counts.
pub(crate) fn run_reported(
    tree: &TreeWords,
    state: &mut LockState,
    schedule: &[u16],
    trace: &mut [u16],
    rows: &mut [u16],
) -> Result<Counts, Refusal>
    ensures refused { refusal_of result ≡ kinds_refusal (tree_of tree.now) state.old schedule.now (length trace.old) (length rows.old) }
    ensures counts { IfOk result (λ counts. counts ≡ (run (tree_of tree.now) schedule.now state.old.words).counts) }
    ensures state_after { state.new ≡ (kinds_answer tree.now state.old schedule.now trace.old rows.old).state }
    ensures trace_after { trace.new ≡ kinds_trace tree.now state.old schedule.now trace.old rows.old }
    ensures rows_after { rows.new ≡ kinds_rows tree.now state.old schedule.now trace.old rows.old }
{
    refusal_of(tree, state, schedule, trace.len(), rows.len())?;
    let mut kinds = [0u32; 6];
    run::run_lent(tree, state, schedule, trace, &mut kinds, rows);
    spread(&tree.homes, schedule, rows);
    Ok(run::counts_of(&kinds))
}
