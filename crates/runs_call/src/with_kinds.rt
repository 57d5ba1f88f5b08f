// A run that reports the kind and domain of each step.
ghost use Rattle.std.specs.Prelude.{◌≡◌};
ghost use Rattle.kinds.specs.Answers.{kinds_answer, kinds_trace, kinds_rows};

mod reporting;

use kinds::KindsReply;
use model::{LockState, TreeWords};

// A run that also writes two numbers per step to its own buffer, the kind and the domain, in the schedule's order; if refused, state, trace and rows are unchanged.
pub fn run_kinds(
    tree: &TreeWords,
    state: LockState,
    schedule: &[u16],
    trace: &mut [u16],
    rows: &mut [u16],
) -> KindsReply
    ensures value { result ≡ kinds_answer tree.now state schedule.now trace.old rows.old }
    ensures trace_after { trace.new ≡ kinds_trace tree.now state schedule.now trace.old rows.old }
    ensures rows_after { rows.new ≡ kinds_rows tree.now state schedule.now trace.old rows.old }
{
    let mut left = state;
    match reporting::run_reported(tree, &mut left, schedule, trace, rows) {
        Ok(counts) => KindsReply {
            number: 0,
            place: 0,
            counts,
            rows: counts.steps,
            state: left,
        },
        Err(refusal) => KindsReply {
            number: refusal.number(),
            place: refusal.place,
            counts: lock::steps::no_counts(),
            rows: 0,
            state: left,
        },
    }
}
