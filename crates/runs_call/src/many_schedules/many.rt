// Many schedules on one tree, each run from its own fresh lock, with one row each.
ghost use Rattle.std.specs.Prelude.{◌≡◌, ◌+◌, ◌*◌, ◌≤◌, length};
ghost use Rattle.std.proofs.lemmas.List.Edits.{sets};
ghost use Rattle.schedules.specs.Rows.{total, cut, alone, row_of, all_rows};
ghost use Rattle.runs_call.specs.ManySchedules.Numbers.{row_numbers};

use model::Counts;
use refusals::accepted_tree::AcceptedTree;

// Writes the eight numbers of a row at a position.
fn put_row(rows: &mut [u32], at: usize, number: u32, place: u32, counts: Counts)
    requires { at + 8 ≤ length rows.old }
    ensures { rows.new ≡ sets rows.old at (row_numbers number place counts) }
{
    rows[at..at + 8].copy_from_slice(&[
        number,
        place,
        counts.steps,
        counts.entries,
        counts.stays,
        counts.root,
        counts.passed,
        counts.crossed,
    ]);
}

// The row of one schedule, run from a fresh lock. The tree and the fresh words pass their tests, so only the schedule is tested; neither the final state nor the trace is kept.
fn run_row(tree: &AcceptedTree, schedule: &[u16], trace: &mut [u16], rows: &mut [u32], at: usize)
    requires trace_len { length trace.old ≡ 65536 }
    requires at_in_bounds { at + 8 ≤ length rows.old }
    ensures { rows.new ≡ sets rows.old at (row_of (alone tree.now.words.now schedule.now)) }
{
    match refusals::schedule_refusal_of(tree.words.threads, schedule, schedule.len()) {
        Ok(()) => {
            let mut state = lock::steps::fresh(0);
            let mut kinds = [0u32; 6];
            let mut codes = [0u16; 0];
            lock::steps::run::run_lent(
                tree.words, &mut state, schedule, trace, &mut kinds, &mut codes,
            );
            put_row(rows, at, 0, 0, lock::steps::run::counts_of(&kinds));
        }
        Err(refusal) => put_row(
            rows,
            at,
            refusal.number(),
            refusal.place,
            lock::steps::no_counts(),
        ),
    }
}

// The rows of all schedules in order, with one borrowed trace buffer for all of them.
pub(crate) fn run_rows(
    tree: &AcceptedTree,
    lengths: &[u32],
    entries: &[u16],
    trace: &mut [u16],
    rows: &mut [u32],
)
    requires lengths_value { total lengths.now ≡ length entries.now }
    requires lengths_in_bounds { 8 * length lengths.now ≤ length rows.old }
    requires trace_len { length trace.old ≡ 65536 }
    ensures { rows.new ≡ sets rows.old 0 (all_rows tree.now.words.now (cut lengths.now entries.now)) }
{
    let mut from: usize = 0;
    let mut at: usize = 0;
    for n in lengths {
        let end = from + *n as usize;
        run_row(tree, &entries[from..end], trace, rows, at);
        from = end;
        at += 8;
    }
}
