// A run with waits: what refuses it, 4 to 9, 16 and 10 to 13, then 18, 27 and 19; the mean of a row; and the run itself.
ghost use Rattle.std.specs.Prelude.{◌≡◌, ◌<◌, IfSome};
ghost use Rattle.model.specs.Trees.{tree_of};
ghost use Rattle.model.specs.Refusals.{first_refusal};
ghost use Rattle.refusals.specs.Reasons.{refusal_of};
ghost use Rattle.refusals.specs.Lowest.{Lowest, or_end};
ghost use Rattle.waits.specs.Rows.{greatest_divisor, mean};
ghost use Rattle.waits.specs.Refusals.{waits_tests_before_19, bad_under_way, waits_on_refusal};
ghost use Rattle.waits.specs.Answers.{waits_answer, waits_trace, waits_rows, waits_on_answer, waits_on_trace, waits_on_rows, waits_on_under_way};
ghost use Rattle.runs_call.specs.WithWaits.Waiting.{bad_number};

mod tested;
mod waiting;

use model::{LockState, TreeWords};
use refusals::of_runs::MOST_COUNTED;
use refusals::reasons::{Reason, Refusal};
use waits::{Fraction, WaitsReply};

// The greatest common divisor, by Euclid's algorithm.
fn greatest_divisor(a: u64, b: u64) -> u64
    ensures { result ≡ greatest_divisor a b }
{
    let mut x = a;
    let mut y = b;
    // Kept: how often it divides is not known in advance, so no `for` or iterator is plainer.
    while y != 0 {
        let rest = x % y;
        x = y;
        y = rest;
    }
    x
}

// A total over a number of attempts in lowest terms; 0 over 0 without attempts.
pub fn mean_of(total: u64, attempts: u64) -> Fraction
    ensures { result ≡ mean total attempts }
{
    if attempts == 0 {
        return Fraction {
            numerator: 0,
            denominator: 0,
        };
    }
    let d = greatest_divisor(total, attempts);
    Fraction {
        numerator: total / d,
        denominator: attempts / d,
    }
}

// 4 to 9, 16 and 10 to 13, then 18, the tests of a run with waits; the caller tests 19 with the steps.
pub fn waits_refusal_of(
    tree: &TreeWords,
    state: &LockState,
    schedule: &[u16],
    room: usize,
    row_room: usize,
) -> Result<(), Refusal>
    ensures { refusal_of result ≡ first_refusal (waits_tests_before_19 (tree_of tree.now) state.now schedule.now room row_room) }
{
    refusals::of_runs::lent_refusal_of(tree, state, schedule, room)?;
    if row_room / 5 <= tree.threads as usize {
        return Err(Reason::WaitsBufferShort.at(0));
    }
    Ok(())
}

// Whether the number of an attempt under way is invalid: above 2^63, or not 0 in an unused slot.
fn is_bad_number(threads: u32, at: u32, number: u64) -> bool
    ensures { result ≡ bad_number threads at number }
{
    MOST_COUNTED < number || threads <= at && number != 0
}

// The lowest index of such a number.
#[tactic(auto, unfolding(waits::specs::Refusals::bad_under_way, model::specs::Trees::tree_of))]
fn lowest_bad_number(tree: &TreeWords, under_way: &[u64; 256]) -> Option<u32>
    ensures lowest { Lowest 256 (bad_under_way (tree_of tree.now) under_way.now) (or_end result 256) }
    ensures inside { IfSome result (λ place. place < 256) }
{
    let threads = tree.threads;
    (0..256u32).find(
        |k|
            requires { k.now < 256 }
        { is_bad_number(threads, *k, under_way[*k as usize]) },
    )
}

// The same tests, followed by 27 and 19.
pub(crate) fn refusal_of(
    tree: &TreeWords,
    state: &LockState,
    schedule: &[u16],
    room: usize,
    row_room: usize,
    under_way: &[u64; 256],
) -> Result<(), Refusal>
    ensures { refusal_of result ≡ waits_on_refusal (tree_of tree.now) state.now schedule.now room row_room under_way.now }
{
    waits_refusal_of(tree, state, schedule, room, row_room)?;
    if let Some(k) = lowest_bad_number(tree, under_way) {
        return Err(Reason::BadUnderWay.at(k));
    }
    lock::steps::limits::lent_counter_refusal_of(tree, state, schedule)
}

// A run that also writes the waits of each thread's attempts and of all together to its own row buffer, five numbers per row; if refused, state, trace and rows are unchanged.
pub fn run_waits(
    tree: &TreeWords,
    state: LockState,
    schedule: &[u16],
    trace: &mut [u16],
    rows: &mut [u64],
) -> WaitsReply
    ensures value { result ≡ waits_answer tree.now state schedule.now trace.old rows.old }
    ensures trace_after { trace.new ≡ waits_trace tree.now state schedule.now trace.old rows.old }
    ensures rows_after { rows.new ≡ waits_rows tree.now state schedule.now trace.old rows.old }
{
    let mut under_way = [0u64; 256];
    run_waits_on(tree, state, schedule, trace, rows, &mut under_way)
}

// The same for a run that continues the attempts under way; their numbers are replaced by those after the run. If refused, the numbers are unchanged too.
pub fn run_waits_on(
    tree: &TreeWords,
    state: LockState,
    schedule: &[u16],
    trace: &mut [u16],
    rows: &mut [u64],
    under_way: &mut [u64; 256],
) -> WaitsReply
    ensures value { result ≡ waits_on_answer tree.now state schedule.now trace.old rows.old under_way.old }
    ensures trace_after { trace.new ≡ waits_on_trace tree.now state schedule.now trace.old rows.old under_way.old }
    ensures rows_after { rows.new ≡ waits_on_rows tree.now state schedule.now trace.old rows.old under_way.old }
    ensures under_way_after { under_way.new ≡ waits_on_under_way tree.now state schedule.now trace.old rows.old under_way.old }
{
    let mut left = state;
    match tested::waits_tested(tree, &mut left, schedule, trace, rows, under_way) {
        Ok(counts) => WaitsReply {
            number: 0,
            place: 0,
            counts,
            rows: tree.threads + 1,
            state: left,
        },
        Err(refusal) => WaitsReply {
            number: refusal.number(),
            place: refusal.place,
            counts: lock::steps::no_counts(),
            rows: 0,
            state: left,
        },
    }
}
