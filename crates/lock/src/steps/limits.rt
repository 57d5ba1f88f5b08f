// 19: a step would raise a counter of a domain above 2^63.
ghost use Rattle.std.specs.Prelude.{◌≡◌, ◌<◌, length, IfSome};
ghost use Rattle.model.specs.Trees.{tree_of};
ghost use Rattle.model.specs.Counters.{count_above, any_above};
ghost use Rattle.model.specs.Refusals.{first_refusal, run_tests_before_19, bad_counter, counter_tests, run_refusal};
ghost use Rattle.refusals.specs.Lowest.{Lowest, or_end};
ghost use Rattle.refusals.specs.Reasons.{refusal_of};
ghost use Rattle.lock.specs.Steps.Counting.{RoomAnswered};

use crate::steps::run;
use model::{Counters, LockState, TreeWords};
use refusals::of_runs::MOST_COUNTED;
use refusals::reasons::{Reason, Refusal};

// The largest value of a counter that no schedule can raise above 2^63.
const MOST_WITH_ROOM: u64 = MOST_COUNTED - 65536;

// True only if no schedule can raise a counter above 2^63: then no counter is tested during the run. The OR of the counters is at least each of them, and the loop has no early exit, so that the compiler can test many at once.
fn has_room(counters: &Counters) -> bool
    ensures { RoomAnswered counters.now.entries counters.now.tenures result }
{
    let mut all: u64 = 0;
    for d in 0..64 {
        all |= counters.entries[d] | counters.tenures[d];
    }
    all <= MOST_WITH_ROOM
}

// Whether a counter of a domain is above 2^63.
#[tactic(auto, unfolding(model::specs::Counters::count_above))]
fn is_above_at(counters: &Counters, d: usize) -> bool
    requires { d < 64 }
    ensures { result ≡ count_above counters.now d }
{
    MOST_COUNTED < counters.entries[d]
        || MOST_COUNTED < counters.tenures[d]
        || MOST_COUNTED < counters.longest[d]
}

// Whether some counter is above 2^63.
fn is_above(counters: &Counters) -> bool
    ensures { result ≡ any_above counters.now }
{
    for d in 0..64 {
        if is_above_at(counters, d) {
            return true;
        }
    }
    false
}

// The lowest position of a schedule after whose step a counter is above 2^63, found by taking the steps one by one on a copy.
fn lowest_above(tree: &TreeWords, state: &LockState, schedule: &[u16]) -> Option<u32>
    requires { (first_refusal (run_tests_before_19 (tree_of tree.now) state.now schedule.now (length schedule.now))).number ≡ 0 }
    ensures found { IfSome result (λ k. k < length schedule.now) }
    ensures lowest { Lowest (length schedule.now) (bad_counter (tree_of tree.now) state.now schedule.now) (or_end result (length schedule.now)) }
{
    run::fits_its_type(*state);
    let mut tried = *state;
    for (k, thread) in schedule.iter().enumerate() {
        let one = [*thread];
        let mut trace = [0u16];
        let mut kinds = [0u32; 6];
        let mut codes = [0u16; 0];
        run::run_lent(tree, &mut tried, &one, &mut trace, &mut kinds, &mut codes);
        if is_above(&tried.counters) {
            return Some(k as u32);
        }
    }
    None
}

// 19 after all other tests: the lowest position of a schedule after whose step a counter is above 2^63.
pub fn lent_counter_refusal_of(
    tree: &TreeWords,
    state: &LockState,
    schedule: &[u16],
) -> Result<(), Refusal>
    requires { (first_refusal (run_tests_before_19 (tree_of tree.now) state.now schedule.now (length schedule.now))).number ≡ 0 }
    ensures { refusal_of result ≡ first_refusal (counter_tests (tree_of tree.now) state.now schedule.now) }
{
    if has_room(&state.counters) {
        return Ok(());
    }
    match lowest_above(tree, state, schedule) {
        Some(k) => Err(Reason::CounterFull.at(k)),
        None => Ok(()),
    }
}

// 4 to 9, 16, 10 to 13 and 19, the tests of a run. A step is a run of one entry with a trace buffer of one element.
pub fn refusal_of(
    tree: &TreeWords,
    state: &LockState,
    schedule: &[u16],
    room: usize,
) -> Result<(), Refusal>
    ensures { refusal_of result ≡ run_refusal (tree_of tree.now) state.now schedule.now room }
{
    refusals::of_runs::lent_refusal_of(tree, state, schedule, room)?;
    lent_counter_refusal_of(tree, state, schedule)
}
