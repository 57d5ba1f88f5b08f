// The refusals of a run: those of its tree, 10 for its state, and those of its schedule; each test looks at everything before the next test.
ghost use Rattle.std.specs.Prelude.{◌≡◌};
ghost use Rattle.model.specs.Trees.{tree_of};
ghost use Rattle.model.specs.WellFormed.{well_formed};
ghost use Rattle.model.specs.Refusals.{first_refusal, run_tests_before_19};
ghost use Rattle.refusals.specs.Reasons.{refusal_of};

mod counters;
mod marks;
mod owners;
pub mod places;
mod shapes;
mod states;
mod unused;

use crate::accepted_tree::AcceptedTree;
use crate::reasons::{Reason, Refusal};
use model::{LockState, State, TreeWords};

// The largest value of a counter, and the largest number of an attempt under way.
pub const MOST_COUNTED: u64 = 1 << 63;

// Whether a state is well formed: the words of the root, the unused slots, the domains, the threads.
fn is_well_formed(tree: &AcceptedTree, words: &State) -> bool
    ensures { result ≡ well_formed (tree_of tree.now.words.now) words.now }
{
    let owners = owners::owners_of(tree.words);
    states::good_root_at(tree.words, words)
        && unused::is_clear(tree.words, words)
        && states::good_domains(&owners, tree.words.domains, words)
        && states::good_threads(tree, &owners, words)
}

// 4 to 9, 16 and 10 to 13, the tests of a run; the caller tests 19 with the steps. A step is a run of one entry with a trace buffer of one element. The state is borrowed.
pub fn lent_refusal_of(
    tree: &TreeWords,
    state: &LockState,
    schedule: &[u16],
    room: usize,
) -> Result<(), Refusal>
    ensures { refusal_of result ≡ first_refusal (run_tests_before_19 (tree_of tree.now) state.now schedule.now room) }
{
    let accepted = AcceptedTree::of(tree)?;
    if !counters::good_counts(tree, &state.counters) {
        return Err(Reason::BadState.at(0));
    }
    if !is_well_formed(&accepted, &state.words) {
        return Err(Reason::BadState.at(0));
    }
    crate::schedule_refusal_of(tree.threads, schedule, room)
}
