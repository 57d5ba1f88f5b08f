// The check of a state that a host has kept: the tests of its tree, then 10 for the state, and nothing else.
ghost use Rattle.std.specs.Prelude.{◌≡◌};
ghost use Rattle.refusals.specs.Reasons.{refusal_of};
ghost use Rattle.refusals.specs.StateCheck.Answers.{check_answer};

use crate::of_runs::lent_refusal_of;
use crate::reasons::Refusal;
use model::{LockState, TreeWords};

// What refuses the state; nothing if every call accepts it.
pub fn check_state(tree: &TreeWords, state: &LockState) -> Result<(), Refusal>
    ensures { refusal_of result ≡ check_answer tree.now state.now }
{
    lent_refusal_of(tree, state, &[], 0)
}
