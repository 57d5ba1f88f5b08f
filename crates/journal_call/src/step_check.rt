// The check of steps that a host names by thread, kind and domain, from a state that it passes in.
ghost use Rattle.std.specs.Prelude.{◌≡◌};
ghost use Rattle.model.specs.Trees.{tree_of};
ghost use Rattle.refusals.specs.Reasons.{refusal_of};
ghost use Rattle.journal.specs.StepCheck.Answers.{early_refusal, steps_answer};

mod comparison;
mod pieces;

use crate::step_check::pieces::NamedSteps;
use journal::step_check::StepsReply;
use model::{LockState, TreeWords};
use refusals::reasons::{Reason, Refusal};

// The tests before the steps: 4 to 9, 16 and 10, then 30.
fn early_refusal_of(
    tree: &TreeWords,
    state: &LockState,
    threads: &[u16],
    kinds: &[u16],
    domains: &[u16],
) -> Result<(), Refusal>
    ensures { refusal_of result ≡ early_refusal (tree_of tree.now) state.now threads.now kinds.now domains.now }
{
    refusals::state_check::check_state(tree, state)?;
    if kinds.len() != threads.len() || domains.len() != threads.len() {
        return Err(Reason::ListsUnequal.at(0));
    }
    Ok(())
}

// Compares named steps with those of the step table: the number that refuses the first wrong one and its position, how many steps come before it, and the state after those; if accepted, the state after the last. If refused before the steps, the state is unchanged.
pub fn check_steps(
    tree: &TreeWords,
    state: LockState,
    threads: &[u16],
    kinds: &[u16],
    domains: &[u16],
) -> StepsReply
    ensures { result ≡ steps_answer tree.now state threads.now kinds.now domains.now }
{
    if let Err(refusal) = early_refusal_of(tree, &state, threads, kinds, domains) {
        return StepsReply {
            number: refusal.number(),
            place: refusal.place as usize,
            checked: 0,
            state,
        };
    }
    let mut left = state;
    let mut trace = [0u16; 1024];
    let mut codes = [0u16; 1024];
    let named = NamedSteps {
        threads,
        kinds,
        domains,
    };
    let found = pieces::check_all(tree, &mut left, &named, &mut trace, &mut codes);
    let (number, place) = match found.refused {
        Some(reason) => (reason.number(), found.steps),
        None => (0, 0),
    };
    StepsReply {
        number,
        place,
        checked: found.steps,
        state: left,
    }
}
