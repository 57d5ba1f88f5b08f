// The steps of a run: its loop, and 19. The calls on a lock use it and have made the tests that it requires.
ghost use Rattle.std.specs.Prelude.{◌≡◌};
ghost use Rattle.model.specs.Counters.{lock_state, fresh_counters};
ghost use Rattle.model.specs.Refusals.{refusal};
ghost use Rattle.model.specs.Answers.{run_refused, no_counts};
ghost use Rattle.lock.specs.Steps.Running.{fresh_from};

pub mod limits;
pub mod run;

use model::{Counters, Counts, LockState, PlaceArrays, RunReply, State};

// The state of a fresh lock whose ticket counters start at this number.
pub fn fresh_state(first: u16) -> State
    ensures { result ≡ fresh_from first }
{
    State {
        tails: [0; 64],
        nexts: [0; 320],
        statuses: [0; 320],
        places: PlaceArrays {
            rows: [0; 256],
            domains: [0; 256],
            peers: [0; 256],
            words: [0; 256],
        },
        ticket: first,
        grant: first,
    }
}

// Counters that are all 0.
pub fn fresh_counters() -> Counters
    ensures { result ≡ fresh_counters }
{
    Counters {
        entries: [0; 64],
        tenures: [0; 64],
        longest: [0; 64],
    }
}

// A fresh lock whose ticket counters start at this number.
pub fn fresh(first: u16) -> LockState
    ensures { result ≡ lock_state (fresh_from first) fresh_counters }
{
    LockState {
        words: fresh_state(first),
        counters: fresh_counters(),
    }
}

// The counts of a run without steps.
pub fn no_counts() -> Counts
    ensures { result ≡ no_counts }
{
    Counts {
        steps: 0,
        entries: 0,
        stays: 0,
        root: 0,
        passed: 0,
        crossed: 0,
    }
}

// The reply to a refused run: number, place, all counts 0 and the state unchanged.
pub fn refused(number: u32, place: u32, state: LockState) -> RunReply
    ensures { result ≡ run_refused (refusal number place) state }
{
    RunReply {
        number,
        place,
        counts: no_counts(),
        state,
    }
}
