// Named steps piece by piece: the threads of a piece are stepped by the run's loop, and what it reports for each step is compared with what is named.
ghost use Rattle.std.specs.Prelude.{◌≡◌, ◌≤◌, length};
ghost use Rattle.model.specs.Trees.{tree_of};
ghost use Rattle.journal.specs.StepCheck.Answers.{checked};
ghost use Rattle.journal_call.specs.StepCheck.Stretches.{refused_number, Ready, Stretch, PieceFits};

use crate::step_check::comparison::{self, Reported};
use lock::steps::{limits, run};
use model::{LockState, TreeWords};
use refusals::reasons::Reason;

// How many steps are right, and what refuses the next one.
#[derive(Clone, Copy)]
pub(crate) struct Found {
    pub refused: Option<Reason>,
    pub steps: usize,
}

// The steps that a host names, in three lists of equal length.
#[derive(Clone, Copy)]
pub(crate) struct NamedSteps<'a> {
    pub threads: &'a [u16],
    pub kinds: &'a [u16],
    pub domains: &'a [u16],
    ghost kinds_long: { length kinds.now ≡ length threads.now },
    ghost domains_long: { length domains.now ≡ length threads.now },
}

// How many threads of a piece can be stepped: those before the first that 12 or 19 refuses.
fn stretch_of(tree: &TreeWords, state: &LockState, threads: &[u16]) -> Found
    requires ready { Ready (tree_of tree.now) state.now }
    requires threads_len_bound { length threads.now ≤ 1024 }
    ensures { Stretch (tree_of tree.now) state.now threads.now result }
{
    let known = comparison::first_unknown(threads, tree.threads).unwrap_or(threads.len());
    match limits::lent_counter_refusal_of(tree, state, &threads[..known]) {
        Err(refusal) => Found {
            refused: Some(Reason::CounterFull),
            steps: refusal.place as usize,
        },
        Ok(()) => Found {
            refused: (known < threads.len()).then_some(Reason::BadEntry),
            steps: known,
        },
    }
}

// A piece of named steps: how many are right, and what refuses the next one. The right steps are taken: first all that can be stepped; if one is wrong, those before it again from the state before the piece.
fn check_piece(
    tree: &TreeWords,
    state: &mut LockState,
    named: &NamedSteps,
    trace: &mut [u16],
    codes: &mut [u16],
) -> Found
    requires ready { Ready (tree_of tree.now) state.old }
    requires piece_fits { PieceFits named.now.threads.now trace.old codes.old }
    ensures number { refused_number result.refused ≡ (checked (tree_of tree.now) state.old named.now.threads.now named.now.kinds.now named.now.domains.now).number }
    ensures steps { result.steps ≡ (checked (tree_of tree.now) state.old named.now.threads.now named.now.kinds.now named.now.domains.now).steps }
    ensures state_after { state.new ≡ (checked (tree_of tree.now) state.old named.now.threads.now named.now.kinds.now named.now.domains.now).state }
    ensures trace_len_unchanged { length trace.new ≡ length trace.old }
    ensures codes_len_unchanged { length codes.new ≡ length codes.old }
{
    let threads = named.threads;
    let stretch = stretch_of(tree, state, threads);
    let kept = *state;
    let mut tally = [0u32; 6];
    run::run_lent(
        tree,
        state,
        &threads[..stretch.steps],
        trace,
        &mut tally,
        codes,
    );
    let reported = Reported {
        threads: &threads[..stretch.steps],
        kinds: &named.kinds[..stretch.steps],
        domains: &named.domains[..stretch.steps],
        codes: &codes[..stretch.steps],
    };
    match comparison::first_difference(&tree.homes, &reported) {
        None => stretch,
        Some(same) => {
            let refused = comparison::reason_of(named.kinds[same], codes[same]);
            *state = kept;
            run::run_lent(tree, state, &threads[..same], trace, &mut tally, codes);
            Found {
                refused: Some(refused),
                steps: same,
            }
        }
    }
}

// All named steps, 1,024 at a time; each piece continues from the state that the one before it left.
pub(crate) fn check_all(
    tree: &TreeWords,
    state: &mut LockState,
    named: &NamedSteps,
    trace: &mut [u16],
    codes: &mut [u16],
) -> Found
    requires ready { Ready (tree_of tree.now) state.old }
    requires trace_len { length trace.old ≡ 1024 }
    requires codes_len { length codes.old ≡ 1024 }
    ensures number { refused_number result.refused ≡ (checked (tree_of tree.now) state.old named.now.threads.now named.now.kinds.now named.now.domains.now).number }
    ensures steps { result.steps ≡ (checked (tree_of tree.now) state.old named.now.threads.now named.now.kinds.now named.now.domains.now).steps }
    ensures state_after { state.new ≡ (checked (tree_of tree.now) state.old named.now.threads.now named.now.kinds.now named.now.domains.now).state }
{
    let mut at = 0;
    // Kept: three lists are cut at the same places, each piece where the one before it ended.
    while at < named.threads.len() {
        let end = at + (named.threads.len() - at).min(1024);
        let piece = NamedSteps {
            threads: &named.threads[at..end],
            kinds: &named.kinds[at..end],
            domains: &named.domains[at..end],
        };
        let found = check_piece(tree, state, &piece, trace, codes);
        if found.refused.is_some() {
            return Found {
                steps: at + found.steps,
                ..found
            };
        }
        at = end;
    }
    Found {
        refused: None,
        steps: at,
    }
}
