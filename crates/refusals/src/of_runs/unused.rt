// Unused slots: one fold over each array, without an early exit, so that the compiler can test many numbers at once.
ghost use Rattle.std.specs.Prelude.{◌≡◌, ◌≤◌, length};
ghost use Rattle.refusals.specs.OfRuns.Tables.{zeros_between, places_clear, records_clear, clear_in};

use model::{PlaceArrays, State, TreeWords};

// Whether all these numbers are 0.
// Kept: three functions, for 8-bit, 16-bit and 64-bit numbers: one generic function needs a trait with three impls, which is longer.
#[tactic(auto, using(crate::proofs::of_runs::Folds::zeros_folded))]
fn are_zero_bytes(values: &[u8], from: usize, to: usize) -> bool
    requires { (from ≤ to) × (to ≤ length values.now) }
    ensures { result ≡ zeros_between from to values.now }
{
    values[from..to].iter().fold(0, |all, x| all | *x) == 0
}

#[tactic(auto, using(crate::proofs::of_runs::Folds::zeros_folded))]
pub(crate) fn are_zero_halves(values: &[u16], from: usize, to: usize) -> bool
    requires { (from ≤ to) × (to ≤ length values.now) }
    ensures { result ≡ zeros_between from to values.now }
{
    values[from..to].iter().fold(0, |all, x| all | *x) == 0
}

#[tactic(auto, using(crate::proofs::of_runs::Folds::zeros_folded))]
pub(crate) fn are_zero_words(values: &[u64], from: usize, to: usize) -> bool
    requires { (from ≤ to) × (to ≤ length values.now) }
    ensures { result ≡ zeros_between from to values.now }
{
    values[from..to].iter().fold(0, |all, x| all | *x) == 0
}

// Whether the places of unused threads are fresh.
fn are_places_clear(threads: usize, places: &PlaceArrays) -> bool
    requires { threads ≤ 256 }
    ensures { result ≡ places_clear threads places.now }
{
    are_zero_bytes(&places.rows, threads, 256)
        && are_zero_bytes(&places.domains, threads, 256)
        && are_zero_halves(&places.peers, threads, 256)
        && are_zero_words(&places.words, threads, 256)
}

// Whether the tails of unused domains, the records of unused threads and domains, and record 256 are fresh.
fn are_records_clear(threads: usize, domains: usize, words: &State) -> bool
    requires { (threads ≤ 256) × (domains ≤ 64) }
    ensures { result ≡ records_clear threads domains words.now.tails words.now.nexts words.now.statuses }
{
    let past = 256 + domains;
    are_zero_halves(&words.tails, domains, 64)
        && are_zero_halves(&words.nexts, threads, 257)
        && are_zero_halves(&words.nexts, past, 320)
        && are_zero_words(&words.statuses, threads, 257)
        && are_zero_words(&words.statuses, past, 320)
}

// Whether all unused slots are fresh.
pub(crate) fn is_clear(tree: &TreeWords, words: &State) -> bool
    requires { (tree.now.threads ≤ 256) × (tree.now.domains ≤ 64) }
    ensures { result ≡ clear_in tree.now.threads tree.now.domains words.now }
{
    let threads = tree.threads as usize;
    are_places_clear(threads, &words.places)
        && are_records_clear(threads, tree.domains as usize, words)
}
