// The run's loop.
ghost use Rattle.std.specs.Prelude.{◌≡◌, cond, ◌+◌, ◌*◌, ◌/◌, ◌%◌, ◌<◌, ◌≤◌, length, get_or};
ghost use Rattle.model.specs.Trees.{tree_of};
ghost use Rattle.model.specs.Counters.{counters_after};
ghost use Rattle.model.specs.Refusals.{first_refusal, tree_refusal, run_tests_before_19};
ghost use Rattle.model.specs.States.{wrap, store_numbers};
ghost use Rattle.model.specs.Runs.{steps, run};
ghost use Rattle.model.specs.Laws.{Typed};
ghost use Rattle.rows.specs.Common.Standing.{row_domain, is_entry_number};
ghost use Rattle.rows.specs.Common.Counting.{Clear};
ghost use Rattle.rows.specs.Kinds.{number_of_kind};
ghost use Rattle.lock.specs.Steps.Counting.{Marked};
ghost use Rattle.lock.specs.Steps.Running.{kinds_of, counted, counts_by, traced_at, trace_front, code_of, code_stored, codes_front};

use model::{Counts, LockState, PlaceArrays, PlaceWords, State, TreeWords};
use refusals::of_runs::places;
use rows::common::counting;
use rows::kinds::Kind;

// Counts one more step of a kind.
fn count_in(kinds: &mut [u32; 6], kind: Kind)
    requires { get_or kinds.old (number_of_kind kind) 0 < 65536 }
    ensures { kinds.new ≡ counted kinds.old (number_of_kind kind) }
{
    kinds[usize::from(kind.number())] += 1;
}

// The counts of a run, given how many of its steps are of each kind.
pub fn counts_of(kinds: &[u32; 6]) -> Counts
    requires { (counts_by kinds.now).steps ≤ 65536 }
    ensures { result ≡ counts_by kinds.now }
{
    let [stays, others, root, passed, crossed, leaving] = *kinds;
    Counts {
        steps: stays + others + root + passed + crossed + leaving,
        entries: root + passed + crossed,
        stays,
        root,
        passed,
        crossed,
    }
}

// Writes an entering thread to the trace at an index, and returns the index after it.
fn trace_at(trace: &mut [u16], at: usize, kind: Kind, i: u16) -> usize
    requires { at < length trace.old }
    ensures value { result ≡ at + cond (is_entry_number (number_of_kind kind)) 1 0 }
    ensures trace_after { trace.new ≡ traced_at trace.old at (number_of_kind kind) i }
{
    if kind.is_entry() {
        trace[at] = i;
        return at + 1;
    }
    at
}

// Writes a step as one number, if the buffer is long enough.
fn put_code(codes: &mut [u16], at: usize, kind: Kind, row: u8, domain: u8)
    ensures { codes.new ≡ code_stored codes.old at (code_of (number_of_kind kind) row domain) }
{
    if at < codes.len() {
        codes[at] = u16::from(kind.number()) + 8 * u16::from(row) + 128 * u16::from(domain);
    }
}

// The kind of a step, given the number that reports the step.
pub fn kind_of_code(code: u16) -> Kind
    ensures { code % 8 < 6 → number_of_kind result ≡ code % 8 }
{
    match code % 8 {
        0 => Kind::Stay,
        1 => Kind::OtherMove,
        2 => Kind::RootEntry,
        3 => Kind::PassedEntry,
        4 => Kind::CrossedEntry,
        _ => Kind::Leaving,
    }
}

// The domain of a step, given its thread's home and the number that reports the step. In 16 bits, so that a loop can compare many at once.
pub fn domain_of_code(home: u16, code: u16) -> u16
    ensures { result ≡ row_domain home ((code / 8) % 16) (code / 128) }
{
    match (code / 8) % 16 {
        0 | 5 => home,
        _ => code / 128,
    }
}

// Stores the place after a step.
#[tactic(auto, unfolding(model::specs::States::store_numbers))]
fn put_place(places: &mut PlaceArrays, at: usize, place: PlaceWords)
    requires { at < 256 }
    ensures { places.new ≡ store_numbers places.old at place }
{
    places.rows[at] = place.row;
    places.domains[at] = place.domain;
    places.peers[at] = place.peer;
    places.words[at] = place.word;
}

// The marks of the first threads: the domains for whose records they watch and whose ticket a raise shows.
fn mark_watching(tree: &TreeWords, words: &State, threads: u32, shown: &mut [bool; 64])
    requires tree_value { (tree_refusal (tree_of tree.now)).number ≡ 0 }
    requires threads_bound { threads ≤ tree.now.threads }
    requires clear { Clear shown.old }
    ensures { Marked tree.now.domains tree.now.parents tree.now.homes words.now.statuses words.now.places (wrap (words.now.grant + 1)) threads shown.new }
{
    for other in 0..threads {
        let at = other as usize;
        let place = places::place_at(&words.places, at);
        counting::mark_shown(tree, tree.homes[at], place, words, shown);
    }
}

// What the type of a state fixes: the lengths of its arrays, and that each number has its bits. A state that is passed by reference says so through this call; the compiler leaves out the copy, which nobody reads.
#[inline(always)]
pub fn fits_its_type(state: LockState)
    ensures { Typed state.words }
{}

// The steps of a schedule, stored one after another. Also written: how many steps are of each kind, and one number for each step as far as the buffer reaches.
pub fn run_lent(
    tree: &TreeWords,
    state: &mut LockState,
    schedule: &[u16],
    trace: &mut [u16],
    kinds: &mut [u32; 6],
    codes: &mut [u16],
)
    requires { (first_refusal (run_tests_before_19 (tree_of tree.now) state.old schedule.now (length trace.old))).number ≡ 0 }
    ensures typed { Typed state.old.words }
    ensures words_after { state.new.words ≡ (run (tree_of tree.now) schedule.now state.old.words).state }
    ensures trace_after { trace.new ≡ trace_front trace.old (run (tree_of tree.now) schedule.now state.old.words) }
    ensures kinds_after { kinds.new ≡ kinds_of (steps (tree_of tree.now) schedule.now state.old.words) }
    ensures codes_after { codes.new ≡ codes_front codes.old (steps (tree_of tree.now) schedule.now state.old.words) }
    ensures counters_after { state.new.counters ≡ counters_after (tree_of tree.now) state.old.counters (steps (tree_of tree.now) schedule.now state.old.words) }
{
    fits_its_type(*state);
    let mut shown = [false; 64];
    let mut entered = 0;
    *kinds = [0; 6];
    for (k, thread) in schedule.iter().enumerate() {
        let i = *thread;
        let at = i as usize;
        let before = places::place_at(&state.words.places, at);
        let looked = counting::looked_at(tree, before.row, &state.words);
        mark_watching(tree, &state.words, looked, &mut shown);
        let m = rows::step::take(
            tree,
            i,
            before,
            looked,
            &mut state.words,
            &mut shown,
            &mut state.counters,
        );
        count_in(kinds, m.kind);
        put_place(&mut state.words.places, at, m.place);
        entered = trace_at(trace, entered, m.kind, i);
        put_code(codes, k, m.kind, before.row, before.domain);
    }
}
