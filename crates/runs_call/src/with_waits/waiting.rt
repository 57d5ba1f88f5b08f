// A run with waits: the steps are taken in pieces of the schedule, and after each piece its attempts are counted from the numbers that report its steps.
ghost use Rattle.std.specs.Prelude.{◌≡◌, cond, ◌+◌, ◌*◌, ◌≤◌, ◌<◌, max, length, get_or, set, replicate};
ghost use Rattle.std.proofs.lemmas.List.Edits.{sets};
ghost use Rattle.model.specs.Trees.{tree_of};
ghost use Rattle.model.specs.Runs.{steps, run};
ghost use Rattle.model.specs.Counters.{counters_after, most_counted};
ghost use Rattle.model.specs.Refusals.{run_refusal};
ghost use Rattle.waits.specs.Attempts.{under_way_below};
ghost use Rattle.waits.specs.Rows.{row_with, capped, all_rows_from};
ghost use Rattle.runs_call.specs.WithWaits.Tallies.{first, begins_number, mark_with, mark_of, number_of, rows_by, numbers_by};
ghost use Rattle.lock.specs.Steps.Running.{kinds_of, counts_by, trace_front};
ghost use Rattle.runs_call.specs.WithWaits.Waiting.{kinds_added, ticket_home, marks_of, attempts_of, totals_of, longest_of, tally_noted, Fits, Countable, Counted, Small, MarksOf, HandedIn, MarksFit};

use lock::steps::run;
use model::{LockState, TreeWords};
use refusals::of_runs::MOST_COUNTED;

// The entries are counted from 2^63 on, so that there is a mark for every number that may be under way before them.
const FIRST: u64 = MOST_COUNTED;

// What is kept for a thread while attempts are counted: the mark of the attempt under way, how many are finished, the sum of their waits and the longest.
#[derive(Clone, Copy)]
struct ThreadTally {
    mark: u64,
    attempts: u64,
    total: u64,
    longest: u64,
}

// What is kept for all threads.
#[derive(Drop)]
struct Tally {
    threads: [ThreadTally; 256],
}

fn is_ticket_home(ticket_root: u32, home: u8) -> bool
    ensures { result ≡ ticket_home ticket_root home }
{
    ticket_root != 0 && home == 0
}

// Whether a step begins an attempt, given its thread's home and the number of its place.
#[tactic(auto, unfolding(crate::specs::WithWaits::Tallies::begins_number))]
fn begins_at(ticket_home: bool, home: u8, place: u16) -> bool
    ensures { result ≡ begins_number ticket_home home place }
{
    if ticket_home {
        return place == 0 || place == 11;
    }
    place == 2 + 16 * u16::from(home)
}

fn mark_with(begins: bool, entered: u64, mark: u64) -> u64
    requires { entered ≤ first + 65536 }
    ensures { result ≡ mark_with begins entered mark }
{
    if begins {
        return entered + 1;
    }
    mark
}

// The mark for a number under way.
#[tactic(auto, unfolding(crate::specs::WithWaits::Tallies::mark_of))]
fn mark_of(number: u64) -> u64
    requires { number ≤ most_counted }
    ensures { result ≡ mark_of number }
{
    if number == 0 {
        return 0;
    }
    FIRST + 2 - number
}

// The number under way for a mark.
#[tactic(auto, unfolding(crate::specs::WithWaits::Tallies::number_of))]
fn number_of(entered: u64, mark: u64) -> u64
    requires entered_bound { entered ≤ first + 65536 }
    requires mark_bound { mark ≤ entered + 1 }
    ensures { result ≡ number_of entered mark }
{
    if mark == 0 {
        return 0;
    }
    entered + 2 - mark
}

// Kept: five stores into the row, since `copy_from_slice` of five values goes through the stack and tests for an overlap.
// Writes the five numbers of a row at a position.
fn put_row(rows: &mut [u64], at: usize, attempts: u64, total: u64, most: u64)
    requires { at + 5 ≤ length rows.old }
    ensures { rows.new ≡ sets rows.old at (row_with attempts total most) }
{
    let mean = crate::with_waits::mean_of(total, attempts);
    let row = &mut rows[at..at + 5];
    row[0] = attempts;
    row[1] = total;
    row[2] = most;
    row[3] = mean.numerator;
    row[4] = mean.denominator;
}

impl ThreadTally {
    // Counts one more step of the thread, given whether it begins an attempt and whether it enters.
    fn note(&mut self, entered: u64, begins: bool, enters: bool)
        requires { Fits self.old entered }
        ensures { self.new ≡ tally_noted begins enters entered self.old }
    {
        let mark = mark_with(begins, entered, self.mark);
        if !enters {
            self.mark = mark;
            return;
        }
        self.mark = 0;
        if mark == 0 {
            return;
        }
        let wait = entered + 1 - mark;
        self.attempts += 1;
        self.total += wait;
        self.longest = self.longest.max(wait);
    }
}

impl Tally {
    // No step is counted yet; the marks are those of the given numbers.
    fn new(under_way: &[u64; 256]) -> Tally
        requires { HandedIn under_way.now }
        ensures marks { MarksOf under_way.now (marks_of result.threads) }
        ensures attempts { attempts_of result.threads ≡ replicate 256 0 }
        ensures totals { totals_of result.threads ≡ replicate 256 0 }
        ensures longest { longest_of result.threads ≡ replicate 256 0 }
    {
        let nothing = ThreadTally {
            mark: 0,
            attempts: 0,
            total: 0,
            longest: 0,
        };
        let mut threads = [nothing; 256];
        for (k, number) in under_way.iter().enumerate() {
            threads[k].mark = mark_of(*number);
        }
        Tally { threads }
    }

    // Counts the steps of a piece one after another, and returns the number of entries so far.
    fn count_piece(&mut self, tree: &TreeWords, schedule: &[u16], codes: &[u16], count: u64) -> u64
        requires { Countable (tree_of tree.now) schedule.now codes.now self.old.threads count }
        ensures { Counted (tree_of tree.now) schedule.now codes.now self.old.threads count self.new.threads result }
    {
        let mut entered = count;
        for k in 0..schedule.len() {
            let at = usize::from(schedule[k]);
            let code = codes[k];
            let home = tree.homes[at];
            let begins = begins_at(is_ticket_home(tree.ticket_root, home), home, code / 8);
            let enters = run::kind_of_code(code).is_entry();
            self.threads[at].note(entered, begins, enters);
            entered += u64::from(enters);
        }
        entered
    }

    // One row per thread, and a last row for all threads.
    fn put_rows(&self, rows: &mut [u64], threads: u32)
        requires threads_bound { threads ≤ 256 }
        requires threads_in_bounds { 5 * (threads + 1) ≤ length rows.old }
        requires small { Small (attempts_of self.now.threads) }
        ensures { rows.new ≡ sets rows.old 0 (rows_by threads (attempts_of self.now.threads) (totals_of self.now.threads) (longest_of self.now.threads)) }
    {
        let mut attempts: u64 = 0;
        let mut total: u64 = 0;
        let mut most: u64 = 0;
        for k in 0..threads as usize {
            let kept = self.threads[k];
            put_row(rows, 5 * k, kept.attempts, kept.total, kept.longest);
            attempts += kept.attempts;
            total = total.saturating_add(kept.total);
            most = most.max(kept.longest);
        }
        put_row(rows, 5 * threads as usize, attempts, total, most);
    }

    // The numbers of the threads after the run, from their marks.
    fn numbers(&self, threads: u32, entered: u64) -> [u64; 256]
        requires threads_bound { threads ≤ 256 }
        requires marks_fit { MarksFit (marks_of self.now.threads) entered }
        ensures { result ≡ sets (replicate 256 0) 0 (numbers_by threads entered (marks_of self.now.threads)) }
    {
        let mut numbers = [0u64; 256];
        for k in 0..threads as usize {
            numbers[k] = number_of(entered, self.threads[k].mark);
        }
        numbers
    }
}

// Adds the steps of a piece, by kind, to those before it.
fn add_kinds(kinds: &mut [u32; 6], more: &[u32; 6])
    requires { (counts_by kinds.old).steps + (counts_by more.now).steps ≤ 65536 }
    ensures { kinds.new ≡ kinds_added kinds.old more.now }
{
    let before = *kinds;
    *kinds = std::array::from_fn(
        |k|
            requires { (k < 6) × (get_or before k 0 + get_or more.now k 0 ≤ 65536) }
        { before[k] + more[k] },
    );
}

// Where a piece ends: at most 1,024 entries on.
fn piece_end(from: usize, whole: usize) -> usize
    requires { from < whole }
    ensures { (from < result) × ((result ≤ whole) × (result ≤ from + 1024)) }
{
    from + (whole - from).min(1024)
}

// The run of a whole schedule in pieces: the rows of its waits, starting from the attempts under way; the numbers under way after it; and the counters of the domains. The buffer that reports the steps holds one piece.
pub(crate) fn run_counted(
    tree: &TreeWords,
    state: &mut LockState,
    schedule: &[u16],
    trace: &mut [u16],
    kinds: &mut [u32; 6],
    rows: &mut [u64],
    under_way: &mut [u64; 256],
)
    requires trace_value { (run_refusal (tree_of tree.now) state.old schedule.now (length trace.old)).number ≡ 0 }
    requires tree_in_bounds { 5 * ((tree_of tree.now).threads + 1) ≤ length rows.old }
    requires handed_in { HandedIn under_way.old }
    ensures words_after { state.new.words ≡ (run (tree_of tree.now) schedule.now state.old.words).state }
    ensures trace_after { trace.new ≡ trace_front trace.old (run (tree_of tree.now) schedule.now state.old.words) }
    ensures kinds_after { kinds.new ≡ kinds_of (steps (tree_of tree.now) schedule.now state.old.words) }
    ensures rows_after { rows.new ≡ sets rows.old 0 (all_rows_from (tree_of tree.now) under_way.old (steps (tree_of tree.now) schedule.now state.old.words)) }
    ensures under_way_after { under_way.new ≡ sets (replicate 256 0) 0 (under_way_below (tree_of tree.now) under_way.old (tree_of tree.now).threads (steps (tree_of tree.now) schedule.now state.old.words)) }
    ensures counters_after { state.new.counters ≡ counters_after (tree_of tree.now) state.old.counters (steps (tree_of tree.now) schedule.now state.old.words) }
{
    run::fits_its_type(*state);
    let mut tally = Tally::new(under_way);
    let mut counts = [0u32; 6];
    let mut entered: u64 = FIRST;
    let mut from: usize = 0;
    // Kept: a piece starts where the one before it ended, and its trace after the entries so far.
    while from < schedule.len() {
        let end = piece_end(from, schedule.len());
        let mut codes = [0u16; 1024];
        let mut piece = [0u32; 6];
        let written = (entered - FIRST) as usize;
        run::run_lent(
            tree,
            state,
            &schedule[from..end],
            &mut trace[written..],
            &mut piece,
            &mut codes,
        );
        add_kinds(&mut counts, &piece);
        entered = tally.count_piece(tree, &schedule[from..end], &codes, entered);
        from = end;
    }
    *kinds = counts;
    tally.put_rows(rows, tree.threads);
    *under_way = tally.numbers(tree.threads, entered);
}
