// The tests of the homes and of a given state, in a tree that 4 to 8 do not refuse.
ghost use Rattle.std.specs.Prelude.{◌≡◌, true, ◌&&◌, ◌+◌, ◌<◌, ◌≤◌, leb, get_or};
ghost use Rattle.model.specs.Scans.{all_below};
ghost use Rattle.model.specs.Refusals.{tree_refusal};
ghost use Rattle.model.specs.Trees.{tree_of, meets};
ghost use Rattle.model.specs.States.{numbers_at};
ghost use Rattle.refusals.specs.OfRuns.Tables.{member_in, next_in, tail_and_next_in, peer_in, barred_in, domain_in, ticket_place_in, place_in, root_in, resting_row, RestMarks, HomesThere, used_in};
ghost use Rattle.refusals.specs.Paths.Records.{own_record_in};

use crate::accepted_tree::AcceptedTree;
use crate::of_runs::shapes::{CHECK, GRANT, IDLE, RAISE, WAIT, WATCH};
use crate::of_runs::{marks, places, shapes};
use model::{PlaceWords, State, TreeWords};

fn is_member_at(owners: &[u8; 320], d: u8, r: u16) -> bool
    ensures { result ≡ member_in owners.now d r }
{
    r < 320 && owners[usize::from(r)] == d
}

// A tail of a domain, or a next of one of its members' records: none, or such a record.
fn good_next_at(owners: &[u8; 320], d: u8, next: u16) -> bool
    ensures { result ≡ next_in owners.now d next }
{
    next == 0 || is_member_at(owners, d, next - 1)
}

// The tail of a domain, and the next of its record; the table names the domain whose member the record belongs to.
fn good_domain_at(owners: &[u8; 320], words: &State, d: u8) -> bool
    requires { d < 64 }
    ensures { result ≡ tail_and_next_in owners.now d (get_or words.now.tails d 0) (get_or words.now.nexts (256 + d) 0) }
{
    let at = usize::from(d);
    let record = 256 + at;
    good_next_at(owners, d, words.tails[at])
        && good_next_at(owners, owners[record], words.nexts[record])
}

// The tail of each domain of the tree, and the next of its record; the root has no record.
#[tactic(auto, using(crate::proofs::Scanning::one_more, model::proofs::Tests::all_true))]
pub(crate) fn good_domains(owners: &[u8; 320], domains: u32, words: &State) -> bool
    requires { domains ≤ 64 }
    ensures { result ≡ all_below domains (λ d. tail_and_next_in owners.now d (get_or words.now.tails d 0) (get_or words.now.nexts (256 + d) 0)) }
{
    for d in 0..domains as u8 {
        if !good_domain_at(owners, words, d) {
            return false;
        }
    }
    true
}

// The root in Check, or a ticket root in any place of a queue.
#[tactic(auto, unfolding(model::specs::Trees::tree_of))]
fn is_barred_at(tree: &TreeWords, row: u8, l: u8) -> bool
    ensures { result ≡ barred_in (tree_of tree.now) row l }
{
    l == 0 && (row == CHECK || tree.ticket_root != 0)
}

// No tail at a ticket root, no counters at a queue root.
#[tactic(auto, unfolding(model::specs::Trees::tree_of))]
pub(crate) fn good_root_at(tree: &TreeWords, words: &State) -> bool
    ensures { result ≡ root_in (tree_of tree.now) (get_or words.now.tails 0 0) words.now.ticket words.now.grant }
{
    if tree.ticket_root == 0 {
        return words.ticket == 0 && words.grant == 0;
    }
    words.tails[0] == 0
}

fn good_peer_at(owners: &[u8; 320], row: u8, l: u8, peer: u16) -> bool
    ensures { result ≡ peer_in owners.now row l peer }
{
    if shapes::has_peer(row) {
        return is_member_at(owners, l, peer);
    }
    peer == 0
}

// A thread of a tree that 4 to 9 and 16 do not refuse, as the tests of its place read it.
#[derive(Clone, Copy)]
struct Thread<'a> {
    tree: &'a TreeWords,
    number: u16,
    home: u8,
    ghost accepted: { (tree_refusal (tree_of tree.now)).number ≡ 0 },
    ghost there: { number < tree.now.threads },
    ghost home_there: { home < tree.now.domains },
}

impl Thread<'_> {
    // Whether a domain is on the thread's path.
    fn passes(&self, d: u8) -> bool
        ensures { result ≡ meets 6 (tree_of self.now.tree.now) self.now.home d }
    {
        let tree = self.tree;
        let mut c = self.home;
        for _level in 0..6u32 {
            if c == d {
                return true;
            }
            if c == 0 {
                return false;
            }
            c = tree.parents[usize::from(c)];
        }
        c == d
    }

    // Whether the status of the thread's record at the root is at most 65,535.
    fn is_status_low(&self, statuses: &[u64; 320]) -> bool
        ensures { result ≡ leb (get_or statuses.now (own_record_in (tree_of self.now.tree.now) self.now.number self.now.home 0) 0) 65535 }
    {
        let tree = self.tree;
        let r = crate::paths::record_at(tree, self.number, self.home, 0);
        statuses[usize::from(r)] <= 65535
    }

    // Draw, Watch and Raise: only at a ticket root, with a watched status of at most 65,535.
    #[tactic(auto, unfolding(crate::specs::OfRuns::Tables::ticket_place_in, model::specs::Trees::tree_of))]
    fn has_good_ticket_place(&self, statuses: &[u64; 320], q: PlaceWords) -> bool
        ensures { result ≡ ticket_place_in (tree_of self.now.tree.now) statuses.now self.now.number self.now.home q }
    {
        self.tree.ticket_root != 0
            && q.row <= RAISE
            && q.word == 0
            && q.domain == 0
            && q.peer == 0
            && (q.row != WATCH || self.is_status_low(statuses))
    }

    // A domain on the path where the row may be, and a record that fits the row.
    fn has_good_domain(&self, owners: &[u8; 320], q: PlaceWords) -> bool
        ensures { result ≡ domain_in (tree_of self.now.tree.now) owners.now self.now.home q.row q.domain q.peer }
    {
        !is_barred_at(self.tree, q.row, q.domain)
            && self.passes(q.domain)
            && good_peer_at(owners, q.row, q.domain, q.peer)
    }

    #[tactic(auto, unfolding(crate::specs::OfRuns::Tables::place_in))]
    fn has_good_place(&self, owners: &[u8; 320], statuses: &[u64; 320], q: PlaceWords) -> bool
        ensures { result ≡ place_in (tree_of self.now.tree.now) owners.now statuses.now self.now.number self.now.home q }
    {
        if GRANT < q.row {
            return self.has_good_ticket_place(statuses, q);
        }
        if shapes::has_spare_word(q.row, q.word) {
            return false;
        }
        if shapes::has_domain(q.row) {
            return self.has_good_domain(owners, q);
        }
        q.domain == 0 && q.peer == 0
    }
}

// The row of the threads that rest.
#[tactic(auto, unfolding(model::specs::Trees::tree_of))]
pub(crate) fn resting_row_of(tree: &TreeWords) -> u8
    ensures { result ≡ resting_row (tree_of tree.now) }
{
    if tree.ticket_root != 0 && tree.domains == 1 {
        return IDLE;
    }
    WAIT
}

// The words of a thread: the next of its record, and its place if it is marked.
fn good_thread_at(
    tree: &AcceptedTree,
    owners: &[u8; 320],
    marks: &[u8; 256],
    words: &State,
    i: u16,
) -> bool
    requires thread_there { i < tree.now.words.now.threads }
    requires homes_there { HomesThere tree.now.words.now owners.now }
    requires marks_there { RestMarks tree.now.words.now.threads (resting_row (tree_of tree.now.words.now)) owners.now words.now.places marks.now }
    ensures { result ≡ used_in (tree_of tree.now.words.now) owners.now words.now.statuses i (numbers_at words.now.places i) (get_or words.now.nexts i 0) }
{
    let at = usize::from(i);
    let home = owners[at];
    if !good_next_at(owners, home, words.nexts[at]) {
        return false;
    }
    if marks[at] == 0 {
        return true;
    }
    let thread = Thread {
        tree: tree.words,
        number: i,
        home,
    };
    let q = places::place_at(&words.places, at);
    thread.has_good_place(owners, &words.statuses, q)
}

// The words of each thread.
#[tactic(auto, using(crate::proofs::Scanning::one_more, model::proofs::Tests::all_true))]
pub(crate) fn good_threads(tree: &AcceptedTree, owners: &[u8; 320], words: &State) -> bool
    requires { HomesThere tree.now.words.now owners.now }
    ensures { result ≡ all_below tree.now.words.now.threads (λ i. used_in (tree_of tree.now.words.now) owners.now words.now.statuses i (numbers_at words.now.places i) (get_or words.now.nexts i 0)) }
{
    let resting = resting_row_of(tree.words);
    let marks = marks::mark_threads(owners, tree.words.threads, resting, &words.places);
    for i in 0..tree.words.threads as u16 {
        if !good_thread_at(tree, owners, &marks, words, i) {
            return false;
        }
    }
    true
}
