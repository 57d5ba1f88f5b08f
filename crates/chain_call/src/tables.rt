// Whom the threads look to: tables that are filled once per state, so that no link of a chain searches the paths of the threads.
ghost use Rattle.std.specs.Prelude.{◌≡◌, true, suc, ◌+◌, ◌<◌, ◌≤◌, length};
ghost use Rattle.model.specs.Trees.{tree_of, own_record};
ghost use Rattle.model.specs.WellFormed.{well_formed};
ghost use Rattle.model.specs.Refusals.{tree_refusal};
ghost use Rattle.model.specs.Acts.{sends_inside};
ghost use Rattle.chain_call.specs.Tables.{more, only_in, acts_everywhere, joins, acts_from, noted, Noted, link_key, ticket_key, Filled};
ghost use Rattle.model.proofs.Trees.Index.{height};

use model::{PlaceWords, State, TreeWords};
use refusals::of_runs::places;

// How many threads there are: none, only this one, or several.
#[derive(Clone, Copy, PartialEq, Eq, Debug)]
pub enum Count {
    Nobody,
    Only(u16),
    Several,
}

impl Count {
    // The count with one more thread.
    pub fn more(self, j: u16) -> Count
        ensures { result ≡ more self j }
    {
        match self {
            Count::Nobody => Count::Only(j),
            _ => Count::Several,
        }
    }

    // The thread, if there is exactly one.
    pub fn only(self) -> Option<u16>
        ensures { result ≡ only_in self }
    {
        match self {
            Count::Only(j) => Some(j),
            _ => None,
        }
    }
}

// A lock whose threads may wait: an accepted tree, and a state that is well formed for it.
#[derive(Clone, Copy)]
pub(crate) struct Lock<'a> {
    pub(crate) tree: &'a TreeWords,
    pub(crate) state: &'a State,
    ghost accepted: { (tree_refusal (tree_of tree.now)).number ≡ 0 },
    ghost formed: { well_formed (tree_of tree.now) state.now ≡ true },
}

// The tables of a state.
#[derive(Clone, Copy)]
pub struct Tables {
    // For each record, the threads that act for the record ahead of it.
    pub ahead: [Count; 320],
    // For each thread in Link, the record that it links to.
    pub linking: [Option<u16>; 256],
    // For each thread that acts at the root with a ticket, the ticket.
    pub tickets: [Option<u16>; 256],
}

// The record that a thread uses at a domain.
pub(crate) fn own_record(lock: &Lock, i: u16, l: u8) -> u16
    requires { i < lock.now.tree.now.threads }
    ensures { (result ≡ own_record (tree_of lock.now.tree.now) i l) × (result < 320) }
{
    let home = lock.tree.homes[usize::from(i)];
    refusals::paths::record_at(lock.tree, i, home, l)
}

// Whether a status sends a thread in Wait Inside.
fn sends_inside(l: u8, v: u64) -> bool
    ensures { result ≡ sends_inside l v }
{
    if l == 0 {
        v != model::LOCKED
    } else {
        v < model::ACQUIRE_PARENT
    }
}

// A thread that has the lock acts at every domain of its path.
fn acts_everywhere(q: PlaceWords, v: u64) -> bool
    ensures { result ≡ acts_everywhere q v }
{
    match q.row {
        4 => sends_inside(q.domain, v),
        10 => q.word < model::ACQUIRE_PARENT,
        row => row == 6,
    }
}

// Prep, Swap and Draw, which do not yet act at their domain.
fn joins(row: u8) -> bool
    ensures { result ≡ joins row }
{
    row == 1 || row == 2 || row == 11
}

// The domain from which a thread acts down its path, given its place and the status of its record there; 256 if it acts nowhere.
// Kept: the walk up a path compares each domain with this number; an Option would be unpacked there again.
fn acts_from(q: PlaceWords, v: u64) -> u16
    ensures { result ≡ acts_from q v }
{
    if q.row == 0 {
        return 256;
    }
    if acts_everywhere(q, v) {
        return 0;
    }
    if joins(q.row) {
        return u16::from(q.domain) + 1;
    }
    u16::from(q.domain)
}

// The record in Link.
fn link_key(q: PlaceWords) -> Option<u16>
    ensures { result ≡ link_key q }
{
    if q.row == 3 { Some(q.peer) } else { None }
}

// The ticket of a thread that acts at the root.
fn ticket_key(from: u16, v: u64) -> Option<u16>
    ensures { result ≡ ticket_key from v }
{
    if from == 0 && v < 65536 {
        Some(v as u16)
    } else {
        None
    }
}

// One more thread at the record that a next names.
fn note_next(ahead: &mut [Count; 320], next: u16, j: u16)
    requires { (next ≤ 320) × (j < 256) }
    ensures { ahead.new ≡ noted ahead.old next j }
{
    if next != 0 {
        let at = usize::from(next - 1);
        ahead[at] = ahead[at].more(j);
    }
}

// Enters a thread at each record named by the next of a record for which it acts.
fn note_path(ahead: &mut [Count; 320], lock: &Lock, j: u16, from: u16)
    requires j_lt_threads { j < lock.now.tree.now.threads }
    requires ahead_len { length ahead.old ≡ 320 }
    ensures fact { let t = tree_of lock.now.tree.now in Noted t lock.now.state.now.nexts from j (suc (height t j)) ahead.old ahead.new }
    ensures ahead_len_2 { length ahead.new ≡ 320 }
{
    let mut r = usize::from(j);
    let mut c = lock.tree.homes[usize::from(j)];
    // Kept: the climb ends at a domain that the tree gives, which no range names.
    while from <= u16::from(c) {
        note_next(ahead, lock.state.nexts[r], j);
        if c == 0 {
            return;
        }
        r = 256 + usize::from(c);
        c = lock.tree.parents[usize::from(c)];
    }
}

impl Tables {
    // The tables of a state.
    pub(crate) fn of(lock: &Lock) -> Tables
        ensures { Filled (tree_of lock.now.tree.now) lock.now.state.now lock.now.tree.now.threads result.ahead result.linking result.tickets }
    {
        let mut tables = Tables {
            ahead: [Count::Nobody; 320],
            linking: [None; 256],
            tickets: [None; 256],
        };
        for j in 0..lock.tree.threads as u16 {
            tables.enter(lock, j);
        }
        tables
    }

    // Enters one more thread.
    fn enter(&mut self, lock: &Lock, j: u16)
        requires j_lt_threads { j < lock.now.tree.now.threads }
        requires filled { Filled (tree_of lock.now.tree.now) lock.now.state.now j self.old.ahead self.old.linking self.old.tickets }
        ensures { Filled (tree_of lock.now.tree.now) lock.now.state.now (j + 1) self.new.ahead self.new.linking self.new.tickets }
    {
        let at = usize::from(j);
        let q = places::place_at(&lock.state.places, at);
        let there = own_record(lock, j, q.domain);
        let from = acts_from(q, lock.state.statuses[usize::from(there)]);
        let root = own_record(lock, j, 0);
        self.linking[at] = link_key(q);
        self.tickets[at] = ticket_key(from, lock.state.statuses[usize::from(root)]);
        note_path(&mut self.ahead, lock, j, from);
    }
}
