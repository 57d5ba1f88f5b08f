// The links of a chain in order, read from the tables of a state.
ghost use Rattle.std.specs.Prelude.{◌≡◌, true, ◌<◌, ◌≤◌, get_or};
ghost use Rattle.chain_call.specs.declared.tables.Count.TheVariants.{Nobody};
ghost use Rattle.model.specs.Trees.{tree_of, on_path};
ghost use Rattle.model.specs.States.{numbers_at};
ghost use Rattle.chain.specs.Chain.{chain};
ghost use Rattle.chain.proofs.Stays.{waits_in};
ghost use Rattle.chain_call.specs.Tables.{to, only_with, watch_link, link_in, SoundPlace, link_by, Filled, Followed};

use crate::tables::{Count, Lock, Tables, own_record};
use model::PlaceWords;
use refusals::of_runs::places;

// Where a thread's link leads: the thread's next step is not a stay, or it looks to this thread only, or to none or several.
#[derive(Clone, Copy, PartialEq, Eq, Debug)]
pub enum Link {
    Moves,
    To(u16),
    Broken,
}

// Kept: a function, since `From` would say less than its name where it is used.
// The link to the only thread that is looked to, if there is one.
fn to(only: Option<u16>) -> Link
    ensures { result ≡ to only }
{
    match only {
        Some(j) => Link::To(j),
        None => Link::Broken,
    }
}

// The only thread with a key.
fn only_with(keys: &[Option<u16>; 256], threads: u32, key: u16) -> Option<u16>
    requires { threads ≤ 256 }
    ensures { result ≡ only_with keys.now threads key }
{
    let mut count = Count::Nobody;
    for j in 0..threads as u16 {
        if keys[usize::from(j)] == Some(key) {
            count = count.more(j);
        }
    }
    count.only()
}

// Whether a thread in Wait stays with this status.
fn waits(l: u8, v: u64) -> bool
    ensures { result ≡ waits_in l v }
{
    if l == 0 {
        v == model::LOCKED
    } else {
        v == model::WAIT
    }
}

// The link of a thread in Watch with a ticket: the only thread that has the ticket just before.
fn watch_link(v: u64, grant: u16, tickets: &[Option<u16>; 256], threads: u32) -> Link
    requires { (v ≤ 65535) × (threads ≤ 256) }
    ensures { result ≡ watch_link v grant tickets.now threads }
{
    if v == u64::from(grant) {
        return Link::Moves;
    }
    let before = (v as u16).wrapping_sub(1);
    to(only_with(tickets, threads, before))
}

impl Tables {
    // A thread's link, given the words of its place and its record there.
    fn link_in(&self, lock: &Lock, q: PlaceWords, r: u16) -> Link
        requires r_bound { (r < 320) × (lock.now.tree.now.threads ≤ 256) }
        requires v_bound { q.row ≡ 12 → get_or lock.now.state.now.statuses r 0 ≤ 65535 }
        ensures { result ≡ link_in q r (get_or lock.now.state.now.statuses r 0) (get_or lock.now.state.now.nexts r 0) lock.now.state.now.grant (get_or self.now.ahead r Nobody) self.now.linking self.now.tickets lock.now.tree.now.threads }
    {
        let at = usize::from(r);
        let v = lock.state.statuses[at];
        match q.row {
            4 if waits(q.domain, v) => to(self.ahead[at].only()),
            9 if lock.state.nexts[at] == 0 => to(only_with(&self.linking, lock.tree.threads, r)),
            12 => watch_link(v, lock.state.grant, &self.tickets, lock.tree.threads),
            _ => Link::Moves,
        }
    }

    // A thread's link.
    fn link(&self, lock: &Lock, i: u16) -> Link
        requires i_lt_threads { i < lock.now.tree.now.threads }
        requires sound_place { SoundPlace (tree_of lock.now.tree.now) lock.now.state.now.statuses i (numbers_at lock.now.state.now.places i) }
        ensures { result ≡ link_by (tree_of lock.now.tree.now) lock.now.state.now self.now.ahead self.now.linking self.now.tickets i }
    {
        let q = places::place_at(&lock.state.places, usize::from(i));
        let r = own_record(lock, i, q.domain);
        self.link_in(lock, q, r)
    }

    // The chain of a thread at the front of an array, and its length; nothing if it breaks off.
    pub(crate) fn follow(&self, lock: &Lock, thread: u16, found: &mut [u16; 256]) -> Option<usize>
        requires thread_lt_threads { thread < lock.now.tree.now.threads }
        requires filled { Filled (tree_of lock.now.tree.now) lock.now.state.now lock.now.tree.now.threads self.now.ahead self.now.linking self.now.tickets }
        ensures { Followed lock.now.tree.now.threads (chain (tree_of lock.now.tree.now) lock.now.state.now thread) found.new result }
    {
        let threads = lock.tree.threads as usize;
        let mut seen = [false; 256];
        seen[usize::from(thread)] = true;
        *found = [0; 256];
        found[0] = thread;
        let mut i = thread;
        for n in 1..threads + 1 {
            match self.link(lock, i) {
                Link::Moves => return Some(n),
                Link::Broken => return None,
                Link::To(j) => {
                    let next = usize::from(j);
                    if n == threads || seen[next] {
                        return None;
                    }
                    seen[next] = true;
                    found[n] = j;
                    i = j;
                }
            }
        }
        None
    }
}
