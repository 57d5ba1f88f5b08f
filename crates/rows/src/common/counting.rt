// What is counted for the domains: the entries along a thread's path, the tenures that start, the lengths that are reported.
ghost use Rattle.std.specs.Prelude.{◌≡◌, ◌+◌, ◌<◌, ◌≤◌, ◌≢◌, if◌then◌else◌, slice_index};
ghost use Rattle.model.specs.States.{wrap};
ghost use Rattle.rows.specs.Common.Counting.{parent_in, RoomAbove, taken_in, record_domain_in, added_at, raised_at, Started, Climbed, is_watch_in, marked_in, Holding, Looked, ShownFor, CountedShown, Clear};
ghost use Rattle.rows.specs.Common.Standing.{LeadsUp};

use crate::common;
use model::{Counters, PlaceWords, State, TreeWords};

// The domain that owns a record; 0 for a thread's record.
fn record_domain(r: u16) -> u8
    requires { r < 320 }
    ensures value { result ≡ record_domain_in r }
    ensures upper_bound { result < 64 }
{
    if r < 256 { 0 } else { (r - 256) as u8 }
}

// Counts one more tenure of a domain; nothing for domain 0.
fn count_start(tenures: &mut [u64; 64], d: u8)
    requires d_bound { d < 64 }
    requires d_bound_2 { d ≢ 0 → slice_index tenures.old d < 18446744073709551615 }
    ensures { tenures.new ≡ added_at tenures.old d }
{
    if d != 0 {
        tenures[d as usize] += 1;
    }
}

// The longest tenure of a domain takes in a length; nothing for domain 0.
pub fn count_length(longest: &mut [u64; 64], d: u8, v: u64)
    requires { d < 64 }
    ensures { longest.new ≡ raised_at longest.old d v }
{
    if d != 0 {
        longest[d as usize] = longest[d as usize].max(v);
    }
}

// A record gets the lock of its domain: if it is a domain's record, a tenure of length 1 starts.
pub fn count_given(r: u16, counters: &mut Counters)
    requires r_bound { r < 320 }
    requires room_above { RoomAbove counters.old.tenures }
    ensures started { Started (record_domain_in r) counters.old counters.new }
    ensures entries_kept { counters.new.entries ≡ counters.old.entries }
{
    let d = record_domain(r);
    count_start(&mut counters.tenures, d);
    count_length(&mut counters.longest, d, 1);
}

// An entry: one more in each domain from the thread's home up, except the root.
pub fn count_entry(tree: &TreeWords, home: u8, entries: &mut [u64; 64])
    requires leads_up { LeadsUp tree.now }
    requires home_lt_domains { home < tree.now.domains }
    requires room_above { RoomAbove entries.old }
    ensures { Climbed (parent_in tree.now.domains tree.now.parents) home entries.old entries.new }
{
    let mut c = home;
    // Kept: the climb ends at the root, which no range names.
    while c != 0 {
        let at = c as usize;
        entries[at] += 1;
        c = tree.parents[at];
    }
}

fn is_watch_at(q: PlaceWords) -> bool
    ensures { result ≡ is_watch_in q }
{
    matches!(
        q,
        PlaceWords {
            row: 12,
            domain: 0,
            peer: 0,
            word: 0,
        }
    )
}

// One more; 0 comes after 65,535.
pub fn next_number(v: u16) -> u16
    ensures { result ≡ wrap (v + 1) }
{
    v.wrapping_add(1)
}

// Whether the record of one of the domains has this ticket.
fn holds_ticket(statuses: &[u64; 320], domains: u32, v: u64) -> bool
    requires { domains ≤ 64 }
    ensures { Holding statuses.now domains v result }
{
    statuses[256..256 + domains as usize]
        .iter()
        .any(|status| *status == v)
}

// How many threads a step looks at: all if it is a raise and some domain's record has the ticket that it shows, else none.
pub fn looked_at(tree: &TreeWords, row: u8, words: &State) -> u32
    requires { tree.now.domains ≤ 64 }
    ensures { Looked row words.now.statuses tree.now.domains (wrap (words.now.grant + 1)) tree.now.threads result }
{
    let v = u64::from(next_number(words.grant));
    if row == 13 && holds_ticket(&words.statuses, tree.domains, v) {
        tree.threads
    } else {
        0
    }
}

// A thread that watches: the domain for whose record it watches is marked if the record has the ticket that a raise shows.
pub fn mark_shown(tree: &TreeWords, home: u8, q: PlaceWords, words: &State, shown: &mut [bool; 64])
    requires leads_up { LeadsUp tree.now }
    requires home_lt_domains { home < tree.now.domains }
    ensures { shown.new ≡ marked_in tree.now.domains tree.now.parents home words.now.statuses q (wrap (words.now.grant + 1)) shown.old }
{
    if !is_watch_at(q) {
        return;
    }
    let c = common::taken_at(tree, home, 0);
    let status = words.statuses[256 + c as usize];
    if status == u64::from(next_number(words.grant)) {
        shown[c as usize] = true;
    }
}

// A raise: one more tenure for each marked domain, if any thread was looked at. Then no domain is marked.
pub fn count_shown(looked: u32, domains: u32, shown: &mut [bool; 64], counters: &mut Counters)
    requires domains_bound { domains ≤ 64 }
    requires shown_for { ShownFor looked domains shown.old }
    requires room_above { RoomAbove counters.old.tenures }
    ensures counted_shown { CountedShown shown.old 64 counters.old counters.new }
    ensures entries_kept { counters.new.entries ≡ counters.old.entries }
    ensures clear { Clear shown.new }
{
    if looked == 0 {
        return;
    }
    for d in 1..domains as usize {
        if shown[d] {
            counters.tenures[d] += 1;
            counters.longest[d] = counters.longest[d].max(1);
        }
    }
    *shown = [false; 64];
}
