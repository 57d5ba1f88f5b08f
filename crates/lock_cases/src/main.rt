// Cases of document 01's ladder that are executed: what the calls answer, one line each.
#![tactic(auto)]

use model::{LockState, RunReply, State, TreeWords};
use std::io;

// Two threads in domain 1 below the root.
fn two_threads(threshold: u16) -> TreeWords {
    let mut thresholds = [0u16; 64];
    thresholds[1] = threshold;
    let mut homes = [0u8; 256];
    homes[0] = 1;
    homes[1] = 1;
    TreeWords {
        domains: 2,
        threads: 2,
        parents: [0u8; 64],
        thresholds,
        homes,
        ticket_root: 0,
    }
}

// The same, and two threads in domain 2 below the root.
fn four_threads(threshold: u16) -> TreeWords {
    let mut tree = two_threads(threshold);
    tree.domains = 3;
    tree.threads = 4;
    tree.thresholds[2] = threshold;
    tree.homes[2] = 2;
    tree.homes[3] = 2;
    tree
}

fn fresh(tree: &TreeWords) -> LockState {
    lock::fresh_lock(tree, 0).state
}

// A state with these words whose counters are 0.
fn uncounted(words: State) -> LockState {
    LockState {
        words,
        counters: lock::steps::fresh_counters(),
    }
}

// The number, place and counts of a run, and the first two elements of its trace buffer.
fn show(rt: &impl Print, r: &RunReply, first: u16, second: u16) -> io::Result<()> {
    let c = r.counts;
    println!(rt;
        " {} {}: {} {} {} {} {} {}; trace {first} {second}",
        r.number, r.place, c.steps, c.entries, c.stays, c.root, c.passed, c.crossed
    )
}

// A trace buffer as long as the schedule passes, one element less gives 13; a refused run leaves the buffer unchanged.
fn trace_room(rt: &impl Print) -> io::Result<()> {
    let tree = two_threads(2);
    let schedule = [0u16; 4];
    let mut enough = [77u16; 4];
    let r = lock::run_lock(&tree, fresh(&tree), &schedule, &mut enough);
    print!(rt; "trace of the schedule's length")?;
    show(rt, &r, enough[0], enough[1])?;
    let mut short = [77u16; 3];
    let q = lock::run_lock(&tree, fresh(&tree), &schedule, &mut short);
    print!(rt; "trace one shorter")?;
    show(rt, &q, short[0], short[1])
}

// A run refused at its last entry has taken no step.
fn late_entry(rt: &impl Print) -> io::Result<()> {
    let tree = two_threads(2);
    let schedule = [0u16, 0, 0, 0, 2];
    let mut trace = [77u16; 5];
    let r = lock::run_lock(&tree, fresh(&tree), &schedule, &mut trace);
    print!(rt; "last entry no thread")?;
    show(rt, &r, trace[0], trace[1])?;
    let s = r.state.words;
    let tail = s.tails[1];
    let status = s.statuses[0] % 65536;
    let row = s.places.rows[0];
    println!(rt; "its state's first tail, status and row {tail} {status} {row}")
}

// Three more turns of a thread in Wait without a grant are three stays.
fn three_stays(rt: &impl Print) -> io::Result<()> {
    let tree = two_threads(2);
    let schedule = [0u16, 0, 0, 0, 1, 1, 1, 1, 1, 1];
    let mut trace = [77u16; 10];
    let r = lock::run_lock(&tree, fresh(&tree), &schedule, &mut trace);
    print!(rt; "three turns of a waiting thread")?;
    show(rt, &r, trace[0], trace[1])
}

// A threshold of 65,535 is accepted.
fn largest_threshold(rt: &impl Print) -> io::Result<()> {
    let r = lock::fresh_lock(&two_threads(65535), 0);
    println!(rt; "threshold 65535 {} {}", r.number, r.place)
}

// Schedule entries of four threads, repeated many times.
fn order() -> [u16; 4000] {
    let mut schedule = [0u16; 4000];
    for k in 0..4000 {
        schedule[k] = ((k / 3 + k / 7 + k / 11) % 4) as u16;
    }
    schedule
}

// All threads in turn, many times: passed entries with thresholds of 2, none with thresholds of 1.
fn turns(rt: &impl Print, threshold: u16) -> io::Result<()> {
    let tree = four_threads(threshold);
    let mut trace = [77u16; 4000];
    let r = lock::run_lock(&tree, fresh(&tree), &order(), &mut trace);
    print!(rt; "thresholds of {threshold}")?;
    show(rt, &r, trace[0], trace[1])
}

// The same at a ticket root whose counters start at their largest number.
fn ticket_turns(rt: &impl Print) -> io::Result<()> {
    let mut tree = four_threads(2);
    tree.ticket_root = 1;
    let start = lock::fresh_lock(&tree, 65535);
    let mut trace = [77u16; 4000];
    let r = lock::run_lock(&tree, start.state, &order(), &mut trace);
    print!(rt; "thresholds of 2 at a ticket root")?;
    show(rt, &r, trace[0], trace[1])?;
    let s = r.state.words;
    println!(rt; "its counters {} {}", s.ticket, s.grant)
}

// A step of a thread from a state with these words.
fn step_line(
    rt: &impl Print,
    label: &str,
    tree: &TreeWords,
    words: State,
    thread: u16,
) -> io::Result<()> {
    let r = lock::step_lock(tree, uncounted(words), thread);
    let s = r.state.words;
    let at = (thread % 256) as usize;
    let row = s.places.rows[at];
    let domain = s.places.domains[at];
    let peer = s.places.peers[at];
    let word = s.places.words[at] % 65536;
    print!(rt;
        "{label} {} {}; row {row} {domain} {peer} {word}",
        r.number, r.place
    )?;
    let tail = s.tails[1];
    let next = s.nexts[0];
    let status = s.statuses[0] % 65536;
    println!(rt; "; tail {tail}; next {next}; status {status}")
}

// A fresh lock whose first thread is at another place.
fn first_at(tree: &TreeWords, row: u8, domain: u8) -> State {
    let mut words = fresh(tree).words;
    words.places.rows[0] = row;
    words.places.domains[0] = domain;
    words
}

// States that a caller may pass in but no schedule reaches.
fn handed_in(rt: &impl Print) -> io::Result<()> {
    let tree = two_threads(2);
    let mut above = first_at(&tree, 6, 1);
    above.statuses[0] = 900;
    above.nexts[0] = 2;
    step_line(
        rt,
        "Check with a status above the threshold",
        &tree,
        above,
        0,
    )?;
    let mut itself = first_at(&tree, 2, 1);
    itself.tails[1] = 1;
    step_line(rt, "Swap that finds its own record", &tree, itself, 0)?;
    step_line(
        rt,
        "Link to its own record",
        &tree,
        first_at(&tree, 3, 1),
        0,
    )?;
    step_line(rt, "Prep at home", &tree, first_at(&tree, 1, 1), 0)?;
    step_line(rt, "Idle", &tree, fresh(&tree).words, 0)?;
    step_line(rt, "Check at the root", &tree, first_at(&tree, 6, 0), 0)?;
    step_line(rt, "thread 2 of two", &tree, fresh(&tree).words, 2)
}

// A leaf without threads is refused before a state that is not well formed.
fn empty_leaf(rt: &impl Print) -> io::Result<()> {
    let mut tree = two_threads(2);
    tree.domains = 3;
    tree.thresholds[2] = 2;
    step_line(
        rt,
        "a leaf without threads",
        &tree,
        first_at(&tree, 6, 0),
        0,
    )
}

fn main(rt: HostRuntime) -> io::Result<()> {
    trace_room(&rt)?;
    late_entry(&rt)?;
    three_stays(&rt)?;
    largest_threshold(&rt)?;
    turns(&rt, 2)?;
    turns(&rt, 1)?;
    ticket_turns(&rt)?;
    handed_in(&rt)?;
    empty_leaf(&rt)
}
