// The structs of the C interface. They contain only numbers, in C layout, so that a C++ host can hold them.
#![tactic(auto)]

// Status words of a record: below the root, and at the root.
pub const COHORT_START: u64 = 1;

pub const ACQUIRE_PARENT: u64 = 18446744073709551614;

pub const WAIT: u64 = 18446744073709551615;

pub const UNLOCKED: u64 = 0;

pub const LOCKED: u64 = 1;

// A tree with its threads. The root's parent and threshold and the unused slots are not read. The root is a queue if ticket_root is 0, a ticket lock if it is any other number.
#[repr(C)]
#[derive(Clone, Copy)]
pub struct TreeWords {
    pub domains: u32,
    pub threads: u32,
    pub parents: [u8; 64],
    pub thresholds: [u16; 64],
    pub homes: [u8; 256],
    pub ticket_root: u32,
}

// A thread's place: a row of the step table (0 Idle to 13 Raise), its domain, the other record that it names, its word. A part that the row does not have is 0.
#[repr(C)]
#[derive(Clone, Copy)]
pub struct PlaceWords {
    pub row: u8,
    pub domain: u8,
    pub peer: u16,
    pub word: u64,
}

// The places of all threads: one array for each number of a place.
#[repr(C)]
#[derive(Clone, Copy)]
pub struct PlaceArrays {
    pub rows: [u8; 256],
    pub domains: [u8; 256],
    pub peers: [u16; 256],
    pub words: [u64; 256],
}

// The words of a lock. A tail or a next is 0 for none, else the record's number + 1. The counters ticket and grant belong to a ticket lock at the root. In a fresh lock every word is 0, except these two, which a fresh call may start at another number.
#[repr(C)]
#[derive(Clone, Copy)]
pub struct State {
    pub tails: [u16; 64],
    pub nexts: [u16; 320],
    pub statuses: [u64; 320],
    pub places: PlaceArrays,
    pub ticket: u16,
    pub grant: u16,
}

// For each domain except the root, the entries of its threads, its tenures and its longest tenure; 0 for the root and in unused slots. No step reads them. All are 0 in a fresh lock.
#[repr(C)]
#[derive(Clone, Copy)]
pub struct Counters {
    pub entries: [u64; 64],
    pub tenures: [u64; 64],
    pub longest: [u64; 64],
}

// A lock state as calls take and return it: the words of the lock, and the counters.
#[repr(C)]
#[derive(Clone, Copy)]
pub struct LockState {
    pub words: State,
    pub counters: Counters,
}

// A thread's place as in the step table; Invalid if the four numbers are no place.
// Kept: Invalid and no Option, since the definition `place_of` and the theorems about places name it.
#[derive(Clone, Copy)]
pub enum Place {
    Idle,
    Prep(u8),
    Swap(u8),
    Link(u8, u16),
    Wait(u8),
    Inside,
    Check(u8),
    Help(u8),
    Cas(u8),
    Linger(u8),
    Grant(u8, u16, u64),
    Draw,
    Watch,
    Raise,
    Invalid,
}

// The result of the search for a domain's child on a thread's path: the child, and how many domains it looked at.
#[derive(Clone, Copy)]
pub struct Found {
    pub child: u8,
    pub looked: u32,
}

// The counts of a run: all steps, stays included; entries, stays, root entries, passed entries, crossed entries.
#[repr(C)]
#[derive(Clone, Copy)]
pub struct Counts {
    pub steps: u32,
    pub entries: u32,
    pub stays: u32,
    pub root: u32,
    pub passed: u32,
    pub crossed: u32,
}

// What the three calls return. Number 0 means accepted.
#[repr(C)]
#[derive(Clone, Copy)]
pub struct FreshReply {
    pub number: u32,
    pub place: u32,
    pub state: LockState,
}

#[repr(C)]
#[derive(Clone, Copy)]
pub struct StepReply {
    pub number: u32,
    pub place: u32,
    pub kind: u32,
    pub domain: u32,
    pub state: LockState,
}

#[repr(C)]
#[derive(Clone, Copy)]
pub struct RunReply {
    pub number: u32,
    pub place: u32,
    pub counts: Counts,
    pub state: LockState,
}
