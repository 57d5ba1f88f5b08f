// The entries of a journal as the reader returns them, and the reply of its check. Their meaning is in specs/.
#![tactic(auto)]

pub mod step_check;

// Kept: the definition `entry_at` gives these three.
// What is at a position: an entry, with the thread and the kind that it names and the position after it; an entry that is cut off or has another bit set; or the end of the journal.
#[derive(Clone, Copy)]
pub enum Entry {
    Named { thread: u16, kind: u8, next: usize },
    Broken,
    End,
}

// The reply of the check of a journal. Number 0 means accepted; the place is the position of a byte, with as many bits as a length.
#[repr(C)]
#[derive(Clone, Copy)]
pub struct JournalReply {
    pub number: u32,
    pub place: usize,
}
