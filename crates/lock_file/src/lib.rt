// The lock file: its reader.
#![tactic(auto)]

mod answering;
pub mod file_answers;
pub mod file_writer;
pub mod printed_listing;
mod reading;

ghost use Rattle.std.specs.Prelude.{◌≡◌, ◌≤◌, length, IfOk};
ghost use Rattle.lock_file.specs.Answers.{bounded_read, read_answer, schedule_answer};
ghost use Rattle.lock_file.specs.Reading.{tree_read, entries_at, filled};
ghost use Rattle.lock_file.specs.Results.{reached_of, reading_from};

use model::TreeWords;
use refusals::reasons::Refusal;

// Why reading stops: at the end of the file, inside a field or before one; or at a bit map with a bit that has no meaning, at this position.
#[derive(Clone, Copy, PartialEq, Eq, Debug)]
pub enum ReadError {
    FileCut,
    FileBit(usize),
}

// A tree, and where its schedule starts.
#[derive(Clone, Copy)]
pub struct TreeRead {
    pub tree: TreeWords,
    pub start: usize,
}

// What reading a lock file returns. Number 0 means accepted; if refused, the length and all words of the tree are 0.
#[repr(C)]
#[derive(Clone, Copy)]
pub struct ReadReply {
    pub number: u32,
    pub place: u32,
    pub length: u32,
    pub tree: TreeWords,
}

// Reads the whole file: fills the tree, and returns where the schedule starts. If reading stops, the tree holds the words read so far.
pub fn read_tree(file: &[u8], tree: &mut TreeWords) -> Result<usize, ReadError>
    ensures start { reached_of result ≡ (tree_read file.now).reached }
    ensures tree_after { tree.new ≡ (tree_read file.now).tree }
{
    reading::tree_of(file, tree)
}

// The tree, and where the schedule starts, for a file of at most 65,536 bytes; refused by 1, 2 or 3.
pub fn read_bounded(file: &[u8]) -> Result<TreeRead, Refusal>
    ensures value { reading_from file.now result ≡ bounded_read file.now }
    ensures start_within { IfOk result (λ r. r.start ≤ length file.now) }
    ensures length_bound { IfOk result (λ r. length file.now ≤ 65536) }
{
    answering::bounded_tree_of(file)
}

// The schedule entries from a position on, at the front of a buffer; a buffer too short for them is unchanged.
pub fn read_schedule(file: &[u8], at: usize, schedule: &mut [u16])
    ensures { schedule.new ≡ filled (entries_at file.now at) schedule.old }
{
    let entries = file.len().saturating_sub(at) / 2;
    if entries <= schedule.len() {
        reading::read_entries(file, at, entries, schedule);
    }
}

// Reads a lock file without running it: the tree, the number of schedule entries, and the schedule at the front of a buffer; if refused, or if the buffer is too short, it is unchanged.
pub fn read_file(file: &[u8], schedule: &mut [u16]) -> ReadReply
    ensures value { result ≡ read_answer file.now }
    ensures schedule_after { schedule.new ≡ schedule_answer file.now schedule.old }
{
    answering::answer_file(file, schedule)
}
