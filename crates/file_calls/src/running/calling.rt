// The run of the file call: from a fresh lock, with its own buffers for schedule and trace.
ghost use Rattle.std.specs.Prelude.{◌≡◌, ◌≤◌, length};
ghost use Rattle.lock_file.specs.Reading.{entries_at};
ghost use Rattle.lock_file.specs.FileAnswers.FileAnswers.{tree_outcome, outcome_reply, outcome_output, file_answer, output_answer};
ghost use Rattle.file_calls.specs.Replies.{file_reply};

use crate::printing::put_listing;
use lock_file::TreeRead;
use refusals::reasons::{Reason, Refusal};

// The run of a tree, with borrowed buffers for the schedule and the trace; the length of its listing.
fn run_in(
    file: &[u8],
    read: &TreeRead,
    schedule: &mut [u16],
    trace: &mut [u16],
    output: &mut [u8],
) -> Result<u32, Refusal>
    requires start_in_bounds { read.now.start ≤ length file.now }
    requires file_len_bound { length file.now ≤ 65536 }
    requires schedule_len { (length schedule.old ≡ 32768) × (length trace.old ≡ 32768) }
    ensures value { file_reply result ≡ outcome_reply (tree_outcome read.now.tree (entries_at file.now read.now.start) (length output.old)) }
    ensures output_after { output.new ≡ outcome_output (tree_outcome read.now.tree (entries_at file.now read.now.start) (length output.old)) output.old }
{
    let entries = (file.len() - read.start) / 2;
    lock_file::read_schedule(file, read.start, schedule);
    let mut state = lock::steps::fresh(0);
    let counts = lock::run_in_place(&read.tree, &mut state, &schedule[..entries], trace)?;
    let entered = counts.entries as usize;
    match put_listing(counts, &trace[..entered], output) {
        Some(length) => Ok(length as u32),
        None => Err(Reason::OutputShort.at(0)),
    }
}

// The run of a file; the length of its listing, which is at the front of the output buffer.
pub(crate) fn run_listed(file: &[u8], output: &mut [u8]) -> Result<u32, Refusal>
    ensures value { file_reply result ≡ file_answer file.now output.old }
    ensures output_after { output.new ≡ output_answer file.now output.old }
{
    let read = lock_file::read_bounded(file)?;
    let mut schedule = [0u16; 32768];
    let mut trace = [0u16; 32768];
    run_in(file, &read, &mut schedule, &mut trace, output)
}
