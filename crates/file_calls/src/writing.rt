// Writes the shortest lock file of a tree and a schedule.
mod writing;

ghost use Rattle.std.specs.Prelude.{◌≡◌};
ghost use Rattle.lock_file.specs.FileWriter.Answers.{write_answer, file_buffer_answer};
ghost use Rattle.file_calls.specs.Replies.{write_reply};

use lock_file::file_writer::WriteReply;
use model::TreeWords;
use refusals::reasons::{Reason, Refusal};

// Writes the lock file at the front of a buffer; its length. It is known before the first byte is written, so that a buffer that is too short is unchanged.
fn put_file(tree: &TreeWords, schedule: &[u16], file: &mut [u8]) -> Result<u32, Refusal>
    ensures value { write_reply result ≡ write_answer tree.now schedule.now file.old }
    ensures file_after { file.new ≡ file_buffer_answer tree.now schedule.now file.old }
{
    refusals::tree_refusal_of(tree)?;
    refusals::schedule_refusal_of(tree.threads, schedule, schedule.len())?;
    // The tree takes at most 1 byte, 63 entries of 4, 2 bytes and 256 entries of 2.
    let mut measured = [0u8; 767];
    let length = writing::put_tree(&mut measured, tree) + 2 * schedule.len();
    if 65536 < length {
        return Err(Reason::FileTooLong.at(0));
    }
    if file.len() < length {
        return Err(Reason::FileShort.at(0));
    }
    let after_tree = writing::put_tree(file, tree);
    writing::put_schedule(file, after_tree, schedule);
    Ok(length as u32)
}

// Kept: the reply with a number that is 0 for success is the record of the definition `write_answer`.
// Writes the lock file at the front of a buffer; if refused, the buffer is unchanged.
pub fn write_file(tree: &TreeWords, schedule: &[u16], file: &mut [u8]) -> WriteReply
    ensures value { result ≡ write_answer tree.now schedule.now file.old }
    ensures file_after { file.new ≡ file_buffer_answer tree.now schedule.now file.old }
{
    match put_file(tree, schedule, file) {
        Ok(length) => WriteReply {
            number: 0,
            place: 0,
            length,
        },
        Err(refusal) => WriteReply {
            number: refusal.number(),
            place: refusal.place,
            length: 0,
        },
    }
}
