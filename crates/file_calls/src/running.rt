// The file call.
mod calling;

ghost use Rattle.std.specs.Prelude.{◌≡◌};
ghost use Rattle.lock_file.specs.FileAnswers.FileAnswers.{file_answer, output_answer};

use lock_file::file_answers::FileReply;

// Kept: the reply with a number that is 0 for success is the record of the definition `file_answer`.
// The file call: reads the lock file, runs its schedule from a fresh lock, and writes the listing.
pub fn run_file(file: &[u8], output: &mut [u8]) -> FileReply
    ensures value { result ≡ file_answer file.now output.old }
    ensures output_after { output.new ≡ output_answer file.now output.old }
{
    match calling::run_listed(file, output) {
        Ok(length) => FileReply {
            number: 0,
            place: 0,
            length,
        },
        Err(refusal) => FileReply {
            number: refusal.number(),
            place: refusal.place,
            length: 0,
        },
    }
}
