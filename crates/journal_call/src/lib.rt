// The check of a journal, document 02, (xiv): the tests of the tree, and then the entries.
#![tactic(auto)]

pub mod pieces;
pub mod reader;
pub mod step_check;

ghost use Rattle.std.specs.Prelude.{◌≡◌};
ghost use Rattle.journal.specs.Answers.{journal_answer};

mod journals;

use journal::JournalReply;
use model::TreeWords;

// The check of a journal: 0 if its threads, stepped one after another from a fresh lock, take steps of its kinds; else the number and the first byte of the first refused entry.
pub fn check_journal(tree: &TreeWords, journal: &[u8]) -> JournalReply
    ensures { result ≡ journal_answer tree.now journal.now }
{
    match journals::refusal_of(tree, journal) {
        Ok(()) => JournalReply {
            number: 0,
            place: 0,
        },
        Err(refused) => JournalReply {
            number: refused.reason.number(),
            place: refused.place,
        },
    }
}
