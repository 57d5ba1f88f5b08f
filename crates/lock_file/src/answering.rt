// What reading a lock file answers.
ghost use Rattle.std.specs.Prelude.{◌≡◌, ◌≤◌, length, IfOk};
ghost use Rattle.model.specs.Refusals.{refusal};
ghost use Rattle.refusals.specs.Reasons.{number_of};
ghost use Rattle.lock_file.specs.Reading.{refused, described, entries_at, filled};
ghost use Rattle.lock_file.specs.Answers.{bounded_read, no_tree, reading_reply, read_answer, schedule_answer};
ghost use Rattle.lock_file.specs.Results.{reading_from};

use crate::{ReadError, ReadReply, TreeRead};
use model::TreeWords;
use refusals::reasons::{Reason, Refusal};

// Kept: text_tree_call, a crate beside this one, has the same. Below both are `model`, which has types alone, and `refusals`, which makes no trees.
// A tree whose words are all 0.
#[tactic(auto, unfolding(crate::specs::Answers::no_tree))]
fn no_tree() -> TreeWords
    ensures { result ≡ no_tree }
{
    TreeWords {
        domains: 0,
        threads: 0,
        parents: [0; 64],
        thresholds: [0; 64],
        homes: [0; 256],
        ticket_root: 0,
    }
}

fn refused_by(r: Refusal) -> ReadReply
    ensures { result ≡ reading_reply (refused (refusal (number_of r.reason) r.place)) }
{
    ReadReply {
        number: r.number(),
        place: r.place,
        length: 0,
        tree: no_tree(),
    }
}

pub(crate) fn bounded_tree_of(file: &[u8]) -> Result<TreeRead, Refusal>
    ensures value { reading_from file.now result ≡ bounded_read file.now }
    ensures start_within { IfOk result (λ r. r.start ≤ length file.now) }
    ensures length_bound { IfOk result (λ r. length file.now ≤ 65536) }
{
    if 65536 < file.len() {
        return Err(Reason::FileTooLong.at(0));
    }
    let mut tree = no_tree();
    match crate::read_tree(file, &mut tree) {
        Ok(start) => Ok(TreeRead { tree, start }),
        Err(ReadError::FileCut) => Err(Reason::FileCut.at(file.len() as u32)),
        Err(ReadError::FileBit(at)) => Err(Reason::FileBit.at(at as u32)),
    }
}

// The reply for a tree whose schedule starts at a position.
fn described_at(file: &[u8], read: TreeRead, schedule: &mut [u16]) -> ReadReply
    requires start_in_bounds { read.start ≤ length file.now }
    requires file_len_bound { length file.now ≤ 65536 }
    ensures value { result ≡ reading_reply (described read.tree (entries_at file.now read.start)) }
    ensures schedule_after { schedule.new ≡ filled (entries_at file.now read.start) schedule.old }
{
    crate::read_schedule(file, read.start, schedule);
    ReadReply {
        number: 0,
        place: 0,
        length: ((file.len() - read.start) / 2) as u32,
        tree: read.tree,
    }
}

pub(crate) fn answer_file(file: &[u8], schedule: &mut [u16]) -> ReadReply
    ensures value { result ≡ read_answer file.now }
    ensures schedule_after { schedule.new ≡ schedule_answer file.now schedule.old }
{
    match bounded_tree_of(file) {
        Ok(read) => described_at(file, read, schedule),
        Err(r) => refused_by(r),
    }
}
