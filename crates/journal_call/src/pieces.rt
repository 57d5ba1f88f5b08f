// Pieces of a journal, as many entries as the buffers hold: entries with the same bit map several at a time, the others one by one. The result is the same as reading entry by entry; only the next position is known earlier.
ghost use Rattle.std.specs.Prelude.{◌≡◌, ◌+◌, ◌≤◌, ◌<◌, length};
ghost use Rattle.journal_call.specs.Reader.Stretches.{ReadOn, StoppedBefore};
ghost use Rattle.journal_call.specs.Pieces.Pieces.{PieceRead};

mod alike;
mod blocks;

use crate::reader::{Piece, Reader};
use refusals::reasons::Reason;

// Where the next entries that are read one by one end: a number of them after an index, or at the end of the arrays.
fn block_end(room: usize, count: usize, wanted: usize) -> usize
    requires count_lt_room { count < room }
    requires wanted_nonzero { (0 < wanted) × (wanted ≤ 32) }
    ensures lower_bound { (count < result) × (result ≤ count + 32) }
    ensures upper_bound { result ≤ room }
{
    count + wanted.min(room - count)
}

// Reads up to thirty-two entries from the reader on into the arrays from one index up to another, or up to the journal's end or the first entry that is refused; with a table of sizes if there are enough entries and bytes for it.
fn read_next(
    reader: &Reader,
    known: u32,
    threads: &mut [u16],
    kinds: &mut [u8],
    from: usize,
    end: usize,
) -> Piece<Option<Reason>>
    requires from_le_end { (from ≤ end) × (end ≤ from + 32) }
    requires end_in_bounds { end ≤ length threads.old }
    requires end_in_bounds_2 { end ≤ length kinds.old }
    ensures read_on { ReadOn known reader.now.journal.now reader.now.position reader.now.before threads.old kinds.old from threads.new kinds.new result.count result.position result.before }
    ensures stopped_before { StoppedBefore known reader.now.journal.now end result }
{
    if end < from + 32 || reader.journal.len().saturating_sub(reader.position) < 128 {
        return crate::reader::read_some(reader, known, threads, kinds, from, end);
    }
    blocks::read_block(reader, known, threads, kinds, from, end)
}

// Reads as many entries as the arrays hold from the reader on, up to the journal's end or the first entry that is refused; their threads and kinds go to the front of the arrays. Four or sixteen entries in a row with the same bit map are read at once, others one by one: four of them after such entries, since more may follow where a thread runs in bursts, and otherwise thirty-two.
pub fn read_piece(
    reader: &Reader,
    known: u32,
    threads: &mut [u16],
    kinds: &mut [u8],
) -> Piece<Option<Reason>>
    ensures { PieceRead known reader.now.journal.now reader.now.position reader.now.before threads.new kinds.new result }
{
    let room = threads.len().min(kinds.len());
    let mut count: usize = 0;
    let mut at = *reader;
    let mut wanted: usize = 4;
    // Kept: each turn moves on by as many entries as it read.
    while count < room {
        let alike = alike::read_alike(&at, known, threads, kinds, count);
        if count < alike.count {
            at.position = alike.position;
            at.before = alike.before;
            count = alike.count;
            wanted = 4;
            continue;
        }
        let end = block_end(room, count, wanted);
        wanted = 32;
        let some = read_next(&at, known, threads, kinds, count, end);
        if some.refused.is_some() {
            return some;
        }
        if reader.journal.len() <= some.position {
            return some;
        }
        at.position = some.position;
        at.before = some.before;
        count = some.count;
    }
    crate::reader::stopped(count, at.position, at.before, None)
}
