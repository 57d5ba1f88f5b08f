// Up to thirty-two consecutive entries, with a table of sizes: the size of an entry that starts at each of 128 bytes is computed for all of them in advance, several at a time. The next position then depends only on one table lookup, not on a bit map and its decoding.
ghost use Rattle.std.specs.Prelude.{◌≡◌, ◌+◌, ◌≤◌, length};
ghost use Rattle.journal.specs.Reading.{entry_size};
ghost use Rattle.journal_call.specs.Reader.Stretches.{ReadOn, StoppedBefore};
ghost use Rattle.journal_call.specs.Pieces.Pieces.{SizesFrom};

use crate::reader::{Piece, Reader, stopped};
use refusals::reasons::Reason;

// The size of an entry with this byte as its bit map; any number if the byte is no bit map.
fn size_by(byte: u8) -> u8
    ensures { byte ≤ 3 → result ≡ entry_size byte }
{
    1 + 2 * (byte % 2) + (byte / 2) % 2
}

fn sizes_from(journal: &[u8], position: usize) -> [u8; 128]
    requires { position + 128 ≤ length journal.now }
    ensures { SizesFrom journal.now position 128 result }
{
    let mut sizes = [0u8; 128];
    for k in 0..128usize {
        sizes[k] = size_by(journal[position + k]);
    }
    sizes
}

// Reads entries from the reader on into the arrays from one index up to another, or up to the first entry that is refused.
pub(crate) fn read_block(
    reader: &Reader,
    known: u32,
    threads: &mut [u16],
    kinds: &mut [u8],
    from: usize,
    end: usize,
) -> Piece<Option<Reason>>
    requires position_in_bounds { reader.now.position + 128 ≤ length reader.now.journal.now }
    requires from_le_end { (from ≤ end) × (end ≤ from + 32) }
    requires end_in_bounds { end ≤ length threads.old }
    requires end_in_bounds_2 { end ≤ length kinds.old }
    ensures read_on { ReadOn known reader.now.journal.now reader.now.position reader.now.before threads.old kinds.old from threads.new kinds.new result.count result.position result.before }
    ensures stopped_before { StoppedBefore known reader.now.journal.now end result }
{
    let Reader {
        journal,
        position,
        before,
    } = *reader;
    let sizes = sizes_from(journal, position);
    let mut passed: usize = 0;
    let mut last = before;
    for count in from..end {
        let at = position + passed;
        let bits = journal[at];
        if 3 < bits {
            return stopped(count, at, last, Some(Reason::JournalBroken));
        }
        let map = usize::from(bits);
        let thread = crate::reader::thread_at(journal, at, last, map);
        if known <= u32::from(thread) {
            return stopped(count, at, last, Some(Reason::BadEntry));
        }
        threads[count] = thread;
        kinds[count] = crate::reader::kind_at(journal, at, map);
        passed += usize::from(sizes[passed]);
        last = thread;
    }
    stopped(end, position + passed, last, None)
}
