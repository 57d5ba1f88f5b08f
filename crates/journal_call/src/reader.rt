// The reader of a journal, document 02, (xiv): it holds the borrowed bytes and its position in them. The functions that read entries one by one are here too; `check_entries` uses one reader for the whole journal.
ghost use Rattle.std.specs.Prelude.{◌≡◌, cond, ◌+◌, ◌*◌, ◌≤◌, ◌<◌, eqb, length};
ghost use Rattle.journal.specs.Reading.{entry_size, entry_thread, entry_kind, entry_of, entry_at};
ghost use Rattle.journal_call.specs.Reader.Stretches.{position_after, piece_of, ReadOn, StoppedBefore};

use journal::Entry;
use refusals::reasons::Reason;

// A borrowed journal, a position in it, and the thread of the entry before the position.
#[derive(Clone, Copy)]
pub struct Reader<'a> {
    pub journal: &'a [u8],
    pub position: usize,
    pub before: u16,
}

// Consecutive entries: how many, the position after them, the thread of the last; and what refuses the entry at that position.
#[derive(Clone, Copy)]
pub struct Piece<R> {
    pub count: usize,
    pub position: usize,
    pub before: u16,
    pub refused: R,
}

pub fn two_bytes(low: u8, high: u8) -> u16
    ensures { result ≡ low + 256 * high }
{
    u16::from_le_bytes([low, high])
}

fn size_of(bits: u8) -> usize
    requires { bits ≤ 3 }
    ensures { result ≡ entry_size bits }
{
    match bits {
        0 => 1,
        1 => 3,
        2 => 2,
        _ => 4,
    }
}

// The given thread, or that of the entry before; by a product instead of a branch, which would be unpredictable.
fn thread_by(given: u16, there: u16, before: u16) -> u16
    requires { given ≤ 1 }
    ensures { result ≡ cond (eqb given 1) there before }
{
    given * there + (1 - given) * before
}

// The given kind, or 0.
fn kind_by(given: u8, there: u8) -> u8
    requires { given ≤ 1 }
    ensures { result ≡ cond (eqb given 1) there 0 }
{
    given * there
}

// Kept: the functions for one entry take bytes, position and thread one by one, since their callers move on entry by entry; a reader would be put together at each.
// The thread of an entry with this bit map, if four bytes are left, which is enough for any entry: every field is read, and those that the entry has are used.
pub fn thread_at(journal: &[u8], position: usize, before: u16, bits: usize) -> u16
    requires bits_bound { bits ≤ 3 }
    requires position_in_bounds { position + 4 ≤ length journal.now }
    ensures { result ≡ entry_thread journal.now position before bits }
{
    let there = two_bytes(journal[position + 1], journal[position + 2]);
    thread_by((bits % 2) as u16, there, before)
}

// The kind of such an entry.
pub fn kind_at(journal: &[u8], position: usize, bits: usize) -> u8
    requires bits_bound { bits ≤ 3 }
    requires position_in_bounds { position + 4 ≤ length journal.now }
    ensures { result ≡ entry_kind journal.now position bits }
{
    let at = position + (1 + 2 * (bits % 2));
    kind_by((bits / 2) as u8, journal[at])
}

// The entry with this bit map, if four bytes are left.
fn whole_entry(journal: &[u8], position: usize, before: u16, bits: usize) -> Entry
    requires bits_bound { bits ≤ 3 }
    requires position_in_bounds { position + 4 ≤ length journal.now }
    ensures { result ≡ entry_of journal.now position before bits }
{
    Entry::Named {
        thread: thread_at(journal, position, before, bits),
        kind: kind_at(journal, position, bits),
        next: position + (1 + 2 * (bits % 2) + bits / 2),
    }
}

// The entry at a position, given the thread of the entry before. All reading entry by entry uses this function.
pub fn read_entry(journal: &[u8], position: usize, before: u16) -> Entry
    ensures { result ≡ entry_at journal.now position before }
{
    if journal.len() <= position {
        return Entry::End;
    }
    let bits = journal[position];
    if 3 < bits {
        return Entry::Broken;
    }
    if 4 <= journal.len() - position {
        return whole_entry(journal, position, before, usize::from(bits));
    }
    if journal.len() - position < size_of(bits) {
        return Entry::Broken;
    }
    match bits {
        0 => Entry::Named {
            thread: before,
            kind: 0,
            next: position + 1,
        },
        1 => Entry::Named {
            thread: two_bytes(journal[position + 1], journal[position + 2]),
            kind: 0,
            next: position + 3,
        },
        2 => Entry::Named {
            thread: before,
            kind: journal[position + 1],
            next: position + 2,
        },
        _ => Entry::Named {
            thread: two_bytes(journal[position + 1], journal[position + 2]),
            kind: journal[position + 3],
            next: position + 4,
        },
    }
}

// A piece of its parts, whatever says what refuses the next entry: why, if at all, or a number.
pub fn stopped<R>(count: usize, position: usize, before: u16, refused: R) -> Piece<R>
    ensures { result ≡ piece_of count position before refused }
{
    Piece {
        count,
        position,
        before,
        refused,
    }
}

// Reads consecutive entries from the reader on into the arrays from one index up to another; up to the journal's end or the first entry that is refused.
pub fn read_some(
    reader: &Reader,
    known: u32,
    threads: &mut [u16],
    kinds: &mut [u8],
    from: usize,
    end: usize,
) -> Piece<Option<Reason>>
    requires from_le_end { from ≤ end }
    requires end_in_bounds { end ≤ length threads.old }
    requires end_in_bounds_2 { end ≤ length kinds.old }
    ensures read_on { ReadOn known reader.now.journal.now reader.now.position reader.now.before threads.old kinds.old from threads.new kinds.new result.count result.position result.before }
    ensures stopped_before { StoppedBefore known reader.now.journal.now end result }
{
    let mut at = reader.position;
    let mut last = reader.before;
    for count in from..end {
        match read_entry(reader.journal, at, last) {
            Entry::Named { thread, kind, next } => {
                if known <= u32::from(thread) {
                    return stopped(count, at, last, Some(Reason::BadEntry));
                }
                threads[count] = thread;
                kinds[count] = kind;
                at = next;
                last = thread;
            }
            Entry::Broken => return stopped(count, at, last, Some(Reason::JournalBroken)),
            Entry::End => return stopped(count, at, last, None),
        }
    }
    stopped(end, at, last, None)
}

// The position after a number of entries from the reader on; if there are fewer, after the last of them.
pub fn position_after(reader: &Reader, count: usize) -> usize
    ensures { result ≡ position_after count reader.now.journal.now reader.now.position reader.now.before }
{
    let mut at = reader.position;
    let mut last = reader.before;
    for _passed in 0..count {
        match read_entry(reader.journal, at, last) {
            Entry::Named {
                thread,
                kind: _,
                next,
            } => {
                at = next;
                last = thread;
            }
            Entry::Broken | Entry::End => return at,
        }
    }
    at
}
