// Four entries at a time, if four in a row have the same bit map: one thread alone, a thread that waits, threads that wait in turn. Their sizes are then known in advance, so that reading one does not depend on the one before.
ghost use Rattle.std.specs.Prelude.{◌≡◌, true, [], ◌∷◌, ◌+◌, ◌*◌, ◌≤◌, ◌<◌, length, get_or};
ghost use Rattle.std.proofs.lemmas.List.Edits.{sets};
ghost use Rattle.journal_call.specs.Reader.Stretches.{ReadOn};
ghost use Rattle.journal_call.specs.Pieces.Pieces.{AllAre, AllBelow, Fits, KindsGiven};

use crate::reader::{Piece, Reader, stopped, two_bytes};
use refusals::reasons::Reason;

// Whether four bytes are the same bit map, by a single comparison: separate comparisons would be unpredictable branches.
fn all_are(bits: u8, four: [u8; 4]) -> bool
    ensures { result ≡ true → AllAre bits four }
{
    u32::from_le_bytes(four) == u32::from_le_bytes([bits; 4])
}

// Four bytes from a position on, each a number of bytes after the one before.
fn four_at<const STRIDE: usize>(journal: &[u8], position: usize) -> [u8; 4]
    requires stride_bound { STRIDE ≤ 3 }
    requires position_in_bounds { position + 3 * STRIDE < length journal.now }
    ensures { result ≡ get_or journal.now position 0 ∷ get_or journal.now (position + STRIDE) 0 ∷ get_or journal.now (position + 2 * STRIDE) 0 ∷ get_or journal.now (position + 3 * STRIDE) 0 ∷ [] }
{
    [
        journal[position],
        journal[position + STRIDE],
        journal[position + 2 * STRIDE],
        journal[position + 3 * STRIDE],
    ]
}

fn all_known(known: u32, threads: [u16; 4]) -> bool
    ensures { result ≡ true → AllBelow known threads }
{
    threads.iter().all(|thread| u32::from(*thread) < known)
}

// Kept: four stores, since `copy_from_slice` of four values goes through the stack and tests for an overlap.
fn put_four<T: Copy>(elements: &mut [T], from: usize, a: T, b: T, c: T, d: T)
    requires { from + 4 ≤ length elements.old }
    ensures { elements.new ≡ sets elements.old from (a ∷ b ∷ c ∷ d ∷ []) }
{
    elements[from] = a;
    elements[from + 1] = b;
    elements[from + 2] = c;
    elements[from + 3] = d;
}

// Kept: here and in `reader` two arrays and an index go to each function: a struct of two mutable borrows would be built again for each call, and the contracts would still name both arrays.
// Four entries of the thread before that name a kind, or four of it that do not.
fn read_same(
    reader: &Reader,
    known: u32,
    threads: &mut [u16],
    kinds: &mut [u8],
    count: usize,
) -> Piece<Option<Reason>>
    requires fits { Fits 12 4 (length reader.now.journal.now) reader.now.position (length threads.old) (length kinds.old) count }
    requires before_lt_known { reader.now.before < known }
    ensures { ReadOn known reader.now.journal.now reader.now.position reader.now.before threads.old kinds.old count threads.new kinds.new result.count result.position result.before }
{
    let Reader {
        journal,
        position,
        before,
    } = *reader;
    if all_are(2, four_at::<2>(journal, position)) {
        // Kept: four reads, since `four_at` from the next byte would give an array that is taken apart again.
        let a = journal[position + 1];
        let b = journal[position + 3];
        let c = journal[position + 5];
        let d = journal[position + 7];
        put_four(threads, count, before, before, before, before);
        put_four(kinds, count, a, b, c, d);
        return stopped(count + 4, position + 8, before, None);
    }
    if all_are(0, four_at::<1>(journal, position)) {
        put_four(threads, count, before, before, before, before);
        put_four(kinds, count, 0, 0, 0, 0);
        return stopped(count + 4, position + 4, before, None);
    }
    stopped(count, position, before, None)
}

// Four entries that name threads and no kind.
fn read_others(
    reader: &Reader,
    known: u32,
    threads: &mut [u16],
    kinds: &mut [u8],
    count: usize,
) -> Piece<Option<Reason>>
    requires { Fits 12 4 (length reader.now.journal.now) reader.now.position (length threads.old) (length kinds.old) count }
    ensures { ReadOn known reader.now.journal.now reader.now.position reader.now.before threads.old kinds.old count threads.new kinds.new result.count result.position result.before }
{
    let Reader {
        journal,
        position,
        before,
    } = *reader;
    if all_are(1, four_at::<3>(journal, position)) {
        let a = two_bytes(journal[position + 1], journal[position + 2]);
        let b = two_bytes(journal[position + 4], journal[position + 5]);
        let c = two_bytes(journal[position + 7], journal[position + 8]);
        let d = two_bytes(journal[position + 10], journal[position + 11]);
        if all_known(known, [a, b, c, d]) {
            put_four(threads, count, a, b, c, d);
            put_four(kinds, count, 0, 0, 0, 0);
            return stopped(count + 4, position + 12, d, None);
        }
    }
    stopped(count, position, before, None)
}

// Whether sixteen entries of two bytes each have the bit map for a kind only.
fn kinds_given(journal: &[u8], position: usize) -> bool
    requires { position + 34 ≤ length journal.now }
    ensures { result ≡ true → KindsGiven 16 journal.now position }
{
    for k in 0..16usize {
        if journal[position + 2 * k] != 2 {
            return false;
        }
    }
    true
}

// Sixteen entries of the thread before that name a kind, as when it moves alone; else none.
fn read_sixteen(
    reader: &Reader,
    known: u32,
    threads: &mut [u16],
    kinds: &mut [u8],
    count: usize,
) -> Piece<Option<Reason>>
    requires fits { Fits 34 16 (length reader.now.journal.now) reader.now.position (length threads.old) (length kinds.old) count }
    requires before_lt_known { reader.now.before < known }
    ensures { ReadOn known reader.now.journal.now reader.now.position reader.now.before threads.old kinds.old count threads.new kinds.new result.count result.position result.before }
{
    let Reader {
        journal,
        position,
        before,
    } = *reader;
    if !kinds_given(journal, position) {
        return stopped(count, position, before, None);
    }
    for k in 0..16usize {
        threads[count + k] = before;
        kinds[count + k] = journal[position + (2 * k + 1)];
    }
    stopped(count + 16, position + 32, before, None)
}

// Whether the thread before is known, and enough bytes and elements are left for a number of entries.
fn fits<const BYTES: usize, const ENTRIES: usize>(
    reader: &Reader,
    known: u32,
    threads: &[u16],
    kinds: &[u8],
    count: usize,
) -> bool
    requires bytes_nonzero { 0 < BYTES }
    requires count_in_bounds { count ≤ length threads.now }
    requires count_in_bounds_2 { count ≤ length kinds.now }
    ensures before_lt_known { result ≡ true → reader.now.before < known }
    ensures fits { result ≡ true → Fits BYTES ENTRIES (length reader.now.journal.now) reader.now.position (length threads.now) (length kinds.now) count }
{
    u32::from(reader.before) < known
        && BYTES <= reader.journal.len().saturating_sub(reader.position)
        && ENTRIES <= threads.len() - count
        && ENTRIES <= kinds.len() - count
}

// Four such entries, stored from an index on, or none. Twelve bytes are enough for four entries of each bit map that is tested.
fn read_four(
    reader: &Reader,
    known: u32,
    threads: &mut [u16],
    kinds: &mut [u8],
    count: usize,
) -> Piece<Option<Reason>>
    requires count_in_bounds { count ≤ length threads.old }
    requires count_in_bounds_2 { count ≤ length kinds.old }
    ensures { ReadOn known reader.now.journal.now reader.now.position reader.now.before threads.old kinds.old count threads.new kinds.new result.count result.position result.before }
{
    if !fits::<12, 4>(reader, known, threads, kinds, count) {
        return stopped(count, reader.position, reader.before, None);
    }
    let same = read_same(reader, known, threads, kinds, count);
    if count < same.count {
        return same;
    }
    read_others(reader, known, threads, kinds, count)
}

// Sixteen such entries if enough bytes and elements are left, or none. Thirty-four bytes are enough for sixteen entries of two bytes and two more bytes, so that the last can be read like any entry.
fn read_many(
    reader: &Reader,
    known: u32,
    threads: &mut [u16],
    kinds: &mut [u8],
    count: usize,
) -> Piece<Option<Reason>>
    requires count_in_bounds { count ≤ length threads.old }
    requires count_in_bounds_2 { count ≤ length kinds.old }
    ensures { ReadOn known reader.now.journal.now reader.now.position reader.now.before threads.old kinds.old count threads.new kinds.new result.count result.position result.before }
{
    if !fits::<34, 16>(reader, known, threads, kinds, count) {
        return stopped(count, reader.position, reader.before, None);
    }
    read_sixteen(reader, known, threads, kinds, count)
}

// Sixteen or four entries with the same bit map, stored from an index on, or none. Four are read at only one place, so that the compiler inlines it there.
pub(crate) fn read_alike(
    reader: &Reader,
    known: u32,
    threads: &mut [u16],
    kinds: &mut [u8],
    count: usize,
) -> Piece<Option<Reason>>
    requires count_in_bounds { count ≤ length threads.old }
    requires count_in_bounds_2 { count ≤ length kinds.old }
    ensures { ReadOn known reader.now.journal.now reader.now.position reader.now.before threads.old kinds.old count threads.new kinds.new result.count result.position result.before }
{
    let many = read_many(reader, known, threads, kinds, count);
    if count < many.count {
        return many;
    }
    read_four(reader, known, threads, kinds, count)
}
