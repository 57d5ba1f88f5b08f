// Reading a lock file from left to right.
ghost use Rattle.std.specs.Prelude.{◌≡◌, ◌+◌, ◌*◌, ◌-◌, ◌/◌, ◌<◌, ◌≤◌, length};
ghost use Rattle.std.proofs.lemmas.List.Edits.{sets};
ghost use Rattle.lock_file.specs.Reading.{byte, two_bytes, field_end, entry_end, domain_size, domain_end, threshold_at, stored, domains_at, domains_from, thread_end, home_at, threads_at, threads_from, tree_at, tree_read, entries_from};
ghost use Rattle.lock_file.specs.Results.{reached_of};

use crate::ReadError;
use model::TreeWords;

// The byte at a position; 0 after the end of the file.
fn byte_at(file: &[u8], at: usize) -> u8
    ensures { result ≡ byte file.now at }
{
    file.get(at).copied().unwrap_or(0)
}

// The number in two bytes, low byte first.
fn two_bytes_at(file: &[u8], at: usize) -> u16
    requires { at ≤ length file.now }
    ensures { result ≡ two_bytes file.now at }
{
    u16::from_le_bytes([byte_at(file, at), byte_at(file, at + 1)])
}

// Kept: two tests in place of `saturating_sub`, after which the compiler tests each byte of the field once more.
// The position after a field or an entry of this size.
#[tactic(auto, unfolding(crate::specs::Reading::field_end))]
fn field_end_at(file: &[u8], at: usize, size: usize) -> Result<usize, ReadError>
    requires { 0 < size }
    ensures { reached_of result ≡ field_end file.now at size }
{
    if file.len() <= at || file.len() - at < size {
        return Err(ReadError::FileCut);
    }
    Ok(at + size)
}

// The position after an entry that starts with a bit map.
#[tactic(auto, unfolding(crate::specs::Reading::entry_end))]
fn entry_end_at(file: &[u8], largest: u8, at: usize, size: usize) -> Result<usize, ReadError>
    requires { 0 < size }
    ensures { reached_of result ≡ entry_end file.now largest at size }
{
    if file.len() <= at {
        return Err(ReadError::FileCut);
    }
    if largest < file[at] {
        return Err(ReadError::FileBit(at));
    }
    field_end_at(file, at, size)
}

#[tactic(auto, unfolding(crate::specs::Reading::domain_size))]
fn domain_size_of(map: u8) -> usize
    ensures { result ≡ domain_size map }
{
    1 + usize::from(map % 2) + 2 * usize::from(map / 2 % 2)
}

#[tactic(auto, unfolding(crate::specs::Reading::domain_end, crate::specs::Reading::domain_size))]
fn domain_end_at(file: &[u8], at: usize) -> Result<usize, ReadError>
    ensures { reached_of result ≡ domain_end file.now at }
{
    entry_end_at(file, 3, at, domain_size_of(byte_at(file, at)))
}

#[tactic(auto, unfolding(crate::specs::Reading::thread_end))]
fn thread_end_at(file: &[u8], at: usize) -> Result<usize, ReadError>
    ensures { reached_of result ≡ thread_end file.now at }
{
    entry_end_at(file, 1, at, 1 + usize::from(byte_at(file, at) % 2))
}

// The parent or the home that an entry gives by bit 0 of its map.
#[tactic(auto, unfolding(crate::specs::Reading::home_at))]
fn given_byte(file: &[u8], at: usize, absent: u8) -> u8
    requires { at < length file.now }
    ensures { result ≡ home_at file.now absent at }
{
    if file[at] % 2 == 1 {
        byte_at(file, at + 1)
    } else {
        absent
    }
}

#[tactic(auto, unfolding(crate::specs::Reading::threshold_at, crate::specs::Reading::domain_size))]
fn threshold_of(file: &[u8], at: usize) -> u16
    requires { at + domain_size (byte file.now at) ≤ length file.now }
    ensures { result ≡ threshold_at file.now at }
{
    let map = byte_at(file, at);
    if map / 2 % 2 == 1 {
        two_bytes_at(file, at + 1 + usize::from(map % 2))
    } else {
        16
    }
}

// Stores a word if the array is long enough.
#[tactic(auto, unfolding(crate::specs::Reading::stored))]
fn store<T: Copy, const N: usize>(words: &mut [T; N], at: usize, word: T)
    ensures { words.new ≡ stored N words.old at word }
{
    if at < N {
        words[at] = word;
    }
}

// The entries of the domains 1 to D - 1, from the byte after D.
fn read_domains(
    file: &[u8],
    domains: usize,
    parents: &mut [u8; 64],
    thresholds: &mut [u16; 64],
) -> Result<usize, ReadError>
    ensures { domains_at (reached_of result) parents.new thresholds.new ≡ domains_from file.now (domains - 1) 1 1 parents.old thresholds.old }
{
    let mut at = 1;
    for d in 1..domains {
        let next = domain_end_at(file, at)?;
        store(parents, d, given_byte(file, at, 0));
        store(thresholds, d, threshold_of(file, at));
        at = next;
    }
    Ok(at)
}

// The entries of the threads 0 to T - 1. Without a home in its entry, a thread has that of the thread before.
fn read_threads(
    file: &[u8],
    threads: usize,
    start: usize,
    homes: &mut [u8; 256],
) -> Result<usize, ReadError>
    ensures { threads_at (reached_of result) homes.new ≡ threads_from file.now threads 0 0 start homes.old }
{
    let mut home = 0;
    let mut at = start;
    for i in 0..threads {
        let next = thread_end_at(file, at)?;
        home = given_byte(file, at, home);
        store(homes, i, home);
        at = next;
    }
    Ok(at)
}

// The whole file: fills the tree as far as reading comes, and returns where the schedule starts. The schedule is the rest of the file, two bytes per entry.
pub(crate) fn tree_of(file: &[u8], tree: &mut TreeWords) -> Result<usize, ReadError>
    ensures { tree_at (reached_of result) tree.new ≡ tree_read file.now }
{
    let first = byte_at(file, 0);
    *tree = TreeWords {
        domains: u32::from(first % 128),
        threads: 0,
        parents: [0; 64],
        thresholds: [0; 64],
        homes: [0; 256],
        ticket_root: u32::from(first / 128),
    };
    if file.is_empty() {
        return Err(ReadError::FileCut);
    }
    let domains = usize::from(first % 128);
    let at = read_domains(file, domains, &mut tree.parents, &mut tree.thresholds)?;
    let threads = two_bytes_at(file, at);
    tree.threads = u32::from(threads);
    let after_count = field_end_at(file, at, 2)?;
    let start = read_threads(file, usize::from(threads), after_count, &mut tree.homes)?;
    if file.len().saturating_sub(start) % 2 == 1 {
        return Err(ReadError::FileCut);
    }
    Ok(start)
}

// The schedule's entries, at the front of a buffer.
pub(crate) fn read_entries(file: &[u8], start: usize, entries: usize, schedule: &mut [u16])
    requires entries_in_file { entries ≤ (length file.now - start) / 2 }
    requires entries_in_buffer { entries ≤ length schedule.old }
    ensures { schedule.new ≡ sets schedule.old 0 (entries_from file.now entries start) }
{
    for k in 0..entries {
        let at = start + 2 * k;
        schedule[k] = u16::from_le_bytes([file[at], file[at + 1]]);
    }
}
