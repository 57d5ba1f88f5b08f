// Writes a lock file from left to right, into a buffer that is long enough.
ghost use Rattle.std.specs.Prelude.{◌≡◌, ◌+◌, ◌*◌, ◌<◌, ◌≤◌, [], ◌∷◌, length};
ghost use Rattle.std.proofs.lemmas.List.Edits.{sets};
ghost use Rattle.model.specs.Trees.{tree_of};
ghost use Rattle.lock_file.specs.FileWriter.Writing.{low_first_bytes, written_domain, domains_of, written_thread, threads_of, written_schedule, first_byte, written_tree};
ghost use Rattle.file_calls.specs.Writers.{written};

use model::TreeWords;

// The threshold of a domain without a threshold field.
const ABSENT_THRESHOLD: u16 = 16;

// A buffer, and the position of the next byte to write.
#[derive(Drop)]
struct Writer<'a> {
    buffer: &'a mut [u8],
    at: usize,
}

impl Writer<'_> {
    fn put_byte(&mut self, value: u8)
        requires { self.old.at + 1 ≤ length self.old.buffer.now }
        ensures { self.new ≡ written self.old (value ∷ []) }
    {
        self.buffer[self.at] = value;
        self.at += 1;
    }

    // Writes a number in two bytes, low byte first.
    fn put_two_bytes(&mut self, value: u16)
        requires { self.old.at + 2 ≤ length self.old.buffer.now }
        ensures { self.new ≡ written self.old (low_first_bytes value) }
    {
        self.buffer[self.at..self.at + 2].copy_from_slice(&value.to_le_bytes());
        self.at += 2;
    }

    // Kept: one branch for each of the four kinds of entry, as in the definition `written_domain`.
    // Writes a domain's entry, with a bit set only if a value differs from its default.
    fn put_domain(&mut self, parent: u8, threshold: u16)
        requires { self.old.at + length (written_domain parent threshold) ≤ length self.old.buffer.now }
        ensures { self.new ≡ written self.old (written_domain parent threshold) }
    {
        if parent == 0 {
            if threshold == ABSENT_THRESHOLD {
                self.put_byte(0);
                return;
            }
            self.put_byte(2);
            self.put_two_bytes(threshold);
            return;
        }
        if threshold == ABSENT_THRESHOLD {
            self.put_byte(1);
            self.put_byte(parent);
            return;
        }
        self.put_byte(3);
        self.put_byte(parent);
        self.put_two_bytes(threshold);
    }

    // Writes the entries of the domains 1 to D - 1.
    fn put_domains(&mut self, tree: &TreeWords)
        requires domains_nonzero { (0 < tree.now.domains) × (tree.now.domains ≤ 64) }
        requires domains_in_bounds { self.old.at + length (domains_of (tree_of tree.now)) ≤ length self.old.buffer.now }
        ensures { self.new ≡ written self.old (domains_of (tree_of tree.now)) }
    {
        for d in 1..tree.domains as usize {
            self.put_domain(tree.parents[d], tree.thresholds[d]);
        }
    }

    // Writes a thread's entry, with a home only if it is not that of the thread before.
    fn put_thread(&mut self, before: u8, home: u8)
        requires { self.old.at + length (written_thread before home) ≤ length self.old.buffer.now }
        ensures { self.new ≡ written self.old (written_thread before home) }
    {
        if home == before {
            self.put_byte(0);
            return;
        }
        self.put_two_bytes(u16::from_le_bytes([1, home]));
    }

    // Writes the entries of the threads 0 to T - 1.
    fn put_threads(&mut self, tree: &TreeWords)
        requires threads_bound { tree.now.threads ≤ 256 }
        requires threads_in_bounds { self.old.at + length (threads_of (tree_of tree.now)) ≤ length self.old.buffer.now }
        ensures { self.new ≡ written self.old (threads_of (tree_of tree.now)) }
    {
        let mut before = 0;
        for i in 0..tree.threads as usize {
            self.put_thread(before, tree.homes[i]);
            before = tree.homes[i];
        }
    }
}

// D in a byte, with 128 more for a ticket root.
fn first_byte_of(tree: &TreeWords) -> u8
    requires { tree.now.domains ≤ 64 }
    ensures { result ≡ first_byte (tree_of tree.now) }
{
    let domains = tree.domains as u8;
    if tree.ticket_root == 0 {
        domains
    } else {
        domains + 128
    }
}

// Writes the tree at the front of a buffer; returns its length.
pub(crate) fn put_tree(buffer: &mut [u8], tree: &TreeWords) -> usize
    requires domains_nonzero { (0 < tree.now.domains) × (tree.now.domains ≤ 64) }
    requires threads_bound { tree.now.threads ≤ 256 }
    requires tree_in_bounds { length (written_tree (tree_of tree.now)) ≤ length buffer.old }
    ensures value { result ≡ length (written_tree (tree_of tree.now)) }
    ensures buffer_after { buffer.new ≡ sets buffer.old 0 (written_tree (tree_of tree.now)) }
{
    let mut writer = Writer { buffer, at: 0 };
    writer.put_byte(first_byte_of(tree));
    writer.put_domains(tree);
    writer.put_two_bytes(tree.threads as u16);
    writer.put_threads(tree);
    writer.at
}

// Writes the schedule at a position, two bytes per entry.
pub(crate) fn put_schedule(buffer: &mut [u8], start: usize, schedule: &[u16])
    requires { start + 2 * length schedule.now ≤ length buffer.old }
    ensures { buffer.new ≡ sets buffer.old start (written_schedule schedule.now) }
{
    let mut writer = Writer { buffer, at: start };
    for i in schedule {
        writer.put_two_bytes(*i);
    }
}
