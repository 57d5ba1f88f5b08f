// The words of a tree while its text is read. Counts stop at one more than the limit; words beyond the arrays are not stored.
ghost use Rattle.std.specs.Prelude.{◌≡◌};
ghost use Rattle.text_tree.specs.Words.{no_words, root_words, new_number, domain_added, threads_added};

use model::TreeWords;

pub(crate) fn no_tree() -> TreeWords
    ensures { result ≡ no_words }
{
    TreeWords {
        domains: 0,
        threads: 0,
        parents: [0; 64],
        thresholds: [0; 64],
        homes: [0; 256],
        ticket_root: 0,
    }
}

// Only the root.
pub(crate) fn root_tree() -> TreeWords
    ensures { result ≡ root_words }
{
    TreeWords {
        domains: 1,
        ..no_tree()
    }
}

// The number of the domain that opens next.
pub(crate) fn next_number(domains: u32) -> u8
    ensures { result ≡ new_number domains }
{
    domains.min(64) as u8
}

// One more domain, below a parent.
pub(crate) fn add_domain(tree: &mut TreeWords, parent: u8, threshold: u16)
    ensures { tree.new ≡ domain_added tree.old parent threshold }
{
    tree.ticket_root = 0;
    if 64 <= tree.domains {
        tree.domains = 65;
        return;
    }
    let domain = tree.domains as usize;
    tree.parents[domain] = parent;
    tree.thresholds[domain] = threshold;
    tree.domains += 1;
}

// More threads, all with the same home.
pub(crate) fn add_threads(tree: &mut TreeWords, home: u8, count: u32)
    ensures { tree.new ≡ threads_added tree.old home count }
{
    let before = tree.threads.min(257);
    tree.threads = before + count.min(257 - before);
    let from = before.min(256) as usize;
    let end = tree.threads.min(256) as usize;
    tree.homes[from..end].fill(home);
    tree.ticket_root = 0;
}
