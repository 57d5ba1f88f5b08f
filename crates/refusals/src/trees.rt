// The tests of a tree, each giving the lowest place that fails it; quick tests of all domains and of all homes, and the tables that they need.
ghost use Rattle.std.specs.Prelude.{◌≡◌, false, not, get_or, ◌<◌, ◌≤◌};
ghost use Rattle.model.specs.Trees.{tree_of};
ghost use Rattle.model.specs.Refusals.{bad_parent, too_deep, no_threshold, bad_home};
ghost use Rattle.refusals.specs.Arrays.{Lower, DomainsPass, UnfitHomes, MarkedHomes, RealHomes, Occupied, HomesAreLeaves};
ghost use Rattle.refusals.specs.Lowest.{FindsLowest};

use model::TreeWords;

// A tree whose numbers of domains and threads 4 and 5 do not refuse.
#[derive(Clone, Copy)]
pub(crate) struct CountedTree<'a> {
    pub(crate) words: &'a TreeWords,
    ghost some_domain: { 0 < words.now.domains },
    ghost few_domains: { words.now.domains ≤ 64 },
    ghost few_threads: { words.now.threads ≤ 256 },
}

pub(crate) fn lowest_bad_parent(tree: &CountedTree) -> Option<u32>
    ensures { FindsLowest tree.now.words.now.domains (bad_parent (tree_of tree.now.words.now)) result }
{
    (1..tree.words.domains).find(|d| *d <= u32::from(tree.words.parents[*d as usize]))
}

// The level of a domain is one more than that of its parent, whose number is lower.
pub(crate) fn lowest_too_deep(tree: &CountedTree) -> Option<u32>
    requires { Lower tree.now.words.now.domains tree.now.words.now.parents }
    ensures { FindsLowest tree.now.words.now.domains (too_deep (tree_of tree.now.words.now)) result }
{
    let mut levels = [1u8; 64];
    for d in 1..tree.words.domains {
        let at = d as usize;
        let level = levels[usize::from(tree.words.parents[at])] + 1;
        if 6 < level {
            return Some(d);
        }
        levels[at] = level;
    }
    None
}

pub(crate) fn lowest_no_threshold(tree: &CountedTree) -> Option<u32>
    ensures { FindsLowest tree.now.words.now.domains (no_threshold (tree_of tree.now.words.now)) result }
{
    for d in 1..tree.words.domains {
        if tree.words.thresholds[d as usize] == 0 {
            return Some(d);
        }
    }
    None
}

// True only if no domain fails 6, 7 or 8, in one pass; otherwise the scans find which one does.
pub(crate) fn domains_pass(tree: &CountedTree) -> bool
    ensures { DomainsPass (tree_of tree.now.words.now) result }
{
    let mut levels = [1u8; 64];
    for d in 1..tree.words.domains {
        let at = d as usize;
        let parent = tree.words.parents[at];
        if d <= u32::from(parent) {
            return false;
        }
        let level = levels[usize::from(parent)] + 1;
        if 6 < level {
            return false;
        }
        if tree.words.thresholds[at] == 0 {
            return false;
        }
        levels[at] = level;
    }
    true
}

// For each byte, whether it is not a valid home: it is not a domain of the tree, or has child domains.
pub(crate) fn unfit_homes(tree: &CountedTree) -> [bool; 256]
    ensures { UnfitHomes tree.now.words.now.domains tree.now.words.now.parents result }
{
    let mut unfit = [true; 256];
    unfit[..tree.words.domains as usize].fill(false);
    for d in 1..tree.words.domains {
        let p = usize::from(tree.words.parents[d as usize]);
        unfit[p] = true;
    }
    unfit
}

pub(crate) fn lowest_bad_home(tree: &CountedTree, unfit: &[bool; 256]) -> Option<u32>
    requires { UnfitHomes tree.now.words.now.domains tree.now.words.now.parents unfit.now }
    ensures { FindsLowest tree.now.words.now.threads (bad_home (tree_of tree.now.words.now)) result }
{
    for i in 0..tree.words.threads {
        let h = usize::from(tree.words.homes[i as usize]);
        if unfit[h] {
            return Some(i);
        }
    }
    None
}

// For each byte, whether it is the home of some thread.
fn marked_homes(tree: &CountedTree) -> [bool; 256]
    ensures { MarkedHomes tree.now.words.now.threads tree.now.words.now.homes result }
{
    let mut marked = [false; 256];
    for i in 0..tree.words.threads {
        let h = usize::from(tree.words.homes[i as usize]);
        marked[h] = true;
    }
    marked
}

// True only if each byte is a home exactly if it is a leaf of the tree: then no home fails 9 and no domain fails 16. The fold has no early exit, so that the compiler can compare many bytes at once.
pub(crate) fn homes_are_leaves(tree: &CountedTree) -> bool
    ensures { HomesAreLeaves tree.now.words.now.domains tree.now.words.now.threads tree.now.words.now.parents tree.now.words.now.homes result }
{
    let marked = marked_homes(tree);
    let unfit = unfit_homes(tree);
    marked
        .iter()
        .zip(&unfit)
        .fold(true, |same, (m, u)| same & (*m != *u))
}

// For each domain, whether a thread is under it. Parents have lower numbers, so a loop from the highest domain down marks them.
pub(crate) fn occupied(tree: &CountedTree) -> [bool; 256]
    requires lower { Lower tree.now.words.now.domains tree.now.words.now.parents }
    requires real_homes { RealHomes tree.now.words.now.domains tree.now.words.now.threads tree.now.words.now.homes }
    ensures { Occupied (tree_of tree.now.words.now) result }
{
    let mut occupied = marked_homes(tree);
    for d in (1..tree.words.domains as usize).rev() {
        let p = usize::from(tree.words.parents[d]);
        if occupied[d] {
            occupied[p] = true;
        }
    }
    occupied
}

// The lowest domain that is not marked.
pub(crate) fn lowest_empty(occupied: &[bool; 256], domains: u32) -> Option<u32>
    requires { domains ≤ 64 }
    ensures { FindsLowest domains (λ d. not (get_or occupied.now d false)) result }
{
    (0..domains).find(|d| !occupied[*d as usize])
}
