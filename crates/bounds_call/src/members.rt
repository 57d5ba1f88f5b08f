// The members of a tree's domains: how many there are, and for each member the passes of the others in its domain.
ghost use Rattle.std.specs.Prelude.{◌≡◌, cond, ◌+◌, ◌-◌, ◌/◌, ◌<◌, ◌≤◌, ltb};
ghost use Rattle.model.specs.Trees.{tree_of};
ghost use Rattle.bounds.specs.LongestWait.Bounds.{effective};
ghost use Rattle.bounds_call.specs.Arrays.{Allowed};
ghost use Rattle.bounds_call.specs.Waits.{word_of, Counted, Before, Others};

use crate::accepted_tree;
use refusals::accepted_tree::AcceptedTree;

#[derive(Clone, Copy)]
pub(crate) struct Members<'a> {
    pub(crate) tree: AcceptedTree<'a>,
    // How many members each domain has.
    pub(crate) counts: [u64; 64],
    // For each member the passes of the others in its domain.
    pub(crate) others: [u64; 320],
    ghost counted: { Counted (tree_of tree.words.now) counts },
    ghost summed: { Others (tree_of tree.words.now) others },
}

impl<'a> Members<'a> {
    pub(crate) fn of(tree: AcceptedTree<'a>) -> Members<'a>
        ensures { result.tree.words.now ≡ tree.entry.words.now }
    {
        let counts = count_members(&tree);
        let passes = passes_of(&tree, &counts);
        let before = sums_before(&tree, &passes);
        let others = sums_of_others(&tree, &passes, &before);
        Members {
            tree,
            counts,
            others,
        }
    }
}

fn count_members(tree: &AcceptedTree) -> [u64; 64]
    ensures { Counted (tree_of tree.now.words.now) result }
{
    let mut counts = [0; 64];
    for m in 0..320 {
        if let Some(d) = accepted_tree::owner(tree, m) {
            counts[d] += 1;
        }
    }
    counts
}

// The effective threshold.
pub(crate) fn effective_of(threshold: u16, members: u64) -> u16
    ensures { result ≡ cond (ltb 1 members) threshold 1 }
{
    if 1 < members { threshold } else { 1 }
}

// The passes of each domain. A child's number is above its parent's, so the last domain comes first.
// Kept: the loop of `allowances` with another threshold; a function of both would take a closure, with a contract longer than the loop.
fn passes_of(tree: &AcceptedTree, counts: &[u64; 64]) -> [u64; 64]
    requires { Counted (tree_of tree.now.words.now) counts.now }
    ensures { Allowed (effective (tree_of tree.now.words.now)) result }
{
    let mut words = [0; 64];
    for d in (1..tree.words.domains as usize).rev() {
        let most = accepted_tree::largest_member(tree, &words, d);
        let threshold = effective_of(accepted_tree::threshold(tree, d), counts[d]);
        words[d] = u64::from(threshold).saturating_mul(most);
    }
    words
}

// The passes of a record, from those of the domains.
fn word_of(passes: &[u64; 64], m: usize) -> u64
    requires { m < 320 }
    ensures { result ≡ word_of passes.now m }
{
    if m < 256 { 1 } else { passes[m - 256] }
}

// Kept: the loop of `sums_of_others` from the first record up; the direction is all the difference, and each order has its own invariant.
// For each member the passes of those in its domain with a lower record.
fn sums_before(tree: &AcceptedTree, passes: &[u64; 64]) -> [u64; 320]
    requires { Allowed (effective (tree_of tree.now.words.now)) passes.now }
    ensures { Before (tree_of tree.now.words.now) result }
{
    let mut before = [0; 320];
    let mut sums = [0u64; 64];
    for m in 0..320 {
        if let Some(d) = accepted_tree::owner(tree, m) {
            before[m] = sums[d];
            sums[d] = sums[d].saturating_add(word_of(passes, m));
        }
    }
    before
}

// For each member the passes of the others in its domain: those before it, and those after it, summed from the last record down.
fn sums_of_others(tree: &AcceptedTree, passes: &[u64; 64], before: &[u64; 320]) -> [u64; 320]
    requires allowed { Allowed (effective (tree_of tree.now.words.now)) passes.now }
    requires before { Before (tree_of tree.now.words.now) before.now }
    ensures { Others (tree_of tree.now.words.now) result }
{
    let mut others = [0; 320];
    let mut sums = [0u64; 64];
    for m in (0..320).rev() {
        if let Some(d) = accepted_tree::owner(tree, m) {
            others[m] = before[m].saturating_add(sums[d]);
            sums[d] = sums[d].saturating_add(word_of(passes, m));
        }
    }
    others
}

// How many tenures of a domain a number of its members take.
pub(crate) fn tenures_of(members: u64, threshold: u16) -> u64
    requires members_bound { members ≤ 320 }
    requires threshold_nonzero { 0 < threshold }
    ensures { result ≡ (members + threshold - 1) / threshold }
{
    members.div_ceil(u64::from(threshold))
}
