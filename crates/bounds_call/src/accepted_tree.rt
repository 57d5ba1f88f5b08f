// What is read from the arrays of a tree that a fresh lock accepts.
ghost use Rattle.std.specs.Prelude.{◌≡◌, cond, ◌<◌, ◌≤◌, get_or};
ghost use Rattle.model.specs.Scans.{any_below, largest_below};
ghost use Rattle.model.specs.Trees.{tree_of, is_child, is_leaf, level};
ghost use Rattle.bounds.specs.StarvationFreedom.Bounds.{levels};
ghost use Rattle.bounds.specs.Answers.{allowance_word, words_from};
ghost use Rattle.bounds_call.specs.Waits.{Owned};

use refusals::accepted_tree::AcceptedTree;

// A word of an array. As the result of a call it is known to have 16 bits.
fn word_at(words: &[u16; 64], d: usize) -> u16
    requires { d < 64 }
    ensures { result ≡ get_or words.now d 0 }
{
    words[d]
}

fn is_child(tree: &AcceptedTree, d: usize, c: usize) -> bool
    requires { c < tree.now.words.now.domains }
    ensures { result ≡ is_child (tree_of tree.now.words.now) d c }
{
    c != 0 && usize::from(tree.words.parents[c]) == d
}

fn has_child(tree: &AcceptedTree, d: usize) -> bool
    ensures { result ≡ any_below tree.now.words.now.domains (is_child (tree_of tree.now.words.now) d) }
{
    for c in 0..tree.words.domains as usize {
        if is_child(tree, d, c) {
            return true;
        }
    }
    false
}

// The largest word of a domain's members; 1 for a leaf, whose members are threads.
pub(crate) fn largest_member(tree: &AcceptedTree, words: &[u64; 64], d: usize) -> u64
    ensures { let t = tree_of tree.now.words.now in
        result ≡ cond (is_leaf t d) 1 (largest_below t.domains (λ c. cond (is_child t d c) (get_or words.now c 0) 0)) }
{
    if !has_child(tree, d) {
        return 1;
    }
    let mut most: u64 = 0;
    for c in 0..tree.words.domains as usize {
        if is_child(tree, d, c) {
            most = most.max(words[c]);
        }
    }
    most
}

// The threshold of a domain other than the root.
pub(crate) fn threshold(tree: &AcceptedTree, d: usize) -> u16
    requires no_root { 0 < d }
    requires d_lt_domains { d < tree.now.words.now.domains }
    ensures is { result ≡ (tree_of tree.now.words.now).threshold d }
    ensures some { 0 < result }
{
    word_at(&tree.words.thresholds, d)
}

// The allowances of the domains. A child's number is above its parent's, so the last domain comes first.
pub(crate) fn allowances(tree: &AcceptedTree) -> [u64; 64]
    ensures { result ≡ words_from (allowance_word (tree_of tree.now.words.now)) 64 0 }
{
    let mut words = [0; 64];
    for d in (1..tree.words.domains as usize).rev() {
        let most = largest_member(tree, &words, d);
        words[d] = u64::from(threshold(tree, d)).saturating_mul(most);
    }
    words
}

// The level of a domain, found by going up to the root.
pub(crate) fn level(tree: &AcceptedTree, d: usize) -> u64
    requires { d < tree.now.words.now.domains }
    ensures { (result ≡ level (tree_of tree.now.words.now) d) × (result ≤ 6) }
{
    let mut n = 1;
    let mut x = d;
    // Kept: the climb ends at the root, which no range names.
    while x != 0 {
        x = usize::from(tree.words.parents[x]);
        n += 1;
    }
    n
}

// How many levels the tree has.
pub(crate) fn levels(tree: &AcceptedTree) -> u64
    ensures { (result ≡ levels (tree_of tree.now.words.now)) × (result ≤ 6) }
{
    let mut most: u64 = 0;
    for d in 0..tree.words.domains as usize {
        most = most.max(level(tree, d));
    }
    most
}

// The domain of the member that owns a record, if a member does.
pub(crate) fn owner(tree: &AcceptedTree, m: usize) -> Option<usize>
    requires { m < 320 }
    ensures { Owned (tree_of tree.now.words.now) m result }
{
    if m < tree.words.threads as usize {
        return Some(usize::from(tree.words.homes[m]));
    }
    if 256 < m && m - 256 < tree.words.domains as usize {
        return Some(usize::from(tree.words.parents[m - 256]));
    }
    None
}
