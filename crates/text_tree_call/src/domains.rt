// Reading a tree by mutual recursion of domains and lists of domains; the number of levels left decreases.
ghost use Rattle.text_tree_call.specs.Inner.{RootRead, LeafRead, Begun, DomainRead, ListRead};

use crate::Stuck;
use crate::numbers::{byte_at, pass, read_count, read_threshold};
use crate::tree::{add_domain, add_threads, next_number, root_tree};
use model::TreeWords;

// After `#`: a thread count and the closing parenthesis.
fn read_leaf(text: &[u8], at: usize, tree: &mut TreeWords, domain: u8) -> Result<usize, Stuck>
    ensures { LeafRead text.now at tree.old domain result tree.new }
{
    let (end, count) = read_count(text, at)?;
    let after = pass(text, end, b')')?;
    add_threads(tree, domain, count);
    Ok(after)
}

// At the start of a domain: its threshold and its opening parenthesis.
fn begin_domain(text: &[u8], at: usize, tree: &mut TreeWords, parent: u8) -> Result<usize, Stuck>
    ensures { Begun text.now at tree.old parent result tree.new }
{
    let (end, threshold) = read_threshold(text, at)?;
    let inside = pass(text, end, b'(')?;
    add_domain(tree, parent, threshold);
    Ok(inside)
}

// A domain, from after its opening parenthesis to after its closing one; at most `left` levels are below it.
#[cycle(read_domain_read_list)]
fn read_domain(
    text: &[u8],
    at: usize,
    tree: &mut TreeWords,
    domain: u8,
    left: usize,
) -> Result<usize, Stuck>
    ensures { DomainRead text.now at tree.old domain left result tree.new }
{
    if byte_at(text, at) == b'#' {
        return read_leaf(text, at + 1, tree, domain);
    }
    if left == 0 {
        return Err(Stuck(at));
    }
    read_list(text, at, tree, domain, left - 1)
}

// The domains below a domain, with a space between two of them, up to after its closing parenthesis; at most `left` levels are below them.
#[cycle(read_domain_read_list)]
fn read_list(
    text: &[u8],
    start: usize,
    tree: &mut TreeWords,
    domain: u8,
    left: usize,
) -> Result<usize, Stuck>
    ensures { ListRead text.now start tree.old domain left result tree.new }
{
    let mut at = start;
    // Kept: how many domains a list has is known only at its closing parenthesis.
    loop {
        let number = next_number(tree.domains);
        let inside = begin_domain(text, at, tree, domain)?;
        let end = read_domain(text, inside, tree, number, left)?;
        match byte_at(text, end) {
            b' ' => at = end + 1,
            b')' => return Ok(end + 1),
            _ => return Err(Stuck(end)),
        }
    }
}

// The whole tree: the root has no threshold, and at most five levels are below it.
pub(crate) fn read_root(text: &[u8]) -> Result<TreeWords, Stuck>
    ensures { RootRead text.now result }
{
    let inside = pass(text, 0, b'(')?;
    let mut tree = root_tree();
    let end = read_domain(text, inside, &mut tree, 0, 5)?;
    if end == text.len() {
        return Ok(tree);
    }
    Err(Stuck(end))
}
