// A tree that a fresh lock accepts, as the calls above read it.
ghost use Rattle.std.specs.Prelude.{◌≡◌, ◌≤◌, IfOk};
ghost use Rattle.model.specs.Trees.{tree_of};
ghost use Rattle.model.specs.Refusals.{tree_refusal};
ghost use Rattle.refusals.specs.Reasons.{refusal_of};

use crate::reasons::Refusal;
use model::TreeWords;

#[derive(Clone, Copy)]
pub struct AcceptedTree<'a> {
    pub words: &'a TreeWords,
    ghost accepted: { (tree_refusal (tree_of words.now)).number ≡ 0 },
    ghost few_domains: { words.now.domains ≤ 64 },
    ghost few_threads: { words.now.threads ≤ 256 },
}

impl<'a> AcceptedTree<'a> {
    // The tree, if a fresh lock accepts it.
    pub fn of(tree: &'a TreeWords) -> Result<AcceptedTree<'a>, Refusal>
        ensures refused { refusal_of result ≡ tree_refusal (tree_of tree.now) }
        ensures words { IfOk result (λ accepted. accepted.words.now ≡ tree.now) }
    {
        crate::tree_refusal_of(tree)?;
        Ok(AcceptedTree { words: tree })
    }
}
