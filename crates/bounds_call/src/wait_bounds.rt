// W of every thread: what the domains above add, from the root down, and the passes of the others in the thread's home.
ghost use Rattle.std.specs.Prelude.{◌≡◌, ◌<◌};
ghost use Rattle.model.specs.Trees.{tree_of};
ghost use Rattle.refusals.specs.Reasons.{refusal_of};
ghost use Rattle.bounds.specs.Answers.{capped, words_from, wait_word, wait_bounds_answer, wait_bounds_left};
ghost use Rattle.bounds_call.specs.Waits.{added_above, Above};

use crate::accepted_tree;
use crate::members::{Members, tenures_of};
use model::TreeWords;
use refusals::accepted_tree::AcceptedTree;
use refusals::reasons::Refusal;

// W of every thread of an accepted tree, in a buffer for 256 threads; if refused, the buffer is unchanged.
pub fn wait_bounds(tree: &TreeWords, buffer: &mut [u64; 256]) -> Result<(), Refusal>
    ensures value { refusal_of result ≡ wait_bounds_answer tree.now }
    ensures buffer_after { buffer.new ≡ wait_bounds_left tree.now buffer.old }
{
    let members = Members::of(AcceptedTree::of(tree)?);
    *buffer = members.waits();
    Ok(())
}

impl Members<'_> {
    // What a domain adds to the wait of each of its members, given what its parent adds.
    fn added_above(&self, above: &[u64; 64], d: usize) -> u64
        requires d_lt_domains { d < self.now.tree.words.now.domains }
        requires above { Above (tree_of self.now.tree.words.now) d above.now }
        ensures { result ≡ capped (added_above (tree_of self.now.tree.words.now) d) }
    {
        if d == 0 {
            return 0;
        }
        let parent = usize::from(self.tree.words.parents[d]);
        let own = self.others[256 + d].saturating_add(above[parent]);
        tenures_of(self.counts[d], accepted_tree::threshold(&self.tree, d)).saturating_mul(own)
    }

    // What each domain adds. A parent's number is lower, so the root comes first.
    fn all_added_above(&self) -> [u64; 64]
        ensures { Above (tree_of self.now.tree.words.now) self.now.tree.words.now.domains result }
    {
        let mut above = [0; 64];
        for d in 0..self.tree.words.domains as usize {
            above[d] = self.added_above(&above, d);
        }
        above
    }

    // W of each thread; 0 in unused slots.
    fn waits(&self) -> [u64; 256]
        ensures { result ≡ words_from (wait_word (tree_of self.now.tree.words.now)) 256 0 }
    {
        let above = self.all_added_above();
        let mut waits = [0; 256];
        for i in 0..self.tree.words.threads as usize {
            let home = usize::from(self.tree.words.homes[i]);
            waits[i] = self.others[i].saturating_add(above[home]);
        }
        waits
    }
}
