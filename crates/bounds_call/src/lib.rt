// The allowances of a tree's domains, and the rounds in which every thread enters.
#![tactic(auto)]

ghost use Rattle.std.specs.Prelude.{◌≡◌, ◌*◌, IfOk};
ghost use Rattle.model.specs.Trees.{tree_of};
ghost use Rattle.model.specs.Refusals.{tree_refusal};
ghost use Rattle.refusals.specs.Reasons.{refusal_of};
ghost use Rattle.bounds.specs.StarvationFreedom.Bounds.{everyone_bound};
ghost use Rattle.bounds.specs.Answers.{capped, allowances_answer, allowances_left, rounds_answer};

mod accepted_tree;
mod everyone;
mod members;
pub mod wait_bounds;

use bounds::RoundsReply;
use everyone::Rounds;
use members::Members;
use model::TreeWords;
use refusals::accepted_tree::AcceptedTree;
use refusals::reasons::Refusal;

// The allowances of an accepted tree, in a buffer for 64 domains; if refused, the buffer is unchanged.
pub fn allowances(tree: &TreeWords, buffer: &mut [u64; 64]) -> Result<(), Refusal>
    ensures value { refusal_of result ≡ allowances_answer tree.now }
    ensures buffer_after { buffer.new ≡ allowances_left tree.now buffer.old }
{
    *buffer = accepted_tree::allowances(&AcceptedTree::of(tree)?);
    Ok(())
}

// The rounds of an accepted tree, and how many turns these are in round robin.
fn rounds_of(tree: &TreeWords) -> Result<(u64, u64), Refusal>
    ensures refused { refusal_of result ≡ tree_refusal (tree_of tree.now) }
    ensures rounds { IfOk result (λ r. r.0 ≡ capped (everyone_bound (tree_of tree.now))) }
    ensures turns { IfOk result (λ r. r.1 ≡ capped (everyone_bound (tree_of tree.now) * tree.now.threads)) }
{
    let members = Members::of(AcceptedTree::of(tree)?);
    let everyone = Rounds::of(members).everyone();
    let turns = everyone.saturating_mul(u64::from(tree.threads));
    Ok((everyone, turns))
}

// In how many rounds of any fair schedule every thread enters, and how many turns these are in round robin.
pub fn rounds(tree: &TreeWords) -> RoundsReply
    ensures { result ≡ rounds_answer tree.now }
{
    match rounds_of(tree) {
        Ok((rounds, turns)) => RoundsReply {
            number: 0,
            place: 0,
            rounds,
            turns,
        },
        Err(refusal) => RoundsReply {
            number: refusal.number(),
            place: refusal.place,
            rounds: 0,
            turns: 0,
        },
    }
}
