// Why a thread waits: the chain of threads that it waits for, starting with itself.
#![tactic(auto)]

ghost use Rattle.std.specs.Prelude.{◌≡◌, IfOk, length};
ghost use Rattle.model.specs.Trees.{tree_of};
ghost use Rattle.refusals.specs.Reasons.{refusal_of};
ghost use Rattle.chain.specs.Chain.{chain};
ghost use Rattle.chain.specs.Answers.{chain_refusal, chain_answer, buffer_answer};

mod links;
mod tables;

use chain::ChainReply;
use model::{LockState, TreeWords};
use refusals::of_runs;
use refusals::reasons::{Reason, Refusal};
use tables::{Lock, Tables};

// The length of a thread's chain, which is left at the front of a buffer.
fn chain_length(
    tree: &TreeWords,
    state: &LockState,
    thread: u16,
    buffer: &mut [u16],
) -> Result<u32, Refusal>
    ensures refused { refusal_of result ≡ chain_refusal (tree_of tree.now) state.now thread (length buffer.old) }
    ensures length { IfOk result (λ n. n ≡ length (chain (tree_of tree.now) state.now.words thread)) }
    ensures buffer_after { buffer.new ≡ buffer_answer tree.now state.now thread buffer.old }
{
    of_runs::lent_refusal_of(tree, state, &[thread], 1)?;
    if buffer.len() < tree.threads as usize {
        return Err(Reason::ChainShort.at(0));
    }
    let lock = Lock {
        tree,
        state: &state.words,
    };
    let mut found = [0; 256];
    match Tables::of(&lock).follow(&lock, thread, &mut found) {
        Some(n) => {
            buffer[..n].copy_from_slice(&found[..n]);
            Ok(n as u32)
        }
        None => Err(Reason::NoChain.at(0)),
    }
}

// Kept: the reply with a number that is 0 for success is the record of the definition `chain_answer`.
// The chain of a thread at the front of a buffer, whose rest is unchanged; if refused, the whole buffer is unchanged.
pub fn chain(tree: &TreeWords, state: &LockState, thread: u16, buffer: &mut [u16]) -> ChainReply
    ensures value { result ≡ chain_answer tree.now state.now thread buffer.old }
    ensures buffer_after { buffer.new ≡ buffer_answer tree.now state.now thread buffer.old }
{
    match chain_length(tree, state, thread, buffer) {
        Ok(length) => ChainReply {
            number: 0,
            place: 0,
            length,
        },
        Err(refusal) => ChainReply {
            number: refusal.number(),
            place: refusal.place,
            length: 0,
        },
    }
}
