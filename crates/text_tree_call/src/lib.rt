// Trees as text: the reader of document 02, (i).
#![tactic(auto)]

mod domains;
mod numbers;
mod tree;

ghost use Rattle.std.specs.Prelude.{◌≡◌};
ghost use Rattle.refusals.specs.Reasons.{number_of};
ghost use Rattle.text_tree.specs.Answers.{text_answer, refused_by, counted_reply};

use model::TreeWords;
use refusals::reasons::Reason;
use text_tree::TextReply;

// Reading stopped at the byte of this position: no text continues with it.
#[derive(Clone, Copy, PartialEq, Eq, Debug)]
pub(crate) struct Stuck(usize);

fn refusal_reply(reason: Reason, place: usize) -> TextReply
    ensures { result ≡ refused_by (number_of reason) place }
{
    TextReply {
        number: reason.number(),
        place,
        tree: tree::no_tree(),
    }
}

// Too many domains, then too many threads, then the tree.
fn tree_reply(read: TreeWords) -> TextReply
    ensures { result ≡ counted_reply read }
{
    if 64 < read.domains {
        return refusal_reply(Reason::BadDomains, 0);
    }
    if 256 < read.threads {
        return refusal_reply(Reason::BadThreads, 0);
    }
    TextReply {
        number: 0,
        place: 0,
        tree: read,
    }
}

// Reads a tree from the whole text, with nothing before it and nothing after it.
pub fn read_text(text: &[u8]) -> TextReply
    ensures { result ≡ text_answer text.now }
{
    match domains::read_root(text) {
        Ok(tree) => tree_reply(tree),
        Err(Stuck(place)) => refusal_reply(Reason::TextWrong, place),
    }
}
