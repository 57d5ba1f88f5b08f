// Many schedules in one call: what refuses the whole call, 4 to 9 and 16, then 22 and 23; and the rows.
ghost use Rattle.std.specs.Prelude.{◌≡◌, ℕ, eqb, length};
ghost use Rattle.model.specs.Trees.{tree_of};
ghost use Rattle.refusals.specs.Reasons.{refusal_of};
ghost use Rattle.schedules.specs.Rows.{total};
ghost use Rattle.schedules.specs.Refusals.{many_refusal};
ghost use Rattle.schedules.specs.Answers.{many_reply, rows_answer};

mod many;

use model::TreeWords;
use refusals::accepted_tree::AcceptedTree;
use refusals::reasons::{Reason, Refusal};
use schedules::ManyReply;

// Whether the lengths add up to the number of entries. The lengths are subtracted from it, so that no sum can wrap.
fn adds_up(lengths: &[u32], entries: usize) -> bool
    ensures { result ≡ eqb (total lengths.now) entries }
{
    let mut left = entries;
    for n in lengths {
        match left.checked_sub(*n as usize) {
            Some(rest) => left = rest,
            None => return false,
        }
    }
    left == 0
}

// 4 to 9 and 16, then 22, then 23, the tests of the whole call.
pub fn many_refusal_of(
    tree: &TreeWords,
    lengths: &[u32],
    entries: usize,
    room: usize,
) -> Result<(), Refusal>
    ensures { refusal_of result ≡ many_refusal (tree_of tree.now) lengths.now entries room }
{
    refusals::tree_refusal_of(tree)?;
    if !adds_up(lengths, entries) {
        return Err(Reason::LengthsWrong.at(0));
    }
    if room / 8 < lengths.len() {
        return Err(Reason::RowsShort.at(0));
    }
    Ok(())
}

// Many schedules, whose entries follow one another: each runs from its own fresh lock, and its row of eight numbers goes to the front of the rows. If the whole call is refused, the rows are unchanged.
pub fn run_many(tree: &TreeWords, lengths: &[u32], entries: &[u16], rows: &mut [u32]) -> ManyReply
    ensures value { result ≡ many_reply tree.now lengths.now entries.now rows.old }
    ensures rows_after { rows.new ≡ rows_answer tree.now lengths.now entries.now rows.old }
{
    match many_refusal_of(tree, lengths, entries.len(), rows.len()) {
        Ok(()) => {
            let accepted = AcceptedTree { words: tree };
            let mut trace = [0u16; 65536];
            many::run_rows(&accepted, lengths, entries, &mut trace, rows);
            ManyReply {
                number: 0,
                place: 0,
                rows: lengths.len(),
            }
        }
        Err(refusal) => ManyReply {
            number: refusal.number(),
            place: refusal.place,
            rows: 0,
        },
    }
}
