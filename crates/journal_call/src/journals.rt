// The steps that a journal names, taken from a fresh lock, piece by piece: the entries of a piece are read, their threads stepped by the run's loop, and the reported kinds compared. One reader goes through the whole journal.
ghost use Rattle.std.specs.Prelude.{◌≡◌, true, ◌<◌, min, length, IfSome};
ghost use Rattle.model.specs.Trees.{tree_of};
ghost use Rattle.model.specs.Runs.{steps, run};
ghost use Rattle.model.specs.Counters.{lock_state, fresh_counters};
ghost use Rattle.model.specs.Refusals.{first_refusal, tree_refusal, run_tests_before_19};
ghost use Rattle.refusals.specs.Lowest.{Lowest, or_end};
ghost use Rattle.lock.specs.Steps.Running.{codes_front};
ghost use Rattle.journal_call.specs.Kinds.{other_kind, AllSameKinds};
ghost use Rattle.journal_call.specs.Journals.{refused_by, SoFar, Turned};
ghost use Rattle.journal.specs.Answers.{journal_refusal};

use crate::reader::Reader;
use model::{LockState, TreeWords};
use refusals::reasons::{Reason, Refusal};

// Kept: alike in `step_check::comparison` for 16-bit numbers; a generic contract would speak of a conversion by a bound, in place of a number.
// Whether all entries name the kinds that the run's loop reported. It looks at all of them, so that the compiler can compare many at once.
fn all_same_kinds(kinds: &[u8], codes: &[u16]) -> bool
    ensures { result ≡ true → AllSameKinds kinds.now codes.now (min (length kinds.now) (length codes.now)) }
{
    let mut same = true;
    for (kind, code) in kinds.iter().zip(codes) {
        same &= u16::from(*kind) == *code % 8;
    }
    same
}

// The first entry whose kind is not the one reported for its step; it is searched only if there is one.
fn first_other_kind(kinds: &[u8], codes: &[u16]) -> Option<usize>
    ensures lowest { Lowest (min (length kinds.now) (length codes.now)) (other_kind kinds.now codes.now) (or_end result (min (length kinds.now) (length codes.now))) }
    ensures inside { IfSome result (λ place. (place < length kinds.now) × (place < length codes.now)) }
{
    if all_same_kinds(kinds, codes) {
        return None;
    }
    kinds
        .iter()
        .zip(codes)
        .position(|(kind, code)| u16::from(*kind) != *code % 8)
}

// The steps of a piece's threads, each reported. The counters of the domains, which no step reads, start at 0 for each piece, so that no journal is too long for them.
fn run_piece(
    tree: &TreeWords,
    state: &mut LockState,
    threads: &[u16],
    trace: &mut [u16],
    codes: &mut [u16],
)
    requires { (first_refusal (run_tests_before_19 (tree_of tree.now) (lock_state state.old.words fresh_counters) threads.now (length trace.old))).number ≡ 0 }
    ensures words_after { state.new.words ≡ (run (tree_of tree.now) threads.now state.old.words).state }
    ensures codes_after { codes.new ≡ codes_front codes.old (steps (tree_of tree.now) threads.now state.old.words) }
{
    state.counters = lock::steps::fresh_counters();
    let mut kinds = [0u32; 6];
    lock::steps::run::run_lent(tree, state, threads, trace, &mut kinds, codes);
}

// What the entries of a piece are read into, and what the run's loop writes about their steps.
#[derive(Drop)]
struct Buffers {
    threads: [u16; 1024],
    kinds: [u8; 1024],
    trace: [u16; 1024],
    codes: [u16; 1024],
}

// Why an entry is refused, and the position of its first byte; it has as many bits as a length, more than a place of `refusals`.
#[derive(Clone, Copy)]
pub(crate) struct Refused {
    pub reason: Reason,
    pub place: usize,
}

impl From<Refusal> for Refused {
    ghost from_gives = { λ r e. e ≡ record { reason = r.reason; place = r.place } };

    fn from(refusal: Refusal) -> Refused {
        Refused {
            reason: refusal.reason,
            place: refusal.place as usize,
        }
    }
}

// The piece of a journal at the reader: its entries are read, their threads stepped, their kinds compared; the reader moves on past them.
fn check_piece(
    tree: &TreeWords,
    reader: &mut Reader,
    state: &mut LockState,
    buffers: &mut Buffers,
) -> Result<(), Refused>
    requires { SoFar tree.now reader.old.journal.now state.old.words reader.old.position reader.old.before }
    ensures journal_unchanged { reader.new.journal.now ≡ reader.old.journal.now }
    ensures turned { Turned tree.now reader.old.journal.now reader.old.position result state.new.words reader.new.position reader.new.before }
{
    let piece = crate::pieces::read_piece(
        reader,
        tree.threads,
        &mut buffers.threads,
        &mut buffers.kinds,
    );
    run_piece(
        tree,
        state,
        &buffers.threads[..piece.count],
        &mut buffers.trace,
        &mut buffers.codes,
    );
    let kinds = &buffers.kinds[..piece.count];
    if let Some(same) = first_other_kind(kinds, &buffers.codes[..piece.count]) {
        let place = crate::reader::position_after(reader, same);
        return Err(Refused {
            reason: Reason::OtherKind,
            place,
        });
    }
    reader.position = piece.position;
    reader.before = piece.before;
    match piece.refused {
        Some(reason) => Err(Refused {
            reason,
            place: piece.position,
        }),
        None => Ok(()),
    }
}

// The entries of a journal: one reader goes through it piece by piece, each from the state that the one before it left.
fn check_entries(tree: &TreeWords, journal: &[u8]) -> Result<(), Refused>
    requires { (tree_refusal (tree_of tree.now)).number ≡ 0 }
    ensures { refused_by result ≡ journal_refusal tree.now journal.now }
{
    let mut state = lock::steps::fresh(0);
    let mut buffers = Buffers {
        threads: [0; 1024],
        kinds: [0; 1024],
        trace: [0; 1024],
        codes: [0; 1024],
    };
    let mut reader = Reader {
        journal,
        position: 0,
        before: 0,
    };
    // Kept: how many pieces a journal has is known only at its end, so no `for` counts them.
    while reader.position < journal.len() {
        check_piece(tree, &mut reader, &mut state, &mut buffers)?;
    }
    Ok(())
}

// What refuses a journal: a test of the tree, or an entry.
pub(crate) fn refusal_of(tree: &TreeWords, journal: &[u8]) -> Result<(), Refused>
    ensures { refused_by result ≡ journal_refusal tree.now journal.now }
{
    refusals::tree_refusal_of(tree)?;
    check_entries(tree, journal)
}
