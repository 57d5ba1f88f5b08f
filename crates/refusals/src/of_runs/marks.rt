// Which threads need a test of their place. Marks are computed for 32 threads at once, without an early exit, so that the compiler can compare many numbers at once.
// Kept: a mark is a number, not a Boolean, for the same reason.
ghost use Rattle.std.specs.Prelude.{◌≡◌, ◌&&◌, ◌+◌, ◌≤◌, eqb};
ghost use Rattle.refusals.specs.OfRuns.Tables.{zeros_between, row_rests_in, RestMarks};

use crate::of_runs::unused;
use model::PlaceArrays;

// 0 if the row and the domain of a place are those of a thread that rests.
#[tactic(auto, using(crate::proofs::of_runs::Marking::idle_mark, crate::proofs::of_runs::Marking::other_mark))]
fn row_mark(resting: u8, home: u8, row: u8, domain: u8) -> u8
    ensures { eqb result 0 ≡ row_rests_in resting home row domain }
{
    if row | domain == 0 {
        return 0;
    }
    (row ^ resting) | (domain ^ home)
}

// 0 if none of 32 threads has a record or a word in its place.
fn part_mark(from: usize, places: &PlaceArrays) -> u8
    requires { from + 32 ≤ 256 }
    ensures { eqb result 0 ≡ zeros_between from (from + 32) places.now.peers && zeros_between from (from + 32) places.now.words }
{
    let to = from + 32;
    if unused::are_zero_halves(&places.peers, from, to)
        && unused::are_zero_words(&places.words, from, to)
    {
        return 0;
    }
    1
}

// The marks of 32 threads.
fn mark_block(
    marks: &mut [u8; 256],
    owners: &[u8; 320],
    from: usize,
    resting: u8,
    places: &PlaceArrays,
)
    requires from_bound { from + 32 ≤ 256 }
    requires rest_marks { RestMarks from resting owners.now places.now marks.old }
    ensures { RestMarks (from + 32) resting owners.now places.now marks.new }
{
    let parts = part_mark(from, places);
    for k in from..from + 32 {
        marks[k] = row_mark(resting, owners[k], places.rows[k], places.domains[k]) | parts;
    }
}

// The marks of all threads: 0 only for a thread that rests.
pub(crate) fn mark_threads(
    owners: &[u8; 320],
    threads: u32,
    resting: u8,
    places: &PlaceArrays,
) -> [u8; 256]
    requires { threads ≤ 256 }
    ensures { RestMarks threads resting owners.now places.now result }
{
    let mut marks = [0u8; 256];
    for block in 0..(threads as usize).div_ceil(32) {
        mark_block(&mut marks, owners, block * 32, resting, places);
    }
    marks
}
