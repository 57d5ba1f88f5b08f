// One step of a thread: the row of its place. The run's loop in `lock` calls it at one place and meets its requirements.
ghost use Rattle.std.specs.Prelude.{slice_index};
ghost use Rattle.model.specs.Trees.{tree_of};
ghost use Rattle.rows.specs.Common.Counting.{parent_in, RoomAbove, Entered, ShownFor};
ghost use Rattle.rows.specs.Step.Counting.{CountedStep, ShownLeft};
ghost use Rattle.rows.specs.Step.OneStep.{Ready, StepDone};
ghost use Rattle.rows.specs.Kinds.{number_of_kind};

use crate::common::rows::Moved;
use crate::common::{counting, places};
use crate::kinds::Kind;
use crate::{acquire, release};
use model::{Counters, Place, PlaceWords, State, TreeWords};

// The step that a thread takes from a place. The lock's words and the counters are borrowed, and only what the row stores is written. The thread's place is reported, not written.
pub fn take(
    tree: &TreeWords,
    i: u16,
    place: PlaceWords,
    looked: u32,
    words: &mut State,
    shown: &mut [bool; 64],
    counters: &mut Counters,
) -> Moved
    requires ready { Ready (tree_of tree.now) i place }
    requires room_above { RoomAbove counters.old.entries × RoomAbove counters.old.tenures }
    requires shown_for { ShownFor looked tree.now.domains shown.old }
    ensures fact { StepDone (tree_of tree.now) i place result words.old words.new }
    ensures entered { Entered (parent_in tree.now.domains tree.now.parents) (number_of_kind result.kind) (slice_index tree.now.homes i) counters.old.entries counters.new.entries }
    ensures counted_step { CountedStep tree.now.domains tree.now.parents (slice_index tree.now.homes i) place result.place (number_of_kind result.kind) shown.old counters.old counters.new }
    ensures shown_left { ShownLeft place shown.old shown.new }
{
    let home = tree.homes[i as usize];
    let p = places::place_by_row(place);
    let l = places::domain_by_row(home, place.row, place.domain);
    let w = crate::common::member_at(tree, i, home, l);
    let r = w.own as usize;
    match p {
        Place::Idle => acquire::start(tree, w, words, counters),
        Place::Prep(_) => acquire::prep(w, words),
        Place::Swap(_) => acquire::swap(tree, w, words, counters),
        Place::Link(_, b) => acquire::link(w, b, words),
        Place::Wait(_) => acquire::wait(tree, w, place, words, &mut counters.entries),
        Place::Inside => release::leave(tree.ticket_root, home),
        Place::Check(_) => release::check(tree, w, words, &mut counters.longest),
        Place::Help(_) => release::help(w, words.nexts[r]),
        Place::Cas(_) => release::cas(w, words),
        Place::Linger(_) => release::linger(w, words.nexts[r], place),
        Place::Grant(_, to, v) => release::grant(w, to, v, words, counters),
        Place::Draw => acquire::draw(tree, w, words, counters),
        Place::Watch => {
            acquire::watch(
                tree,
                w,
                words.statuses[r],
                words.grant,
                place,
                &mut counters.entries,
            )
        }
        Place::Raise => {
            counting::count_shown(looked, tree.domains, shown, counters);
            release::raise(w, words)
        }
        Place::Invalid => Moved::stay(place),
    }
}
