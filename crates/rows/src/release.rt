// The rows of the step table with which a thread releases, from Inside to Idle: what each stores and counts, and what it reports about its step. `step` calls the row of a place and meets its requirements.
ghost use Rattle.std.specs.Prelude.{◌≡◌, ◌<◌, ◌≢◌, false, if◌then◌else◌, nat_eq, slice_index};
ghost use Rattle.model.specs.declared.State.{State};
ghost use Rattle.model.specs.States.{next};
ghost use Rattle.model.specs.Steps.{leave_row, check_row, help_row, cas_row, linger_row, grant_row, raise_row};
ghost use Rattle.rows.specs.Common.Counting.{RoomAbove, record_domain_in, raised_at, Started};
ghost use Rattle.rows.specs.Common.Standing.{is_entry_number, Within};
ghost use Rattle.rows.specs.Common.Rows.{RowDone, Stands, place_at, RootIs};
ghost use Rattle.rows.specs.Release.Rows.{CheckReads};
ghost use Rattle.rows.specs.Kinds.{number_of_kind};

use crate::common::rows::Moved;
use crate::common::{Member, counting, places, rows};
use crate::kinds::Kind;
use model::{Counters, Place, PlaceWords, State, TreeWords};

pub fn leave(ticket_root: u32, home: u8) -> Moved
    ensures row_done { (s : State) → RowDone (λ t i s. (home ≡ t.home i) × RootIs t ticket_root) leave_row result s s }
    ensures kind_value { is_entry_number (number_of_kind result.kind) ≡ false }
{
    Moved::to(Kind::Leaving, places::release_place_at(ticket_root, home))
}

// Never at the root. A Check that will grant reports the word as the length of the domain's tenure.
pub fn check(tree: &TreeWords, w: Member, words: &State, longest: &mut [u64; 64]) -> Moved
    requires { Within w }
    ensures row_done { RowDone (λ t i s. CheckReads t i w tree.now.ticket_root (slice_index tree.now.parents w.domain) (slice_index tree.now.thresholds w.domain)) (λ t i s. check_row t i w.domain s) result words.now words.now }
    ensures kind_value { is_entry_number (number_of_kind result.kind) ≡ false }
    ensures longest_after { longest.new ≡ raised_at longest.old (if nat_eq result.place.row 10 then w.domain else 0) result.place.word }
{
    let l = w.domain;
    let d = l as usize;
    let r = w.own as usize;
    let n = words.nexts[r];
    let v = words.statuses[r];
    let h = u64::from(tree.thresholds[d]);
    if h <= v || n == 0 {
        let next = places::release_place_at(tree.ticket_root, tree.parents[d]);
        return Moved::to(Kind::OtherMove, next);
    }
    counting::count_length(longest, l, v + 1);
    Moved::to(Kind::OtherMove, Place::Grant(l, n - 1, v + 1))
}

pub fn help(w: Member, n: u16) -> Moved
    ensures row_done { (s : State) → RowDone (λ t i s. Stands t i w × (n ≡ next s w.own)) (λ t i s. help_row t i w.domain s) result s s }
    ensures kind_value { is_entry_number (number_of_kind result.kind) ≡ false }
{
    let l = w.domain;
    if n == 0 {
        return Moved::to(Kind::OtherMove, Place::Cas(l));
    }
    let v = rows::root_word_at(l, model::UNLOCKED, model::ACQUIRE_PARENT);
    Moved::to(Kind::OtherMove, Place::Grant(l, n - 1, v))
}

pub fn cas(w: Member, words: &mut State) -> Moved
    requires { Within w }
    ensures row_done { RowDone (λ t i s. Stands t i w) (λ t i s. cas_row t i w.domain s) result words.old words.new }
    ensures others_kept { (words.new.nexts ≡ words.old.nexts) × ((words.new.statuses ≡ words.old.statuses) × ((words.new.ticket ≡ words.old.ticket) × (words.new.grant ≡ words.old.grant))) }
    ensures kind_value { is_entry_number (number_of_kind result.kind) ≡ false }
{
    let l = w.domain;
    let d = l as usize;
    if words.tails[d] != w.own + 1 {
        return Moved::to(Kind::OtherMove, Place::Linger(l));
    }
    words.tails[d] = 0;
    Moved::to(Kind::OtherMove, places::done_place_at(w.home, l, w.child))
}

pub fn linger(w: Member, n: u16, place: PlaceWords) -> Moved
    ensures row_done { (s : State) → RowDone (λ t i s. Stands t i w × ((n ≡ next s w.own) × place ≡ place_at s i)) (λ t i s. linger_row t i w.domain s) result s s }
    ensures kind_value { is_entry_number (number_of_kind result.kind) ≡ false }
{
    let l = w.domain;
    if n == 0 {
        return Moved::stay(place);
    }
    let v = rows::root_word_at(l, model::UNLOCKED, model::ACQUIRE_PARENT);
    Moved::to(Kind::OtherMove, Place::Grant(l, n - 1, v))
}

pub fn grant(w: Member, to: u16, word: u64, words: &mut State, counters: &mut Counters) -> Moved
    requires to_bound { to < 320 }
    requires room_above { RoomAbove counters.old.tenures }
    ensures row_done { RowDone (λ t i s. Stands t i w) (λ t i s. grant_row t i w.domain to word s) result words.old words.new }
    ensures others_kept { (words.new.tails ≡ words.old.tails) × ((words.new.nexts ≡ words.old.nexts) × ((words.new.ticket ≡ words.old.ticket) × (words.new.grant ≡ words.old.grant))) }
    ensures kind_value { is_entry_number (number_of_kind result.kind) ≡ false }
    ensures started { Started (record_domain_in to) counters.old counters.new }
    ensures entries_kept { counters.new.entries ≡ counters.old.entries }
{
    words.statuses[to as usize] = word;
    counting::count_given(to, counters);
    Moved::to(
        Kind::OtherMove,
        places::done_place_at(w.home, w.domain, w.child),
    )
}

pub fn raise(w: Member, words: &mut State) -> Moved
    requires { w.domain ≡ 0 }
    ensures row_done { RowDone (λ t i s. Stands t i w) raise_row result words.old words.new }
    ensures others_kept { (words.new.tails ≡ words.old.tails) × ((words.new.nexts ≡ words.old.nexts) × ((words.new.statuses ≡ words.old.statuses) × (words.new.ticket ≡ words.old.ticket))) }
    ensures kind_value { is_entry_number (number_of_kind result.kind) ≡ false }
{
    words.grant = counting::next_number(words.grant);
    Moved::to(
        Kind::OtherMove,
        places::done_place_at(w.home, w.domain, w.child),
    )
}
