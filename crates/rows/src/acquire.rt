// The rows of the step table with which a thread acquires, from its start to Inside: what each stores and counts, and what it reports about its step. `step` calls the row of a place and meets its requirements.
ghost use Rattle.std.specs.Prelude.{◌≡◌, ◌<◌, false, if◌then◌else◌, nat_eq, slice_index};
ghost use Rattle.model.specs.States.{status};
ghost use Rattle.model.specs.Steps.{prep_row, swap_row, link_row, wait_row, draw_row, watch_row};
ghost use Rattle.rows.specs.Common.Counting.{parent_in, RoomAbove, record_domain_in, Entered, Started};
ghost use Rattle.rows.specs.Common.Standing.{is_entry_number, LeadsUp, Within};
ghost use Rattle.rows.specs.Common.Rows.{RowDone, Stands, place_at, Above, RootIs};
ghost use Rattle.rows.specs.Acquire.Rows.{start_row};
ghost use Rattle.rows.specs.Kinds.{number_of_kind};

use crate::common::rows::Moved;
use crate::common::{Member, counting, places, rows};
use crate::kinds::Kind;
use model::{Counters, Place, PlaceWords, State, TreeWords};

pub fn prep(w: Member, words: &mut State) -> Moved
    requires { Within w }
    ensures row_done { RowDone (λ t i s. Stands t i w) (λ t i s. prep_row t i w.domain s) result words.old words.new }
    ensures others_kept { (words.new.tails ≡ words.old.tails) × ((words.new.ticket ≡ words.old.ticket) × (words.new.grant ≡ words.old.grant)) }
    ensures kind_value { is_entry_number (number_of_kind result.kind) ≡ false }
{
    let l = w.domain;
    let r = w.own as usize;
    words.nexts[r] = 0;
    words.statuses[r] = rows::root_word_at(l, model::LOCKED, model::WAIT);
    Moved::to(Kind::OtherMove, Place::Swap(l))
}

pub fn swap(tree: &TreeWords, w: Member, words: &mut State, counters: &mut Counters) -> Moved
    requires leads_up { LeadsUp tree.now }
    requires home_lt_domains { (w.home < tree.now.domains) × Within w }
    requires room_above { RoomAbove counters.old.entries × RoomAbove counters.old.tenures }
    ensures row_done { RowDone (λ t i s. Stands t i w × Above t tree.now.ticket_root w.domain (slice_index tree.now.parents w.domain)) (λ t i s. swap_row t i w.domain s) result words.old words.new }
    ensures others_kept { (words.new.nexts ≡ words.old.nexts) × ((words.new.ticket ≡ words.old.ticket) × (words.new.grant ≡ words.old.grant)) }
    ensures entered { Entered (parent_in tree.now.domains tree.now.parents) (number_of_kind result.kind) w.home counters.old.entries counters.new.entries }
    ensures started { Started (if nat_eq result.place.row 3 then 0 else record_domain_in w.own) counters.old counters.new }
{
    let l = w.domain;
    let own = w.own;
    let d = l as usize;
    let r = own as usize;
    let old = words.tails[d];
    words.tails[d] = own + 1;
    if old != 0 {
        return Moved::to(Kind::OtherMove, Place::Link(l, old - 1));
    }
    counting::count_given(own, counters);
    if l == 0 {
        words.statuses[r] = model::UNLOCKED;
        counting::count_entry(tree, w.home, &mut counters.entries);
        return Moved::to(Kind::RootEntry, Place::Inside);
    }
    words.statuses[r] = model::COHORT_START;
    let next = places::acquire_place_at(tree.ticket_root, tree.parents[d]);
    Moved::to(Kind::OtherMove, next)
}

pub fn link(w: Member, before: u16, words: &mut State) -> Moved
    requires within { Within w }
    requires before_bound { before < 320 }
    ensures row_done { RowDone (λ t i s. Stands t i w) (λ t i s. link_row t i w.domain before s) result words.old words.new }
    ensures others_kept { (words.new.tails ≡ words.old.tails) × ((words.new.statuses ≡ words.old.statuses) × ((words.new.ticket ≡ words.old.ticket) × (words.new.grant ≡ words.old.grant))) }
    ensures kind_value { is_entry_number (number_of_kind result.kind) ≡ false }
{
    words.nexts[before as usize] = w.own + 1;
    Moved::to(Kind::OtherMove, Place::Wait(w.domain))
}

pub fn wait(
    tree: &TreeWords,
    w: Member,
    place: PlaceWords,
    words: &mut State,
    entries: &mut [u64; 64],
) -> Moved
    requires leads_up { LeadsUp tree.now }
    requires home_lt_domains { (w.home < tree.now.domains) × Within w }
    requires room_above { RoomAbove entries.old }
    ensures row_done { RowDone (λ t i s. Stands t i w × (Above t tree.now.ticket_root w.domain (slice_index tree.now.parents w.domain) × place ≡ place_at s i)) (λ t i s. wait_row t i w.domain s) result words.old words.new }
    ensures others_kept { (words.new.tails ≡ words.old.tails) × ((words.new.nexts ≡ words.old.nexts) × ((words.new.ticket ≡ words.old.ticket) × (words.new.grant ≡ words.old.grant))) }
    ensures entered { Entered (parent_in tree.now.domains tree.now.parents) (number_of_kind result.kind) w.home entries.old entries.new }
{
    let l = w.domain;
    let r = w.own as usize;
    let v = words.statuses[r];
    if l == 0 {
        if v == model::LOCKED {
            return Moved::stay(place);
        }
        counting::count_entry(tree, w.home, entries);
        return Moved::to(Kind::RootEntry, Place::Inside);
    }
    if v == model::WAIT {
        return Moved::stay(place);
    }
    if v == model::ACQUIRE_PARENT {
        words.statuses[r] = model::COHORT_START;
        let next = places::acquire_place_at(tree.ticket_root, tree.parents[l as usize]);
        return Moved::to(Kind::OtherMove, next);
    }
    counting::count_entry(tree, w.home, entries);
    if l == w.home {
        return Moved::to(Kind::PassedEntry, Place::Inside);
    }
    Moved::to(Kind::CrossedEntry, Place::Inside)
}

// The thread draws the root's ticket: it goes Inside if the grant shows it, else it watches.
pub fn draw(tree: &TreeWords, w: Member, words: &mut State, counters: &mut Counters) -> Moved
    requires leads_up { LeadsUp tree.now }
    requires home_lt_domains { (w.home < tree.now.domains) × (Within w × (w.domain ≡ 0)) }
    requires room_above { RoomAbove counters.old.entries × RoomAbove counters.old.tenures }
    ensures row_done { RowDone (λ t i s. Stands t i w) draw_row result words.old words.new }
    ensures others_kept { (words.new.tails ≡ words.old.tails) × ((words.new.nexts ≡ words.old.nexts) × (words.new.grant ≡ words.old.grant)) }
    ensures entered { Entered (parent_in tree.now.domains tree.now.parents) (number_of_kind result.kind) w.home counters.old.entries counters.new.entries }
    ensures started { Started (if nat_eq (number_of_kind result.kind) 1 then 0 else record_domain_in w.own) counters.old counters.new }
{
    let v = words.ticket;
    words.ticket = counting::next_number(v);
    words.statuses[w.own as usize] = u64::from(v);
    if v != words.grant {
        return Moved::to(Kind::OtherMove, Place::Watch);
    }
    counting::count_given(w.own, counters);
    counting::count_entry(tree, w.home, &mut counters.entries);
    Moved::to(Kind::RootEntry, Place::Inside)
}

pub fn watch(
    tree: &TreeWords,
    w: Member,
    v: u64,
    granted: u16,
    place: PlaceWords,
    entries: &mut [u64; 64],
) -> Moved
    requires leads_up { LeadsUp tree.now }
    requires home_lt_domains { (w.home < tree.now.domains) × (w.domain ≡ 0) }
    requires room_above { RoomAbove entries.old }
    ensures row_done { (s : State) → RowDone (λ t i s. Stands t i w × ((v ≡ status s w.own) × ((granted ≡ s.grant) × place ≡ place_at s i))) watch_row result s s }
    ensures entered { Entered (parent_in tree.now.domains tree.now.parents) (number_of_kind result.kind) w.home entries.old entries.new }
{
    if v != u64::from(granted) {
        return Moved::stay(place);
    }
    counting::count_entry(tree, w.home, entries);
    Moved::to(Kind::RootEntry, Place::Inside)
}

// A thread at home draws if its home is a ticket root, else it does Prep. No tenure starts: the record is the thread's own.
pub fn start(tree: &TreeWords, w: Member, words: &mut State, counters: &mut Counters) -> Moved
    requires leads_up { LeadsUp tree.now }
    requires home_lt_domains { (w.home < tree.now.domains) × (Within w × (w.own < 256)) }
    requires room_above { RoomAbove counters.old.entries × RoomAbove counters.old.tenures }
    ensures row_done { RowDone (λ t i s. Stands t i w × RootIs t tree.now.ticket_root) (λ t i s. start_row t i w.domain s) result words.old words.new }
    ensures others_kept { (words.new.tails ≡ words.old.tails) × (words.new.grant ≡ words.old.grant) }
    ensures entered { Entered (parent_in tree.now.domains tree.now.parents) (number_of_kind result.kind) w.home counters.old.entries counters.new.entries }
    ensures started { Started 0 counters.old counters.new }
{
    if w.domain != 0 || tree.ticket_root == 0 {
        return prep(w, words);
    }
    draw(tree, w, words, counters)
}
