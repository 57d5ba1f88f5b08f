// A thread's place: from its four numbers and back, its domain, and where releases lead.
ghost use Rattle.std.specs.Prelude.{◌≡◌, ◌≢◌};
ghost use Rattle.model.specs.declared.Place.TheVariants.{Invalid};
ghost use Rattle.model.specs.Places.{place_words, words_of, place_of};
ghost use Rattle.rows.specs.Common.Standing.{acquire_at, release_at, done_at, row_domain};

use model::{Place, PlaceWords};

// The place that four numbers stand for; they are known to be a place, so its row decides.
pub fn place_by_row(words: PlaceWords) -> Place
    requires { place_of words ≢ Invalid }
    ensures { result ≡ place_of words }
{
    let l = words.domain;
    let row = words.row;
    match row {
        0 => Place::Idle,
        1 => Place::Prep(l),
        2 => Place::Swap(l),
        3 => Place::Link(l, words.peer),
        4 => Place::Wait(l),
        5 => Place::Inside,
        6 => Place::Check(l),
        7 => Place::Help(l),
        8 => Place::Cas(l),
        9 => Place::Linger(l),
        10 => Place::Grant(l, words.peer, words.word),
        11 => Place::Draw,
        12 => Place::Watch,
        13 => Place::Raise,
        _ => Place::Invalid,
    }
}

fn words_from(row: u8, domain: u8, peer: u16, word: u64) -> PlaceWords
    ensures { result ≡ place_words row domain peer word }
{
    PlaceWords {
        row,
        domain,
        peer,
        word,
    }
}

// The numbers of a place.
pub fn words_at(place: Place) -> PlaceWords
    ensures { result ≡ words_of place }
{
    match place {
        Place::Idle => words_from(0, 0, 0, 0),
        Place::Prep(l) => words_from(1, l, 0, 0),
        Place::Swap(l) => words_from(2, l, 0, 0),
        Place::Link(l, p) => words_from(3, l, p, 0),
        Place::Wait(l) => words_from(4, l, 0, 0),
        Place::Inside => words_from(5, 0, 0, 0),
        Place::Check(l) => words_from(6, l, 0, 0),
        Place::Help(l) => words_from(7, l, 0, 0),
        Place::Cas(l) => words_from(8, l, 0, 0),
        Place::Linger(l) => words_from(9, l, 0, 0),
        Place::Grant(l, s, w) => words_from(10, l, s, w),
        Place::Draw => words_from(11, 0, 0, 0),
        Place::Watch => words_from(12, 0, 0, 0),
        Place::Raise => words_from(13, 0, 0, 0),
        Place::Invalid => words_from(14, 0, 0, 0),
    }
}

// The place where acquiring a domain starts.
pub fn acquire_place_at(ticket_root: u32, d: u8) -> Place
    ensures { result ≡ acquire_at ticket_root d }
{
    if d == 0 && ticket_root != 0 {
        Place::Draw
    } else {
        Place::Prep(d)
    }
}

// The place where releasing a domain starts.
pub fn release_place_at(ticket_root: u32, d: u8) -> Place
    ensures { result ≡ release_at ticket_root d }
{
    match (d, ticket_root) {
        (0, 0) => Place::Help(d),
        (0, _) => Place::Raise,
        _ => Place::Check(d),
    }
}

// Where a thread goes after releasing a domain.
pub fn done_place_at(home: u8, l: u8, child: u8) -> Place
    ensures { result ≡ done_at home l child }
{
    if l == home {
        Place::Idle
    } else {
        Place::Help(child)
    }
}

// The domain of a place, given its row and the domain it names; Idle and Inside are at home.
pub fn domain_by_row(home: u8, row: u8, l: u8) -> u8
    ensures { result ≡ row_domain home row l }
{
    match row {
        0 | 5 => home,
        _ => l,
    }
}
