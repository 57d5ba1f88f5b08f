// Which parts a place has in addition to its row, by the model's table of rows.
ghost use Rattle.std.specs.Prelude.{◌≡◌};
ghost use Rattle.model.specs.Places.{has_domain, has_peer, has_word};
ghost use Rattle.refusals.specs.OfRuns.Tables.{spare_word_in};

// The rows that a test names.
// Kept: numbers, not an enum, since the arrays of a state have numbers, also above those of the rows.
pub(crate) const IDLE: u8 = 0;

const LINK: u8 = 3;

pub(crate) const WAIT: u8 = 4;

const INSIDE: u8 = 5;

pub(crate) const CHECK: u8 = 6;

pub(crate) const GRANT: u8 = 10;

pub(crate) const WATCH: u8 = 12;

pub(crate) const RAISE: u8 = 13;

// Every row up to Grant, except Idle and Inside.
pub(crate) fn has_domain(row: u8) -> bool
    ensures { result ≡ has_domain row }
{
    row <= GRANT && !matches!(row, IDLE | INSIDE)
}

pub(crate) fn has_peer(row: u8) -> bool
    ensures { result ≡ has_peer row }
{
    matches!(row, LINK | GRANT)
}

fn has_word(row: u8) -> bool
    ensures { result ≡ has_word row }
{
    row == GRANT
}

// Whether there is a word although the row has none.
pub(crate) fn has_spare_word(row: u8, word: u64) -> bool
    ensures { result ≡ spare_word_in row word }
{
    word != 0 && !has_word(row)
}
