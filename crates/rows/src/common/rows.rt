// What all rows of the step table share: what a row reports about its step, and the word that it chooses at the root.
ghost use Rattle.std.specs.Prelude.{◌≡◌};
ghost use Rattle.model.specs.States.{root_word};
ghost use Rattle.model.specs.Places.{words_of};
ghost use Rattle.rows.specs.Common.Rows.{moved};
ghost use Rattle.rows.specs.declared.kinds.Kind.TheVariants.{Stay};

use crate::common::places;
use crate::kinds::Kind;
use model::{Place, PlaceWords};

// What a row reports about its step: its kind, and the thread's place after it.
#[derive(Clone, Copy)]
pub struct Moved {
    pub kind: Kind,
    pub place: PlaceWords,
}

impl Moved {
    // The thread stays at its place.
    pub fn stay(place: PlaceWords) -> Self
        ensures { result ≡ moved Stay place }
    {
        Moved {
            kind: Kind::Stay,
            place,
        }
    }

    // A step of a kind that leads to a place.
    pub fn to(kind: Kind, place: Place) -> Self
        ensures { result ≡ moved kind (words_of place) }
    {
        Moved {
            kind,
            place: places::words_at(place),
        }
    }
}

// One word for the root, another for other domains.
pub fn root_word_at(l: u8, at_root: u64, elsewhere: u64) -> u64
    ensures { result ≡ root_word l at_root elsewhere }
{
    if l == 0 { at_root } else { elsewhere }
}
