// A thread's place, read from the four arrays.
ghost use Rattle.std.specs.Prelude.{◌≡◌, ◌<◌};
ghost use Rattle.model.specs.States.{numbers_at};

use model::{PlaceArrays, PlaceWords};

#[tactic(auto, unfolding(model::specs::States::numbers_at))]
pub fn place_at(places: &PlaceArrays, at: usize) -> PlaceWords
    requires { at < 256 }
    ensures { result ≡ numbers_at places.now at }
{
    PlaceWords {
        row: places.rows[at],
        domain: places.domains[at],
        peer: places.peers[at],
        word: places.words[at],
    }
}
