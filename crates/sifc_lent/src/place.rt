// The places of the listed errors, in one pass over the script as long as they rise.
ghost use Rattle.std.specs.Prelude.{◌≡◌, ◌++◌, map, ◌≤◌, ◌<◌, length, take, drop, get_or};
ghost use Rattle.sifc_tokens.specs.Place.{place_of};
ghost use Rattle.sifc_def.specs.Error.{PlaceFits};
ghost use Rattle.sifc_lent.specs.Parts.{Reached, SpotOf, place_word, place_word_at};

use sifc_tokens::{Place, walk_place};

// How many bytes of the script are passed, and the place after them.
#[derive(Clone, Copy)]
pub struct Spot {
    pub at: usize,
    pub place: Place,
}

// The spot of an offset, or of the script's end if that comes first, from one reached before. Only
// an offset before that one begins again at the script's start.
fn spot_at(script: &[u8], from: Spot, off: usize) -> Spot
    requires { Reached script.now from }
    ensures { SpotOf script.now off result }
{
    let to = off.min(script.len());
    let at = from.at;
    if to < at {
        let first = Place { line: 1, pos: 0 };
        return Spot {
            at: to,
            place: walk_place(script, 0, first, to),
        };
    }
    let reached = from.place;
    Spot {
        at: to,
        place: walk_place(script, at, reached, to),
    }
}

// The place of the token at an offset, out of the offset's spot, with the rule for an Eof at the
// script's end.
fn token_place(script: &[u8], spot: Spot, off: usize) -> Place
    requires { (length script.now < 65536) × SpotOf script.now off spot }
    ensures { result ≡ place_of script.now off }
{
    let place = spot.place;
    if off < script.len() {
        return place;
    }
    if 0 < place.pos {
        return Place {
            line: place.line + 1,
            pos: 0,
        };
    }
    place
}

// A place in one word.
fn place_word(place: Place) -> u32
    requires { PlaceFits place }
    ensures { result ≡ place_word place }
{
    let above = place.line - 1;
    65536 * (above as u32) + (place.pos as u32)
}

// The offset of the token at an index; 0 past the tokens.
fn off_at(offs: &[u32], i: usize) -> usize
    ensures { result ≡ get_or offs.now i 0 }
{
    offs.get(i).map_or(0, |off| *off as usize)
}

// Each of the first n words, the index of an error's token, becomes the word of that token's place.
pub fn set_places(script: &[u8], offs: &[u32], places: &mut [u32], n: usize)
    requires { (length script.now < 65536) × (n ≤ length places.old) }
    ensures { places.new ≡ map (place_word_at script.now offs.now) (take n places.old) ++ drop n places.old }
{
    let mut spot = Spot {
        at: 0,
        place: Place { line: 1, pos: 0 },
    };
    for i in 0..n {
        let off = off_at(offs, places[i] as usize);
        spot = spot_at(script, spot, off);
        let place = token_place(script, spot, off);
        places[i] = place_word(place);
    }
}
