//! Guesses at the indexes of numbers in a list.
//!
//! A guess may be wrong, for instance if two numbers have the same last bits. A caller checks the number at the guessed
//! index, and searches the list if it is another number.
ghost use Rattle.std.specs.Prelude.{◌<◌};

use tora_height::Id;

/// How many guesses there are.
const PLACES: usize = 64;

/// Guesses at the indexes of the numbers of a list, by the last six bits of each number.
#[derive(Clone, Copy, Debug, PartialEq, Eq)]
pub struct PlaceHints {
    places: [u8; 64],
}

/// The bits of a number that select its guess.
fn bits(n: Id) -> usize
    ensures { result < 64 }
{
    n as usize % PLACES
}

/// The index in one byte; 0 if it does not fit.
fn kept(place: usize) -> u8 {
    u8::try_from(place).unwrap_or(0)
}

impl PlaceHints {
    /// The guesses for the numbers of a list. A guess is right if the index is at most 255 and no later number has the
    /// same last six bits.
    pub fn new(numbers: &[Id]) -> PlaceHints {
        let mut hints = PlaceHints { places: [0; 64] };
        for (place, n) in numbers.iter().enumerate() {
            hints.places[bits(*n)] = kept(place);
        }
        hints
    }

    /// A guess at the index of a number.
    pub fn place(&self, n: Id) -> usize {
        usize::from(self.places[bits(n)])
    }
}
