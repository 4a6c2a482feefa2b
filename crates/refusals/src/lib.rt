// Why a book, a table or a list of events is refused, and the number that is told for it. Contracts:
// specs/Refusals.antt.
#![tactic(auto)]

ghost use Rattle.std.specs.Prelude.{◌≡◌, Some};
ghost use Rattle.laws.specs.Answer.{number_of};
ghost use Rattle.refusals.specs.Refusals.{refusal_number, refusal_text, told};

use std::fmt;

// A row of the table of refusals, with its number. docs/REFUSALS.md says of each what it means to a book's writer and
// how to mend it.
#[derive(Clone, Copy, Debug, PartialEq, Eq)]
pub enum Refusal {
    // the bytes end before the last field does
    CutOff = 1,
    // bytes are left over
    LeftOver = 2,
    // a count, the samples of the legs or the work space is out of bounds
    OutOfBounds = 3,
    // a float, a flag or a kind that is none
    BadValue = 4,
    // an index that names nothing, or a link that can't be
    BadIndex = 5,
    // an origin that isn't at its link's start, or stands twice
    BadOrigin = 6,
    // a leg that can't follow, or stands twice
    BadLeg = 7,
    // no way leads back from the destinations to an origin
    NoPath = 8,
    // a run has nowhere to go
    NoWayOn = 9,
    // the book has no such leg
    MissingLeg = 10,
    // a sample or an event that can't be
    BadEvent = 11,
    // no place is left
    NoPlace = 12,
    // a run ends where it can't
    BadEnd = 13,
    // the network isn't linked both ways
    BadLinks = 14,
    // a time pass can't go on
    NotTimed = 15,
    // all times are 0
    AllZero = 16,
}

// The number that is told for a refusal.
impl From<Refusal> for u32 {
    ghost from_gives = { λ r n. n ≡ refusal_number r };

    fn from(r: Refusal) -> u32 {
        r as u32
    }
}

// As the programs print it.
impl fmt::Display for Refusal {
    ghost output = { λ r. Some (refusal_text r) };

    fn fmt<W: fmt::Write>(&self, f: &mut fmt::Formatter<W>) -> fmt::Result {
        write!(f, "refused {}", u32::from(*self))
    }
}

// The number of an answer: 0 where something is given. It stays a function: Result and u32 are both std's, so no From
// can stand here.
pub fn number_of<T: Copy>(answer: Result<T, Refusal>) -> u32
    ensures { result ≡ number_of (told answer) }
{
    answer.map_or_else(u32::from, |_| 0)
}
