// Why a call refuses: document 01's "Refusal numbers", each with its number. The calls answer a `Result` with one of these; the number goes to those who
// link the library through C, and into the text program's line.
// Meanings: specs/Numbers.antt.
#![tactic(auto)]

ghost use Rattle.std.specs.Prelude.{◌≡◌};
ghost use Rattle.refusal.specs.Numbers.{number_of, status_of};

use std::error::Error;
use std::fmt;

// Document 01's rows 1 to 9, in their order.
#[derive(Clone, Copy, Debug, PartialEq, Eq)]
pub enum Refusal {
    // 1: a number lies outside the domain.
    OutsideDomain,
    // 2: more polygons or points than a site may have.
    TooMany,
    // 3: the polygons' lengths do not add up to the points given.
    LengthsDiffer,
    // 4: more cells than a grid may have.
    TooManyCells,
    // 5: a table of the site is longer than the room lent for it.
    NoTableRoom,
    // 6: the lent tables of the site are unsound.
    Unsound,
    // 7: fewer stamps than polygons.
    FewStamps,
    // 8: a work or output list would pass its entries.
    NoListRoom,
    // 9: the program's text is not as laid out.
    NotAsLaidOut,
}

impl From<Refusal> for u32 {
    ghost from_gives = { λ r n. n ≡ number_of r };

    fn from(r: Refusal) -> u32 {
        match r {
            Refusal::OutsideDomain => 1,
            Refusal::TooMany => 2,
            Refusal::LengthsDiffer => 3,
            Refusal::TooManyCells => 4,
            Refusal::NoTableRoom => 5,
            Refusal::Unsound => 6,
            Refusal::FewStamps => 7,
            Refusal::NoListRoom => 8,
            Refusal::NotAsLaidOut => 9,
        }
    }
}

// The status of an answer, for those who take plain numbers: 0, or the number of its refusal.
pub fn status<T: Copy>(answer: Result<T, Refusal>) -> u32
    ensures { result ≡ status_of answer }
{
    match answer {
        Ok(_) => 0,
        Err(refusal) => u32::from(refusal),
    }
}

impl fmt::Display for Refusal {
    fn fmt<W: fmt::Write>(&self, f: &mut fmt::Formatter<W>) -> fmt::Result {
        f.write_str(match self {
            Refusal::OutsideDomain => "a number lies outside the domain",
            Refusal::TooMany => "more polygons or points than a site may have",
            Refusal::LengthsDiffer => "the polygons' lengths do not add up to the points given",
            Refusal::TooManyCells => "more cells than a grid may have",
            Refusal::NoTableRoom => "a table of the site is longer than the room lent for it",
            Refusal::Unsound => "the lent tables of the site are unsound",
            Refusal::FewStamps => "fewer stamps than polygons",
            Refusal::NoListRoom => "a work or output list would pass its entries",
            Refusal::NotAsLaidOut => "the text is not as laid out",
        })
    }
}

impl Error for Refusal {}
