// The three kinds by their names, and the letters that name them.
ghost use Rattle.std.specs.Prelude.{◌≡◌, ◌++◌, Some, codes};
ghost use Rattle.std.proofs.Common.{rules};
ghost use Rattle.std.proofs.Math.Utf8.{encode};
ghost use Rattle.costs.specs.Names.{letter_of, kind_by_letter, kind_under_letter};

use crate::kind::Kind;
use crate::points::Points;
use crate::rank::Rank;
use crate::severity::Severity;
use std::error::Error;
use std::fmt;
use values::{ExactClone, ExactEq, write_plain};

// Which kind of cost, where it is known only when the program runs.
#[derive(Clone, Copy, Debug, PartialEq, Eq, Hash)]
pub enum KindName {
    // P
    Points,
    // S
    Severity,
    // R
    Rank,
}

// A letter that no kind has.
#[derive(Clone, Copy, Debug, PartialEq, Eq, Hash)]
pub struct UnknownLetter(pub char);

impl KindName {
    // The kind's letter. (An arm for each: a kind is a type.)
    pub fn letter(self) -> char
        ensures value { result ≡ letter_of self }
        ensures reads_back { kind_by_letter result ≡ Some self }
    {
        match self {
            KindName::Points => Points::letter(),
            KindName::Severity => Severity::letter(),
            KindName::Rank => Rank::letter(),
        }
    }
}

// The kind that has the letter.
impl TryFrom<char> for KindName {
    type Error = UnknownLetter;

    ghost try_from_gives = { λ letter result. result ≡ kind_under_letter letter };

    fn try_from(letter: char) -> Result<Self, UnknownLetter> {
        match letter {
            'P' => Ok(KindName::Points),
            'S' => Ok(KindName::Severity),
            'R' => Ok(KindName::Rank),
            _ => Err(UnknownLetter(letter)),
        }
    }
}

impl fmt::Display for UnknownLetter {
    ghost output = { λ e. Some (codes "no kind of cost has the letter " ++ encode e.0) };

    ghost styled_output = { λ e _. Some (codes "no kind of cost has the letter " ++ encode e.0) };

    fn fmt<W: fmt::Write>(&self, f: &mut fmt::Formatter<W>) -> fmt::Result {
        write_plain(f, format_args!("no kind of cost has the letter {}", self.0))
    }
}

impl Error for UnknownLetter {}

impl ExactClone for KindName {
    ghost clone_is_same = { Prim.search rules };
}

impl ExactEq for KindName {
    ghost equal_is_same = { Prim.search rules };
}

impl ExactClone for UnknownLetter {
    ghost clone_is_same = { Prim.search rules };
}

impl ExactEq for UnknownLetter {
    ghost equal_is_same = { Prim.search rules };
}
