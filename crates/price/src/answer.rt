// What a line comes to.
ghost use Rattle.std.specs.Prelude.{◌≡◌, ◌++◌, Some, codes, decimal};
ghost use Rattle.std.proofs.Common.{rules};
ghost use Rattle.std.proofs.Math.Utf8.{encode};
ghost use Rattle.costs.specs.Names.{letter_of};
ghost use Rattle.price.specs.declared.answer.LineFault.TheVariants.{OutOfMemory};

use costs::KindName;
use std::alloc::{AllocError, AllocFailed};
use std::fmt;
use values::{ExactClone, ExactEq, write_plain};

// What the costs of a line make, joined.
#[derive(Clone, Copy, Debug, PartialEq, Eq)]
pub struct Total {
    pub kind: KindName,
    pub cost: u32,
}

// Why a line has no total.
#[derive(Clone, Copy, Debug, PartialEq, Eq)]
pub enum LineFault<'a> {
    // 10: the first number that is no cost of the kind, as it was written
    NotACost(&'a [u8]),
    // the first word that cannot be read, as it was written
    Unreadable(&'a [u8]),
    // memory did not suffice
    OutOfMemory,
}

// What a line comes to: a total, nothing where it has no words, or a fault.
pub type LineAnswer<'a> = Result<Option<Total>, LineFault<'a>>;

impl fmt::Display for Total {
    ghost output = { λ t. Some (encode (letter_of t.kind) ++ (codes " " ++ decimal t.cost)) };

    ghost styled_output = { λ t _. Some (encode (letter_of t.kind) ++ (codes " " ++ decimal t.cost)) };

    fn fmt<W: fmt::Write>(&self, f: &mut fmt::Formatter<W>) -> fmt::Result {
        let letter = self.kind.letter();
        write_plain(f, format_args!("{letter} {}", self.cost))
    }
}

impl From<AllocError> for LineFault<'_> {
    ghost from_gives = { λ _ fault. fault ≡ OutOfMemory };

    fn from(_e: AllocError) -> Self {
        LineFault::OutOfMemory
    }
}

impl<T: Drop> From<AllocFailed<T>> for LineFault<'_> {
    ghost from_gives = { λ _ fault. fault ≡ OutOfMemory };

    fn from(_e: AllocFailed<T>) -> Self {
        LineFault::OutOfMemory
    }
}

impl ExactClone for Total {
    ghost clone_is_same = { Prim.search rules };
}

impl ExactEq for Total {
    ghost equal_is_same = { Prim.search rules };
}

impl ExactClone for LineFault<'_> {
    ghost clone_is_same = { Prim.search rules };
}
