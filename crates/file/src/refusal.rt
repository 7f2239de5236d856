// Why a load was declined.
ghost use Rattle.std.specs.Prelude.{◌≡◌, Some};
ghost use Rattle.std.proofs.Common.{rules};
ghost use Rattle.std.specs.Cmp.Rules.{comparing};
ghost use Rattle.file.specs.declared.refusal.FileRefusal.TheVariants.{Board};
ghost use Rattle.file.specs.Refusals.{file_number, layer_number, layer_of, file_refusal_text, load_fault_text};
ghost use Rattle.file.specs.Parts.{fault_at};

use board::Refusal;
use std::error::Error;
use std::fmt;
use values::{ExactClone, ExactEq, write_plain};

// Which layer declined.
#[derive(Clone, Copy, Debug, PartialEq, Eq)]
pub enum Layer {
    // 1: the bytes end too early
    Bytes = 1,
    // 2: the file breaks its layout, or is of another kind
    File = 2,
    // 3: the board declines what the file asks of it
    Board = 3,
}

// The refusals of a load. In each part of the file the file's own come before the board's.
#[derive(Clone, Copy, Debug, PartialEq, Eq)]
pub enum FileRefusal {
    // 20: the part being read is cut short
    CutShort,
    // 21: the letter is not this kind's
    WrongLetter,
    // 22: a bit that must be zero is not
    NotZero,
    // 23: trust is not 16 in a kind that trust does not scale
    WrongTrust,
    // 24: a section is unknown, repeated or out of order
    WrongSection,
    // the number of the board's refusal, 2 to 8 or 10: the board's call declines
    Board(Refusal),
}

// A declined load: why, and the place of the part that was being read.
#[derive(Clone, Copy, Debug, PartialEq, Eq)]
pub struct LoadFault {
    pub refusal: FileRefusal,
    pub place: usize,
}

impl Layer {
    // Its number. (By `as`, the language's own conversion of an enum with numbers.)
    pub fn number(self) -> u8
        ensures { result ≡ layer_number self }
    {
        self as u8
    }
}

impl FileRefusal {
    // Its number. (By hand: the numbers go on from the board's, and its refusals keep theirs.)
    pub fn number(self) -> u8
        ensures { result ≡ file_number self }
    {
        match self {
            FileRefusal::CutShort => 20,
            FileRefusal::WrongLetter => 21,
            FileRefusal::NotZero => 22,
            FileRefusal::WrongTrust => 23,
            FileRefusal::WrongSection => 24,
            FileRefusal::Board(refusal) => refusal.number(),
        }
    }

    // The layer that declines with it. (By hand: it follows from what the refusal says.)
    pub fn layer(self) -> Layer
        ensures { result ≡ layer_of self }
    {
        match self {
            FileRefusal::CutShort => Layer::Bytes,
            FileRefusal::Board(_) => Layer::Board,
            _ => Layer::File,
        }
    }

    // The load declined with it, in the part at that place.
    pub(crate) fn at(self, place: usize) -> LoadFault
        ensures { result ≡ fault_at self place }
    {
        LoadFault {
            refusal: self,
            place,
        }
    }
}

impl From<Refusal> for FileRefusal {
    ghost from_gives = { λ refusal r. r ≡ Board refusal };

    fn from(refusal: Refusal) -> FileRefusal {
        Self::Board(refusal)
    }
}

impl LoadFault {
    // The number of its refusal.
    pub fn number(self) -> u8
        ensures { result ≡ file_number self.refusal }
    {
        self.refusal.number()
    }

    // The layer of its refusal.
    pub fn layer(self) -> Layer
        ensures { result ≡ layer_of self.refusal }
    {
        self.refusal.layer()
    }
}

// As programs tell it, under any options: `bad`, number and layer.
impl fmt::Display for FileRefusal {
    ghost output = { λ e. Some (file_refusal_text e) };

    ghost styled_output = { λ e _. Some (file_refusal_text e) };

    fn fmt<W: fmt::Write>(&self, f: &mut fmt::Formatter<W>) -> fmt::Result {
        let layer = self.layer().number();
        write_plain(f, format_args!("bad {} {layer}", self.number()))
    }
}

impl Error for FileRefusal {}

// As programs tell it, under any options: its refusal, and the place.
impl fmt::Display for LoadFault {
    ghost output = { λ e. Some (load_fault_text e) };

    ghost styled_output = { λ e _. Some (load_fault_text e) };

    fn fmt<W: fmt::Write>(&self, f: &mut fmt::Formatter<W>) -> fmt::Result {
        write_plain(f, format_args!("{} {}", self.refusal, self.place))
    }
}

impl Error for LoadFault {}

impl ExactClone for Layer {
    ghost clone_is_same = { Prim.search rules };
}

impl ExactEq for Layer {
    ghost equal_is_same = { Prim.search (comparing, rules) };
}

impl ExactClone for FileRefusal {
    ghost clone_is_same = { Prim.search rules };
}

impl ExactEq for FileRefusal {
    ghost equal_is_same = { Prim.search (comparing, rules) };
}

impl ExactClone for LoadFault {
    ghost clone_is_same = { Prim.search rules };
}

impl ExactEq for LoadFault {
    ghost equal_is_same = { Prim.search (comparing, rules) };
}
