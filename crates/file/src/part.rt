// Parts of a file.
ghost use Rattle.std.proofs.Common.{rules};

use values::ExactClone;

// A part of a file: its bytes, and the place of the first of them in the file.
#[derive(Clone, Copy, Debug, PartialEq, Eq)]
pub struct Part<'a> {
    pub bytes: &'a [u8],
    pub place: usize,
}

// The note that a load answers, as the part of the file that it is.
pub type Note<'a> = Part<'a>;

impl ExactClone for Part<'_> {
    ghost clone_is_same = { Prim.search rules };
}
