// Cutting bytes at separators.
ghost use Rattle.std.specs.Prelude.{◌≡◌, ℕ, Bool, map, IfOk};
ghost use Rattle.std.specs.Char.{is_newline};
ghost use Rattle.words.specs.Pieces.{pieces_of, spacing, CuttingLaws};

use std::alloc::{AllocError, Global};

// What bytes are cut at. A trait and no closure, so that a caller's contract names the test itself.
pub trait Separator {
    ghost separates: { ℕ → Bool };

    fn is_separator(byte: u8) -> bool
        ensures { result ≡ separates byte };
}

// Spaces and tabs, between words.
pub struct Spacing;

impl Separator for Spacing {
    ghost separates = { spacing };

    fn is_separator(byte: u8) -> bool {
        byte == b' ' || byte == b'\t'
    }
}

// The newline, between lines.
pub struct Newline;

impl Separator for Newline {
    ghost separates = { is_newline };

    fn is_separator(byte: u8) -> bool {
        byte == b'\n'
    }
}

// The longest runs of bytes that are no separators, in their order.
pub fn pieces<'a, S: Separator>(heap: Global, bytes: &'a [u8]) -> Result<Vec<&'a [u8]>, AllocError>
    ensures made { IfOk result (λ v. map (λ x. x.now) v.items ≡ pieces_of S.Separator.separates bytes.now) }
    ensures cuts { CuttingLaws S.Separator.separates }
{
    bytes
        .split(|byte| S::is_separator(*byte))
        .filter(|run| !run.is_empty())
        .collect(heap)
}
