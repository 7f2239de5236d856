// Bytes without the separators at their ends.
ghost use Rattle.std.specs.Prelude.{◌≡◌};
ghost use Rattle.words.specs.Trims.{without_front, without_back, trimmed_of, TrimKeepsPieces};

use crate::cut::Separator;

// The two ends have a loop each: the patterns take from different ends.

// The bytes without the separators at their front.
fn trim_front<'a, S: Separator>(bytes: &'a [u8]) -> &'a [u8]
    ensures { result.now ≡ without_front S.Separator.separates bytes.now }
{
    let mut rest = bytes;
    while let [first, after @ ..] = rest {
        if !S::is_separator(*first) {
            break;
        }
        rest = after;
    }
    rest
}

// The bytes without the separators at their back.
fn trim_back<'a, S: Separator>(bytes: &'a [u8]) -> &'a [u8]
    ensures { result.now ≡ without_back S.Separator.separates bytes.now }
{
    let mut rest = bytes;
    while let [before @ .., last] = rest {
        if !S::is_separator(*last) {
            break;
        }
        rest = before;
    }
    rest
}

// The bytes without the separators at their ends.
#[tactic(auto, using(crate::proofs::Trimming::same_pieces), unfolding(crate::specs::Trims::trimmed_of))]
pub fn trimmed<'a, S: Separator>(bytes: &'a [u8]) -> &'a [u8]
    ensures value { result.now ≡ trimmed_of S.Separator.separates bytes.now }
    ensures same_pieces { TrimKeepsPieces S.Separator.separates }
{
    trim_back::<S>(trim_front::<S>(bytes))
}
