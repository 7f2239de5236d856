// Bit fields of a file, most significant first.
ghost use Rattle.std.specs.Prelude.{◌≡◌, ◌^◌, ◌<◌, [], ◌∷◌};
ghost use Rattle.file.specs.Fields.{field, word4, header_read, head_code, head_count};

use crate::refusal::FileRefusal;
use costs::Kind;

// What a header says beside the kind's letter: M, T and trust.
#[derive(Clone, Copy)]
pub(crate) struct Header {
    pub modes: u8,
    pub moments: u8,
    pub trust: u8,
}

// The field of `width` bits that has `below` bits after it.
pub(crate) fn bits(word: u64, below: u32, width: u32) -> u64
    requires within { (below < 64) × (width < 64) }
    ensures value { result ≡ field word below width }
    ensures bound { result < 2 ^ width }
{
    (word >> below) & ((1 << width) - 1)
}

// The header that four bytes are: the letter (8); M (7) and the first bit of T; the other bits of T (6) and zeros (2);
// trust (8).
pub(crate) fn read_header<K: Kind>(
    letter: u8,
    modes_moments: u8,
    moments_zeros: u8,
    trust: u8,
) -> Result<Header, FileRefusal>
    ensures { result ≡ header_read K.meaning (word4 (letter ∷ modes_moments ∷ moments_zeros ∷ trust ∷ [])) }
{
    if char::from(letter) != K::letter() {
        return Err(FileRefusal::WrongLetter);
    }
    if moments_zeros & 3 != 0 {
        return Err(FileRefusal::NotZero);
    }
    if !K::scaled() && trust != 16 {
        return Err(FileRefusal::WrongTrust);
    }
    Ok(Header {
        modes: modes_moments >> 1,
        moments: (modes_moments & 1) << 6 | moments_zeros >> 2,
        trust,
    })
}

// The code and the count that the two bytes of a section head are: code (4) and the first bits of the count (4); its other
// bits (8).
pub(crate) fn read_head(code_count: u8, count_end: u8) -> (u8, u16)
    ensures code { result.0 ≡ head_code (code_count ∷ count_end ∷ []) }
    ensures count { result.1 ≡ head_count (code_count ∷ count_end ∷ []) }
{
    let count = u16::from_be_bytes([code_count & 15, count_end]);
    (code_count >> 4, count)
}
