// Hexadecimal numbers.
ghost use Rattle.std.specs.Prelude.{◌≡◌, ◌++◌, IfOk, vec_items, OnOk};
ghost use Rattle.std.specs.Option.{option_map};
ghost use Rattle.hex.specs.Hex.{hex_digit_value};
ghost use Rattle.words.specs.Hex.{bytes_of, hex_number_of, written_bytes, written_u16, HexNumberReadsBack, HexBytesReadBack};

use hex::FromHexError;
use std::alloc::{AllocError, Global};

// The value of a hexadecimal digit, upper or lower case.
fn hex_digit(byte: u8) -> Option<u8>
    ensures { result ≡ hex_digit_value byte }
{
    Some(char::from(byte).to_digit(16)? as u8)
}

// The bytes that the word writes, two digits to a byte.
pub fn hex_byte_pairs(heap: Global, word: &[u8]) -> Result<Option<Vec<u8>>, AllocError>
    ensures { IfOk result (λ o. option_map vec_items o ≡ bytes_of word.now) }
{
    match hex::decode(heap, word) {
        Ok(bytes) => Ok(Some(bytes)),
        Err(FromHexError::OutOfMemory) => Err(AllocError),
        Err(_) => Ok(None),
    }
}

// The number that one to four digits write.
#[tactic(auto, unfolding(crate::specs::Hex::hex_number_of))]
pub fn hex_u16(word: &[u8]) -> Option<u16>
    ensures { result ≡ hex_number_of word.now }
{
    if word.is_empty() || word.len() > 4 {
        return None;
    }
    let mut n = 0;
    for byte in word {
        n = n * 16 + u16::from(hex_digit(*byte)?);
    }
    Some(n)
}

// Adds the digits of the bytes, two to a byte.
#[tactic(auto, using(crate::proofs::HexDigits::bytes_read_back))]
pub fn push_hex_bytes(out: &mut Vec<u8>, bytes: &[u8]) -> Result<(), AllocError>
    ensures made { OnOk result (out.new.items ≡ out.old.items ++ written_bytes bytes.now) }
    ensures reads_back { HexBytesReadBack }
{
    let digits = hex::encode(*out.allocator(), bytes)?;
    out.extend_from_slice(digits.as_bytes())
}

// Adds the four digits of the number.
#[tactic(auto, using(crate::proofs::HexDigits::number_reads_back))]
pub fn push_hex_u16(out: &mut Vec<u8>, number: u16) -> Result<(), AllocError>
    ensures made { OnOk result (out.new.items ≡ out.old.items ++ written_u16 number) }
    ensures reads_back { HexNumberReadsBack }
{
    push_hex_bytes(out, &number.to_be_bytes())
}
