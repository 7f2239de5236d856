// The words of check: a number of 16 bits in hexadecimal, or HEX*K for that number K times.
ghost use Rattle.std.specs.Prelude.{◌≡◌, map, IfSome, vec_items};
ghost use Rattle.script.specs.Reads.{read_of};
ghost use Rattle.script.specs.Repeats.{repeat_of, moves_of};

use crate::error::ParseError;
use crate::limits::LONGEST_LIST;
use std::alloc::Global;
use words::{U32_MAX, hex_u16, number, split_once};

// A move so many times.
#[derive(Clone, Copy)]
pub struct Repeat {
    number: u16,
    times: u32,
}

// The repeated move that the word writes.
fn read_repeat(word: &[u8]) -> Option<Repeat>
    ensures { result ≡ repeat_of word.now }
{
    let (hex, times) = match split_once(word, b"*") {
        Some((hex, times)) => (hex, number(times, U32_MAX)? as u32),
        None => (word, 1),
    };
    let number = hex_u16(hex)?;
    Some(Repeat { number, times })
}

// The numbers that the words list, where there are not too many.
pub fn moves(heap: Global, words: &[&[u8]]) -> Result<Vec<u16>, ParseError>
    ensures { IfSome (read_of vec_items result) (λ o. o ≡ moves_of (map (λ x. x.now) words.now)) }
{
    let mut list = Vec::new(heap);
    for word in words {
        let repeat = read_repeat(word).ok_or(ParseError::Unreadable)?;
        let len = list.len() + repeat.times as usize;
        if len > LONGEST_LIST {
            return Err(ParseError::Unreadable);
        }
        list.resize(len, repeat.number)?;
    }
    Ok(list)
}
