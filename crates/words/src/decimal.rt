// The decimal number that a word writes.
ghost use Rattle.std.specs.Prelude.{◌≡◌, ◌≤◌, map, IfSome};
ghost use Rattle.words.specs.Digits.{after_digit};
ghost use Rattle.words.specs.Numbers.{number_of, numbers_of, Within, DecimalReadsBack};

// The largest number of 8 bits.
pub const U8_MAX: u64 = u8::MAX as u64;

// The largest number of 32 bits.
pub const U32_MAX: u64 = u32::MAX as u64;

// The number that n becomes with one more digit, where the byte is a digit and the number is at most `most`.
fn with_digit(n: u64, byte: u8, most: u64) -> Option<u64>
    ensures { result ≡ after_digit most n byte }
{
    let digit = char::from(byte).to_digit(10)?;
    let next = n.checked_mul(10)?.checked_add(u64::from(digit))?;
    if next <= most { Some(next) } else { None }
}

// The word's number: one or more decimal digits, and nothing else, that write a number of at most `most`.
#[tactic(auto, using(crate::proofs::Digits::reads_back), unfolding(crate::specs::Numbers::number_of))]
pub fn number(word: &[u8], most: u64) -> Option<u64>
    ensures value { result ≡ number_of most word.now }
    ensures bound { IfSome result (λ n. n ≤ most) }
    ensures reads_back { DecimalReadsBack most }
{
    if word.is_empty() {
        return None;
    }
    let mut n = 0;
    for byte in word {
        n = with_digit(n, *byte, most)?;
    }
    Some(n)
}

// The words' numbers: one word for each limit, and its number up to that limit.
pub fn numbers<const N: usize>(words: &[&[u8]], most: [u64; N]) -> Option<[u64; N]>
    ensures value { result ≡ numbers_of most.entry (map (λ x. x.now) words.now) }
    ensures bound { IfSome result (λ ns. Within most.entry ns) }
{
    if words.len() != N {
        return None;
    }
    // a loop and no `array::try_from_fn`, which asks its caller that the items of an iterator fit the memory
    let mut found = [0; N];
    for (i, word) in words.iter().enumerate() {
        found[i] = number(word, most[i])?;
    }
    Some(found)
}
