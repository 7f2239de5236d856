// Reading a line: a kind's letter, and then costs of that kind.
ghost use Rattle.std.specs.Prelude.{◌≡◌, ◌<◌, map, length, Ok, IfOk, IfErr, IfSome, MatchResult};
ghost use Rattle.std.specs.Option.{option_map};
ghost use Rattle.costs.specs.Lists.{join_answer};
ghost use Rattle.costs.specs.Names.{meaning_of};
ghost use Rattle.price.specs.Unread.{FirstUnread};
ghost use Rattle.std.specs.Str.Lines.{strip_carriage_return};
ghost use Rattle.price.specs.Lines.{kind_of, read_costs, answer_of, words_answer, line_answer, CostsReadBack};

use crate::answer::{LineAnswer, LineFault, Total};
use costs::{KindName, Points, Rank, Severity, join_all};
use std::alloc::Global;
use words::{Spacing, U32_MAX, number, pieces, word_theorems};

// The line without a carriage return at its end.
fn without_return(line: &[u8]) -> &[u8]
    ensures { result.now ≡ strip_carriage_return line.now }
{
    line.strip_suffix(b"\r").unwrap_or(line)
}

// The kind whose letter the word is.
fn kind_named(word: &[u8]) -> Option<KindName>
    ensures { option_map meaning_of result ≡ kind_of word.now }
{
    let [byte] = word else {
        return None;
    };
    KindName::try_from(char::from(*byte)).ok()
}

// The words' numbers, or the first word that is no number.
fn numbers<'a>(heap: Global, words: &[&'a [u8]]) -> Result<Vec<u32>, LineFault<'a>>
    ensures read { MatchResult result (λ ns. read_costs (map (λ x. x.now) words.now) ≡ Ok ns.items) (FirstUnread (map (λ x. x.now) words.now)) }
    ensures one_each { IfOk result (λ ns. length ns.items ≡ length words.now) }
{
    let mut numbers = Vec::new(heap);
    for word in words {
        let n = number(word, U32_MAX).ok_or(LineFault::Unreadable(word))?;
        numbers.push(n as u32)?;
    }
    Ok(numbers)
}

// The numbers joined under the kind, or the index of the first that is no cost. (A kind is a type: a trait whose method is
// run under each would be no plainer than three arms.)
fn joined(kind: KindName, numbers: &[u32]) -> Result<u32, usize>
    ensures value { result ≡ join_answer (meaning_of kind) numbers.now }
    ensures within { IfErr result (λ i. i < length numbers.now) }
{
    match kind {
        KindName::Points => join_all::<Points>(numbers),
        KindName::Severity => join_all::<Severity>(numbers),
        KindName::Rank => join_all::<Rank>(numbers),
    }
}

// What a line of these words comes to.
fn words_answer<'a>(heap: Global, words: &[&'a [u8]]) -> LineAnswer<'a>
    ensures { IfSome (answer_of result) (λ a. a ≡ words_answer (map (λ x. x.now) words.now)) }
{
    let Some((letter, costs)) = words.split_first() else {
        return Ok(None);
    };
    let kind = kind_named(letter).ok_or(LineFault::Unreadable(letter))?;
    let numbers = numbers(heap, costs)?;
    let cost = joined(kind, numbers.as_slice()).map_err(|i| LineFault::NotACost(costs[i]))?;
    Ok(Some(Total { kind, cost }))
}

// What the line comes to.
#[tactic(auto, using(crate::proofs::Written::reads_written))]
pub fn line_answer<'a>(heap: Global, line: &'a [u8]) -> LineAnswer<'a>
    ensures made { IfSome (answer_of result) (λ a. a ≡ line_answer line.now) }
    ensures reads_written { CostsReadBack }
{
    word_theorems();
    let words = pieces::<Spacing>(heap, without_return(line))?;
    words_answer(heap, words.as_slice())
}
