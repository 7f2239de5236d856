// Reading a line of a script.
ghost use Rattle.std.specs.Prelude.{◌≡◌, map, IfSome};
ghost use Rattle.script.specs.Script.{script_part_of, words_parsed, line_parsed, parsed_of};
ghost use Rattle.script.specs.Written.{CommandsReadBack};

use crate::command::Command;
use crate::error::ParseError;
use crate::forms::command_named;
use crate::name::name_of_word;
use std::alloc::Global;
use words::{Spacing, pieces, split_once, trimmed, word_theorems};

// The part of a line that is the script: what stands before the first arrow, without spacing at its ends.
pub fn script_part(line: &[u8]) -> &[u8]
    ensures { result.now ≡ script_part_of line.now }
{
    let script = split_once(line, b" -> ").map_or(line, |(script, _)| script);
    trimmed::<Spacing>(script)
}

// What a line of these words says: a command, or nothing where it is empty or a comment.
fn parse_words(heap: Global, words: &[&[u8]]) -> Result<Option<Command>, ParseError>
    ensures { IfSome (parsed_of result) (λ p. p ≡ words_parsed (map (λ x. x.now) words.now)) }
{
    match words {
        [] | [[b'#', ..], ..] => Ok(None),
        [first, rest @ ..] => {
            let name = name_of_word(first).ok_or(ParseError::Unreadable)?;
            let command = command_named(heap, name, rest)?;
            Ok(Some(command))
        }
    }
}

// What the line says: a command, or nothing where it is empty or a comment.
#[tactic(auto, using(crate::proofs::Writing::reads_written))]
pub fn parse(heap: Global, line: &[u8]) -> Result<Option<Command>, ParseError>
    ensures made { IfSome (parsed_of result) (λ p. p ≡ line_parsed line.now) }
    ensures reads_written { CommandsReadBack }
{
    word_theorems();
    let words = pieces::<Spacing>(heap, script_part(line))?;
    parse_words(heap, words.as_slice())
}
