// The forms of commands: each function reads the words after a command's name.
ghost use Rattle.std.specs.Prelude.{◌≡◌, map, IfSome, slice_index};
ghost use Rattle.std.specs.Option.{option_map};
ghost use Rattle.words.specs.Numbers.{numbers_of};
ghost use Rattle.script.specs.Commands.{command_of};
ghost use Rattle.script.specs.Reads.{read_of};
ghost use Rattle.script.specs.Forms.{two_wide, alone_command, kind_command, row_command, line_command, file_word, load_command, path_command};
ghost use Rattle.script.specs.Repeats.{check_command};
ghost use Rattle.script.specs.Script.{command_named};

use crate::check::moves;
use crate::command::Command;
use crate::error::ParseError;
use crate::limits::LONGEST_LIST;
use crate::name::Name;
use board::{Line, Row, RowKind};
use costs::KindName;
use std::alloc::Global;
use words::{U8_MAX, U32_MAX, hex_byte_pairs, numbers};

// The command, where no words follow its name.
fn alone(command: Command, words: &[&[u8]]) -> Option<Command>
    ensures { option_map command_of result ≡ alone_command (command_of command) (map (λ x. x.now) words.now) }
{
    words.is_empty().then_some(command)
}

// kind LETTER
fn kind(words: &[&[u8]]) -> Option<Command>
    ensures { option_map command_of result ≡ kind_command (map (λ x. x.now) words.now) }
{
    let [[letter]] = words else {
        return None;
    };
    let kind = KindName::try_from(char::from(*letter)).ok()?;
    Some(Command::Kind(kind))
}

// Two numbers of 32 bits.
fn two(words: &[&[u8]]) -> Option<(u32, u32)>
    ensures { result ≡ option_map (λ ns. (slice_index ns 0, slice_index ns 1)) (numbers_of two_wide (map (λ x. x.now) words.now)) }
{
    let [first, second] = numbers(words, [U32_MAX, U32_MAX])?;
    Some((first as u32, second as u32))
}

// row KIND FROM TO LABEL ACTION COST
fn add_row(words: &[&[u8]]) -> Option<Command>
    ensures { option_map command_of result ≡ row_command (map (λ x. x.now) words.now) }
{
    let [kind, from, to, label, action, cost] = numbers(
        words,
        [U8_MAX, U8_MAX, U8_MAX, U8_MAX, U8_MAX, U32_MAX],
    )?;
    Some(Command::AddRow(Row {
        kind: RowKind::try_from(kind as u8).ok()?,
        from: from as u8,
        to: to as u8,
        label: label as u8,
        action: action as u8,
        cost: cost as u32,
    }))
}

// line FROM TO EVENT COST
fn add_line(words: &[&[u8]]) -> Option<Command>
    ensures { option_map command_of result ≡ line_command (map (λ x. x.now) words.now) }
{
    let [from, to, event, cost] = numbers(words, [U8_MAX, U8_MAX, U8_MAX, U32_MAX])?;
    Some(Command::AddLine(Line {
        from: from as u8,
        to: to as u8,
        event: event as u8,
        cost: cost as u32,
    }))
}

// The word of a file's bytes: none is an empty file.
fn file_word<'a>(words: &[&'a [u8]]) -> Option<&'a [u8]>
    ensures { option_map (λ x. x.now) result ≡ file_word (map (λ x. x.now) words.now) }
{
    match words {
        [] => Some(b""),
        [word] => Some(word),
        _ => None,
    }
}

// load HEX
fn load(heap: Global, words: &[&[u8]]) -> Result<Command, ParseError>
    ensures { IfSome (read_of command_of result) (λ o. o ≡ load_command (map (λ x. x.now) words.now)) }
{
    let word = file_word(words).ok_or(ParseError::Unreadable)?;
    let bytes = hex_byte_pairs(heap, word)?.ok_or(ParseError::Unreadable)?;
    Ok(Command::Load(bytes))
}

// path LENGTH
fn path(words: &[&[u8]]) -> Option<Command>
    ensures { option_map command_of result ≡ path_command (map (λ x. x.now) words.now) }
{
    let [length] = numbers(words, [LONGEST_LIST as u64])?;
    Some(Command::Path(length as usize))
}

// check HEX..
fn check(heap: Global, words: &[&[u8]]) -> Result<Command, ParseError>
    ensures { IfSome (read_of command_of result) (λ o. o ≡ check_command (map (λ x. x.now) words.now)) }
{
    let moves = moves(heap, words)?;
    Ok(Command::Check(moves))
}

// The command of that name with the words after it.
pub fn command_named(heap: Global, name: Name, words: &[&[u8]]) -> Result<Command, ParseError>
    ensures { IfSome (read_of command_of result) (λ o. o ≡ command_named name (map (λ x. x.now) words.now)) }
{
    let command = match name {
        Name::Kind => kind(words),
        Name::Size => two(words).map(|(modes, moments)| Command::Size(modes, moments)),
        Name::Row => add_row(words),
        Name::Line => add_line(words),
        Name::RepriceRow => two(words).map(|(row, cost)| Command::RepriceRow(row as usize, cost)),
        Name::RepriceLine => {
            two(words).map(|(line, cost)| Command::RepriceLine(line as usize, cost))
        }
        Name::Clear => alone(Command::ClearLines, words),
        Name::Load => return load(heap, words),
        Name::Settle => alone(Command::Settle, words),
        Name::Reopen => alone(Command::Reopen, words),
        Name::Cost => alone(Command::Cost, words),
        Name::Path => path(words),
        Name::Between => two(words).map(|(s, q)| Command::Between(s as usize, q as usize)),
        Name::Check => return check(heap, words),
    };
    command.ok_or(ParseError::Unreadable)
}
