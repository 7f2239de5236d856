// What is printed of a call's answer.
ghost use Rattle.std.specs.Prelude.{◌≡◌, ◌++◌, OnOk, IfSome};
ghost use Rattle.std.specs.List.{flat_map};
ghost use Rattle.script.specs.Telling.{result_text, spaced_number, file_of, note_text, buffer_text, told_text};

use file::{Answer, Call, NoteSpan};
use std::alloc::AllocError;
use std::fmt::Display;
use words::{push_hex_bytes, push_hex_u16};

// The longest buffer that is printed.
const SHOWN: usize = 40;

// Adds the value's own text.
fn push_text<T: Display>(out: &mut Vec<u8>, value: &T) -> Result<(), AllocError>
    ensures { OnOk result (IfSome (T.output value.now) (λ text. out.new.items ≡ out.old.items ++ text)) }
{
    let text = format!(in *out.allocator(); "{value}")?;
    out.extend_from_slice(text.as_bytes())
}

// Adds what was answered, or why it was refused.
fn push_result<T: Display + Drop, E: Display + Drop>(
    out: &mut Vec<u8>,
    answer: Result<T, E>,
) -> Result<(), AllocError>
    ensures { OnOk result (IfSome (result_text T.output E.output answer) (λ text. out.new.items ≡ out.old.items ++ text)) }
{
    match answer {
        Ok(value) => push_text(out, &value),
        Err(refusal) => push_text(out, &refusal),
    }
}

// Adds the numbers, a space before each.
fn push_numbers(out: &mut Vec<u8>, numbers: &[u16]) -> Result<(), AllocError>
    ensures { OnOk result (out.new.items ≡ out.old.items ++ flat_map spaced_number numbers.now) }
{
    for number in numbers {
        out.extend_from_slice(b" ")?;
        push_hex_u16(out, *number)?;
    }
    Ok(())
}

// Adds the whole buffer, where it is not too long to be shown.
fn push_buffer(out: &mut Vec<u8>, buffer: &[u16]) -> Result<(), AllocError>
    ensures { OnOk result (out.new.items ≡ out.old.items ++ buffer_text buffer.now) }
{
    if buffer.len() > SHOWN {
        return Ok(());
    }
    push_numbers(out, buffer)
}

// Adds a note: its place and its bytes, which stand in the file.
fn push_note(out: &mut Vec<u8>, file: &[u8], note: NoteSpan) -> Result<(), AllocError>
    ensures { OnOk result (out.new.items ≡ out.old.items ++ note_text file.now note) }
{
    let text = format!(in *out.allocator(); "note {} ", note.place)?;
    out.extend_from_slice(text.as_bytes())?;
    push_hex_bytes(out, note.bytes(file))
}

// The bytes of the file that the call loads; another call has none.
pub(crate) fn file_of<'a>(call: Call<'a>) -> &'a [u8]
    ensures { result.now ≡ file_of call.entry }
{
    match call {
        Call::Load(file) => file,
        _ => &[],
    }
}

// Adds the answer of a call; `file` is the one that it loads, and `buffer` the one that stood beside it.
pub(crate) fn push_answer(
    out: &mut Vec<u8>,
    answer: Answer,
    file: &[u8],
    buffer: &[u16],
) -> Result<(), AllocError>
    ensures { OnOk result (out.new.items ≡ out.old.items ++ told_text answer file.now buffer.now) }
{
    match answer {
        Answer::NotTaken => out.extend_from_slice(b"not taken"),
        Answer::Settled | Answer::Reopened => out.extend_from_slice(b"ok"),
        Answer::Sized(r) | Answer::Repriced(r) => push_result(out, r.map(|()| "ok")),
        Answer::Added(r) => push_result(out, r),
        Answer::Cleared(n) => push_text(out, &n),
        Answer::Loaded(Ok(note)) => push_note(out, file, note),
        Answer::Loaded(Err(fault)) => push_text(out, &fault),
        Answer::Cost(Ok((cost, moves))) => {
            let text = format!(in *out.allocator(); "{cost} {moves}")?;
            out.extend_from_slice(text.as_bytes())
        }
        Answer::Cost(Err(refusal)) => push_text(out, &refusal),
        Answer::Path(r) => {
            push_result(out, r)?;
            push_buffer(out, buffer)
        }
        Answer::Between(r) => push_result(out, r),
        Answer::Checked(r) => push_result(out, r),
    }
}
