// What is printed for lines of input.
ghost use Rattle.std.specs.Prelude.{◌≡◌, ◌++◌, IfOk, OnOk, IsSomeAnd};
ghost use Rattle.price.specs.Lines.{answer_of};
ghost use Rattle.price.specs.Printed.{word_line, answer_printed, input_printed, LineByLine};

use crate::answer::{LineAnswer, LineFault};
use crate::line::line_answer;
use std::alloc::{AllocError, Global};
use words::{Newline, pieces, word_theorems};

// Adds a line of a label and the word. (By bytes, and not by `Display`: the word stands as it was written, and need be no
// text.)
fn push_word_line(out: &mut Vec<u8>, label: &[u8], word: &[u8]) -> Result<(), AllocError>
    ensures { OnOk result (out.new.items ≡ out.old.items ++ word_line label.now word.now) }
{
    out.extend_from_slice(label)?;
    out.extend_from_slice(word)?;
    out.extend_from_slice(b"\n")?;
    Ok(())
}

// Adds what is printed of an answer. A number that is no cost of the kind is refusal 10. (Where memory did not suffice,
// nothing is printed, and that is the error of the whole.)
fn push_answer(out: &mut Vec<u8>, answer: LineAnswer<'_>) -> Result<(), AllocError>
    ensures { OnOk result (IsSomeAnd (answer_of answer.entry) (λ a. out.new.items ≡ out.old.items ++ answer_printed a)) }
{
    match answer {
        Ok(None) => Ok(()),
        Ok(Some(total)) => {
            let line = format!(in *out.allocator(); "{total}\n")?;
            out.extend_from_slice(line.as_bytes())
        }
        Err(LineFault::NotACost(word)) => push_word_line(out, b"no 10 ", word),
        Err(LineFault::Unreadable(word)) => push_word_line(out, b"unreadable ", word),
        Err(LineFault::OutOfMemory) => Err(AllocError),
    }
}

// What is printed for the whole input.
#[tactic(auto, using(crate::proofs::Printing::line_by_line))]
pub fn price_lines(heap: Global, input: &[u8]) -> Result<Vec<u8>, AllocError>
    ensures made { IfOk result (λ v. v.items ≡ input_printed input.now) }
    ensures line_by_line { LineByLine }
{
    word_theorems();
    let lines = pieces::<Newline>(heap, input)?;
    let mut out = Vec::new(heap);
    for line in lines.as_slice() {
        push_answer(&mut out, line_answer(heap, line))?;
    }
    Ok(out)
}
