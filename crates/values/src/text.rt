// Writing a value's plain text, whatever options a format asks for.
ghost use Rattle.std.specs.Prelude.{◌≡◌, IfOk, IfSome};
ghost use Rattle.std.specs.Fmt.{DisplaysOnOk, DisplaysStyledOnOk};
ghost use Rattle.std.specs.Fmt.InlineText.{inline_text};

use std::fmt;
use std::fmt::{Formatter, InlineText, Write};

// The most bytes that `write_plain` writes.
const ROOM: usize = 64;

// The value's plain text.
fn text_of<D: fmt::Display + Drop>(value: D) -> Result<InlineText<ROOM>, fmt::Error>
    ensures { IfOk result (λ text. IfSome (D.output value) (λ bs. inline_text text ≡ bs)) }
{
    let mut text = InlineText::new();
    text.write(value)?;
    Ok(text)
}

// Writes the value's plain text, whatever options the formatter has, for the `fmt` of a type that they do not change.
// A text of more than 64 bytes is refused. (Written in one piece: what `write!` writes under options has no clause.)
pub fn write_plain<W: Write, D: fmt::Display + Drop>(f: &mut Formatter<W>, value: D) -> fmt::Result
    ensures plain { DisplaysOnOk W.write_str_gives f.old result (D.output value) f.new }
    ensures styled { DisplaysStyledOnOk W.write_str_gives f.old result (D.output value) f.new }
{
    let text = text_of(value)?;
    f.write_str(text.as_str())
}
