// The program, from its input to its output.
ghost use Rattle.std.specs.Prelude.{OnOk, IfSome};
ghost use Rattle.std.specs.Io.KnownBytes.{Appends};
ghost use Rattle.price.specs.Printed.{input_printed};

use crate::text::price_lines;
use std::alloc::Global;
use std::io;
use std::io::{Read, Write};

// Reads lines to the input's end, and writes what is printed for them, and nothing else; an error where reading, writing or
// memory fails.
pub fn filter<R: Read, W: Write>(heap: Global, reader: &mut R, writer: &mut W) -> io::Result<()>
    ensures { OnOk result (IfSome (R.remaining reader.old) (λ input. Appends (W.contents writer.old) (W.contents writer.new) (input_printed input))) }
{
    let mut input = Vec::new(heap);
    reader.read_to_end(&mut input)?;
    let lines = price_lines(heap, input.as_slice())?;
    writer.write_all(lines.as_slice())
}
