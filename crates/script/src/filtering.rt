// The program `replay`, from its input to its output.
ghost use Rattle.std.specs.Prelude.{OnOk, IfSome};
ghost use Rattle.std.specs.Io.KnownBytes.{Appends};
ghost use Rattle.script.specs.Printing.{printed};

use crate::running::run;
use std::alloc::Global;
use std::io;
use std::io::{Read, Write};

// Reads a script to its end, and writes what is printed of it, and nothing else; an error where reading, writing or memory
// fails.
pub fn filter<R: Read, W: Write>(heap: Global, reader: &mut R, writer: &mut W) -> io::Result<()>
    ensures { OnOk result (IfSome (R.remaining reader.old) (λ input. Appends (W.contents writer.old) (W.contents writer.new) (printed input))) }
{
    let mut input = Vec::new(heap);
    reader.read_to_end(&mut input)?;
    let lines = run(heap, input.as_slice())?;
    writer.write_all(lines.as_slice())
}
