// The program `least`, from its input to its output.
ghost use Rattle.std.specs.Prelude.{◌≡◌, take, IfOk, OnOk, IfSome};
ghost use Rattle.file.specs.Laws.{telling_bytes};
ghost use Rattle.report.specs.Least.{LeastWritten};

use crate::files::least;
use std::alloc::Global;
use std::io;
use std::io::{Read, Write};

// The largest part of the input that is read: so many of a file's first bytes tell all that a load answers. What stands beyond
// never shows: so says `limit` in the contract of `least`.
const TELLING_BYTES: u64 = 8192;

// The input's first bytes, as many as are read.
fn read_first<R: Read + Drop>(heap: Global, reader: R) -> io::Result<Vec<u8>>
    ensures { IfOk result (λ v. IfSome (R.remaining reader) (λ input. v.items ≡ take telling_bytes input)) }
{
    let mut input = Vec::new(heap);
    reader.take(TELLING_BYTES).read_to_end(&mut input)?;
    Ok(input)
}

// Reads a file, at most its first 8,192 bytes, and writes what `least` prints of it, and nothing else; an error where reading,
// writing or memory fails.
pub fn filter<R: Read + Drop, W: Write>(heap: Global, reader: R, writer: &mut W) -> io::Result<()>
    ensures { OnOk result (IfSome (R.remaining reader) (λ input. LeastWritten input (W.contents writer.old) (W.contents writer.new))) }
{
    let input = read_first(heap, reader)?;
    let lines = least(heap, input.as_slice())?;
    writer.write_all(lines.as_slice())
}
