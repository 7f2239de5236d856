// Loading a file into a draft.
ghost use Rattle.std.specs.Prelude.{◌≡◌, ◌+◌, ◌≤◌, length, drop, IfOk, OnOk};
ghost use Rattle.costs.specs.Meaning.{Meaning};
ghost use Rattle.board.specs.Content.{Content, Sound};
ghost use Rattle.board.specs.Held.{draft_content};
ghost use Rattle.file.specs.Examples.{LayoutExamples};
ghost use Rattle.file.specs.Parts.{answered};
ghost use Rattle.file.specs.Layout.{LoadsExactly, longest_file};
ghost use Rattle.file.specs.Declined.{DeclinesExactly};
ghost use Rattle.file.specs.Load.{opened, filled, note_answer, content_left, load_answer, load_after};
ghost use Rattle.file.specs.Fillings.{told_note, told_trust};

use crate::fields::read_header;
use crate::filling::Filling;
use crate::part::{Note, Part};
use crate::reader::{Reader, Stage};
use crate::refusal::{FileRefusal, LoadFault};
use crate::unread::Unread;
use board::Draft;
use costs::Kind;

// A board that a file is loaded into.
pub trait Load {
    ghost costs: { Meaning };

    ghost content: { Self → Content };

    // Empties the board, then sizes and fills it as the file says; answers the file's note. Declined, the board is new.
    fn load<'a>(&mut self, bytes: &'a [u8]) -> Result<Note<'a>, LoadFault>
        ensures answer { answered result ≡ load_answer costs bytes.now }
        ensures after { content self.new ≡ load_after costs bytes.now }
        ensures sound { Sound costs (content self.new) }
        ensures exact { LoadsExactly costs bytes.now (answered result) (content self.new) }
        ensures refusals { DeclinesExactly costs bytes.now (answered result) }
        ensures size { IfOk result (λ _. length bytes.now ≤ longest_file) }
        ensures examples { LayoutExamples };
}

impl<K: Kind> Load for Draft<K> {
    ghost costs = { K.meaning };

    ghost content = { λ d. draft_content d };

    fn load<'a>(&mut self, bytes: &'a [u8]) -> Result<Note<'a>, LoadFault> {
        *self = Draft::new();
        fill(self, bytes)
    }
}

// Sizes and fills the draft as the file says; where a part is refused, the draft is made new.
fn fill<'a, K: Kind>(draft: &mut Draft<K>, bytes: &'a [u8]) -> Result<Note<'a>, LoadFault>
    ensures answer { answered result ≡ note_answer (filled K.meaning bytes.now (draft_content draft.old)) }
    ensures after { draft_content draft.new ≡ content_left (filled K.meaning bytes.now (draft_content draft.old)) }
{
    let answer = fill_parts(draft, bytes);
    if answer.is_err() {
        *draft = Draft::new();
    }
    answer
}

// The same, but where a part is refused, the draft is left as far as it was filled.
fn fill_parts<'a, K: Kind>(draft: &mut Draft<K>, bytes: &'a [u8]) -> Result<Note<'a>, LoadFault>
    ensures after { told_note result (draft_content draft.new) ≡ filled K.meaning bytes.now (draft_content draft.old) }
{
    let mut left = Unread { bytes, place: 0 };
    let trust = open(draft, &mut left).map_err(|refusal| refusal.at(0))?;
    let none = Part {
        bytes: &bytes[bytes.len()..],
        place: bytes.len(),
    };
    let mut filling = Filling {
        draft,
        trust,
        note: none,
    };
    filling.add_sections(Reader {
        left,
        stage: Stage::Rows,
    })?;
    Ok(filling.note)
}

// Sizes the draft as the header says, and goes past the header; answers the trust that it gives.
fn open<K: Kind>(draft: &mut Draft<K>, left: &mut Unread<'_>) -> Result<u8, FileRefusal>
    ensures after { told_trust result (draft_content draft.new) ≡ opened K.meaning left.old.bytes.now (draft_content draft.old) }
    ensures rest { OnOk result ((left.new.bytes.now ≡ drop 4 left.old.bytes.now) × (left.new.place ≡ left.old.place + 4)) }
{
    let [letter, modes_moments, moments_zeros, trust, rest @ ..] = left.bytes else {
        return Err(FileRefusal::CutShort);
    };
    let header = read_header::<K>(*letter, *modes_moments, *moments_zeros, *trust)?;
    *left = Unread {
        bytes: rest,
        place: left.place + 4,
    };
    draft.size(u32::from(header.modes), u32::from(header.moments))?;
    Ok(header.trust)
}
