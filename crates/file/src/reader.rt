// A reader of a file's sections.
ghost use Rattle.std.specs.Prelude.{◌≡◌};
ghost use Rattle.file.specs.Readers.{read_so_far, section_result, next_result, admitted, stage_after, section_answer, next_answer, next_after};

use crate::fields::read_head;
use crate::refusal::{FileRefusal, LoadFault};
use crate::section::{Section, SectionKind};
use crate::unread::Unread;

// What the reader awaits. The stages stand in the order of the file: each takes its own section or a later one, and after a
// section the stage behind that section's is awaited.
#[derive(Clone, Copy)]
pub(crate) enum Stage {
    // rows or anything later: codes 1, 2 and 3
    Rows,
    // lines or anything later: codes 2 and 3
    Lines,
    // a note: code 3
    Note,
    // nothing more: no code
    End,
}

// What is left of the file, and what the reader awaits there.
#[derive(Drop)]
pub(crate) struct Reader<'a> {
    pub left: Unread<'a>,
    pub stage: Stage,
}

impl<'a> Reader<'a> {
    // The next section, or none at the file's end. Not an `Iterator`'s `next`: a refused section leaves the reader where it
    // is, and so it would never end.
    pub fn next(&mut self) -> Result<Option<Section<'a>>, LoadFault>
        ensures answer { next_result result ≡ next_answer (read_so_far self.old) }
        ensures after { read_so_far self.new ≡ next_after (read_so_far self.old) }
    {
        if self.left.bytes.is_empty() {
            return Ok(None);
        }
        let place = self.left.place;
        let section = self.section().map_err(|refusal| refusal.at(place))?;
        Ok(Some(section))
    }

    // The section whose head comes next: code (4), count (12). A refused one leaves the reader as it is.
    fn section(&mut self) -> Result<Section<'a>, FileRefusal>
        ensures answer { section_result result ≡ section_answer (read_so_far self.old) }
        ensures after { read_so_far self.new ≡ next_after (read_so_far self.old) }
    {
        let [code_count, count_end, rest @ ..] = self.left.bytes else {
            return Err(FileRefusal::CutShort);
        };
        let (code, count) = read_head(*code_count, *count_end);
        let kind = self.admit(code)?;
        self.left = Unread {
            bytes: rest,
            place: self.left.place + 2,
        };
        let part = self.left.split_off(kind.size(count));
        Ok(kind.section(part, count))
    }

    // Matches the stage that it awaits with the code of the section that comes, and goes on to the stage behind that section;
    // a code that the stage does not take is refused. (By a match, and not by a conversion and an order of kinds: a rule of
    // the project.)
    fn admit(&mut self, code: u8) -> Result<SectionKind, FileRefusal>
        ensures answer { result ≡ admitted self.old.stage code }
        ensures after { self.new.stage ≡ stage_after self.old.stage code }
        ensures same { self.new.left ≡ self.old.left }
    {
        let (kind, next) = match (self.stage, code) {
            (Stage::Rows, 1) => (SectionKind::Rows, Stage::Lines),
            (Stage::Rows | Stage::Lines, 2) => (SectionKind::Lines, Stage::Note),
            (Stage::Rows | Stage::Lines | Stage::Note, 3) => (SectionKind::Note, Stage::End),
            _ => return Err(FileRefusal::WrongSection),
        };
        self.stage = next;
        Ok(kind)
    }
}
