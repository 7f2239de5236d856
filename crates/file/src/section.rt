// The sections of a file.
ghost use Rattle.std.specs.Prelude.{◌≡◌};
ghost use Rattle.file.specs.Sections.{section_size};
ghost use Rattle.file.specs.Readers.{section_code, section_of, section_read};

use crate::unread::Unread;

// What a section holds, in the order of the file. Each kind has its code there.
#[derive(Clone, Copy)]
pub(crate) enum SectionKind {
    // 1: rows
    Rows,
    // 2: lines
    Lines,
    // 3: a note
    Note,
}

// A section: its bytes after its head, as far as the file goes, and how many records or bytes its head announces. (An enum
// with both in each case, and so functions that take both: a rule of the project.)
#[derive(Clone, Copy)]
pub(crate) enum Section<'a> {
    // 1: rows
    Rows(Unread<'a>, u16),
    // 2: lines
    Lines(Unread<'a>, u16),
    // 3: a note
    Note(Unread<'a>, u16),
}

impl SectionKind {
    // How many bytes a section of so many records or bytes has: eight for a row or a line, one for each of a note.
    pub fn size(self, count: u16) -> usize
        ensures { result ≡ section_size (section_code self) count }
    {
        match self {
            SectionKind::Rows | SectionKind::Lines => 8 * usize::from(count),
            SectionKind::Note => usize::from(count),
        }
    }

    // The section of this kind that has that part and count.
    pub fn section<'a>(self, part: Unread<'a>, count: u16) -> Section<'a>
        ensures { section_read result ≡ section_of self part.entry count }
    {
        match self {
            SectionKind::Rows => Section::Rows(part, count),
            SectionKind::Lines => Section::Lines(part, count),
            SectionKind::Note => Section::Note(part, count),
        }
    }
}
