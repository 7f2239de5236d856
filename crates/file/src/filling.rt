// A board that is being filled from a file.
ghost use Rattle.std.specs.Prelude.{◌≡◌, ◌+◌, drop, OnOk};
ghost use Rattle.board.specs.Held.{draft_content};
ghost use Rattle.file.specs.Readers.{section_of, section_read, read_so_far};
ghost use Rattle.file.specs.declared.section.SectionKind.TheVariants.{Note};
ghost use Rattle.file.specs.Records.{record_added, record_next, records_added};
ghost use Rattle.file.specs.Fillings.{told, so_far, from_stage};
ghost use Rattle.file.specs.Load.{section_added, note_taken};

use crate::part::Note;
use crate::reader::Reader;
use crate::record::SectionRecord;
use crate::refusal::{FileRefusal, LoadFault};
use crate::section::Section;
use crate::unread::Unread;
use board::{Draft, Line, Row};
use costs::Kind;

// The board that is lent to be filled, the trust of its lines, and the note so far. (That the board is the one lent and that
// the trust stays are clauses of each method, as it is of all that a method leaves alone.)
#[derive(Drop)]
pub(crate) struct Filling<'d, 'a, K: Kind> {
    pub draft: &'d mut Draft<K>,
    pub trust: u8,
    pub note: Note<'a>,
}

impl<'d, 'a, K: Kind> Filling<'d, 'a, K> {
    // Adds all sections that the reader has left.
    pub fn add_sections(&mut self, mut reader: Reader<'a>) -> Result<(), LoadFault>
        ensures after { told result (so_far self.new) ≡ from_stage K.meaning self.old.trust reader.entry.stage (read_so_far reader.entry).left (so_far self.old) }
        ensures same { (self.new.draft.ghost_name ≡ self.old.draft.ghost_name) × (self.new.trust ≡ self.old.trust) }
    {
        while let Some(section) = reader.next()? {
            self.add_section(section)?;
        }
        Ok(())
    }

    // Adds a section: rows and lines go to the board.
    fn add_section(&mut self, section: Section<'a>) -> Result<(), LoadFault>
        ensures after { told result (so_far self.new) ≡ section_added K.meaning self.old.trust (section_read section.entry) (so_far self.old) }
        ensures same { (self.new.draft.ghost_name ≡ self.old.draft.ghost_name) × (self.new.trust ≡ self.old.trust) }
    {
        match section {
            Section::Rows(part, count) => self.add_records::<Row>(part, count),
            Section::Lines(part, count) => self.add_records::<Line>(part, count),
            Section::Note(part, count) => self.take_note(part, count),
        }
    }

    // Takes the note, which the file has to hold whole.
    fn take_note(&mut self, part: Unread<'a>, count: u16) -> Result<(), LoadFault>
        ensures after { told result (so_far self.new) ≡ note_taken (section_of Note part.entry count) (so_far self.old) }
        ensures same { (self.new.draft.ghost_name ≡ self.old.draft.ghost_name) × (self.new.trust ≡ self.old.trust) × (self.new.draft.now ≡ self.old.draft.now) }
    {
        if part.bytes.len() < usize::from(count) {
            return Err(FileRefusal::CutShort.at(part.place));
        }
        self.note = part.into();
        Ok(())
    }

    // Adds a section's records, one after the other.
    fn add_records<R: SectionRecord>(
        &mut self,
        mut part: Unread<'a>,
        count: u16,
    ) -> Result<(), LoadFault>
        ensures after { told result (draft_content self.new.draft.now) ≡ records_added (record_added R.read_as (R.added K.meaning self.old.trust)) count part.entry.bytes.now part.entry.place (draft_content self.old.draft.now) }
        ensures same { (self.new.draft.ghost_name ≡ self.old.draft.ghost_name) × (self.new.trust ≡ self.old.trust) × (self.new.note ≡ self.old.note) }
    {
        for _ in 0..count {
            let place = part.place;
            self.add_record::<R>(&mut part)
                .map_err(|refusal| refusal.at(place))?;
        }
        Ok(())
    }

    // Adds the record that comes next, and goes past it: four bytes of fields, which a row and a line divide each in its own
    // way, and four of cost. (So they are read as one word.)
    fn add_record<R: SectionRecord>(&mut self, part: &mut Unread<'a>) -> Result<(), FileRefusal>
        ensures after { told result (draft_content self.new.draft.now) ≡ record_next (record_added R.read_as (R.added K.meaning self.old.trust)) part.old.bytes.now (draft_content self.old.draft.now) }
        ensures rest { OnOk result ((part.new.bytes.now ≡ drop 8 part.old.bytes.now) × (part.new.place ≡ part.old.place + 8)) }
        ensures same { (self.new.draft.ghost_name ≡ self.old.draft.ghost_name) × (self.new.trust ≡ self.old.trust) × (self.new.note ≡ self.old.note) }
    {
        let [
            fields1,
            fields2,
            fields3,
            fields4,
            cost1,
            cost2,
            cost3,
            cost4,
            rest @ ..,
        ] = part.bytes
        else {
            return Err(FileRefusal::CutShort);
        };
        let word = u64::from_be_bytes([
            *fields1, *fields2, *fields3, *fields4, *cost1, *cost2, *cost3, *cost4,
        ]);
        *part = Unread {
            bytes: rest,
            place: part.place + 8,
        };
        let record = R::read(word)?;
        record.add(self.draft, self.trust)
    }
}
