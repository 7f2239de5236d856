// What a section of rows or of lines holds.
ghost use Rattle.std.specs.Prelude.{◌≡◌, ℕ, Result};
ghost use Rattle.costs.specs.Meaning.{Meaning};
ghost use Rattle.board.specs.Content.{Content};
ghost use Rattle.board.specs.Held.{draft_content};
ghost use Rattle.file.specs.declared.refusal.FileRefusal.{FileRefusal};
ghost use Rattle.file.specs.Fields.{row_read, line_read};
ghost use Rattle.file.specs.Records.{row_added, line_added, trusted_line};
ghost use Rattle.file.specs.Fillings.{told};

use crate::fields::bits;
use crate::refusal::FileRefusal;
use crate::trust::trusted_cost;
use board::{Draft, Line, Row, RowKind};
use costs::Kind;

// A record of a section: a row or a line.
pub(crate) trait SectionRecord: Sized {
    // What eight bytes are read as.
    ghost read_as: { ℕ → Result Self FileRefusal };

    // What a board's content becomes with it, under that trust.
    ghost added: { Meaning → ℕ → Content → Self → Result Content FileRefusal };

    // The record that eight bytes are.
    fn read(word: u64) -> Result<Self, FileRefusal>
        ensures { result ≡ read_as word };

    // Puts it on the board, a line's cost as trust has it. (Draft and trust are lent by `Filling`, which holds them.)
    fn add<K: Kind>(self, draft: &mut Draft<K>, trust: u8) -> Result<(), FileRefusal>
        ensures after { told result (draft_content draft.new) ≡ added K.meaning trust (draft_content draft.old) self };
}

impl SectionRecord for Row {
    ghost read_as = { row_read };

    ghost added = { λ m _ c r. row_added m c r };

    // kind (2), from (6), to (6), label (8), action (8), zeros (2), cost (32)
    fn read(word: u64) -> Result<Row, FileRefusal> {
        if bits(word, 32, 2) != 0 {
            return Err(FileRefusal::NotZero);
        }
        Ok(Row {
            kind: RowKind::try_from(bits(word, 62, 2) as u8).unwrap(),
            from: bits(word, 56, 6) as u8,
            to: bits(word, 50, 6) as u8,
            label: bits(word, 42, 8) as u8,
            action: bits(word, 34, 8) as u8,
            cost: bits(word, 0, 32) as u32,
        })
    }

    #[tactic(auto, unfolding(crate::specs::Records::row_added))]
    fn add<K: Kind>(self, draft: &mut Draft<K>, _trust: u8) -> Result<(), FileRefusal> {
        draft.add_row(self)?;
        Ok(())
    }
}

impl SectionRecord for Line {
    ghost read_as = { line_read };

    ghost added = { λ m trust c l. line_added m c (trusted_line m trust l) };

    // from (6), to (6), event (8), zeros (12), cost (32)
    fn read(word: u64) -> Result<Line, FileRefusal> {
        if bits(word, 32, 12) != 0 {
            return Err(FileRefusal::NotZero);
        }
        Ok(Line {
            from: bits(word, 58, 6) as u8,
            to: bits(word, 52, 6) as u8,
            event: bits(word, 44, 8) as u8,
            cost: bits(word, 0, 32) as u32,
        })
    }

    #[tactic(auto, unfolding(crate::specs::Records::line_added))]
    fn add<K: Kind>(self, draft: &mut Draft<K>, trust: u8) -> Result<(), FileRefusal> {
        let cost = trusted_cost::<K>(self.cost, trust);
        draft.add_line(Line { cost, ..self })?;
        Ok(())
    }
}
