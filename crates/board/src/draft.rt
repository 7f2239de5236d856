// A board that is being filled, and then settled.
ghost use Rattle.std.specs.Prelude.{◌≡◌, length};
ghost use Rattle.board.specs.Refusals.{answer};
ghost use Rattle.board.specs.Content.{new, Sound};
ghost use Rattle.board.specs.Calls.{size_refusal, size_after, row_refusal, row_after, line_refusal, line_after, reprice_refusal, reprice_row_after, reprice_line_after, without_lines};
ghost use Rattle.board.specs.Held.{draft_content};
ghost use Rattle.board.specs.Boards.{settled_content, settled_records};
ghost use Rattle.board.specs.Settling.{SettledLog};
ghost use Rattle.board.specs.Promises.{RecordsAreLeast, RecordedIsCheapest, CallsKeepEaseAndSettle};
ghost use Rattle.board.specs.Computing.{settled_log};
ghost use Rattle.board.specs.Examples.{SettlingExamples};

use crate::bounds::MOST_PLACES;
use crate::refusal::Refusal;
use crate::row::{Line, Row};
use crate::settled::Settled;
use crate::settling::settled_log;
use crate::tables::Tables;
use costs::Kind;

// A draft of a board whose costs are of the kind K.
#[derive(Drop)]
pub struct Draft<K: Kind> {
    pub(crate) tables: Tables<K>,
}

impl<K: Kind> Draft<K> {
    // A new board: one mode, one moment, nothing on it.
    pub fn new() -> Draft<K>
        ensures content { draft_content result ≡ new }
        ensures sound { Sound K.meaning (draft_content result) }
        ensures calls_and_settling { CallsKeepEaseAndSettle }
    {
        Draft {
            tables: Tables::new(),
        }
    }

    // Sets the size, M modes and T moments.
    pub fn size(&mut self, modes: u32, moments: u32) -> Result<(), Refusal>
        ensures answer { result ≡ answer (size_refusal (draft_content self.old) modes moments) tt }
        ensures after { draft_content self.new ≡ size_after (draft_content self.old) modes moments }
    {
        let tables = &mut self.tables;
        if !tables.rows.is_empty() || !tables.lines.is_empty() {
            return Err(Refusal::NotEmpty);
        }
        let places = u64::from(modes) * u64::from(moments);
        if places == 0 || places > MOST_PLACES as u64 {
            return Err(Refusal::SizeOut);
        }
        tables.set_size(modes as u8, moments as u8);
        Ok(())
    }

    // Puts the row last, and answers its number.
    pub fn add_row(&mut self, row: Row) -> Result<usize, Refusal>
        ensures answer { result ≡ answer (row_refusal K.meaning (draft_content self.old) row) (length (draft_content self.old).rows) }
        ensures after { draft_content self.new ≡ row_after K.meaning (draft_content self.old) row }
    {
        let tables = &mut self.tables;
        if tables.rows.is_full() {
            return Err(Refusal::RowsFull);
        }
        if row.from >= tables.modes || row.to >= tables.modes {
            return Err(Refusal::ModeOut);
        }
        if !row.formed() {
            return Err(Refusal::BadRow);
        }
        if !K::is_cost(row.cost) {
            return Err(Refusal::NotACost);
        }
        let n = tables.rows.len();
        tables.push_row(row);
        Ok(n)
    }

    // Puts the line last, and answers its number. (Not one function with `add_row`: each asks for other things, and refuses
    // otherwise.)
    pub fn add_line(&mut self, line: Line) -> Result<usize, Refusal>
        ensures answer { result ≡ answer (line_refusal K.meaning (draft_content self.old) line) (length (draft_content self.old).lines) }
        ensures after { draft_content self.new ≡ line_after K.meaning (draft_content self.old) line }
    {
        let tables = &mut self.tables;
        if tables.lines.is_full() {
            return Err(Refusal::LinesFull);
        }
        if line.from >= tables.moments || line.to >= tables.moments {
            return Err(Refusal::MomentOut);
        }
        if line.event == 0 {
            return Err(Refusal::NoEvent);
        }
        if !K::is_cost(line.cost) {
            return Err(Refusal::NotACost);
        }
        let n = tables.lines.len();
        tables.push_line(line);
        Ok(n)
    }

    // Sets the cost of one row, and of no other.
    pub fn reprice_row(&mut self, n: usize, cost: u32) -> Result<(), Refusal>
        ensures answer { result ≡ answer (reprice_refusal K.meaning (draft_content self.old).rows n cost) tt }
        ensures after { draft_content self.new ≡ reprice_row_after K.meaning (draft_content self.old) n cost }
    {
        may_reprice::<K, _>(&self.tables.rows, n, cost)?;
        self.tables.set_row_cost(n, cost);
        Ok(())
    }

    // Sets the cost of one line, and of no other.
    pub fn reprice_line(&mut self, n: usize, cost: u32) -> Result<(), Refusal>
        ensures answer { result ≡ answer (reprice_refusal K.meaning (draft_content self.old).lines n cost) tt }
        ensures after { draft_content self.new ≡ reprice_line_after K.meaning (draft_content self.old) n cost }
    {
        may_reprice::<K, _>(&self.tables.lines, n, cost)?;
        self.tables.set_line_cost(n, cost);
        Ok(())
    }

    // Drops all lines, and answers how many there were.
    pub fn clear_lines(&mut self) -> usize
        ensures answer { result ≡ length (draft_content self.old).lines }
        ensures after { draft_content self.new ≡ without_lines (draft_content self.old) }
    {
        let n = self.tables.lines.len();
        self.tables.clear_lines();
        n
    }

    // Settles the board: for every pair of places the record that the rounds reach.
    pub fn settle(self) -> Settled<K>
        ensures content { settled_content result ≡ draft_content self }
        ensures records { SettledLog K.meaning (draft_content self) (settled_records result) }
        ensures computed { settled_records result ≡ settled_log K.meaning (draft_content self) }
        ensures calls_and_settling { CallsKeepEaseAndSettle }
        ensures example { SettlingExamples }
        ensures least { RecordsAreLeast K.meaning (draft_content self) (settled_records result) }
        ensures cheapest { RecordedIsCheapest K.meaning (draft_content self) (settled_records result) }
    {
        let tables = self.tables;
        let log = settled_log(&tables);
        Settled { tables, log }
    }
}

// Whether item n can be put at this cost: refused where there is no such item, or no such cost.
fn may_reprice<K: Kind, T>(items: &[T], n: usize, cost: u32) -> Result<(), Refusal>
    ensures { result ≡ answer (reprice_refusal K.meaning items.now n cost) tt }
{
    if n >= items.len() {
        return Err(Refusal::NoSuch);
    }
    if !K::is_cost(cost) {
        return Err(Refusal::NotACost);
    }
    Ok(())
}
