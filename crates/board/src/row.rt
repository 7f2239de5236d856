// Rows and lines.
ghost use Rattle.std.specs.Prelude.{◌≡◌, Some, IfOk};
ghost use Rattle.std.specs.Option.{ok_or};
ghost use Rattle.std.proofs.Common.{rules};
ghost use Rattle.board.specs.Calls.{row_at_cost, line_at_cost};
ghost use Rattle.board.specs.Rows.{kind_number, kind_of_number, formed, zero_row, zero_line};
ghost use Rattle.board.specs.Moves.{effect};
ghost use Rattle.board.specs.Arrivals.{takes_line, timely};
ghost use Rattle.board.specs.Winning.{is_close, closes_from, closes_to};
ghost use Rattle.board.specs.Minima.{sort_like};

use crate::moves::Effect;
use values::{ExactClone, ExactEq};

// What a row does. The numbers are those of the file format.
#[derive(Clone, Copy, Debug, PartialEq, Eq)]
pub enum RowKind {
    // 0: changes the mode, alone or with a line of its event
    Plain = 0,
    // 1: opens a bracket
    Open = 1,
    // 2: closes a bracket
    Close = 2,
    // 3: ends a reading
    End = 3,
}

// A row of the table.
#[derive(Clone, Copy, Debug, PartialEq, Eq)]
pub struct Row {
    pub kind: RowKind,
    // the mode it leaves, and the mode it enters
    pub from: u8,
    pub to: u8,
    // of a plain row an event, 0 for none; of an open or close row its bracket; of an end row 0
    pub label: u8,
    pub action: u8,
    pub cost: u32,
}

// A line of the report.
#[derive(Clone, Copy, Debug, PartialEq, Eq)]
pub struct Line {
    // the moment it leaves, and the moment it enters
    pub from: u8,
    pub to: u8,
    pub event: u8,
    pub cost: u32,
}

impl RowKind {
    // Its number. (By `as`, the language's own conversion of an enum with numbers.)
    pub fn number(self) -> u8
        ensures value { result ≡ kind_number self }
        ensures again { kind_of_number result ≡ Some self }
    {
        self as u8
    }
}

impl Default for RowKind {
    ghost is_default = { λ kind. kind_number kind ≡ 0 };

    // Plain. (By hand: a derived one has no clause.)
    fn default() -> RowKind {
        RowKind::Plain
    }
}

impl Default for Row {
    ghost is_default = { λ row. row ≡ zero_row };

    // A plain row of zeros.
    fn default() -> Row {
        Row {
            kind: RowKind::Plain,
            from: 0,
            to: 0,
            label: 0,
            action: 0,
            cost: 0,
        }
    }
}

impl Default for Line {
    ghost is_default = { λ line. line ≡ zero_line };

    // A line of zeros.
    fn default() -> Line {
        Line {
            from: 0,
            to: 0,
            event: 0,
            cost: 0,
        }
    }
}

impl TryFrom<u8> for RowKind {
    // the number back, where no kind has it
    type Error = u8;

    ghost try_from_gives = { λ n r. (r ≡ ok_or (kind_of_number n) n) × IfOk r (λ kind. kind_number kind ≡ n) };

    // The kind that has the number.
    fn try_from(number: u8) -> Result<RowKind, u8> {
        match number {
            0 => Ok(RowKind::Plain),
            1 => Ok(RowKind::Open),
            2 => Ok(RowKind::Close),
            3 => Ok(RowKind::End),
            _ => Err(number),
        }
    }
}

impl Row {
    // Whether label, action and modes are as the row's kind asks.
    pub fn formed(&self) -> bool
        ensures { result ≡ formed self.now.kind self.now }
    {
        match self.kind {
            RowKind::Plain => true,
            RowKind::Open | RowKind::Close => self.label <= 15 && self.action == 0,
            RowKind::End => self.label == 0 && self.action == 0 && self.from == self.to,
        }
    }

    // Whether it goes with a line: a plain row with an event.
    pub(crate) fn takes_line(&self) -> bool
        ensures { result ≡ takes_line self.now.kind self.now.label }
    {
        match self.kind {
            RowKind::Plain => self.label != 0,
            RowKind::Open | RowKind::Close | RowKind::End => false,
        }
    }

    // What it does to the brackets.
    pub(crate) fn effect(&self) -> Effect
        ensures { result ≡ effect self.now }
    {
        match self.kind {
            RowKind::Plain => Effect::Quiet,
            RowKind::Open => Effect::Opens(self.label),
            RowKind::Close => Effect::Closes(self.label),
            RowKind::End => Effect::Ends,
        }
    }

    // Whether it may stand at the moment: an end row at the last one only.
    pub(crate) fn timely(&self, moments: u8, moment: u8) -> bool
        ensures { result ≡ timely self.now.kind moments moment }
    {
        match self.kind {
            RowKind::Plain | RowKind::Open | RowKind::Close => true,
            RowKind::End => moment as u16 + 1 == moments as u16,
        }
    }

    // Whether it is a close row.
    pub(crate) fn is_close(&self) -> bool
        ensures { result ≡ is_close self.now.kind }
    {
        match self.kind {
            RowKind::Close => true,
            RowKind::Plain | RowKind::Open | RowKind::End => false,
        }
    }

    // Whether it closes the bracket, from the mode.
    pub(crate) fn closes_from(&self, bracket: u8, mode: u8) -> bool
        ensures { result ≡ closes_from self.now bracket mode }
    {
        self.is_close() && self.label == bracket && self.from == mode
    }

    // Whether it closes the bracket and leads to the mode.
    pub(crate) fn closes_to(&self, bracket: u8, mode: u8) -> bool
        ensures { result ≡ closes_to self.now bracket mode }
    {
        self.is_close() && self.label == bracket && self.to == mode
    }

    // Whether both are of one kind, lead from and to the same modes, and have the same label.
    pub(crate) fn sort_like(&self, other: &Row) -> bool
        ensures { result ≡ sort_like self.now other.now }
    {
        self.kind.number() == other.kind.number()
            && self.from == other.from
            && self.to == other.to
            && self.label == other.label
    }

    // Sets its cost, and nothing else of it.
    pub(crate) fn set_cost(&mut self, cost: u32)
        ensures { self.new ≡ row_at_cost cost self.old }
    {
        self.cost = cost;
    }
}

impl Line {
    // Sets its cost, and nothing else of it.
    pub(crate) fn set_cost(&mut self, cost: u32)
        ensures { self.new ≡ line_at_cost cost self.old }
    {
        self.cost = cost;
    }
}

impl ExactClone for RowKind {
    ghost clone_is_same = { Prim.search rules };
}

impl ExactEq for RowKind {
    ghost equal_is_same = { Prim.search rules };
}

impl ExactClone for Row {
    ghost clone_is_same = { Prim.search rules };
}

impl ExactEq for Row {
    ghost equal_is_same = { Prim.search rules };
}

impl ExactClone for Line {
    ghost clone_is_same = { Prim.search rules };
}

impl ExactEq for Line {
    ghost equal_is_same = { Prim.search rules };
}
