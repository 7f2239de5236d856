// The bounds of a board, of its log and of a check, and of what is told.

// Places, M times T, at most. Places are numbered below it, and a pair of places is numbered by its first place times this, plus
// its second.
pub(crate) const MOST_PLACES: usize = 64;

// Pairs of places, so records of a log, and calls that one record stands inside, at most.
pub(crate) const MOST_PAIRS: usize = MOST_PLACES * MOST_PLACES;

// Rows at most.
pub(crate) const MOST_ROWS: usize = 128;

// Lines at most.
pub(crate) const MOST_LINES: usize = 128;

// Brackets that a check keeps open at once, at most.
pub(crate) const MOST_OPEN: usize = 4096;

// The number of moves that stands for itself and for every greater one.
pub(crate) const MANY_MOVES: u32 = 65_536;

// Moves of a reading that is written into a buffer, at most.
pub(crate) const MOST_WRITTEN: usize = 65_535;
