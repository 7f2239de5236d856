// The limit of lengths in a script. Those of its other numbers, of 8 and of 32 bits, stand in `words`.

// The largest length of a buffer or of a list.
pub const LONGEST_LIST: usize = 1_048_576;
