// The limits of programs, each with its name.

// A row is so many numbers: its kind, and three more, whose meaning the kind says.
pub const ROW_LENGTH: usize = 4;

// The kinds of rows are 0 to 8.
pub const MAX_KIND: u32 = 8;

// A program has so many rows at most.
pub const MAX_ROWS: usize = 256;

// A program works on so many places at most.
pub const MAX_PLACES: usize = 1024;
