// The least length of each slice that a run works on besides those of `load`, in elements. docs/OPERATIONS.md says why.

// Classes of texts, one for each of 256, and one for any other number.
pub const TEXTS: usize = 257;

// Classes of chunks, one for each of 64, and one for any other number.
pub const CLASSES: usize = 65;

// Operands: two words for each of 256.
pub const STACK: usize = 512;

// Local slots: two words for each of 1,024.
pub const LOCALS: usize = 2048;

// Scope starts.
pub const STARTS: usize = 256;

// Globals: two words for each of 256.
pub const GLOBALS: usize = 512;

// Cells: two words for each of 4,096.
pub const CELLS: usize = 8192;

// For each cell an equal one that was found.
pub const MEMO: usize = 4096;
