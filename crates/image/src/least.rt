// The least length of each slice that `load` fills, in elements: an image of any form fits. docs/OPERATIONS.md says why.

// Bytes of texts and code, and of any other field while its line is read: two digits of an image each.
pub const BYTES: usize = 32768;

// Ends of texts, one for each of 256.
pub const ENDS: usize = 256;

// Kinds of constants: as many as there are shortest constant lines in the longest image.
pub const KINDS: usize = 13107;

// Payloads of constants, as many as kinds.
pub const PAYLOADS: usize = 13107;

// Rows of four numbers: one for each of 64 chunks, and one more.
pub const TABLE: usize = 260;
