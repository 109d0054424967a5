// The least length of each slice that the check works on besides those of `load`, in elements. docs/OPERATIONS.md says why.

// Heights, one for each offset of a chunk's code.
pub const HEIGHTS: usize = 4096;

// Depths of scopes, one for each offset.
pub const DEPTHS: usize = 4096;

// Offsets that wait, each at most once.
pub const TODO: usize = 4096;
