// The least length of each work slice, in elements: what a caller of `check` or `run` lends. Each is declared where it is tested.
pub use image::least::{BYTES, ENDS, KINDS, PAYLOADS, TABLE};
pub use rl_check::least::{DEPTHS, HEIGHTS, TODO};
pub use run_answers::least::{CELLS, CLASSES, GLOBALS, LOCALS, MEMO, STACK, STARTS, TEXTS};
