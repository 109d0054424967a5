// The operations of the machine. They ask nothing of their caller: each answers for any bytes and any slices, and leaves all work memory zero.
#![tactic(auto)]

mod export; // `check` for C and Rust
pub mod least; // the least lengths of the work slices
mod run_export; // `run` for C and Rust

pub use export::rl_vm_check;
pub use image::IMAGE_MOST;
pub use load_answers::refusal_number;
pub use rl_check::{CheckAnswer, check, fault_number};
pub use rl_run::run;
pub use run_answers::{RunAnswer, stop_number};
pub use run_export::rl_vm_run;
