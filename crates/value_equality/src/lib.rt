// Equality of values and the kind test, over values whose parts lie in lent cells; and the classes of texts and chunks by which equality
// compares them.
#![tactic(auto)]

mod classes;
mod equality;
mod kind;

pub use classes::{chunk_classes, class_of, text_classes};
pub use equality::equal;
pub use kind::value_is_kind;
