//! What patterns declare.

pub use pattern_scope::scope::{Declared, Scope};
