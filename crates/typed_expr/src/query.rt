//! Queries after typing.

pub use typed_query::query::{Capture, EdgeJoin, Query, Variable, What};
