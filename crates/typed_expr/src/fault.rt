//! Why a query means nothing.

pub use pattern_scope::fault::TypeFault;
