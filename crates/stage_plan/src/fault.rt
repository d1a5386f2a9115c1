//! Why a query has no plan.

/// Why a query has no plan.
#[derive(Clone, Copy, Debug, PartialEq, Eq)]
pub enum PlanFault {
    /// A match of it needs so many words, more than a context has.
    TooWide(u32),
    NoMemory,
}
