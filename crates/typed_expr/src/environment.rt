//! What expressions are read against.

use graph_tables::Schema;
use pattern_scope::declarations::Declarations;

/// What the names in an expression may stand for: the variables of the patterns, and the properties that they have.
#[derive(Clone, Copy)]
pub struct Environment<'a> {
    pub variables: &'a Declarations,
    pub schema: &'a Schema,
}
