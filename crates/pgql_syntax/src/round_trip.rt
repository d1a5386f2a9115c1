//! What printing and parsing are to each other.

ghost use Rattle.adfs_base.specs.declared.limits.TheConstants.{EXPRESSION_HEIGHT};
ghost use Rattle.pgql_syntax.specs.RoundTrip.{IsReadBack};

/// What `print` writes of the tree of a text is read back as the same tree, apart from places.
///
/// A law; there is nothing to call it for.
pub fn printed_is_read_back()
    ensures { IsReadBack EXPRESSION_HEIGHT }
{}
