//! What three-valued logic keeps to.
ghost use Rattle.typed_query.specs.Laws.{NullPassesNothing, PassesByParts, SidesChangePlaces, ValuesAreValid};

/// The sides of AND may change places, and so may those of OR.
pub fn sides_change_places()
    ensures { SidesChangePlaces }
{}

/// Null and NOT null are null, and neither passes a condition.
pub fn null_passes_nothing()
    ensures { NullPassesNothing }
{}

/// A condition with AND passes exactly where both sides do. So each side may be tested by itself, as soon as
/// its values are there.
pub fn and_passes_by_parts()
    ensures { PassesByParts }
{}

/// The value of an expression means something under the texts where its constants and the captured values do.
pub fn values_are_valid()
    ensures { ValuesAreValid }
{}
