//! What holds of all values and all texts.
ghost use Rattle.value_text.specs.Laws.{DatesReadBack, IntsReadBack, ValuesAreInOrder, ValuesStay};

/// What a whole number shows reads as that number.
pub fn ints_read_back()
    ensures { IntsReadBack }
{}

/// The text of a day reads as that day.
pub fn dates_read_back()
    ensures { DatesReadBack }
{}

/// The order of values is a total one, whatever their kinds.
pub fn values_are_in_order()
    ensures { ValuesAreInOrder }
{}

/// A value goes on to be valid, and to show the same, as texts are added.
pub fn values_stay()
    ensures { ValuesStay }
{}
