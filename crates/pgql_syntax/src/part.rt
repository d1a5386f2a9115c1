//! Lists of parts with a mark between two.

ghost use Rattle.pgql_lexemes.specs.Lists.{separated, Shrinks};
ghost use Rattle.pgql_lexemes.specs.Parsers.{Parser};
ghost use Rattle.pgql_lexemes.specs.Reads.{Reads};

use pgql_lexemes::{Input, Kind, Stop};
use sqlite_items::Items;
use std::alloc::Global;

/// What is read by itself.
pub trait Part: Sized {
    /// How it is read.
    ghost reading: { Parser Self };

    /// Reads it.
    fn read(alloc: Global, input: &mut Input<'_>) -> Result<Self, Stop>
        ensures { Reads (reading input.old) result input.new };
}

/// `Part {mark Part}`
pub fn list<T: Part + Drop>(
    alloc: Global,
    input: &mut Input<'_>,
    mark: Kind,
) -> Result<Items<T>, Stop>
    requires { Shrinks T.reading }
    ensures { Reads (separated T.reading mark input.old) result input.new }
{
    let mut found = Items::new(alloc);
    'items: loop {
        let x = T::read(alloc, input)?;
        found.push(x)?;
        if !input.eat(mark) {
            return Ok(found);
        }
    }
}
