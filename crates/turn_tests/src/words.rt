//! The words of a line of the input.
ghost use Rattle.std.specs.Prelude.{◌≡◌, IfSome};

use crate::fan::Fan;
use adfs_base::{CONTEXT_WORDS, Shape};
use match_context::Context;

/// The number of a word; 0 where it is none.
pub fn number(word: Option<&str>) -> u32 {
    match word {
        Some(word) => word.parse::<u32>().unwrap_or(0),
        None => 0,
    }
}

/// A tree and the shape of its run: stages, machines, roots, skips, children, the contexts of a buffer, and the budget.
pub fn setting(numbers: &str) -> Option<(Fan, Shape)>
    ensures { IfSome result (λ p. (p.0.stages ≡ p.1.stages) × (p.0.machines ≡ p.1.machines)) }
{
    let mut words = numbers.split_whitespace();
    let stages = number(words.next());
    let machines = number(words.next());
    let fan = Fan {
        stages,
        machines,
        roots: u64::from(number(words.next())),
        skips: number(words.next()),
        children: number(words.next()),
        root: Context {
            words: [0; CONTEXT_WORDS as usize],
        },
    };
    let buffer = number(words.next());
    let shape = Shape::new(machines, 1, stages, 2, number(words.next()), buffer)?;
    Some((fan, shape))
}
