//! The words of a line of the input.
ghost use Rattle.std.specs.Prelude.{◌≡◌, IfSome};
ghost use Rattle.progress_tests.specs.Scenes.{IsScene};

use crate::tree::Fan;
use adfs_base::{CONTEXT_WORDS, Shape};
use match_context::Context;

/// A tree, the shape of its runs, and how many seeds there are.
#[derive(Clone, Copy)]
pub struct Scene {
    pub fan: Fan,
    pub shape: Shape,
    pub seeds: u32,
}

/// The number of a word; 0 where it is none.
fn number(word: Option<&str>) -> u32 {
    match word {
        Some(word) => word.parse::<u32>().unwrap_or(0),
        None => 0,
    }
}

/// What these numbers say: stages, machines, the roots of the first machine and of each other one, places, skips; then
/// workers, credit, broad budget, the contexts of a buffer, and seeds.
pub fn setting(numbers: &str) -> Option<Scene>
    ensures { IfSome result IsScene }
{
    let mut words = numbers.split_whitespace();
    let stages = number(words.next());
    let machines = number(words.next());
    let fan = Fan {
        stages,
        machines,
        first: u64::from(number(words.next())),
        others: u64::from(number(words.next())),
        places: u64::from(number(words.next())),
        skips: number(words.next()),
        base: Context {
            words: [0; CONTEXT_WORDS as usize],
        },
    };
    let workers = number(words.next());
    let credit = number(words.next());
    let broad = number(words.next());
    let buffer = number(words.next());
    let shape = Shape::new(machines, workers, stages, credit, broad, buffer)?;
    Some(Scene {
        fan,
        shape,
        seeds: number(words.next()),
    })
}
