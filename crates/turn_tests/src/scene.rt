//! Scenes: a worker's turns, as a line of the input tells them.
ghost use Rattle.std.specs.Prelude.{◌≡◌, IfOk, IfSome};
ghost use Rattle.turn_tests.specs.Scripts.{Plays};

use crate::fan::Fan;
use crate::script::{Asked, Ready, Script};
use crate::told::Told;
use crate::words::{number, setting};
use adfs_base::{NoMemory, Shape};
use dfs_worker::{Turn, Worker};
use std::alloc::Global;

/// Nothing is ready.
const NOTHING: Ready = Ready {
    chunk: false,
    end: false,
    charge: false,
    fetch: false,
    push: false,
    message: 0,
    items: 1,
    pick: false,
    restore: false,
    zero: false,
    close: false,
    moved: false,
};

/// One more word of what is ready.
fn add_word(ready: &mut Ready, word: &str) {
    match word {
        "chunk" => ready.chunk = true,
        "end" => ready.end = true,
        "charge" => ready.charge = true,
        "fetch" => ready.fetch = true,
        "push" => ready.push = true,
        "two" => ready.items = 2,
        "pick" => ready.pick = true,
        "restore" => ready.restore = true,
        "zero" => ready.zero = true,
        "close" => ready.close = true,
        "moved" => ready.moved = true,
        other => ready.message = number(Some(other)),
    }
}

/// What these words say is ready. A number is the stage of which a message is there.
fn ready_of(words: &str) -> Ready {
    let mut ready = NOTHING;
    for word in words.split_whitespace().skip(1) {
        add_word(&mut ready, word);
    }
    ready
}

/// What a turn answered, what its policy was shown and how often, and which calls were made.
fn show(
    alloc: Global,
    turn: Turn,
    told: &Told,
    asked: &[Asked],
    shown: &mut String,
) -> Result<(), NoMemory> {
    let times = told.asked;
    let look = told.look;
    let text = format!(in alloc; "  {turn:?}; {look:?} x{times}; {asked:?}\n")?;
    shown.push_str(text.as_str())?;
    Ok(())
}

/// Takes a turn, and shows it.
fn turn(
    alloc: Global,
    words: &str,
    worker: &mut Worker,
    script: &mut Script,
    fan: &Fan,
    shown: &mut String,
) -> Result<(), NoMemory>
    requires { Plays fan.now worker.old script.old }
    ensures { Plays fan.now worker.new script.new }
{
    script.begin(ready_of(words));
    let mut told = Told {
        answer: number(words.split_whitespace().next()),
        look: None,
        asked: 0,
    };
    let turn = worker.turn(script, fan, &mut told);
    show(alloc, turn, &told, script.asked(), shown)
}

/// A worker and a fabric at the start.
fn start(alloc: Global, fan: &Fan, shape: &Shape) -> Result<(Worker, Script), NoMemory>
    requires stages { fan.now.stages ≡ shape.now.stages }
    requires machines { fan.now.machines ≡ shape.now.machines }
    ensures { IfOk result (λ p. Plays fan.now p.0 p.1) }
{
    let script = Script::new(alloc, shape, fan.roots, fan.root, NOTHING);
    let worker = Worker::new(alloc, 0, shape)?;
    Ok((worker, script))
}

/// Plays the turns of a line.
pub fn play(alloc: Global, numbers: &str, turns: &str, shown: &mut String) -> Result<(), NoMemory> {
    let Some((fan, shape)) = setting(numbers) else {
        return Ok(());
    };
    let (mut worker, mut script) = start(alloc, &fan, &shape)?;
    for part in turns.split(',') {
        turn(alloc, part, &mut worker, &mut script, &fan, shown)?;
    }
    let rows = worker.rows().len();
    let idle = worker.idle();
    let text = format!(in alloc; "  {rows} rows, {idle} idle\n")?;
    shown.push_str(text.as_str())?;
    Ok(())
}
