//! The plain tables are a fabric, which tells its state: an answer that isn't ready comes only where it must.
ghost use Rattle.fabric.specs.Plain.{PlainAgrees, PlainDone, PlainExcused, plain_shape};
ghost use Rattle.fabric.specs.Shared.{roots_at};

use crate::plain::PlainFabric;
use crate::shared::Fabric;
use adfs_base::{Charge, Claimed, Closing, Marked, Pick, Word};
use match_context::{Buffer, Message};

impl Fabric for PlainFabric {
    ghost agrees = { PlainAgrees };

    ghost done = { PlainDone };

    ghost excused = { PlainExcused };

    ghost shape = { plain_shape };

    ghost roots = { roots_at };

    fn claim(&mut self, w: u32) -> Claimed {
        PlainFabric::claim(self, w)
    }

    fn retire(&mut self, w: u32) {
        PlainFabric::retire(self, w);
    }

    fn charge(&mut self, w: u32, stage: u32, to: u32) -> Charge {
        PlainFabric::charge(self, w, stage, to)
    }

    fn fetch(&mut self, w: u32) -> Option<Buffer> {
        PlainFabric::fetch(self, w)
    }

    fn post(&mut self, w: u32, stage: u32, to: u32) {
        PlainFabric::post(self, w, stage, to);
    }

    fn push(&mut self, w: u32, message: Message) -> Result<(), Message> {
        PlainFabric::push(self, w, message)
    }

    fn pop(&mut self, w: u32, stage: u32) -> Option<Message> {
        PlainFabric::pop(self, w, stage)
    }

    fn pick(&mut self, w: u32, from: u32, stage: u32) -> Pick {
        PlainFabric::pick(self, w, from, stage)
    }

    fn restore(&mut self, w: u32, buffer: Buffer) -> Result<(), Buffer> {
        PlainFabric::restore(self, w, buffer)
    }

    fn discharge(&mut self, w: u32, from: u32, stage: u32) {
        PlainFabric::discharge(self, w, from, stage);
    }

    fn mark(&mut self, w: u32, word: Word) -> Marked {
        PlainFabric::mark(self, w, word)
    }

    fn close(&mut self, w: u32) -> Closing {
        PlainFabric::close(self, w)
    }

    fn closed(&mut self, w: u32) -> u32 {
        PlainFabric::closed(self, w)
    }
}
