//! A worker, and its own part of each event.
ghost use Rattle.std.specs.Prelude.{◌≡◌, ◌<◌, ◌≤◌, ◌*◌, ◌/◌, ◌++◌, [], ◌∷◌, reverse, length, IfOk, IfSome, IsSomeAnd, IfNone, OnOk, OnErr, MatchOption, Some, None, true};

use crate::hand::Hand;
use crate::outbox::Outbox;
use crate::stack::Stack;
use adfs_base::{NoMemory, Shape, Word};
use match_context::{Buffer, Context, Expand, Frame, Message, Rest};
use stage_termination::Closer;
use std::alloc::Global;
use std::marker::Model;
use std::mem;

/// The rows for which there is room from the start.
const FIRST_ROWS: usize = 4;

/// One worker of one machine. A contract sees it as a `State`.
#[derive(Drop)]
pub struct Worker {
    number: u32,
    machine: u32,
    shape: Shape,
    stack: Stack,
    hand: Hand,
    outbox: Outbox,
    rows: Vec<Context>,
    enrolled: bool,
    closer: Closer,
    /// The turns in a row that did nothing; it stands still at its type's end.
    idle: u32,
}

impl Model for Worker {
    ghost use Rattle.dfs_worker.specs.State.{State};
    ghost use Rattle.std.specs.Prelude.{◌≤◌};

    ghost Value = { State };

    ghost view = { λ v. record {
      number = v.number;
      machine = v.machine;
      shape = v.shape;
      stack = v.stack.frames;
      hand = v.hand;
      slots = v.outbox;
      rows = v.rows.items;
      enrolled = v.enrolled;
      marks = v.closer;
      idle = v.idle;
    } };

    ghost invariant = { λ v. v.shape.stages ≤ v.stack.room };
}

impl Worker {
    ghost use Rattle.dfs_worker.specs.State.{fresh};

    /// The worker of this number: an empty stack with room for all stages, a free hand, and nothing else yet.
    pub fn new(alloc: Global, w: u32, shape: &Shape) -> Result<Worker, NoMemory>
        requires { w < shape.now.machines * shape.now.workers }
        ensures { IfOk result (λ v. v ≡ fresh shape.now w (w / shape.now.workers)) }
    {
        let stack = Stack::new(alloc, shape.stages())?;
        let outbox = Outbox::new(alloc, shape)?;
        let rows = Vec::with_capacity(alloc, FIRST_ROWS)?;
        Ok(Worker {
            number: w,
            machine: w / shape.workers(),
            shape: *shape,
            stack,
            hand: Hand::Free,
            outbox,
            rows,
            enrolled: true,
            closer: Closer::new(shape),
            idle: 0,
        })
    }
}

/// What it holds.
impl Worker {
    ghost use Rattle.dfs_worker.specs.Slots.{open_at, is_open, has_room};
    ghost use Rattle.dfs_worker.specs.Sound.{IsWorker};
    ghost use Rattle.dfs_worker.specs.State.{waiting, next_stage};

    /// Its number among the workers of all machines.
    pub fn number(&self) -> u32
        ensures { result ≡ self.now.number }
    {
        self.number
    }

    /// Its machine.
    pub fn machine(&self) -> u32
        ensures { result ≡ self.now.machine }
    {
        self.machine
    }

    /// How many machines there are.
    pub fn machines(&self) -> u32
        ensures { result ≡ self.now.shape.machines }
    {
        self.shape.machines()
    }

    /// How many stages there are.
    pub fn stages(&self) -> u32
        ensures { result ≡ self.now.shape.stages }
    {
        self.shape.stages()
    }

    /// The frames of its stack, the top last.
    pub fn stack(&self) -> &[Frame]
        ensures { reverse result.now ≡ self.now.stack }
    {
        self.stack.frames()
    }

    /// What it is in the midst of.
    pub fn hand(&self) -> &Hand
        ensures { result.now ≡ self.now.hand }
    {
        &self.hand
    }

    /// The buffer that is open for a stage and a machine.
    pub fn buffer(&self, stage: u32, to: u32) -> Option<&Buffer>
        ensures { MatchOption result (open_at self.now.slots stage to ≡ None)
            (λ b. IsSomeAnd (open_at self.now.slots stage to) (λ m. m.items ≡ b.now)) }
    {
        match self.outbox.message(stage, to) {
            Some(message) => Some(&message.items),
            None => None,
        }
    }

    /// Its rows.
    pub fn rows(&self) -> &[Context]
        ensures { result.now ≡ self.now.rows }
    {
        self.rows.as_slice()
    }

    /// Whether it may still claim roots.
    pub fn enrolled(&self) -> bool
        ensures { result ≡ self.now.enrolled }
    {
        self.enrolled
    }

    /// Its marks.
    pub fn closer(&self) -> &Closer
        ensures { result.now ≡ self.now.marks }
    {
        &self.closer
    }

    /// The turns in a row that did nothing.
    pub fn idle(&self) -> u32
        ensures { result ≡ self.now.idle }
    {
        self.idle
    }

    /// The top of its stack.
    pub fn top(&self) -> Option<&Frame>
        ensures { MatchOption result (self.now.stack ≡ []) (λ f. (fs : _) × (self.now.stack ≡ f.now ∷ fs)) }
    {
        self.stack.top()
    }

    /// The stage above that of the top, or 0 on an empty stack: a message must be of this stage at least.
    pub fn next_stage(&self) -> u32
        requires { IsWorker self.now }
        ensures { result ≡ next_stage self.now.stack }
    {
        match self.stack.top() {
            Some(top) => top.stage + 1,
            None => 0,
        }
    }

    /// Whether a buffer is open for a stage and a machine.
    pub fn is_open(&self, stage: u32, to: u32) -> bool
        ensures { result ≡ is_open self.now.slots stage to }
    {
        self.outbox.is_open(stage, to)
    }

    /// Whether a buffer with room is open for a stage and a machine.
    pub fn has_room(&self, stage: u32, to: u32) -> bool
        ensures { result ≡ has_room self.now.slots stage to }
    {
        self.outbox.has_room(stage, to)
    }

    /// The stage and the machine of the child that the top waits with.
    pub fn waiting(&self) -> Option<(u32, u32)>
        requires { IsWorker self.now }
        ensures { result ≡ waiting self.now.stack }
    {
        let top = self.stack.top()?;
        match &top.wait {
            None => None,
            Some((_, to)) => Some((top.stage + 1, *to)),
        }
    }
}

/// What may be put into it and taken out of it.
impl Worker {
    ghost use Rattle.dfs_worker.specs.Slots.{open_at, with_slot};
    ghost use Rattle.dfs_worker.specs.Own.{retired, moved};
    ghost use Rattle.stage_termination.specs.Marks.{IsWordOf, with_mark};

    /// Takes the top off.
    pub fn take_frame(&mut self) -> Option<Frame>
        ensures some { IfSome result (λ f. (self.old.stack ≡ f ∷ self.new.stack) × (self.new ≡ record self.old { stack = self.new.stack })) }
        ensures none { IfNone result ((self.old.stack ≡ []) × (self.new ≡ self.old)) }
    {
        self.stack.pop()
    }

    /// Puts a frame on top.
    pub fn put_frame(&mut self, frame: Frame)
        requires { length self.old.stack < self.old.shape.stages }
        ensures { self.new ≡ record self.old { stack = frame ∷ self.old.stack } }
    {
        self.stack.push(frame);
    }

    /// Takes the buffer that is open for a stage and a machine.
    pub fn take_buffer(&mut self, stage: u32, to: u32) -> Option<Buffer>
        ensures { MatchOption result ((open_at self.old.slots stage to ≡ None) × (self.new ≡ self.old))
            (λ b. IfSome (open_at self.old.slots stage to) (λ m. m.items ≡ b)
            × (self.new ≡ record self.old { slots = with_slot self.old.slots stage to None })) }
    {
        let Message { items, .. } = self.outbox.take(stage, to)?;
        Some(items)
    }

    /// Opens a buffer for a stage and a machine.
    pub fn put_buffer(&mut self, stage: u32, to: u32, buffer: Buffer)
        requires stage_in { stage < self.old.slots.stages }
        requires to_in { to < self.old.slots.machines }
        requires free { open_at self.old.slots stage to ≡ None }
        ensures { self.new ≡ record self.old { slots = with_slot self.old.slots stage to (Some (record { from = self.old.machine; stage = stage; to = to; items = buffer })) } }
    {
        let message = Message {
            from: self.machine,
            stage,
            to,
            items: buffer,
        };
        self.outbox.set(stage, to, message);
    }

    /// Puts something into its hand, and gives what was there.
    pub fn set_hand(&mut self, hand: Hand) -> Hand
        ensures old { result ≡ self.old.hand }
        ensures new { self.new ≡ record self.old { hand = hand } }
    {
        mem::replace(&mut self.hand, hand)
    }

    /// Sets the number of turns in a row that did nothing.
    pub(crate) fn set_idle(&mut self, idle: u32)
        ensures { self.new ≡ record self.old { idle = idle } }
    {
        self.idle = idle;
    }

    /// It claims no more.
    pub fn leave(&mut self)
        ensures { self.new ≡ retired self.old }
    {
        self.enrolled = false;
    }

    /// Adds a row. After `NoMemory` all is as before.
    pub fn add_row(&mut self, row: Context) -> Result<(), NoMemory>
        ensures ok { OnOk result (self.new ≡ record self.old { rows = self.old.rows ++ row ∷ [] }) }
        ensures err { OnErr result (self.new ≡ self.old) }
    {
        self.rows.push(row)?;
        Ok(())
    }

    /// Hands its rows out, and keeps none.
    pub fn take_rows(&mut self) -> Vec<Context>
        ensures rows { result.items ≡ self.old.rows }
        ensures none { self.new ≡ record self.old { rows = [] } }
    {
        let alloc = *self.rows.allocator();
        mem::replace(&mut self.rows, Vec::new(alloc))
    }

    /// Marks a word of the stage whose words it marks.
    pub fn mark(&mut self, word: Word)
        requires { IsWordOf self.old.marks word }
        ensures { self.new ≡ record self.old { marks = with_mark self.old.marks word } }
    {
        self.closer.mark(word);
    }

    /// Goes to the stage that closes now. Where it is another one, its marks are dropped.
    pub fn moved(&mut self, closed: u32)
        ensures { self.new ≡ moved closed self.old }
    {
        self.closer.moved(closed);
    }
}

/// Its own part of each event.
impl Worker {
    ghost use Rattle.dfs_worker.specs.declared.event.Event.TheVariants as kind;
    ghost use Rattle.dfs_worker.specs.Guards.{child_test, is_charged, own_guard, top_over};
    ghost use Rattle.dfs_worker.specs.Own.{claimed, advanced, descended, appended, charged, fetched, posted, freed, popped, picked, restored, AddsRow, IsTopBuffer};
    ghost use Rattle.dfs_worker.specs.Passing.{Advances};
    ghost use Rattle.dfs_worker.specs.Slots.{has_room};
    ghost use Rattle.dfs_worker.specs.Sound.{IsWorker, WithinRoots};

    /// The roots from `first` up to `end` become its first frame.
    pub fn claim<X: Expand>(&mut self, x: &X, first: u64, end: u64)
        requires worker { IsWorker self.old }
        requires machine_in { self.old.machine < (X.tree x.now).machines }
        requires empty { self.old.stack ≡ [] }
        requires some { first < end }
        requires roots { end ≤ (X.tree x.now).roots self.old.machine }
        ensures { self.new ≡ claimed (X.tree x.now) first end self.old }
    {
        let context = x.root(self.machine, first);
        let next = first + 1;
        self.stack.push(Frame {
            stage: 0,
            context,
            place: 0,
            wait: None,
            rest: Rest::Roots { next, end },
        });
    }

    /// One answer of the top. After `NoMemory`, which only a row may meet, all is as before.
    pub fn advance<X: Expand>(&mut self, x: &X) -> Result<(), NoMemory>
        requires worker { IsWorker self.old }
        requires stages { self.old.shape.stages ≡ (X.tree x.now).stages }
        requires machines { self.old.shape.machines ≡ (X.tree x.now).machines }
        requires roots { WithinRoots ((X.tree x.now).roots self.old.machine) self.old.stack }
        ensures ok { OnOk result (self.new ≡ advanced (X.tree x.now) self.old) }
        ensures err { OnErr result (self.new ≡ self.old) }
        ensures memory { OnErr result (AddsRow (X.tree x.now) self.old.machine self.old.stack) }
    {
        self.stack.advance(x, self.machine, &mut self.rows)
    }

    /// Answers of the top, made in one go: some of which nothing comes, and one more. It tells how many gave nothing.
    /// After `NoMemory`, which only a row may meet, all is as before.
    #[inline]
    pub fn advance_on<X: Expand>(&mut self, x: &X) -> Result<u64, NoMemory>
        requires worker { IsWorker self.old }
        requires enabled { own_guard (kind.Advance 0) self.old ≡ None }
        requires stages { self.old.shape.stages ≡ (X.tree x.now).stages }
        requires machines { self.old.shape.machines ≡ (X.tree x.now).machines }
        requires roots { WithinRoots ((X.tree x.now).roots self.old.machine) self.old.stack }
        ensures ok { IfOk result (λ passed. Advances (X.tree x.now) passed self.old self.new) }
        ensures err { OnErr result (self.new ≡ self.old) }
    {
        self.stack.advance_on(x, self.machine, &mut self.rows)
    }

    /// The waiting child becomes the top.
    pub fn descend(&mut self)
        requires { IsWorker self.old }
        ensures { self.new ≡ descended self.old }
    {
        let Some((stage, _)) = self.waiting() else {
            return;
        };
        if let Some((context, _)) = self.stack.take_child() {
            self.stack.push(Frame {
                stage,
                context,
                place: 0,
                wait: None,
                rest: Rest::None,
            });
        }
    }

    /// The waiting child goes into the buffer that is open for it.
    pub fn append(&mut self)
        requires worker { IsWorker self.old }
        requires room { child_test (has_room self.old.slots) self.old.stack ≡ true }
        ensures { self.new ≡ appended self.old }
    {
        let Some((stage, _)) = self.waiting() else {
            return;
        };
        if let Some((context, to)) = self.stack.take_child() {
            self.outbox.put(stage, to, context);
        }
    }

    /// A credit for a buffer for the waiting child is in hand.
    pub fn charge(&mut self)
        requires { IsWorker self.old }
        ensures { self.new ≡ charged self.old }
    {
        if let Some((stage, to)) = self.waiting() {
            self.hand = Hand::Charged { stage, to };
        }
    }

    /// A buffer is opened for the waiting child, with the credit that was in hand, and takes it.
    pub fn fetch(&mut self, buffer: Buffer)
        requires worker { IsWorker self.old }
        requires charged { is_charged self.old.hand ≡ true }
        requires room { length buffer.items < buffer.size }
        ensures { self.new ≡ fetched buffer self.old }
    {
        let mut buffer = buffer;
        let Hand::Charged { stage, to } = self.hand else {
            return;
        };
        if let Some((context, _)) = self.stack.take_child() {
            buffer.put(context);
            self.put_buffer(stage, to, buffer);
            self.hand = Hand::Free;
        }
    }

    /// The message that is open for a stage and a machine comes into its hand.
    pub fn post(&mut self, stage: u32, to: u32)
        ensures { self.new ≡ posted stage to self.old }
    {
        if let Some(message) = self.outbox.take(stage, to) {
            self.hand = Hand::Posted(message);
        }
    }

    /// A message comes into its hand.
    pub fn pop(&mut self, message: Message)
        ensures { self.new ≡ popped message self.old }
    {
        self.hand = Hand::Popped(message);
    }

    /// The message in its hand becomes the top.
    pub fn pick(&mut self)
        requires { IsWorker self.old }
        ensures { self.new ≡ picked self.old }
    {
        match mem::replace(&mut self.hand, Hand::Free) {
            Hand::Popped(message) => {
                let first = message.items.items().first().copied();
                if let Some(context) = first {
                    self.stack.push(Frame {
                        stage: message.stage,
                        context,
                        place: 0,
                        wait: None,
                        rest: Rest::Items {
                            message,
                            next: 1,
                            over: false,
                        },
                    });
                }
            }
            other => self.hand = other,
        }
    }

    /// The buffer of the top, which is over, comes out of it, empty, and its credit is in hand.
    pub fn restore(&mut self) -> Option<Buffer>
        requires { top_over self.old.stack ≡ true }
        ensures { MatchOption result ⊥ (λ b. (self.new ≡ restored self.old) × IsTopBuffer self.old.stack b) }
    {
        let Frame { rest, .. } = self.stack.pop()?;
        let Rest::Items { message, .. } = rest else {
            return None;
        };
        let Message {
            from,
            stage,
            items: mut buffer,
            ..
        } = message;
        buffer.clear();
        self.hand = Hand::Emptied { from, stage };
        Some(buffer)
    }
}
