//! What workers share, as plain data.
ghost use Rattle.std.specs.Prelude.{◌≡◌, ℕ, ◌+◌, ◌*◌, ◌<◌, ◌≤◌, if◌then◌else◌, length, slice_index, OnOk, IfOk, IfErr, IsOkAnd, IsSomeAnd, is_some, true, false, Some, replicate, slice_get};
ghost use Rattle.adfs_base.specs.Shape.{pool_of};
ghost use Rattle.fabric.specs.Calls.{can_claim, claim_answer, after_claim, after_retire, can_charge, charge_answer, after_charge, after_discharge, can_fetch, fetch_answer, after_fetch};
ghost use Rattle.fabric.specs.Calls.{empty_buffer, after_restore, after_post, can_pick, pick_answer, after_pick, can_push, after_push, pop_answer, after_pop, mark_answer, after_close};
ghost use Rattle.fabric.specs.Queue.{Stock, empty_queue, full_stock};
ghost use Rattle.fabric.specs.Shared.{Shared, machine_of, IsWorkerOf, IsUnit, IsWordOf, IsMessageStage, place, used_at, flying_at, cursor_at, roots_at, enrolled_at, pool_at, word_at, inbox_place, inbox_at, room_of, start};

use crate::inbox::Inbox;
use crate::pool::Pool;
use adfs_base::{Charge, Claimed, Closing, Marked, NoMemory, Pick, ROOT_CHUNK, Shape, Word};
use match_context::{Buffer, Message};
use std::alloc::Global;
use std::marker::Model;

/// What all workers share, as plain tables. A contract sees it as a `Shared`.
#[derive(Drop)]
pub struct PlainFabric {
    shape: Shape,
    roots: Vec<u64>,
    pools: Vec<Pool>,
    inboxes: Vec<Inbox>,
    used: Vec<u32>,
    flying: Vec<u32>,
    cursors: Vec<u64>,
    enrolled: Vec<u32>,
    closed: u32,
}

impl Model for PlainFabric {
    ghost use Rattle.fabric.specs.Queue.{Stock, empty_queue, full_stock};
    ghost use Rattle.fabric.specs.Shared.{Shared};
    ghost use Rattle.fabric.specs.View.{shared_of, IsFabric};

    ghost Value = { Shared };

    ghost view = { shared_of };

    ghost invariant = { IsFabric };
}

impl PlainFabric {
    // The machine of a worker.
    fn machine(&self, w: u32) -> u32
        requires { IsWorkerOf self.now w }
        ensures number { result ≡ machine_of self.now w }
        ensures within { result < self.now.shape.machines }
    {
        w / self.shape.workers()
    }

    // The place of a sender, stage and target in the tables.
    fn place(&self, from: u32, stage: u32, to: u32) -> usize
        requires from_in { from < self.now.shape.machines }
        requires stage_in { stage < self.now.shape.stages }
        requires to_in { to < self.now.shape.machines }
        ensures at { result ≡ place self.now from stage to }
        ensures in_used { result < length self.now.used }
        ensures in_flying { result < length self.now.flying }
    {
        let stages = self.shape.stages() as usize;
        let machines = self.shape.machines() as usize;
        (from as usize * stages + stage as usize) * machines + to as usize
    }

    /// Takes the next chunk of roots of the worker's machine, at most 64. `Exhausted` exactly where none is left.
    pub fn claim(&mut self, w: u32) -> Claimed
        requires { IsWorkerOf self.old w }
        ensures answer { result ≡ claim_answer self.old (machine_of self.old w) }
        ensures change { self.new ≡ (if can_claim self.old (machine_of self.old w) then after_claim self.old (machine_of self.old w) else self.old) }
    {
        let machine = self.machine(w) as usize;
        let cursor = self.cursors[machine];
        let roots = self.roots[machine];
        if cursor < roots {
            let left = roots - cursor;
            let end = cursor + left.min(ROOT_CHUNK);
            self.cursors[machine] = end;
            Claimed::Chunk(cursor, end)
        } else {
            Claimed::Exhausted(cursor)
        }
    }

    /// One worker of the machine will claim no more.
    pub fn retire(&mut self, w: u32)
        requires worker { IsWorkerOf self.old w }
        requires some { 0 < enrolled_at self.old (machine_of self.old w) }
        ensures { self.new ≡ after_retire self.old (machine_of self.old w) }
    {
        let machine = self.machine(w) as usize;
        self.enrolled[machine] -= 1;
    }
}

// The credits of a machine's buffers, by stage and target.
impl PlainFabric {
    /// Takes a credit for a buffer to that stage of that machine. `Full` exactly where as many are taken as the
    /// shape allows.
    pub fn charge(&mut self, w: u32, stage: u32, to: u32) -> Charge
        requires worker { IsWorkerOf self.old w }
        requires unit { IsUnit self.old (machine_of self.old w) stage to }
        ensures answer { result ≡ charge_answer self.old (machine_of self.old w) stage to }
        ensures change { self.new ≡ (if can_charge self.old (machine_of self.old w) stage to then after_charge self.old (machine_of self.old w) stage to else self.old) }
    {
        let from = self.machine(w);
        let at = self.place(from, stage, to);
        let used = self.used[at];
        if used < self.shape.limit(from, to) {
            self.used[at] = used + 1;
            Charge::Charged
        } else {
            Charge::Full(u64::from(used))
        }
    }

    /// A message goes on its way with a credit that is taken.
    pub fn post(&mut self, w: u32, stage: u32, to: u32)
        requires worker { IsWorkerOf self.old w }
        requires unit { IsUnit self.old (machine_of self.old w) stage to }
        requires taken { flying_at self.old (machine_of self.old w) stage to < used_at self.old (machine_of self.old w) stage to }
        ensures { self.new ≡ after_post self.old (machine_of self.old w) stage to }
    {
        let from = self.machine(w);
        let at = self.place(from, stage, to);
        // That this word is within its range keeps the sum below in range.
        let _used = self.used[at];
        self.flying[at] += 1;
    }

    /// A message of that sender and stage has come to the worker's machine. `NoneFlying` exactly where none is on
    /// its way.
    pub fn pick(&mut self, w: u32, from: u32, stage: u32) -> Pick
        requires worker { IsWorkerOf self.old w }
        requires unit { IsUnit self.old from stage (machine_of self.old w) }
        ensures answer { result ≡ pick_answer self.old from stage (machine_of self.old w) }
        ensures change { self.new ≡ (if can_pick self.old from stage (machine_of self.old w) then after_pick self.old from stage (machine_of self.old w) else self.old) }
    {
        let to = self.machine(w);
        let at = self.place(from, stage, to);
        let flying = self.flying[at];
        if flying > 0 {
            self.flying[at] = flying - 1;
            Pick::Picked
        } else {
            Pick::NoneFlying(u64::from(flying))
        }
    }

    /// Gives back the credit of a buffer that came to the worker's machine.
    pub fn discharge(&mut self, w: u32, from: u32, stage: u32)
        requires worker { IsWorkerOf self.old w }
        requires unit { IsUnit self.old from stage (machine_of self.old w) }
        requires taken { 0 < used_at self.old from stage (machine_of self.old w) }
        ensures { self.new ≡ after_discharge self.old from stage (machine_of self.old w) }
    {
        let to = self.machine(w);
        let at = self.place(from, stage, to);
        self.used[at] -= 1;
    }
}

// Pools and inboxes.
impl PlainFabric {
    /// Takes an empty buffer out of the pool of the worker's machine. None exactly where the pool is empty.
    pub fn fetch(&mut self, w: u32) -> Option<Buffer>
        requires { IsWorkerOf self.old w }
        ensures answer { result ≡ fetch_answer self.old (machine_of self.old w) }
        ensures change { self.new ≡ after_fetch self.old (machine_of self.old w) }
    {
        let machine = self.machine(w) as usize;
        self.pools[machine].take()
    }

    /// Puts an empty buffer back into the pool of its home. It is never handed back.
    pub fn restore(&mut self, w: u32, buffer: Buffer) -> Result<(), Buffer>
        requires worker { IsWorkerOf self.old w }
        requires home { buffer.home < self.old.shape.machines }
        requires empty { buffer ≡ empty_buffer buffer.home self.old.shape.buffer }
        requires room { pool_at self.old buffer.home < pool_of self.old.shape }
        ensures { IsOkAnd result (λ _. self.new ≡ after_restore self.old buffer.home) }
    {
        let _ = w;
        let home = buffer.home() as usize;
        self.pools[home].put(buffer);
        Ok(())
    }

    // The place of an inbox.
    fn inbox_place(&self, machine: u32, stage: u32) -> usize
        requires machine_in { machine < self.now.shape.machines }
        requires stage_in { stage < self.now.shape.stages }
        ensures at { result ≡ inbox_place self.now machine stage }
        ensures within { result < length self.now.inboxes }
    {
        machine as usize * self.shape.stages() as usize + stage as usize
    }

    /// Puts a message last into the inbox of its target and stage. It is handed back exactly where that is full.
    pub fn push(&mut self, w: u32, message: Message) -> Result<(), Message>
        requires worker { IsWorkerOf self.old w }
        requires stage { IsMessageStage self.old message.stage }
        requires to_in { message.to < self.old.shape.machines }
        ensures ok { OnOk result ((can_push self.old message.to message.stage ≡ true) × (self.new ≡ after_push self.old message)) }
        ensures err { IfErr result (λ back. (can_push self.old message.to message.stage ≡ false) × (back ≡ message) × (self.new ≡ self.old)) }
    {
        let _ = w;
        let at = self.inbox_place(message.to, message.stage);
        if !self.inboxes[at].has_space() {
            return Err(message);
        }
        self.inboxes[at].push(message);
        Ok(())
    }

    /// Takes the first message of an inbox of the worker's machine. None exactly where it is empty, as one is that
    /// doesn't exist.
    pub fn pop(&mut self, w: u32, stage: u32) -> Option<Message>
        requires { IsWorkerOf self.old w }
        ensures answer { result ≡ pop_answer self.old (machine_of self.old w) stage }
        ensures change { self.new ≡ after_pop self.old (machine_of self.old w) stage }
    {
        let machine = self.machine(w);
        if stage == 0 || stage >= self.shape.stages() {
            return None;
        }
        let at = self.inbox_place(machine, stage);
        self.inboxes[at].pop()
    }
}

// Closing.
impl PlainFabric {
    /// Looks whether a word is 0. `Busy` exactly where it is above 0.
    pub fn mark(&mut self, w: u32, word: Word) -> Marked
        requires worker { IsWorkerOf self.old w }
        requires word { IsWordOf self.old self.old.closed word }
        ensures answer { result ≡ mark_answer self.old word }
        ensures change { self.new ≡ self.old }
    {
        let _ = w;
        let number = self.word(word);
        if number == 0 {
            Marked::Zero
        } else {
            Marked::Busy(u64::from(number))
        }
    }

    /// Closes the next stage.
    pub fn close(&mut self, w: u32) -> Closing
        requires worker { IsWorkerOf self.old w }
        requires left { self.old.closed < self.old.shape.stages }
        ensures answer { result ≡ Closing.Closed }
        ensures change { self.new ≡ after_close self.old }
    {
        let _ = w;
        // What `stages` promises keeps the sum below in range.
        let _stages = self.shape.stages();
        self.closed += 1;
        Closing::Closed
    }

    /// How many stages are closed.
    pub fn closed(&mut self, w: u32) -> u32
        requires { IsWorkerOf self.old w }
        ensures answer { result ≡ self.old.closed }
        ensures change { self.new ≡ self.old }
    {
        let _ = w;
        self.closed
    }
}

// What is there.
impl PlainFabric {
    /// The numbers of the run.
    pub fn shape(&self) -> Shape
        ensures { result ≡ self.now.shape }
    {
        self.shape
    }

    /// The number of a word.
    pub fn word(&self, word: Word) -> u32
        requires { (stage : ℕ) × IsWordOf self.now stage word }
        ensures { result ≡ word_at self.now word }
    {
        match word {
            Word::Enrolled(machine) => self.enrolled[machine as usize],
            Word::Used { from, stage, to } => self.used[self.place(from, stage, to)],
        }
    }

    /// How many of a machine's messages are on their way to that stage of another machine, or of its own.
    pub fn flying(&self, from: u32, stage: u32, to: u32) -> u32
        requires { IsUnit self.now from stage to }
        ensures { result ≡ flying_at self.now from stage to }
    {
        self.flying[self.place(from, stage, to)]
    }

    /// The first root of a machine that isn't claimed.
    pub fn cursor(&self, machine: u32) -> u64
        requires { machine < self.now.shape.machines }
        ensures { result ≡ cursor_at self.now machine }
    {
        self.cursors[machine as usize]
    }

    /// How many stages are closed.
    pub fn closed_at(&self) -> u32
        ensures { result ≡ self.now.closed }
    {
        self.closed
    }

    /// How many buffers a machine's pool holds.
    pub fn pool(&self, machine: u32) -> u64
        requires { machine < self.now.shape.machines }
        ensures { result ≡ pool_at self.now machine }
    {
        self.pools[machine as usize].count() as u64
    }

    /// How many messages an inbox holds.
    pub fn inbox(&self, machine: u32, stage: u32) -> u64
        requires machine_in { machine < self.now.shape.machines }
        requires stage { IsMessageStage self.now stage }
        ensures { IsSomeAnd (inbox_at self.now machine stage) (λ messages. result ≡ length messages) }
    {
        let at = self.inbox_place(machine, stage);
        self.inboxes[at].len() as u64
    }

    /// A message of an inbox, by its place from the front.
    pub fn message(&self, machine: u32, stage: u32, place: u64) -> &Message
        requires machine_in { machine < self.now.shape.machines }
        requires stage { IsMessageStage self.now stage }
        requires place_in { IsSomeAnd (inbox_at self.now machine stage) (λ messages. place < length messages) }
        ensures { IsSomeAnd (inbox_at self.now machine stage) (λ messages. slice_get messages place ≡ Some result.now) }
    {
        let at = self.inbox_place(machine, stage);
        self.inboxes[at].message(place as usize)
    }
}

// Whether a call would be ready.
impl PlainFabric {
    /// Whether a root of the worker's machine is unclaimed.
    pub fn can_claim(&self, w: u32) -> bool
        requires { IsWorkerOf self.now w }
        ensures { result ≡ can_claim self.now (machine_of self.now w) }
    {
        let machine = self.machine(w) as usize;
        self.cursors[machine] < self.roots[machine]
    }

    /// Whether the worker's machine has a credit left for that stage of that machine.
    pub fn can_charge(&self, w: u32, stage: u32, to: u32) -> bool
        requires worker { IsWorkerOf self.now w }
        requires unit { IsUnit self.now (machine_of self.now w) stage to }
        ensures { result ≡ can_charge self.now (machine_of self.now w) stage to }
    {
        let from = self.machine(w);
        self.used[self.place(from, stage, to)] < self.shape.limit(from, to)
    }

    /// Whether the pool of the worker's machine holds a buffer.
    pub fn can_fetch(&self, w: u32) -> bool
        requires { IsWorkerOf self.now w }
        ensures { result ≡ can_fetch self.now (machine_of self.now w) }
    {
        self.pool(self.machine(w)) > 0
    }

    /// Whether a message of that sender and stage is on its way to the worker's machine.
    pub fn can_pick(&self, w: u32, from: u32, stage: u32) -> bool
        requires worker { IsWorkerOf self.now w }
        requires unit { IsUnit self.now from stage (machine_of self.now w) }
        ensures { result ≡ can_pick self.now from stage (machine_of self.now w) }
    {
        self.flying(from, stage, self.machine(w)) > 0
    }

    /// Whether an inbox has room for one more message.
    pub fn can_push(&self, to: u32, stage: u32) -> bool
        requires to_in { to < self.now.shape.machines }
        requires stage { IsMessageStage self.now stage }
        ensures { result ≡ can_push self.now to stage }
    {
        let at = self.inbox_place(to, stage);
        self.inboxes[at].has_space()
    }

    /// Whether a message waits in an inbox of the worker's machine. None does in one that doesn't exist.
    pub fn can_pop(&self, w: u32, stage: u32) -> bool
        requires { IsWorkerOf self.now w }
        ensures { result ≡ is_some (pop_answer self.now (machine_of self.now w) stage) }
    {
        if stage == 0 || stage >= self.shape.stages() {
            return false;
        }
        let at = self.inbox_place(self.machine(w), stage);
        self.inboxes[at].len() > 0
    }
}

// The pools of all machines, each full.
fn new_pools(alloc: Global, shape: &Shape) -> Result<Vec<Pool>, NoMemory>
    ensures count { IfOk result (λ v. length v.items ≡ shape.now.machines) }
    ensures full { IfOk result (λ v. (m : ℕ) (p : Stock) → slice_get v.items m ≡ Some p → p ≡ full_stock shape.now m) }
{
    let room = shape.pool() as u32;
    let mut pools = Vec::with_capacity(alloc, shape.machines() as usize)?;
    for machine in 0..shape.machines() {
        pools.push(Pool::new(alloc, machine, shape.buffer(), room)?)?;
    }
    Ok(pools)
}

// So many empty inboxes.
fn new_inboxes(alloc: Global, count: usize, room: u32) -> Result<Vec<Inbox>, NoMemory>
    ensures { IfOk result (λ v. v.items ≡ replicate count (empty_queue room)) }
{
    let mut inboxes = Vec::with_capacity(alloc, count)?;
    for i in 0..count {
        let _ = i;
        inboxes.push(Inbox::new(alloc, room)?)?;
    }
    Ok(inboxes)
}

impl PlainFabric {
    /// The tables at the start of a run: all pools full, all workers enrolled, and all else 0 or empty. `roots` has
    /// each machine's number of roots.
    pub fn new(alloc: Global, shape: &Shape, roots: &[u64]) -> Result<PlainFabric, NoMemory>
        requires { length roots.now ≡ shape.now.machines }
        ensures { IfOk result (λ fabric. fabric ≡ start shape.now roots.now) }
    {
        let machines = shape.machines() as usize;
        let rows = machines * shape.stages() as usize;
        let room = (shape.broad() + (shape.machines() - 1) * shape.credit()).max(1);
        let pools = new_pools(alloc, shape)?;
        let inboxes = new_inboxes(alloc, rows, room)?;
        let used = vec![in alloc; 0; rows * machines]?;
        let flying = vec![in alloc; 0; rows * machines]?;
        let cursors = vec![in alloc; 0; machines]?;
        let enrolled = vec![in alloc; shape.workers(); machines]?;
        let roots = roots.to_vec(alloc)?;
        Ok(PlainFabric {
            shape: *shape,
            roots,
            pools,
            inboxes,
            used,
            flying,
            cursors,
            enrolled,
            closed: 0,
        })
    }
}
