// One item of a task: queues, the process table, attempts, and how they end.
#![tactic(auto)]

use operation::{Decision, Trap};

// The places of a queue.
pub const PLACES: usize = 64;

// The PTs (process numbers 0 to 63), shared by all tasks.
pub const PTS: usize = 64;

// A create that makes this many processes faults.
pub const TOTAL: usize = 64;

// The trap kind of a row that has not trapped.
pub const NO_TRAP: u8 = 0xFF;

// The PTs of a task's processes in a ring: the head stands at head, and len of them follow one another.
#[derive(Clone, Copy)]
pub struct Queue {
    pub pts: [u8; PLACES],
    pub head: usize,
    pub len: usize,
}

// The task numbers of one kind, of which each has its place; user tasks are 0 to 7, and 0 is never listed.
pub const NUMBERS: usize = 8;

// The queues of one kind of tasks: of the task at place i its queue has the number 2 * i, its SFU queue 2 * i + 1.
pub const QUEUES: usize = 16;

// The processes of one kind of tasks: the PSW of each PT, the queues, the create fault flag, and how many processes live: of each task, and in all.
#[derive(Clone, Copy)]
pub struct Processes {
    pub psw: [u64; PTS],
    pub queues: [Queue; QUEUES],
    pub flag: u8,
    pub live: [usize; NUMBERS],
    pub count: usize,
}

// The processes of the user tasks.
#[derive(Clone, Copy)]
pub struct ProcessTable {
    pub users: Processes,
}

// Which process of a task acts: in a step the head of the task's queue, in a try the head of its SFU queue.
#[derive(Clone, Copy)]
pub enum Attempt {
    Step,
    Try,
}

// How a step ends. A trap carries its kind and the PSW that is stored.
#[derive(Clone, Copy)]
pub enum Ending {
    Executed,
    Waved,
    Trapped(Trap, u64),
    Idle,
}

// What becomes of a task's queues: of the one whose head acts, and of the other. A created PT joins the task's queue.
#[derive(Clone, Copy)]
pub enum Motion {
    Stays,
    // head to tail
    Turns,
    // the head leaves
    Leaves,
    // the head goes to the tail of the other queue
    Passes,
    // head to tail, and a created PT joins
    TurnsAndJoins(u8),
    // the head goes to the tail of the other queue, and a created PT joins
    PassesAndJoins(u8),
    // a created PT joins, the head staying head
    Joins(u8),
}

// How a step ends, and what becomes of the queues.
#[derive(Clone, Copy)]
pub struct StepResult {
    pub ending: Ending,
    pub motion: Motion,
}
