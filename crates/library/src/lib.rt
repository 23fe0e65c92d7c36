// States in lent buffers, and the answers of the library's calls: what each call answers and leaves is defined here.
#![tactic(auto)]

ghost use Rattle.std.specs.Prelude.{◌≡◌};
ghost use Rattle.library.specs.Empty.{empty_row, no_rows, empty_queue, no_processes};

use refusal::Refusal;
use run::{Counts, TASK_NUMBERS};
use step::{Ending, NO_TRAP, NUMBERS, PLACES, PTS, ProcessTable, Processes, QUEUES, Queue};
use window::{Row, TASKS};

// The sizes of a state: so many of the first places of each buffer are its fields.
#[derive(Clone, Copy)]
pub struct Sizes {
    pub rows: usize,
    pub constants: usize,
    pub registers: usize,
    pub program: usize,
    pub data_words: usize,
}

// Rows by value: the first n of seven. An array with its length, since there is no heap.
#[derive(Clone, Copy)]
pub struct Rows {
    pub at: [Row; TASKS],
    pub n: usize,
}

// What a run answers, with the counts of each task number, of task t at t; none of a run that is refused.
#[derive(Clone, Copy)]
pub struct RunResult {
    pub answer: Result<Counts, Refusal>,
    pub own: [Counts; TASK_NUMBERS],
}

// What reading answers, and what it leaves besides the lent memories.
#[derive(Clone, Copy)]
pub struct AfterRead {
    pub rows: Rows,
    pub table: ProcessTable,
    pub answer: Result<Sizes, Refusal>,
}

// What a run answers, and what it leaves besides the lent memories.
#[derive(Clone, Copy)]
pub struct AfterRun {
    pub rows: Rows,
    pub table: ProcessTable,
    pub result: RunResult,
}

// What a step answers, and what it leaves besides the lent memories.
#[derive(Clone, Copy)]
pub struct AfterStep {
    pub rows: Rows,
    pub table: ProcessTable,
    pub answer: Result<Ending, Refusal>,
}

// ---- rows and a process table of no task, for a caller that owns them

pub fn empty_row() -> Row
    ensures { result ≡ empty_row }
{
    Row {
        task: 0,
        cb: 0,
        rb: 0,
        rl: 0,
        pb: 0,
        pl: 0,
        db: 0,
        dl: 0,
        kind: NO_TRAP,
        psw: 0,
    }
}

pub fn no_rows() -> [Row; TASKS]
    ensures { result ≡ no_rows }
{
    let row = empty_row();
    [row; TASKS]
}

// A queue without a process.
pub fn empty_queue() -> Queue
    ensures { result ≡ empty_queue }
{
    Queue {
        pts: [0; PLACES],
        head: 0,
        len: 0,
    }
}

// The process table of such queues; the create fault flag is down.
pub fn no_processes() -> ProcessTable
    ensures { result ≡ no_processes }
{
    let queue = empty_queue();
    ProcessTable {
        users: Processes {
            psw: [0; PTS],
            queues: [queue; QUEUES],
            flag: 0,
            live: [0; NUMBERS],
            count: 0,
        },
    }
}
