// The numbers of a run: queues side by side, trap records and windows by task, the word of free PTs. From queues and rows, and back.
#![tactic(auto)]

ghost use Rattle.std.specs.Prelude.{◌≡◌, ◌+◌, ◌-◌, ◌*◌, ◌%◌, ◌^◌, ◌≤◌, ◌<◌, length, take};
ghost use Rattle.std.proofs.Math.Seq.{paste};
ghost use Rattle.window.specs.Code.Spans.{end_of};
ghost use Rattle.window.specs.Limits.{tasks};
ghost use Rattle.step.specs.Queues.{places, numbers};
ghost use Rattle.step.specs.State.{find_row};
ghost use Rattle.run_rings.specs.Code.Mask.{free_word};
ghost use Rattle.run_rings.specs.Code.Place.{place_from};
ghost use Rattle.run_rings.specs.Code.Rings.{queue_at, queues_in};
ghost use Rattle.run_rings.specs.Code.Records.{row_in, rows_with};
ghost use Rattle.run_rings.specs.Code.Spans.{window_numbers};
ghost use Rattle.run_rings.specs.Code.Laid.{no_rings, queues_laid, no_tasks, row_laid, tasks_laid};

use step::{NUMBERS, PLACES, QUEUES, Queue};
use window::{Row, TASKS};

// Rings by number of queue.
pub const RINGS: usize = QUEUES;

// The places of all rings.
pub const RING_PLACES: usize = RINGS * PLACES;

// The numbers of a task's windows, and of all tasks'.
pub const SPANS: usize = 8;

pub const ALL_SPANS: usize = NUMBERS * SPANS;

// The word in which every PT is free.
const ALL_FREE: u64 = 0xffff_ffff_ffff_ffff;

// Queues side by side: of ring k the 64 places from 64 k on, its head and its length at k.
#[derive(Clone, Copy)]
pub struct Rings {
    pub pts: [u8; RING_PLACES],
    pub heads: [usize; RINGS],
    pub lens: [usize; RINGS],
}

// By task: the trap record, and the windows in eight numbers from 8 t on. Arrays, and no record by task: run_schedule's promises are of each array by itself.
#[derive(Clone, Copy)]
pub struct Tasks {
    pub kinds: [u8; NUMBERS],
    pub stored: [u64; NUMBERS],
    pub spans: [u32; ALL_SPANS],
}

// ---- queues to rings and back

// Numbers into part k of others, which has as many.
fn lay<T: Copy>(numbers: &mut [T], k: usize, part: &[T])
    requires { length part.now * k + length part.now ≤ length numbers.old }
    ensures { numbers.new ≡ paste numbers.old (length part.now * k) part.now (length part.now) }
{
    let n = part.len();
    let at = n * k;
    numbers[at..at + n].copy_from_slice(part);
}

// The queues into the rings, each into that of its number.
pub fn rings_of(queues: [Queue; QUEUES]) -> Rings
    ensures { (result ≡ queues_laid 0 queues no_rings) × (queues_in result.pts result.heads result.lens ≡ queues) }
{
    let mut rings = Rings {
        pts: [0; RING_PLACES],
        heads: [0; RINGS],
        lens: [0; RINGS],
    };
    for (k, q) in queues.iter().enumerate() {
        lay(&mut rings.pts, k, &q.pts);
        rings.heads[k] = q.head;
        rings.lens[k] = q.len;
    }
    rings
}

// The queue in ring k.
fn queue_of(pts: &[u8], heads: &[usize], lens: &[usize], k: usize) -> Queue
    requires { (places * k + places ≤ length pts.now) × (k < length heads.now) × (k < length lens.now) }
    ensures { result ≡ queue_at pts.now heads.now lens.now k }
{
    let mut q = Queue {
        pts: [0; PLACES],
        head: heads[k],
        len: lens[k],
    };
    let at = PLACES * k;
    q.pts.copy_from_slice(&pts[at..at + PLACES]);
    q
}

// The queues from the rings.
pub fn queues_of(
    pts: [u8; RING_PLACES],
    heads: [usize; RINGS],
    lens: [usize; RINGS],
) -> [Queue; QUEUES]
    ensures { result ≡ queues_in pts heads lens }
{
    let empty = Queue {
        pts: [0; PLACES],
        head: 0,
        len: 0,
    };
    let mut queues = [empty; QUEUES];
    for (k, queue) in queues.iter_mut().enumerate() {
        *queue = queue_of(&pts, &heads, &lens, k);
    }
    queues
}

// The word of the PTs that stand in no queue: digit p from the right is 1 where PT p is free.
pub fn free_mask(queues: [Queue; QUEUES]) -> u64
    ensures { result ≡ free_word queues }
{
    let mut free = ALL_FREE;
    for q in &queues {
        free = step_queue::free_after(free, *q);
    }
    free
}

// ---- trap records and windows by task: rows in an array with their count, as library's Rows has them; the public promises are of n above 7 too

// The first of the first n rows with the number t.
pub fn find(rows: [Row; TASKS], n: usize, t: u8) -> Option<usize>
    ensures { result ≡ place_from t 0 (take n rows) }
{
    rows.iter().take(n).position(|row| row.task == t)
}

// The address past the last of a window, 0 where it is empty.
fn end_of(first: u64, last: u64) -> u64
    requires { last < 2 ^ 64 - 1 }
    ensures { result ≡ end_of (record { first = first; last = last }) }
{
    if last < first {
        return 0;
    }
    last + 1
}

// The low half of a number.
fn low(x: u64) -> u32
    ensures { result ≡ x % 4294967296 }
{
    (x % 0x1_0000_0000) as u32
}

// The windows of a row: CB doubled, then first and end of registers, program words and data bytes.
pub fn span(row: Row) -> [u32; SPANS]
    ensures { result ≡ window_numbers row }
{
    let base = row.rb as u64 * 2;
    let program_base = row.pb as u64 * 16;
    let data_base = row.db as u64 * 256;
    let end = end_of(base, row.rl as u64 * 2 + 1);
    let program_end = end_of(program_base, row.pl as u64 * 16 + 15);
    let data_end = end_of(data_base, row.dl as u64 * 256 + 255);
    [
        row.cb as u32 * 2,
        low(base),
        low(end),
        low(program_base),
        low(program_end),
        low(data_base),
        low(data_end),
        0,
    ]
}

// The trap record and the windows of task t; they stay where it is unlisted.
fn number_task(rows: [Row; TASKS], n: usize, t: usize, tasks: &mut Tasks)
    requires { t < numbers }
    ensures { tasks.new ≡ row_laid t (find_row t (take n rows)) tasks.old }
{
    let Some(i) = find(rows, n, t as u8) else {
        return;
    };
    let row = rows[i];
    tasks.kinds[t] = row.kind;
    tasks.stored[t] = row.psw;
    lay(&mut tasks.spans, t, &span(row));
}

// The trap records and the windows of tasks 1 to 7, of the first n rows.
pub fn number_tasks(rows: [Row; TASKS], n: usize) -> Tasks
    ensures { result ≡ tasks_laid tasks 1 (take n rows) no_tasks }
{
    let mut tasks = Tasks {
        kinds: [0; NUMBERS],
        stored: [0; NUMBERS],
        spans: [0; ALL_SPANS],
    };
    for t in 1..NUMBERS {
        number_task(rows, n, t, &mut tasks);
    }
    tasks
}

// The row with the trap record of its task.
fn row_with(row: Row, kinds: [u8; NUMBERS], stored: [u64; NUMBERS]) -> Row
    ensures { result ≡ row_in kinds stored row }
{
    let t = row.task as usize;
    Row {
        kind: kinds.get(t).copied().unwrap_or(0),
        psw: stored.get(t).copied().unwrap_or(0),
        ..row
    }
}

// The first n rows with the trap records of their tasks.
pub fn rows_with(
    rows: [Row; TASKS],
    n: usize,
    kinds: [u8; NUMBERS],
    stored: [u64; NUMBERS],
) -> [Row; TASKS]
    ensures { result ≡ rows_with kinds stored rows n }
{
    let mut next = rows;
    for i in 0..n.min(TASKS) {
        next[i] = row_with(rows[i], kinds, stored);
    }
    next
}
