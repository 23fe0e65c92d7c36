// The live processes of each queue, and the free PTs as a word, PT p at digit p from the right.
#![tactic(auto)]

ghost use Rattle.std.specs.Prelude.{◌≡◌, ℕ, ◌+◌, ◌≤◌, get_or};
ghost use Rattle.step.specs.State.{no_queue};
ghost use Rattle.step.specs.Queues.{places, list_of, live_counts, below_total};
ghost use Rattle.step_queue.specs.Code.Mask.{without, free_after};

use step::{NUMBERS, PLACES, PTS, QUEUES, Queue, TOTAL};

// The first number that is no PT.
const FIRST_NO_PT: u8 = PTS as u8;

// The processes of two queues together; 0 where one is longer than its array.
fn together(own: usize, sfu: usize) -> usize
    ensures { own ≤ places → sfu ≤ places → result ≡ own + sfu }
{
    if own <= PLACES && sfu <= PLACES {
        own + sfu
    } else {
        0
    }
}

// The live processes of each task, in its queue and its SFU queue, where neither is longer than its array.
pub fn live_counts(queues: [Queue; QUEUES]) -> [usize; NUMBERS]
    ensures { ((k : ℕ) → (get_or queues k no_queue).len ≤ places) → result ≡ live_counts queues }
{
    let mut counts = [0; NUMBERS];
    for (k, count) in counts.iter_mut().enumerate() {
        *count = together(queues[2 * k].len, queues[2 * k + 1].len);
    }
    counts
}

// Whether one process more than so many is fewer than the total.
pub fn below_total(live: usize) -> bool
    ensures { result ≡ below_total live }
{
    live < TOTAL - 1
}

// The word of free PTs without one.
fn without(free: u64, pt: u8) -> u64
    ensures { result ≡ without free pt }
{
    if FIRST_NO_PT <= pt {
        return free;
    }
    if (free >> pt) % 2 == 0 {
        return free;
    }
    free - (1u64 << pt)
}

// The word of free PTs without those of a queue.
pub fn free_after(free: u64, q: Queue) -> u64
    ensures { result ≡ free_after (list_of q) free }
{
    let mut free = free;
    let mut at = q.head % PLACES;
    for _ in 0..q.len {
        free = without(free, q.pts[at]);
        at = (at + 1) % PLACES;
    }
    free
}
