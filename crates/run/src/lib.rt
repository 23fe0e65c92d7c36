// A run over a schedule and its counts.
#![tactic(auto)]

ghost use Rattle.std.specs.Prelude.{◌≡◌};
ghost use Rattle.run.specs.Schedule.{item_sound};

use window::TASKS;

// The highest task number.
const LAST_TASK: u8 = TASKS as u8;

// The most items of a schedule.
pub const MOST_ITEMS: usize = 65535;

// The places of a tally by task number; there is no task 0.
pub const TASK_NUMBERS: usize = TASKS + 1;

// How often an item ended so, and how many tries there were.
#[derive(Clone, Copy)]
pub struct Counts {
    pub executed: u32,
    pub waved: u32,
    pub trapped: u32,
    pub idle: u32,
    pub tries: u32,
}

// An item of a schedule is a task number 1 to 7.
pub fn item_sound(t: u8) -> bool
    ensures { result ≡ item_sound t }
{
    1 <= t && t <= LAST_TASK
}
