// The tests that a field or a row must pass, in an image as in a state.
#![tactic(auto)]

ghost use Rattle.std.specs.Prelude.{◌≡◌};
ghost use Rattle.step.specs.Soundness.{task_sound, kind_sound, record_sound, ends_in, row_ends_in, total_sound};

use step::{NO_TRAP, TOTAL};
use window::{Row, TASKS, Window};

// Whether a row of task t may stand behind the row of task `before`.
pub fn task_sound(before: u64, t: u64) -> bool
    ensures { result ≡ task_sound before t }
{
    before < t && t <= TASKS as u64
}

// Whether a trap of kind k may be recorded, or none: FF.
pub fn kind_sound(k: u64) -> bool
    ensures { result ≡ kind_sound k }
{
    matches!(k, 0x00 | 0x12 | 0x14 | 0x16 | 0x1A | 0x1C | 0x1E | 0xFF)
}

// Whether a PSW may stand beside a trap kind.
pub fn record_sound(kind: u64, psw: u64) -> bool
    ensures { result ≡ record_sound kind psw }
{
    if kind == u64::from(NO_TRAP) {
        psw == 0
    } else {
        word::psw_sound(psw)
    }
}

// Whether a window that isn't empty ends in its memory of n places.
pub fn ends_in(w: Window, n: usize) -> bool
    ensures { result ≡ ends_in w n }
{
    w.last < w.first || w.last < n
}

// Whether the windows of a row do, in memories of so many registers, program words and data words.
pub fn row_ends_in(row: Row, registers: usize, program: usize, data_words: usize) -> bool
    ensures { result ≡ row_ends_in registers program data_words row }
{
    ends_in(window::register_window(row), registers)
        && ends_in(window::program_window(row), program)
        && ends_in(window::data_word_window(row), data_words)
}

// Whether there is room for one more process, or the flag is up.
pub fn total_sound(live: usize, flag: u64) -> bool
    ensures { result ≡ total_sound live flag }
{
    live < TOTAL || flag != 0
}
