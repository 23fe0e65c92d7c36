// Refusal 8 of a state in lent buffers: sizes that do not fit, or a state that isn't sound.
#![tactic(auto)]

ghost use Rattle.std.specs.Prelude.{◌≡◌, true, min, length};
ghost use Rattle.library.specs.Buffers.{fits};
ghost use Rattle.library.specs.Calls.{state_refused};
ghost use Rattle.library.specs.Held.{room_from, lent_buffers};
ghost use Rattle.library.specs.Code.HeldRows.{held_rows};
ghost use Rattle.window.specs.Limits.{tasks};

use library::{Rows, Sizes};
use step::ProcessTable;
use window::TASKS;

// How many rows there are.
pub fn row_count(n: usize) -> usize
    ensures { result ≡ min n tasks }
{
    n.min(TASKS)
}

// Whether each size is at most the length of its buffers.
pub fn fits(
    n: Sizes,
    rows: usize,
    constant_tags: usize,
    constant_words: usize,
    register_tags: usize,
    register_words: usize,
    program: usize,
    data_tags: usize,
    data_words: usize,
) -> bool
    ensures { result ≡ fits n (room_from rows constant_tags constant_words register_tags register_words program data_tags data_words) }
{
    if rows < n.rows {
        return false;
    }
    if constant_tags < n.constants {
        return false;
    }
    if constant_words < n.constants {
        return false;
    }
    if register_tags < n.registers {
        return false;
    }
    if register_words < n.registers {
        return false;
    }
    if program < n.program {
        return false;
    }
    if data_tags < n.data_words {
        return false;
    }
    n.data_words <= data_words
}

// Whether the state isn't sound, where its sizes fit.
fn cut_refused(
    rows: Rows,
    table: ProcessTable,
    constant_tags: &[u8],
    constant_words: &[u64],
    register_tags: &[u8],
    register_words: &[u64],
    program: &[u64],
    data_tags: &[u8],
    data_words: &[u64],
    n: Sizes,
) -> bool
    requires { fits n (room_from (min rows.n tasks) (length constant_tags.now) (length constant_words.now) (length register_tags.now) (length register_words.now) (length program.now) (length data_tags.now) (length data_words.now)) ≡ true }
    ensures { result ≡ state_refused n (lent_buffers (held_rows rows) table constant_tags.now constant_words.now register_tags.now register_words.now program.now data_tags.now data_words.now) }
{
    !step_soundness::sound(
        rows.at,
        n.rows,
        table,
        &constant_tags[..n.constants],
        &constant_words[..n.constants],
        &register_tags[..n.registers],
        &register_words[..n.registers],
        &program[..n.program],
        &data_tags[..n.data_words],
        &data_words[..n.data_words],
    )
}

// Refusal 8: a buffer is shorter than its size says, or the state isn't sound.
pub fn refused(
    rows: Rows,
    table: ProcessTable,
    constant_tags: &[u8],
    constant_words: &[u64],
    register_tags: &[u8],
    register_words: &[u64],
    program: &[u64],
    data_tags: &[u8],
    data_words: &[u64],
    n: Sizes,
) -> bool
    ensures { result ≡ state_refused n (lent_buffers (held_rows rows) table constant_tags.now constant_words.now register_tags.now register_words.now program.now data_tags.now data_words.now) }
{
    if !fits(
        n,
        row_count(rows.n),
        constant_tags.len(),
        constant_words.len(),
        register_tags.len(),
        register_words.len(),
        program.len(),
        data_tags.len(),
        data_words.len(),
    ) {
        return true;
    }
    cut_refused(
        rows,
        table,
        constant_tags,
        constant_words,
        register_tags,
        register_words,
        program,
        data_tags,
        data_words,
        n,
    )
}
