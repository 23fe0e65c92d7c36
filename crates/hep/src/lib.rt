// The public library: reading, running, stepping and writing a state that lies in lent buffers, and the same for a caller that owns its
// rows and its process table.
#![tactic(auto)]

ghost use Rattle.std.specs.Prelude.{◌≡◌, ◌==◌, position};
ghost use Rattle.library.specs.Empty.{no_rows, no_processes};
ghost use Rattle.library.specs.Held.{lent_buffers};
ghost use Rattle.library.specs.Promises.{ReadPromise, RunPromise, StepPromise, WritePromise};
ghost use Rattle.hep.specs.Code.Rows.{loaded_rows, stored_rows};
ghost use Rattle.window.specs.Limits.{tasks};

use library::{AfterRead, AfterRun, AfterStep, Rows, RunResult, Sizes};
use refusal::Refusal;
use step::{Ending, ProcessTable};
use window::{Row, TASKS};

// ---- a lent slice of rows, loaded by value and stored back

// Rows of no task, for an owner.
pub fn no_rows() -> [Row; TASKS]
    ensures { result ≡ no_rows }
{
    library::no_rows()
}

// The first seven rows of a slice, by value.
fn load_rows(rows: &[Row]) -> Rows
    ensures { result ≡ loaded_rows rows.now }
{
    let n = rows.len().min(TASKS);
    let mut at = no_rows();
    at[..n].copy_from_slice(&rows[..n]);
    Rows { at, n }
}

// The rows go back to the first seven places of the slice.
fn store_rows(rows: &mut [Row], v: Rows)
    ensures { rows.new ≡ stored_rows rows.old v }
{
    let n = rows.len().min(TASKS);
    rows[..n].copy_from_slice(&v.at[..n]);
}

// ---- a lent slice of rows, searched by task number

// The place of the first row of a task.
fn find_row(rows: &[Row], task: u8) -> Option<usize>
    ensures { result ≡ position (λ r. r.task == task) rows.now }
{
    rows.iter().position(|row| row.task == task)
}

// ---- the calls

// Reads an image into the buffers: the image's refusals, then 7. Its answer is the sizes of the state that was read. A refusal changes nothing;
// beyond the sizes nothing is changed.
pub fn read(
    rows: &mut [Row],
    table: &mut ProcessTable,
    constant_tags: &mut [u8],
    constant_words: &mut [u64],
    register_tags: &mut [u8],
    register_words: &mut [u64],
    program: &mut [u64],
    data_tags: &mut [u8],
    data_words: &mut [u64],
    image: &[u8],
) -> Result<Sizes, Refusal>
    ensures { ReadPromise (lent_buffers rows.old table.old constant_tags.old constant_words.old register_tags.old register_words.old program.old data_tags.old data_words.old) image.now result (lent_buffers rows.new table.new constant_tags.new constant_words.new register_tags.new register_words.new program.new data_tags.new data_words.new) }
{
    let v = load_rows(rows);
    let after = image_read::read(
        v,
        *table,
        constant_tags,
        constant_words,
        register_tags,
        register_words,
        program,
        data_tags,
        data_words,
        image,
    );
    *table = after.table;
    store_rows(rows, after.rows);
    after.answer
}

// Runs the schedule on the state in the buffers: 8, then 9, then 10. Its answer is how often each ending came, in all and of each
// task. A refusal changes nothing; beyond the sizes nothing is changed.
pub fn run(
    rows: &mut [Row],
    table: &mut ProcessTable,
    constant_tags: &[u8],
    constant_words: &[u64],
    register_tags: &mut [u8],
    register_words: &mut [u64],
    program: &[u64],
    data_tags: &mut [u8],
    data_words: &mut [u64],
    schedule: &[u8],
    n: Sizes,
) -> RunResult
    ensures { RunPromise n (lent_buffers rows.old table.old constant_tags.now constant_words.now register_tags.old register_words.old program.now data_tags.old data_words.old) schedule.now result (lent_buffers rows.new table.new constant_tags.now constant_words.now register_tags.new register_words.new program.now data_tags.new data_words.new) }
{
    let v = load_rows(rows);
    let after = run_schedule::run(
        v,
        *table,
        constant_tags,
        constant_words,
        register_tags,
        register_words,
        program,
        data_tags,
        data_words,
        schedule,
        n,
    );
    *table = after.table;
    store_rows(rows, after.rows);
    after.result
}

// One item of a task on the state in the buffers: 8, then 10. The slice of rows is searched by the task's number. Its answer is how the item
// ends. A refusal changes nothing; beyond the sizes nothing is changed.
pub fn step(
    rows: &mut [Row],
    table: &mut ProcessTable,
    constant_tags: &[u8],
    constant_words: &[u64],
    register_tags: &mut [u8],
    register_words: &mut [u64],
    program: &[u64],
    data_tags: &mut [u8],
    data_words: &mut [u64],
    n: Sizes,
    task: u8,
) -> Result<Ending, Refusal>
    ensures { StepPromise n (lent_buffers rows.old table.old constant_tags.now constant_words.now register_tags.old register_words.old program.now data_tags.old data_words.old) task result (lent_buffers rows.new table.new constant_tags.now constant_words.now register_tags.new register_words.new program.now data_tags.new data_words.new) }
{
    let v = load_rows(rows);
    let place = find_row(rows, task).unwrap_or(rows.len());
    let after = run_schedule::step(
        v,
        place,
        *table,
        constant_tags,
        constant_words,
        register_tags,
        register_words,
        program,
        data_tags,
        data_words,
        n,
        task,
    );
    *table = after.table;
    store_rows(rows, after.rows);
    after.answer
}

// Writes the image of the state in the buffers into the first bytes of `output`: 8, then 7. Its answer is the length of the image. A
// refusal changes nothing; beyond the image nothing is changed.
pub fn write(
    rows: &[Row],
    table: &ProcessTable,
    constant_tags: &[u8],
    constant_words: &[u64],
    register_tags: &[u8],
    register_words: &[u64],
    program: &[u64],
    data_tags: &[u8],
    data_words: &[u64],
    output: &mut [u8],
    n: Sizes,
) -> Result<usize, Refusal>
    ensures { WritePromise n (lent_buffers rows.now table.now constant_tags.now constant_words.now register_tags.now register_words.now program.now data_tags.now data_words.now) result output.old output.new }
{
    let v = load_rows(rows);
    image_write::write(
        v,
        *table,
        constant_tags,
        constant_words,
        register_tags,
        register_words,
        program,
        data_tags,
        data_words,
        output,
        n,
    )
}

// ---- the calls for a caller that owns its rows and its process table: they are lent, and come back

// A process table without processes, for an owner.
pub fn no_processes() -> ProcessTable
    ensures { result ≡ no_processes }
{
    library::no_processes()
}

// `read` with rows and table by value.
pub fn read_owned(
    mut rows: [Row; TASKS],
    mut table: ProcessTable,
    constant_tags: &mut [u8],
    constant_words: &mut [u64],
    register_tags: &mut [u8],
    register_words: &mut [u64],
    program: &mut [u64],
    data_tags: &mut [u8],
    data_words: &mut [u64],
    image: &[u8],
) -> AfterRead
    ensures { ReadPromise (lent_buffers rows table constant_tags.old constant_words.old register_tags.old register_words.old program.old data_tags.old data_words.old) image.now result.answer (lent_buffers result.rows.at result.table constant_tags.new constant_words.new register_tags.new register_words.new program.new data_tags.new data_words.new) × (result.rows.n ≡ tasks) }
{
    let answer = read(
        &mut rows,
        &mut table,
        constant_tags,
        constant_words,
        register_tags,
        register_words,
        program,
        data_tags,
        data_words,
        image,
    );
    AfterRead {
        rows: Rows { at: rows, n: TASKS },
        table,
        answer,
    }
}

// `run` with rows and table by value.
pub fn run_owned(
    mut rows: [Row; TASKS],
    mut table: ProcessTable,
    constant_tags: &[u8],
    constant_words: &[u64],
    register_tags: &mut [u8],
    register_words: &mut [u64],
    program: &[u64],
    data_tags: &mut [u8],
    data_words: &mut [u64],
    schedule: &[u8],
    n: Sizes,
) -> AfterRun
    ensures { RunPromise n (lent_buffers rows table constant_tags.now constant_words.now register_tags.old register_words.old program.now data_tags.old data_words.old) schedule.now result.result (lent_buffers result.rows.at result.table constant_tags.now constant_words.now register_tags.new register_words.new program.now data_tags.new data_words.new) × (result.rows.n ≡ tasks) }
{
    let result = run(
        &mut rows,
        &mut table,
        constant_tags,
        constant_words,
        register_tags,
        register_words,
        program,
        data_tags,
        data_words,
        schedule,
        n,
    );
    AfterRun {
        rows: Rows { at: rows, n: TASKS },
        table,
        result,
    }
}

// `step` with rows and table by value.
pub fn step_owned(
    mut rows: [Row; TASKS],
    mut table: ProcessTable,
    constant_tags: &[u8],
    constant_words: &[u64],
    register_tags: &mut [u8],
    register_words: &mut [u64],
    program: &[u64],
    data_tags: &mut [u8],
    data_words: &mut [u64],
    n: Sizes,
    task: u8,
) -> AfterStep
    ensures { StepPromise n (lent_buffers rows table constant_tags.now constant_words.now register_tags.old register_words.old program.now data_tags.old data_words.old) task result.answer (lent_buffers result.rows.at result.table constant_tags.now constant_words.now register_tags.new register_words.new program.now data_tags.new data_words.new) × (result.rows.n ≡ tasks) }
{
    let answer = step(
        &mut rows,
        &mut table,
        constant_tags,
        constant_words,
        register_tags,
        register_words,
        program,
        data_tags,
        data_words,
        n,
        task,
    );
    AfterStep {
        rows: Rows { at: rows, n: TASKS },
        table,
        answer,
    }
}

// `write` with rows and table by value.
pub fn write_owned(
    rows: [Row; TASKS],
    table: ProcessTable,
    constant_tags: &[u8],
    constant_words: &[u64],
    register_tags: &[u8],
    register_words: &[u64],
    program: &[u64],
    data_tags: &[u8],
    data_words: &[u64],
    output: &mut [u8],
    n: Sizes,
) -> Result<usize, Refusal>
    ensures { WritePromise n (lent_buffers rows table constant_tags.now constant_words.now register_tags.now register_words.now program.now data_tags.now data_words.now) result output.old output.new }
{
    write(
        &rows,
        &table,
        constant_tags,
        constant_words,
        register_tags,
        register_words,
        program,
        data_tags,
        data_words,
        output,
        n,
    )
}
