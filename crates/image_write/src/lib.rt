// Writing an image: a sound state's fields, section by section.
// `as` stands where Rust has no `From`: between usize and u64, and to a narrower number, which is proved to fit.
#![tactic(auto)]

ghost use Rattle.std.specs.Prelude.{◌≡◌, false, ◌+◌, ◌*◌, ◌≤◌, length};
ghost use Rattle.window.specs.Memories.{memory};
ghost use Rattle.step.specs.Queues.{pt_count, list_of, live_pts};
ghost use Rattle.image.specs.Image.{byte_of_queue, to_process, processes_in, processes_from, encode, row_length, process_length, tasks_length, processes_length, cells_length, words_length, image_length};
ghost use Rattle.image_bytes.specs.Code.Writing.{put_at};
ghost use Rattle.step_soundness.specs.Code.Held.{state_in};
ghost use Rattle.library.specs.Buffers.{fields_in};
ghost use Rattle.library.specs.Calls.{state_refused};
ghost use Rattle.library.specs.Held.{lent_buffers};
ghost use Rattle.library.specs.Code.HeldRows.{held_rows};
ghost use Rattle.library.specs.Promises.{WritePromise};
ghost use Rattle.image_write.specs.Code.Bytes.{row_first, row_second, row_record, row_bytes, process_bytes, rows_bytes, processes_bytes, tasks_section, processes_section, words_section, cells_section, image_bytes};
ghost use Rattle.image_write.specs.Code.Lengths.{length_written};
ghost use Rattle.window.specs.Limits.{tasks, most_constants, most_registers, most_program, most_data};

use image::{CELL_BYTES, PROCESS_BYTES, ROW_BYTES, WORD_BYTES};
use library::{Rows, Sizes};
use refusal::Refusal;
use step::{PLACES, PTS, ProcessTable, Processes, QUEUES, Queue};
use window::{Row, TASKS};

// ---- tasks

// Number, CB, RB and RL.
fn put_first(output: &mut [u8], at: usize, row: Row)
    requires { at + 7 ≤ length output.old }
    ensures { output.new ≡ put_at at (row_first row) output.old }
{
    image_bytes::put_number(output, at, 1, u64::from(row.task));
    image_bytes::put_number(output, at + 1, 2, u64::from(row.cb));
    image_bytes::put_number(output, at + 3, 2, u64::from(row.rb));
    image_bytes::put_number(output, at + 5, 2, u64::from(row.rl));
}

// PB, PL, DB and DL.
fn put_second(output: &mut [u8], at: usize, row: Row)
    requires { at + 12 ≤ length output.old }
    ensures { output.new ≡ put_at at (row_second row) output.old }
{
    image_bytes::put_number(output, at, 2, u64::from(row.pb));
    image_bytes::put_number(output, at + 2, 2, u64::from(row.pl));
    image_bytes::put_number(output, at + 4, 4, u64::from(row.db));
    image_bytes::put_number(output, at + 8, 4, u64::from(row.dl));
}

// The trap record.
fn put_record(output: &mut [u8], at: usize, row: Row)
    requires { at + 9 ≤ length output.old }
    ensures { output.new ≡ put_at at (row_record row) output.old }
{
    image_bytes::put_number(output, at, 1, u64::from(row.kind));
    image_bytes::put_number(output, at + 1, 8, row.psw);
}

fn put_row(output: &mut [u8], at: usize, row: Row)
    requires { at + row_length ≤ length output.old }
    ensures { output.new ≡ put_at at (row_bytes row) output.old }
{
    put_first(output, at, row);
    put_second(output, at + 7, row);
    put_record(output, at + 19, row);
}

// Each function below answers the place behind what it puts.

fn put_rows(output: &mut [u8], at: usize, rows: &[Row]) -> usize
    requires { at + row_length * length rows.now ≤ length output.old }
    ensures value { result ≡ at + length (rows_bytes rows.now) }
    ensures output_after { output.new ≡ put_at at (rows_bytes rows.now) output.old }
{
    let mut p = at;
    for row in rows {
        put_row(output, p, *row);
        p += ROW_BYTES;
    }
    p
}

// ---- processes

// The byte that names the queue with number k.
fn task_byte(k: u8) -> u8
    ensures { result ≡ byte_of_queue k }
{
    k / 2 + 16 * (k % 2)
}

fn put_process(output: &mut [u8], at: usize, pt: u8, k: u8, psw: u64)
    requires { at + process_length ≤ length output.old }
    ensures { output.new ≡ put_at at (process_bytes (to_process (pt, (byte_of_queue k, psw)))) output.old }
{
    let task = task_byte(k);
    image_bytes::put_number(output, at, 1, u64::from(pt));
    image_bytes::put_number(output, at + 1, 1, u64::from(task));
    image_bytes::put_number(output, at + 2, 8, psw);
}

// The processes of the queue with number k in its order: from the head of the ring on.
fn put_queue(output: &mut [u8], at: usize, psw: [u64; PTS], k: u8, q: Queue) -> usize
    requires { at + process_length * q.len ≤ length output.old }
    ensures value { result ≡ at + length (processes_bytes (processes_in psw k (list_of q))) }
    ensures output_after { output.new ≡ put_at at (processes_bytes (processes_in psw k (list_of q))) output.old }
{
    let mut p = at;
    let mut head = q.head % PLACES;
    for _turn in 0..q.len {
        let pt = q.pts[head];
        put_process(output, p, pt, k, window::at_or(&psw, usize::from(pt), 0));
        p += PROCESS_BYTES;
        head = (head + 1) % PLACES;
    }
    p
}

// The queues by ascending number.
fn put_queues(output: &mut [u8], at: usize, psw: [u64; PTS], queues: [Queue; QUEUES]) -> usize
    requires { at + process_length * length (live_pts queues) ≤ length output.old }
    ensures value { result ≡ at + length (processes_bytes (processes_from psw 0 queues)) }
    ensures output_after { output.new ≡ put_at at (processes_bytes (processes_from psw 0 queues)) output.old }
{
    let mut p = at;
    for (k, queue) in queues.iter().enumerate() {
        p = put_queue(output, p, psw, k as u8, *queue);
    }
    p
}

// ---- sections, each after its count

fn put_tasks(output: &mut [u8], rows: &[Row]) -> usize
    requires { tasks_length (length rows.now) ≤ length output.old }
    ensures value { result ≡ length (tasks_section rows.now) }
    ensures output_after { output.new ≡ put_at 0 (tasks_section rows.now) output.old }
{
    image_bytes::put_number(output, 0, 1, rows.len() as u64);
    put_rows(output, 1, rows)
}

fn put_processes(output: &mut [u8], at: usize, users: Processes) -> usize
    requires { (users.count ≡ length (live_pts users.queues)) × (at + processes_length users.count ≤ length output.old) }
    ensures value { result ≡ at + length (processes_section users.flag (processes_from users.psw 0 users.queues)) }
    ensures output_after { output.new ≡ put_at at (processes_section users.flag (processes_from users.psw 0 users.queues)) output.old }
{
    image_bytes::put_number(output, at, 1, users.count as u64);
    image_bytes::put_number(output, at + 1, 1, u64::from(users.flag));
    put_queues(output, at + 2, users.psw, users.queues)
}

// Words after a count of w bytes.
fn put_words(output: &mut [u8], at: usize, w: usize, words: &[u64]) -> usize
    requires { at + words_length w (length words.now) ≤ length output.old }
    ensures value { result ≡ at + length (words_section w words.now) }
    ensures output_after { output.new ≡ put_at at (words_section w words.now) output.old }
{
    let n = words.len();
    image_bytes::put_number(output, at, w, n as u64);
    image_bytes::put_words(output, at + w, words);
    at + (w + WORD_BYTES * n)
}

// Cells after a count of w bytes.
fn put_cells(output: &mut [u8], at: usize, w: usize, tags: &[u8], words: &[u64]) -> usize
    requires { (length tags.now ≡ length words.now) × (at + cells_length w (length words.now) ≤ length output.old) }
    ensures value { result ≡ at + length (cells_section w tags.now words.now) }
    ensures output_after { output.new ≡ put_at at (cells_section w tags.now words.now) output.old }
{
    let n = words.len();
    image_bytes::put_number(output, at, w, n as u64);
    image_bytes::put_cells(output, at + w, tags, words);
    at + (w + CELL_BYTES * n)
}

// ---- the whole

// How long the image of a state of these sizes and m processes is.
fn size(n: Sizes, m: usize) -> usize
    requires { (n.rows ≤ tasks) × ((m ≤ pt_count) × ((n.constants ≤ most_constants) × ((n.registers ≤ most_registers) × ((n.program ≤ most_program) × (n.data_words ≤ most_data))))) }
    ensures { result ≡ image_length n.rows m n.constants n.registers n.program n.data_words }
{
    1 + ROW_BYTES * n.rows
        + (2 + PROCESS_BYTES * m)
        + (2 + CELL_BYTES * n.constants)
        + (2 + CELL_BYTES * n.registers)
        + (4 + WORD_BYTES * n.program)
        + (4 + CELL_BYTES * n.data_words)
}

// The image of the first n rows, the table and the slices, each in its whole length.
fn put_image(
    rows: [Row; TASKS],
    table: ProcessTable,
    constant_tags: &[u8],
    constant_words: &[u64],
    register_tags: &[u8],
    register_words: &[u64],
    program: &[u64],
    data_tags: &[u8],
    data_words: &[u64],
    output: &mut [u8],
    n: usize,
) -> usize
    requires counted { (n ≤ tasks) × ((table.users.count ≡ length (live_pts table.users.queues)) × ((length constant_tags.now ≡ length constant_words.now) × ((length register_tags.now ≡ length register_words.now) × (length data_tags.now ≡ length data_words.now)))) }
    requires room { length (image_bytes (state_in rows n table (memory constant_tags.now constant_words.now) register_tags.now register_words.now program.now data_tags.now data_words.now)) ≤ length output.old }
    ensures value { result ≡ length (image_bytes (state_in rows n table (memory constant_tags.now constant_words.now) register_tags.now register_words.now program.now data_tags.now data_words.now)) }
    ensures output_after { output.new ≡ put_at 0 (image_bytes (state_in rows n table (memory constant_tags.now constant_words.now) register_tags.now register_words.now program.now data_tags.now data_words.now)) output.old }
{
    let at = put_tasks(output, &rows[..n]);
    let at = put_processes(output, at, table.users);
    let at = put_cells(output, at, 2, constant_tags, constant_words);
    let at = put_cells(output, at, 2, register_tags, register_words);
    let at = put_words(output, at, 4, program);
    put_cells(output, at, 4, data_tags, data_words)
}

// The image of a sound state, where the output has room.
fn put_state(
    rows: Rows,
    table: ProcessTable,
    constant_tags: &[u8],
    constant_words: &[u64],
    register_tags: &[u8],
    register_words: &[u64],
    program: &[u64],
    data_tags: &[u8],
    data_words: &[u64],
    output: &mut [u8],
    n: Sizes,
) -> usize
    requires { (state_refused n (lent_buffers (held_rows rows) table constant_tags.now constant_words.now register_tags.now register_words.now program.now data_tags.now data_words.now) ≡ false) × (length (encode (fields_in n (lent_buffers (held_rows rows) table constant_tags.now constant_words.now register_tags.now register_words.now program.now data_tags.now data_words.now))) ≤ length output.old) }
    ensures value { result ≡ length (encode (fields_in n (lent_buffers (held_rows rows) table constant_tags.now constant_words.now register_tags.now register_words.now program.now data_tags.now data_words.now))) }
    ensures output_after { output.new ≡ put_at 0 (encode (fields_in n (lent_buffers (held_rows rows) table constant_tags.now constant_words.now register_tags.now register_words.now program.now data_tags.now data_words.now))) output.old }
{
    put_image(
        rows.at,
        table,
        &constant_tags[..n.constants],
        &constant_words[..n.constants],
        &register_tags[..n.registers],
        &register_words[..n.registers],
        &program[..n.program],
        &data_tags[..n.data_words],
        &data_words[..n.data_words],
        output,
        n.rows,
    )
}

// Writes a sound state: 7, then the image.
fn write_sound(
    rows: Rows,
    table: ProcessTable,
    constant_tags: &[u8],
    constant_words: &[u64],
    register_tags: &[u8],
    register_words: &[u64],
    program: &[u64],
    data_tags: &[u8],
    data_words: &[u64],
    output: &mut [u8],
    n: Sizes,
) -> Result<usize, Refusal>
    requires { state_refused n (lent_buffers (held_rows rows) table constant_tags.now constant_words.now register_tags.now register_words.now program.now data_tags.now data_words.now) ≡ false }
    ensures { WritePromise n (lent_buffers (held_rows rows) table constant_tags.now constant_words.now register_tags.now register_words.now program.now data_tags.now data_words.now) result output.old output.new }
{
    if output.len() < size(n, table.users.count) {
        return Err(Refusal::ShortBuffer);
    }
    let end = put_state(
        rows,
        table,
        constant_tags,
        constant_words,
        register_tags,
        register_words,
        program,
        data_tags,
        data_words,
        output,
        n,
    );
    Ok(end)
}

// Writes the image of the state in the buffers: 8, then 7. A refusal changes no byte; beyond the image nothing is touched.
pub fn write(
    rows: Rows,
    table: ProcessTable,
    constant_tags: &[u8],
    constant_words: &[u64],
    register_tags: &[u8],
    register_words: &[u64],
    program: &[u64],
    data_tags: &[u8],
    data_words: &[u64],
    output: &mut [u8],
    n: Sizes,
) -> Result<usize, Refusal>
    ensures { WritePromise n (lent_buffers (held_rows rows) table constant_tags.now constant_words.now register_tags.now register_words.now program.now data_tags.now data_words.now) result output.old output.new }
{
    if library_state::refused(
        rows,
        table,
        constant_tags,
        constant_words,
        register_tags,
        register_words,
        program,
        data_tags,
        data_words,
        n,
    ) {
        return Err(Refusal::UnsoundState);
    }
    write_sound(
        rows,
        table,
        constant_tags,
        constant_words,
        register_tags,
        register_words,
        program,
        data_tags,
        data_words,
        output,
        n,
    )
}

// The length of the image that was written, 0 where it was refused.
pub fn length_written(answer: Result<usize, Refusal>) -> usize
    ensures { result ≡ length_written answer }
{
    match answer {
        Err(_) => 0,
        Ok(k) => k,
    }
}
