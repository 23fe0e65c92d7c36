// Reading an image: rows and process table by value, words and cells into lent buffers. All is checked before anything is filled.
// `as` stands where Rust has no `From`: between usize and u64, and to a narrower number, which is proved to fit.
#![tactic(auto)]

ghost use Rattle.std.specs.Prelude.{◌≡◌, List, true, min, ◌+◌, ◌-◌, ◌*◌, ◌≤◌, length};
ghost use Rattle.window.specs.declared.Row.{Row};
ghost use Rattle.step.specs.declared.ProcessTable.{ProcessTable};
ghost use Rattle.step.specs.Queues.{queue_count, live_counts};
ghost use Rattle.image.specs.Fields.{over};
ghost use Rattle.image.specs.Image.{pts_of, queue_of, queues_of, psw_table, memory_of, state_of, decode, process_length, cell_length, word_length};
ghost use Rattle.image_bytes.specs.Code.Reading.{field_at, words_at, cells_at};
ghost use Rattle.library.specs.Buffers.{fits, holding};
ghost use Rattle.library.specs.Calls.{check_answer};
ghost use Rattle.library.specs.Held.{room_from, lent_buffers};
ghost use Rattle.library.specs.Code.HeldRows.{held_rows, SamePlaces};
ghost use Rattle.library.specs.Promises.{read_answered, ReadPromise};
ghost use Rattle.image_check.specs.Code.Places.{rows_at, processes_at, image_at};
ghost use Rattle.image_read.specs.Code.Room.{Room};
ghost use Rattle.window.specs.Limits.{tasks};

use image::{CELL_BYTES, PROCESS_BYTES, ROW_BYTES, WORD_BYTES};
use library::{AfterRead, Rows, Sizes};
use refusal::Refusal;
use step::{PLACES, PTS, ProcessTable, Processes, QUEUES, Queue};
use window::{Row, TASKS};

// ---- rows

// The n rows of the image over the first of `old`.
fn rows_at(image: &[u8], n: usize, old: [Row; TASKS]) -> [Row; TASKS]
    requires { n ≤ tasks }
    ensures { result ≡ over (rows_at n image.now) old }
{
    let mut rows = old;
    for i in 0..n {
        rows[i] = image_check::row_at(image, 1 + ROW_BYTES * i);
    }
    rows
}

// ---- the process table of m processes from `at` on

// The PSWs, from the last process to the first.
fn psws_at(image: &[u8], at: usize, m: usize) -> [u64; PTS]
    requires { at + process_length * m ≤ 65536 }
    ensures { result ≡ psw_table (processes_at m at image.now) }
{
    let mut psw = [0; PTS];
    for i in (0..m).rev() {
        let p = at + PROCESS_BYTES * i;
        let pt = image_bytes::number_at(image, p, 1) as usize;
        window::set_at(&mut psw, pt, image_bytes::number_at(image, p + 2, 8));
    }
    psw
}

// The queue with number t.
fn queue_at(image: &[u8], at: usize, m: usize, t: u64) -> Queue
    requires { (at + process_length * m ≤ 65536) × (m ≤ 64) }
    ensures { result ≡ queue_of (pts_of t (processes_at m at image.now)) }
{
    let mut pts = [0; PLACES];
    let mut len = 0;
    for i in 0..m {
        let p = at + PROCESS_BYTES * i;
        if image_check::queue_of_byte(image_bytes::number_at(image, p + 1, 1)) == t {
            pts[len] = image_bytes::number_at(image, p, 1) as u8;
            len += 1;
        }
    }
    Queue { pts, head: 0, len }
}

fn queues_at(image: &[u8], at: usize, m: usize) -> [Queue; QUEUES]
    requires { (at + process_length * m ≤ 65536) × (m ≤ 64) }
    ensures { result ≡ queues_of queue_count 0 (processes_at m at image.now) }
{
    let mut queues = [library::empty_queue(); QUEUES];
    for k in 0..QUEUES {
        queues[k] = queue_at(image, at, m, k as u64);
    }
    queues
}

// The table of the section at `at`: the flag stands behind the count m, and the processes behind the flag. All of them live.
fn table_at(image: &[u8], at: usize, m: usize) -> ProcessTable
    requires { (at ≤ 1024) × (m ≤ 64) }
    ensures { result ≡ record { users = record { psw = psw_table (processes_at m (at + 2) image.now); queues = queues_of queue_count 0 (processes_at m (at + 2) image.now); flag = field_at 1 (at + 1) image.now; live = live_counts (queues_of queue_count 0 (processes_at m (at + 2) image.now)); count = m } } }
{
    let flag = image_bytes::number_at(image, at + 1, 1) as u8;
    let psw = psws_at(image, at + 2, m);
    let queues = queues_at(image, at + 2, m);
    let live = step_queue::live_counts(queues);
    ProcessTable {
        users: Processes {
            psw,
            queues,
            flag,
            live,
            count: m,
        },
    }
}

// ---- buffers

// Fills the first n of `words` from the bytes at `at`.
fn fill_first_words(image: &[u8], at: usize, n: usize, words: &mut [u64])
    requires { (n ≤ length words.old) × (word_length * n ≤ length image.now - at) }
    ensures { words.new ≡ over (words_at n at image.now) words.old }
{
    image_bytes::fill_words(image, at, &mut words[..n]);
}

// Fills the first n of `tags` and of `words` from the cells at `at`.
fn fill_first_cells(image: &[u8], at: usize, n: usize, tags: &mut [u8], words: &mut [u64])
    requires { ((n ≤ length tags.old) × (n ≤ length words.old)) × (cell_length * n ≤ length image.now - at) }
    ensures tags_after { tags.new ≡ over (memory_of (cells_at n at image.now)).tags tags.old }
    ensures words_after { words.new ≡ over (memory_of (cells_at n at image.now)).words words.old }
{
    image_bytes::fill_cells(image, at, &mut tags[..n], &mut words[..n]);
}

// Fills the buffers from the sections behind that of the m processes; so they hold the state, whatever their rows and table are.
fn fill(
    constant_tags: &mut [u8],
    constant_words: &mut [u64],
    register_tags: &mut [u8],
    register_words: &mut [u64],
    program: &mut [u64],
    data_tags: &mut [u8],
    data_words: &mut [u64],
    image: &[u8],
    n: Sizes,
    m: usize,
)
    requires { Room n m image.now (length constant_tags.old) (length constant_words.old) (length register_tags.old) (length register_words.old) (length program.old) (length data_tags.old) (length data_words.old) }
    ensures { (rows : List Row) (t : ProcessTable) → lent_buffers (over (image_at n image.now).rows rows) (state_of (image_at n image.now)).table constant_tags.new constant_words.new register_tags.new register_words.new program.new data_tags.new data_words.new ≡ holding (state_of (image_at n image.now)) (lent_buffers rows t constant_tags.old constant_words.old register_tags.old register_words.old program.old data_tags.old data_words.old) }
{
    let constants_at = 1 + ROW_BYTES * n.rows + (2 + PROCESS_BYTES * m);
    let registers_at = constants_at + (2 + CELL_BYTES * n.constants);
    let program_at = registers_at + (2 + CELL_BYTES * n.registers);
    let data_at = program_at + (4 + WORD_BYTES * n.program);
    fill_first_cells(
        image,
        constants_at + 2,
        n.constants,
        constant_tags,
        constant_words,
    );
    fill_first_cells(
        image,
        registers_at + 2,
        n.registers,
        register_tags,
        register_words,
    );
    fill_first_words(image, program_at + 4, n.program, program);
    fill_first_cells(image, data_at + 4, n.data_words, data_tags, data_words);
}

// ---- the whole

fn refused(e: Refusal, rows: Rows, table: ProcessTable) -> AfterRead
    ensures { result ≡ record { rows = rows; table = table; answer = Err e } }
{
    AfterRead {
        rows,
        table,
        answer: Err(e),
    }
}

// Reads an image of these sizes into buffers that they fit.
fn read_fitting(
    rows: Rows,
    constant_tags: &mut [u8],
    constant_words: &mut [u64],
    register_tags: &mut [u8],
    register_words: &mut [u64],
    program: &mut [u64],
    data_tags: &mut [u8],
    data_words: &mut [u64],
    image: &[u8],
    n: Sizes,
) -> AfterRead
    requires { (read_answered (check_answer (decode image.now)) ≡ Ok n) × (fits n (room_from (min rows.n tasks) (length constant_tags.old) (length constant_words.old) (length register_tags.old) (length register_words.old) (length program.old) (length data_tags.old) (length data_words.old)) ≡ true) }
    ensures { (table : ProcessTable) → ReadPromise (lent_buffers (held_rows rows) table constant_tags.old constant_words.old register_tags.old register_words.old program.old data_tags.old data_words.old) image.now result.answer (lent_buffers (held_rows result.rows) result.table constant_tags.new constant_words.new register_tags.new register_words.new program.new data_tags.new data_words.new) × SamePlaces rows result.rows }
{
    let old = rows.at;
    let at = rows_at(image, n.rows, old);
    let place = 1 + ROW_BYTES * n.rows;
    let m = image_bytes::number_at(image, place, 1) as usize;
    let table = table_at(image, place, m);
    fill(
        constant_tags,
        constant_words,
        register_tags,
        register_words,
        program,
        data_tags,
        data_words,
        image,
        n,
        m,
    );
    AfterRead {
        rows: Rows { at, n: rows.n },
        table,
        answer: Ok(n),
    }
}

// Reads an image of these sizes: 7 where one of the buffers is too short.
fn read_sound(
    rows: Rows,
    table: ProcessTable,
    constant_tags: &mut [u8],
    constant_words: &mut [u64],
    register_tags: &mut [u8],
    register_words: &mut [u64],
    program: &mut [u64],
    data_tags: &mut [u8],
    data_words: &mut [u64],
    image: &[u8],
    n: Sizes,
) -> AfterRead
    requires { read_answered (check_answer (decode image.now)) ≡ Ok n }
    ensures { ReadPromise (lent_buffers (held_rows rows) table constant_tags.old constant_words.old register_tags.old register_words.old program.old data_tags.old data_words.old) image.now result.answer (lent_buffers (held_rows result.rows) result.table constant_tags.new constant_words.new register_tags.new register_words.new program.new data_tags.new data_words.new) × SamePlaces rows result.rows }
{
    if !library_state::fits(
        n,
        library_state::row_count(rows.n),
        constant_tags.len(),
        constant_words.len(),
        register_tags.len(),
        register_words.len(),
        program.len(),
        data_tags.len(),
        data_words.len(),
    ) {
        return refused(Refusal::ShortBuffer, rows, table);
    }
    read_fitting(
        rows,
        constant_tags,
        constant_words,
        register_tags,
        register_words,
        program,
        data_tags,
        data_words,
        image,
        n,
    )
}

// The image's refusals, then 7. A refusal changes no buffer; beyond the sizes nothing is touched.
pub fn read(
    rows: Rows,
    table: ProcessTable,
    constant_tags: &mut [u8],
    constant_words: &mut [u64],
    register_tags: &mut [u8],
    register_words: &mut [u64],
    program: &mut [u64],
    data_tags: &mut [u8],
    data_words: &mut [u64],
    image: &[u8],
) -> AfterRead
    ensures { ReadPromise (lent_buffers (held_rows rows) table constant_tags.old constant_words.old register_tags.old register_words.old program.old data_tags.old data_words.old) image.now result.answer (lent_buffers (held_rows result.rows) result.table constant_tags.new constant_words.new register_tags.new register_words.new program.new data_tags.new data_words.new) × SamePlaces rows result.rows }
{
    let found = image_check::check(image);
    match found {
        Err(e) => refused(e, rows, table),
        Ok(n) => read_sound(
            rows,
            table,
            constant_tags,
            constant_words,
            register_tags,
            register_words,
            program,
            data_tags,
            data_words,
            image,
            n,
        ),
    }
}
