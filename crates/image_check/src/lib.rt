// The check of a whole image: one pass over its bytes, writing nothing.
#![tactic(auto)]

ghost use Rattle.std.specs.Prelude.{◌≡◌, Ok, not, ◌&&◌, ◌+◌, ◌*◌, ◌≤◌, ◌<◌, ltb, leb, eqb, length, drop};
ghost use Rattle.step.specs.Queues.{occ};
ghost use Rattle.step.specs.Soundness.{has_row, windows_sound, distinct, total_sound};
ghost use Rattle.image.specs.Codec.{num, dec_many, accepted};
ghost use Rattle.image.specs.Image.{queue_of_byte, byte_sound, row_codec, row_task, tasks_codec, process_codec, queue_after, processes_codec, words_codec, cells_codec, image_codec, after_sections, decode, process_length, tasks_length};
ghost use Rattle.image_bytes.specs.Code.Reading.{field_at};
ghost use Rattle.image_bytes.specs.Code.Scanning.{scan, tag_test, tag_refusal};
ghost use Rattle.library.specs.Calls.{check_answer};
ghost use Rattle.library.specs.Promises.{read_answered};
ghost use Rattle.image_check.specs.Code.Places.{row_at, rows_at, pts_at, trap_codec, sizes_in, image_at};

use image::{CELL_BYTES, PROCESS_BYTES, ROW_BYTES, WORD_BYTES};
use image_bytes::CellKind;
use library::Sizes;
use refusal::Refusal;
use step::PTS;
use window::{MOST_CONSTANTS, MOST_DATA, MOST_PROGRAM, MOST_REGISTERS, Row, TASKS};

// ---- rows

// A number of w bytes below a bound.
fn check_below(s: &[u8], at: usize, w: usize, bound: u64, e: Refusal) -> Result<usize, Refusal>
    requires { w ≤ 8 }
    ensures { result ≡ scan (num w e (λ v. ltb v bound)).dec s.now (Ok at) }
{
    let v = image_bytes::number_at(s, at, w);
    image_bytes::check_number(s, Ok(at), w, v < bound, e)
}

// The trap record of a row: its kind and its PSW.
fn check_trap(s: &[u8], at: usize) -> Result<usize, Refusal>
    ensures { result ≡ scan trap_codec.dec s.now (Ok at) }
{
    let kind = image_bytes::number_at(s, at, 1);
    let sound = step_fields::kind_sound(kind);
    let at = image_bytes::check_number(s, Ok(at), 1, sound, Refusal::TaskField)?;
    let psw = image_bytes::number_at(s, at, 8);
    let sound = step_fields::record_sound(kind, psw);
    image_bytes::check_number(s, Ok(at), 8, sound, Refusal::TaskField)
}

// A row after the row of task `before`: behind the task stand cb, rb, rl, pb, pl, db and dl.
fn check_row(s: &[u8], at: usize, before: u64) -> Result<usize, Refusal>
    ensures { result ≡ scan (row_codec before).dec s.now (Ok at) }
{
    let task = image_bytes::number_at(s, at, 1);
    let sound = step_fields::task_sound(before, task);
    let at = image_bytes::check_number(s, Ok(at), 1, sound, Refusal::TaskField)?;
    let at = check_below(s, at, 2, 1 << 12, Refusal::TaskField)?;
    let at = check_below(s, at, 2, 1 << 10, Refusal::TaskField)?;
    let at = check_below(s, at, 2, 1 << 10, Refusal::TaskField)?;
    let at = check_below(s, at, 2, 1 << 16, Refusal::TaskField)?;
    let at = check_below(s, at, 2, 1 << 16, Refusal::TaskField)?;
    let at = check_below(s, at, 4, 1 << 24, Refusal::TaskField)?;
    let at = check_below(s, at, 4, 1 << 24, Refusal::TaskField)?;
    check_trap(s, at)
}

// n rows.
fn check_rows(s: &[u8], first: usize, n: usize) -> Result<usize, Refusal>
    requires { first ≤ length s.now }
    ensures { result ≡ scan (dec_many row_codec row_task 0 n) s.now (Ok first) }
{
    let mut at = first;
    let mut before: u64 = 0;
    for _ in 0..n {
        let task = image_bytes::number_at(s, at, 1);
        at = check_row(s, at, before)?;
        before = task;
    }
    Ok(at)
}

// The first section: its count, and as many rows.
fn check_tasks(s: &[u8], at: usize) -> Result<usize, Refusal>
    ensures { result ≡ scan tasks_codec.dec s.now (Ok at) }
{
    let n = image_bytes::number_at(s, at, 1) as usize;
    let at = image_bytes::check_number(s, Ok(at), 1, n <= TASKS, Refusal::CountOverLimit)?;
    check_rows(s, at, n)
}

// ---- processes

// Whether one of the n rows is of task t.
fn has_row(s: &[u8], n: u8, t: u64) -> bool
    ensures { result ≡ has_row t (rows_at n s.now) }
{
    for i in 0..usize::from(n) {
        if image_bytes::number_at(s, 1 + ROW_BYTES * i, 1) == t {
            return true;
        }
    }
    false
}

// The number of the queue that a task byte names.
pub fn queue_of_byte(b: u64) -> u64
    ensures { result ≡ queue_of_byte b }
{
    2 * (b % 16) + b / 16
}

// Whether the queue that byte b names is not below `before`, and its task has one of the n rows.
fn task_listed(s: &[u8], n: u8, before: u64, b: u64) -> bool
    ensures { result ≡ (leb before (queue_of_byte b) && byte_sound (rows_at n s.now) b) }
{
    if queue_of_byte(b) < before || 32 <= b {
        return false;
    }
    has_row(s, n, b % 16)
}

// A process after one of the queue with number `before`, where there are n rows.
fn check_process(s: &[u8], at: usize, before: u64, n: u8) -> Result<usize, Refusal>
    ensures { result ≡ scan (process_codec (rows_at n s.now) before).dec s.now (Ok at) }
{
    let at = check_below(s, at, 1, PTS as u64, Refusal::ProcessField)?;
    let task = image_bytes::number_at(s, at, 1);
    let listed = task_listed(s, n, before, task);
    let at = image_bytes::check_number(s, Ok(at), 1, listed, Refusal::ProcessField)?;
    let psw = image_bytes::number_at(s, at, 8);
    image_bytes::check_number(s, Ok(at), 8, word::psw_sound(psw), Refusal::ProcessField)
}

// m processes, where there are n rows.
fn check_each_process(s: &[u8], first: usize, m: usize, n: u8) -> Result<usize, Refusal>
    requires { first ≤ length s.now }
    ensures { result ≡ scan (dec_many (process_codec (rows_at n s.now)) queue_after 0 m) s.now (Ok first) }
{
    let mut at = first;
    let mut before: u64 = 0;
    for _ in 0..m {
        let task = image_bytes::number_at(s, at + 1, 1);
        at = check_process(s, at, before, n)?;
        before = queue_of_byte(task);
    }
    Ok(at)
}

// The second section: its count, the flag, and as many processes.
fn check_processes(s: &[u8], at: usize, n: u8) -> Result<usize, Refusal>
    ensures { result ≡ scan (processes_codec (rows_at n s.now)).dec s.now (Ok at) }
{
    let m = image_bytes::number_at(s, at, 1) as usize;
    let at = image_bytes::check_number(s, Ok(at), 1, m <= PTS, Refusal::CountOverLimit)?;
    let flag = image_bytes::number_at(s, at, 1);
    let at = image_bytes::check_number(s, Ok(at), 1, flag <= 1, Refusal::ProcessField)?;
    check_each_process(s, at, m, n)
}

// ---- memories

// A section of words: its count of w bytes, at most `most`, and as many words.
fn check_words(s: &[u8], at: usize, w: usize, most: usize) -> Result<usize, Refusal>
    requires { w ≤ 8 }
    ensures { result ≡ scan (words_codec w most).dec s.now (Ok at) }
{
    let n = image_bytes::number_at(s, at, w) as usize;
    let at = image_bytes::check_number(s, Ok(at), w, n <= most, Refusal::CountOverLimit)?;
    image_bytes::check_words(s, Ok(at), n)
}

// A section of cells, likewise.
fn check_cells(s: &[u8], at: usize, w: usize, most: usize, kind: CellKind) -> Result<usize, Refusal>
    requires { w ≤ 8 }
    ensures { result ≡ scan (cells_codec (tag_refusal kind) (tag_test kind) w most).dec s.now (Ok at) }
{
    let n = image_bytes::number_at(s, at, w) as usize;
    let at = image_bytes::check_number(s, Ok(at), w, n <= most, Refusal::CountOverLimit)?;
    image_bytes::check_cells(s, Ok(at), n, kind)
}

// ---- after the last section

// The row at a place.
pub fn row_at(s: &[u8], at: usize) -> Row
    ensures { result ≡ row_at at s.now }
{
    let row = &s[at.min(s.len())..];
    Row {
        task: image_bytes::number_at(row, 0, 1) as u8,
        cb: image_bytes::number_at(row, 1, 2) as u16,
        rb: image_bytes::number_at(row, 3, 2) as u16,
        rl: image_bytes::number_at(row, 5, 2) as u16,
        pb: image_bytes::number_at(row, 7, 2) as u16,
        pl: image_bytes::number_at(row, 9, 2) as u16,
        db: image_bytes::number_at(row, 11, 4) as u32,
        dl: image_bytes::number_at(row, 15, 4) as u32,
        kind: image_bytes::number_at(row, 19, 1) as u8,
        psw: image_bytes::number_at(row, 20, 8),
    }
}

// Whether the windows of all n rows end in memories of so many registers, program words and data words.
fn windows_sound(s: &[u8], n: usize, registers: usize, program: usize, data_words: usize) -> bool
    requires { n ≤ 255 }
    ensures { result ≡ windows_sound registers program data_words (rows_at n s.now) }
{
    for i in 0..n {
        let row = row_at(s, 1 + ROW_BYTES * i);
        if !step_fields::row_ends_in(row, registers, program, data_words) {
            return false;
        }
    }
    true
}

// Whether x is the PT of one of n processes from `at` on.
fn is_live(s: &[u8], at: usize, n: usize, x: u64) -> bool
    requires { at + process_length * n ≤ 65536 }
    ensures { result ≡ not (eqb (occ x (pts_at n at s.now)) 0) }
{
    for i in 0..n {
        if image_bytes::number_at(s, at + PROCESS_BYTES * i, 1) == x {
            return true;
        }
    }
    false
}

// Whether the PTs of n processes from `at` on are all different.
fn pts_distinct(s: &[u8], at: usize, n: usize) -> bool
    requires { at + process_length * n ≤ 65536 }
    ensures { result ≡ distinct (pts_at n at s.now) }
{
    for i in 0..n {
        let pt = image_bytes::number_at(s, at + PROCESS_BYTES * i, 1);
        if is_live(s, at + PROCESS_BYTES * (i + 1), n - (i + 1), pt) {
            return false;
        }
    }
    true
}

// The sizes of the state, as the counts in the bytes have them.
fn sizes(s: &[u8]) -> Sizes
    ensures value { result ≡ sizes_in s.now }
    ensures small { result.rows ≤ 255 }
{
    let rows = image_bytes::number_at(s, 0, 1) as usize;
    let at = 1 + ROW_BYTES * rows;
    let processes = image_bytes::number_at(s, at, 1) as usize;
    let at = at + (2 + PROCESS_BYTES * processes);
    let constants = image_bytes::number_at(s, at, 2) as usize;
    let at = at + (2 + CELL_BYTES * constants);
    let registers = image_bytes::number_at(s, at, 2) as usize;
    let at = at + (2 + CELL_BYTES * registers);
    let program = image_bytes::number_at(s, at, 4) as usize;
    let at = at + (4 + WORD_BYTES * program);
    let data_words = image_bytes::number_at(s, at, 4) as usize;
    Sizes {
        rows,
        constants,
        registers,
        program,
        data_words,
    }
}

// Whether the processes after n rows have different PTs, and aren't 64 with flag 0.
fn processes_sound(s: &[u8], n: usize) -> bool
    requires { n ≤ 255 }
    ensures { result ≡ (distinct (pts_at (field_at 1 (tasks_length n) s.now) (tasks_length n + 2) s.now) && total_sound (field_at 1 (tasks_length n) s.now) (field_at 1 (tasks_length n + 1) s.now)) }
{
    let at = 1 + ROW_BYTES * n;
    let m = image_bytes::number_at(s, at, 1) as usize;
    if !pts_distinct(s, at + 2, m) {
        return false;
    }
    step_fields::total_sound(m, image_bytes::number_at(s, at + 1, 1))
}

// After the last section, which ends at `end`.
fn check_end(s: &[u8], end: usize) -> Result<Sizes, Refusal>
    ensures { result ≡ read_answered (check_answer (after_sections (accepted (image_at (sizes_in s.now) s.now) (drop end s.now)))) }
{
    if end < s.len() {
        return Err(Refusal::BytesLeftOver);
    }
    let n = sizes(s);
    if !windows_sound(s, n.rows, n.registers, n.program, n.data_words) {
        return Err(Refusal::WindowPastMemory);
    }
    if !processes_sound(s, n.rows) {
        return Err(Refusal::ProcessesClash);
    }
    Ok(n)
}

// The six sections, in byte order: the place behind the last.
fn check_sections(s: &[u8]) -> Result<usize, Refusal>
    ensures { result ≡ scan image_codec.dec s.now (Ok 0) }
{
    let rows = image_bytes::number_at(s, 0, 1) as u8;
    let at = check_tasks(s, 0)?;
    let at = check_processes(s, at, rows)?;
    let at = check_cells(s, at, 2, MOST_CONSTANTS, CellKind::Constant)?;
    let at = check_cells(s, at, 2, MOST_REGISTERS, CellKind::Register)?;
    let at = check_words(s, at, 4, MOST_PROGRAM)?;
    check_cells(s, at, 4, MOST_DATA, CellKind::Data)
}

// Refusals 1, 2, 3, 12, 14 and 13 in byte order, then 4, 5 and 6; else the sizes of the state.
pub fn check(image: &[u8]) -> Result<Sizes, Refusal>
    ensures { result ≡ read_answered (check_answer (decode image.now)) }
{
    let end = check_sections(image)?;
    check_end(image, end)
}
