// Whether a state is sound: the tests of refusal 8, the stored live counts among them.
#![tactic(auto)]

ghost use Rattle.std.specs.Prelude.{◌≡◌, not, ◌&&◌, List, ℕ};
ghost use Rattle.word.specs.Fields.{psw_sound};
ghost use Rattle.window.specs.Memories.{memory};
ghost use Rattle.window.specs.declared.Row.{Row};
ghost use Rattle.step.specs.declared.ProcessTable.{ProcessTable};
ghost use Rattle.step.specs.Queues.{list_of, live_pts};
ghost use Rattle.step.specs.Soundness.{bases_sound, row_sound, rows_sound, has_row, windows_sound, queues_sound, processes_sound, pt_sound, live_sound, table_sound, memory_sound, memories_sound};
ghost use Rattle.image_bytes.specs.Code.Scanning.{tag_test};
ghost use Rattle.step_soundness.specs.Code.Held.{state_in, sound_in, queue_sound};
ghost use Rattle.step_soundness.specs.Code.Seen.{seen_after};

use image_bytes::CellKind;
use step::{PLACES, PTS, ProcessTable, Processes, QUEUES, Queue};
use window::{MOST_CONSTANTS, MOST_DATA, MOST_PROGRAM, MOST_REGISTERS, Row, TASKS};

// The first number that is no PT.
const FIRST_NO_PT: u8 = PTS as u8;

// ---- rows

// The widths of PB and PL are those of their types.
fn bases_sound(row: Row) -> bool
    ensures { result ≡ bases_sound row }
{
    if 0x1000 <= row.cb {
        return false;
    }
    if 0x400 <= row.rb {
        return false;
    }
    if 0x400 <= row.rl {
        return false;
    }
    if 0x100_0000 <= row.db {
        return false;
    }
    row.dl < 0x100_0000
}

// A row after the row of task `before`.
fn row_sound(before: u8, row: Row) -> bool
    ensures { result ≡ row_sound before row }
{
    if !step_fields::task_sound(before as u64, row.task as u64) {
        return false;
    }
    if !bases_sound(row) {
        return false;
    }
    let kind = row.kind as u64;
    if !step_fields::kind_sound(kind) {
        return false;
    }
    step_fields::record_sound(kind, row.psw)
}

// In ascending number.
fn rows_sound(rows: &[Row]) -> bool
    ensures { result ≡ rows_sound 0 rows.now }
{
    let mut before = 0;
    for row in rows {
        if !row_sound(before, *row) {
            return false;
        }
        before = row.task;
    }
    true
}

fn has_row(t: u8, rows: &[Row]) -> bool
    ensures { result ≡ has_row t rows.now }
{
    rows.iter().any(|row| row.task == t)
}

// ---- windows

fn windows_sound(rows: &[Row], registers: usize, program: usize, data_words: usize) -> bool
    ensures { result ≡ windows_sound registers program data_words rows.now }
{
    rows.iter().all(|row| step_fields::row_ends_in(*row, registers, program, data_words))
}

// ---- the process table

// The queue with number k in its array, and empty where its task has no row.
fn queue_sound(rows: &[Row], k: u8, q: Queue) -> bool
    ensures { result ≡ queue_sound rows.now k q }
{
    if PLACES < q.len {
        return false;
    }
    if q.len == 0 {
        return true;
    }
    has_row(k / 2, rows)
}

fn queues_sound(rows: &[Row], queues: [Queue; QUEUES]) -> bool
    ensures { result ≡ queues_sound rows.now 0 queues }
{
    for (k, q) in queues.iter().enumerate() {
        if !queue_sound(rows, k as u8, *q) {
            return false;
        }
    }
    true
}

// A PT that has not come before, with a sound PSW.
fn is_fresh(pt: u8, marked: bool, psw: u64) -> bool
    ensures { result ≡ (pt_sound pt && (not marked && psw_sound psw)) }
{
    if FIRST_NO_PT <= pt {
        return false;
    }
    if marked {
        return false;
    }
    word::psw_sound(psw)
}

// The marks after the PTs of a queue, from its head on; none where one is not fresh.
fn see_queue(psw: [u64; PTS], marked: [bool; PTS], q: Queue) -> Option<[bool; PTS]>
    ensures { result ≡ seen_after psw (list_of q) marked }
{
    let mut marked = marked;
    let mut at = q.head % PLACES;
    for _ in 0..q.len {
        let pt = q.pts[at];
        let i = pt as usize % PTS;
        if !is_fresh(pt, marked[i], psw[i]) {
            return None;
        }
        marked[i] = true;
        at = (at + 1) % PLACES;
    }
    Some(marked)
}

// No PT twice, and every process has a PT and a PSW.
fn processes_sound(psw: [u64; PTS], queues: [Queue; QUEUES]) -> bool
    ensures { result ≡ processes_sound psw (live_pts queues) }
{
    let mut marked = [false; PTS];
    for q in &queues {
        let Some(next) = see_queue(psw, marked, *q) else {
            return false;
        };
        marked = next;
    }
    true
}

// The live counts are those of the queues, two of each task, and the total is their sum: of each task so many are left of it.
fn live_sound(users: Processes) -> bool
    ensures { result ≡ live_sound users }
{
    let mut left = users.count;
    for (k, &count) in users.live.iter().enumerate() {
        let own = users.queues[2 * k].len;
        let sfu = users.queues[2 * k + 1].len;
        if count < own {
            return false;
        }
        if count - own != sfu {
            return false;
        }
        if left < count {
            return false;
        }
        left -= count;
    }
    left == 0
}

fn table_sound(rows: &[Row], users: Processes) -> bool
    ensures { result ≡ table_sound rows.now users }
{
    if !queues_sound(rows, users.queues) {
        return false;
    }
    if !processes_sound(users.psw, users.queues) {
        return false;
    }
    if 1 < users.flag {
        return false;
    }
    if !live_sound(users) {
        return false;
    }
    step_fields::total_sound(users.count, users.flag as u64)
}

// ---- the memories

// At most `most` tags and words, of one length. A word of 64 bits is any u64.
fn memory_sound(kind: CellKind, tags: &[u8], words: &[u64], most: usize) -> bool
    ensures { result ≡ memory_sound most (tag_test kind) (memory tags.now words.now) }
{
    if tags.len() != words.len() {
        return false;
    }
    if most < words.len() {
        return false;
    }
    image_bytes::tags_ok(kind, tags)
}

// Whatever else the state holds.
fn memories_sound(
    constant_tags: &[u8],
    constant_words: &[u64],
    register_tags: &[u8],
    register_words: &[u64],
    program: &[u64],
    data_tags: &[u8],
    data_words: &[u64],
) -> bool
    ensures { (all : List Row) (k : ℕ) (t : ProcessTable) → result ≡ memories_sound (state_in all k t (memory constant_tags.now constant_words.now) register_tags.now register_words.now program.now data_tags.now data_words.now) }
{
    if !memory_sound(
        CellKind::Constant,
        constant_tags,
        constant_words,
        MOST_CONSTANTS,
    ) {
        return false;
    }
    if !memory_sound(
        CellKind::Register,
        register_tags,
        register_words,
        MOST_REGISTERS,
    ) {
        return false;
    }
    if MOST_PROGRAM < program.len() {
        return false;
    }
    memory_sound(CellKind::Data, data_tags, data_words, MOST_DATA)
}

// ---- the state

// Whether the state of the first n rows, the table and the slices, each in its whole length, is sound.
pub fn sound(
    rows: [Row; TASKS],
    n: usize,
    table: ProcessTable,
    constant_tags: &[u8],
    constant_words: &[u64],
    register_tags: &[u8],
    register_words: &[u64],
    program: &[u64],
    data_tags: &[u8],
    data_words: &[u64],
) -> bool
    ensures { result ≡ sound_in n (state_in rows n table (memory constant_tags.now constant_words.now) register_tags.now register_words.now program.now data_tags.now data_words.now) }
{
    if TASKS < n {
        return false;
    }
    let rows = &rows[..n];
    if !rows_sound(rows) {
        return false;
    }
    if !table_sound(rows, table.users) {
        return false;
    }
    if !memories_sound(
        constant_tags,
        constant_words,
        register_tags,
        register_words,
        program,
        data_tags,
        data_words,
    ) {
        return false;
    }
    windows_sound(rows, register_words.len(), program.len(), data_words.len())
}
