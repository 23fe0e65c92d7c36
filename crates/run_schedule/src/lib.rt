// A run over a schedule: the refusals 8, 9 and 10, then one attempt after another, an item being a try and a step. One item by itself is a run over
// it alone.
#![tactic(auto)]

mod next;

ghost use Rattle.std.specs.Prelude.{◌≡◌, true, false, ◌&&◌, List, ℕ, ◌≤◌, ◌<◌, length, get_or, take};
ghost use Rattle.window.specs.Memories.{memory};
ghost use Rattle.operation.specs.Environment.{environment_of};
ghost use Rattle.operation.specs.Decide.{decide};
ghost use Rattle.step.specs.Queues.{places, numbers, pt_count};
ghost use Rattle.step.specs.State.{no_queue};
ghost use Rattle.step.specs.Code.Performs.{Performs};
ghost use Rattle.step.specs.Soundness.{every};
ghost use Rattle.run.specs.Run.{no_counts, plus, summed};
ghost use Rattle.run.specs.Schedule.{item_sound, most_items};
ghost use Rattle.run_rings.specs.Code.Spans.{Windows};
ghost use Rattle.run_next.specs.Code.Numbers.{cells};
ghost use Rattle.run_next.specs.Code.Tally.{own_in, all_own};
ghost use Rattle.run_schedule.specs.Code.Carried.{open_state, Opens, Opened, Begins, Ends, users_of, Small};
ghost use Rattle.run_schedule.specs.Code.Queued.{all_queues};
ghost use Rattle.run_schedule.specs.Code.OneItem.{trap_of, ending_of, answer_of, row_at};
ghost use Rattle.library.specs.Calls.{refuses, state_refused};
ghost use Rattle.library.specs.Held.{lent_buffers};
ghost use Rattle.library.specs.Code.HeldRows.{held_rows, SamePlaces};
ghost use Rattle.library.specs.Code.RowPlace.{StandsAt};
ghost use Rattle.library.specs.Promises.{run_answered, RunPromise, StepPromise};

use library::{AfterRun, AfterStep, Rows, RunResult, Sizes};
use next::{EXECUTED, FRESH, IDLE, THEN, TRAPPED, TRY, WAVED};
use operation::{Bounds, Course, Process, Trap};
use refusal::Refusal;
use run::{Counts, MOST_ITEMS, TASK_NUMBERS};
use run_rings::{ALL_SPANS, Rings, SPANS, Tasks};
use step::{Ending, NUMBERS, PTS, ProcessTable, Processes};
use window::{Row, TASKS};

// The places of the counts side by side, and of the PSWs: those of the processes, and that of a process just created.
const CELLS: usize = 10 * NUMBERS;

const PSWS: usize = PTS + 1;

// The queues of all tasks side by side, and the next attempt of each: none where the item is idle.
#[derive(Clone, Copy)]
pub struct Queued {
    pub rings: Rings,
    pub next: [Option<run_next::Next>; NUMBERS],
}

// The numbers that a run carries from attempt to attempt, besides the memories.
#[derive(Clone, Copy)]
pub struct Carried {
    pub queued: Queued,
    pub kinds: [u8; NUMBERS],
    pub stored: [u64; NUMBERS],
    pub psws: [u64; PSWS],
    pub free: u64,
    // Here, since the two numbers side by side would be changed as one pair where a process leaves: three instructions more.
    pub flag: u8,
    pub count: usize,
    pub tally: [u32; CELLS],
}

// ---- the counts side by side

// The counts of task t.
fn own_at(tally: &[u32; CELLS], t: usize) -> Counts
    requires { (t < numbers) × Small (own_in tally.now t) }
    ensures { result ≡ own_in tally.now t }
{
    let executed_by_try = tally[TRY + EXECUTED + t];
    let waved_by_try = tally[TRY + WAVED + t];
    let trapped_by_try = tally[TRY + TRAPPED + t];
    Counts {
        executed: tally[EXECUTED + t] + executed_by_try,
        waved: tally[WAVED + t] + waved_by_try,
        trapped: tally[TRAPPED + t] + trapped_by_try,
        idle: tally[IDLE + t],
        tries: executed_by_try
            + waved_by_try
            + trapped_by_try
            + tally[THEN + EXECUTED + t]
            + tally[THEN + WAVED + t],
    }
}

fn no_counts() -> Counts
    ensures { result ≡ no_counts }
{
    Counts {
        executed: 0,
        waved: 0,
        trapped: 0,
        idle: 0,
        tries: 0,
    }
}

// The counts of all task numbers.
fn own_of(tally: [u32; CELLS]) -> [Counts; TASK_NUMBERS]
    requires { (t : ℕ) → t < numbers → Small (own_in tally t) }
    ensures { result ≡ all_own tally }
{
    let mut own = [no_counts(); TASK_NUMBERS];
    for t in 0..TASK_NUMBERS {
        own[t] = own_at(&tally, t);
    }
    own
}

fn plus(c: Counts, d: Counts) -> Counts
    requires { Small (plus c d) }
    ensures { result ≡ plus c d }
{
    Counts {
        executed: c.executed + d.executed,
        waved: c.waved + d.waved,
        trapped: c.trapped + d.trapped,
        idle: c.idle + d.idle,
        tries: c.tries + d.tries,
    }
}

// Those of all task numbers together.
fn total(own: [Counts; TASK_NUMBERS]) -> Counts
    requires { Small (summed own) }
    ensures { result ≡ summed own }
{
    let mut sum = no_counts();
    for counts in own.iter() {
        sum = plus(sum, *counts);
    }
    sum
}

// ---- the PSWs, and behind them that of a process just created

fn with_fresh(psw: [u64; PTS]) -> [u64; PSWS]
    ensures { take pt_count result ≡ psw }
{
    let mut psws: [u64; PSWS] = [0; PSWS];
    for k in 0..PTS {
        psws[k] = psw[k];
    }
    psws
}

fn without_fresh(psws: [u64; PSWS]) -> [u64; PTS]
    ensures { result ≡ take pt_count psws }
{
    let mut psw: [u64; PTS] = [0; PTS];
    for k in 0..PTS {
        psw[k] = psws[k];
    }
    psw
}

// ---- the loop

// The numbers at the start of a run, no item being under way.
fn numbered(users: Processes, records: Tasks) -> Carried
    ensures { Begins users records result }
{
    let queues = users.queues;
    let kinds = records.kinds;
    let stored = records.stored;
    let psw = users.psw;
    let rings = run_rings::rings_of(queues);
    let queued = next::laid(rings, &kinds);
    let psws = with_fresh(psw);
    Carried {
        queued,
        kinds,
        stored,
        psws,
        flag: users.flag,
        free: run_rings::free_mask(queues),
        count: users.count,
        tally: [0; CELLS],
    }
}

// The attempt of task t with the process pt: PSW and windows, and what is decided is done.
fn attempt(
    t: usize,
    pt: usize,
    flag: u8,
    spans: &[u32; ALL_SPANS],
    psws: &mut [u64; PSWS],
    constant_tags: &[u8],
    constant_words: &[u64],
    register_tags: &mut [u8],
    register_words: &mut [u64],
    program: &[u64],
    data_tags: &mut [u8],
    data_words: &mut [u64],
) -> Course
    requires { (t < numbers) × (pt < 65) }
    ensures { (row : Row) → Windows spans.now t row → Performs row (decide (environment_of row (get_or psws.old pt 0) flag program.now (memory constant_tags.now constant_words.now) (memory register_tags.old register_words.old) (memory data_tags.old data_words.old))) pt pt_count result psws.old psws.new (memory register_tags.old register_words.old) (memory register_tags.new register_words.new) (memory data_tags.old data_words.old) (memory data_tags.new data_words.new) }
{
    let psw = psws[pt];
    let at = SPANS * t;
    let windows = operation::Windows {
        constants: spans[at],
        registers: Bounds {
            base: spans[at + 1],
            end: spans[at + 2],
        },
        program: Bounds {
            base: spans[at + 3],
            end: spans[at + 4],
        },
        data: Bounds {
            base: spans[at + 5],
            end: spans[at + 6],
        },
    };
    operation_decide::decide(
        windows,
        psws,
        Process { pt, psw },
        flag,
        FRESH,
        constant_tags,
        constant_words,
        register_tags,
        register_words,
        program,
        data_tags,
        data_words,
    )
}

// One attempt after another, each on what the one before it left. The two tests of lengths, which no sound state fails, let the tests of an index
// into tags and into words become one.
fn run_items(
    users: Processes,
    records: Tasks,
    schedule: &[u8],
    constant_tags: &[u8],
    constant_words: &[u64],
    register_tags: &mut [u8],
    register_words: &mut [u64],
    program: &[u64],
    data_tags: &mut [u8],
    data_words: &mut [u64],
) -> Carried
    requires { (length schedule.now ≤ most_items) × (every item_sound schedule.now ≡ true) × Opened users records (cells (memory constant_tags.now constant_words.now) (memory register_tags.old register_words.old) program.now (memory data_tags.old data_words.old)) }
    ensures { (rows : List Row) → Opens rows users records (cells (memory constant_tags.now constant_words.now) (memory register_tags.old register_words.old) program.now (memory data_tags.old data_words.old)) → Ends rows records.spans schedule.now (open_state rows users (cells (memory constant_tags.now constant_words.now) (memory register_tags.old register_words.old) program.now (memory data_tags.old data_words.old))) result (cells (memory constant_tags.now constant_words.now) (memory register_tags.new register_words.new) program.now (memory data_tags.new data_words.new)) }
{
    let spans = records.spans;
    let mut carried = numbered(users, records);
    if register_tags.len() != register_words.len() {
        return carried;
    }
    if data_tags.len() != data_words.len() {
        return carried;
    }
    let mut i = 0;
    // No `for`: an item that makes a try and a step goes round twice, and an inner loop over its attempts costs more a step.
    while i < schedule.len() {
        let t = schedule[i] as usize;
        let Some(next) = carried.queued.next[t] else {
            next::count_attempt(&mut carried.tally, IDLE, t);
            i += 1;
            continue;
        };
        let pt = next.pt as usize;
        let c = attempt(
            t,
            pt,
            carried.flag,
            &spans,
            &mut carried.psws,
            constant_tags,
            constant_words,
            register_tags,
            register_words,
            program,
            data_tags,
            data_words,
        );
        let p = carried.psws[pt];
        let place = carried.settle(c, t, next, p);
        next::count_attempt(&mut carried.tally, place, t);
        if place < THEN {
            i += 1;
        }
    }
    carried
}

// Whether all items so far and this one are sound.
fn still(good: bool, t: u8) -> bool
    ensures { result ≡ (good && item_sound t) }
{
    if good {
        return run::item_sound(t);
    }
    false
}

// Whether every item is a task number 1 to 7. No `all`: it leaves at the first that is not, so that the loop can't go many at a time, and create and
// quit miss their bar by three instructions a step.
pub fn items_sound(schedule: &[u8]) -> bool
    ensures { result ≡ every item_sound schedule.now }
{
    let mut good = true;
    for t in schedule {
        good = still(good, *t);
    }
    good
}

// The processes at the end of a run.
fn users_of(left: Carried) -> Processes
    requires { (k : ℕ) → (get_or (all_queues left.queued.rings) k no_queue).len ≤ places }
    ensures { result ≡ users_of left }
{
    let rings = left.queued.rings;
    let pts = rings.pts;
    let heads = rings.heads;
    let lens = rings.lens;
    let psws = left.psws;
    let queues = run_rings::queues_of(pts, heads, lens);
    Processes {
        psw: without_fresh(psws),
        queues,
        flag: left.flag,
        live: step_queue::live_counts(queues),
        count: left.count,
    }
}

fn refused(e: Refusal, rows: Rows, table: ProcessTable) -> AfterRun
    ensures { result ≡ record { rows = rows; table = table; result = run_answered (refuses e) } }
{
    AfterRun {
        rows,
        table,
        result: RunResult {
            answer: Err(e),
            own: [no_counts(); TASK_NUMBERS],
        },
    }
}

// A run that is not refused, on slices cut to the sizes: as many tags as words, so that the tests of an index into either become one.
fn run_cut(
    rows: Rows,
    table: ProcessTable,
    constant_tags: &[u8],
    constant_words: &[u64],
    register_tags: &mut [u8],
    register_words: &mut [u64],
    program: &[u64],
    data_tags: &mut [u8],
    data_words: &mut [u64],
    schedule: &[u8],
    n: Sizes,
) -> AfterRun
    requires { (state_refused n (lent_buffers (held_rows rows) table constant_tags.now constant_words.now register_tags.old register_words.old program.now data_tags.old data_words.old) ≡ false) × (length schedule.now ≤ most_items) × (every item_sound schedule.now ≡ true) }
    ensures { RunPromise n (lent_buffers (held_rows rows) table constant_tags.now constant_words.now register_tags.old register_words.old program.now data_tags.old data_words.old) schedule.now result.result (lent_buffers (held_rows result.rows) result.table constant_tags.now constant_words.now register_tags.new register_words.new program.now data_tags.new data_words.new) × SamePlaces rows result.rows }
{
    let at = rows.at;
    let users = table.users;
    let records = run_rings::number_tasks(at, n.rows);
    let constant_count = n.constants;
    let register_count = n.registers;
    let program_count = n.program;
    let data_count = n.data_words;
    let left = run_items(
        users,
        records,
        schedule,
        &constant_tags[..constant_count],
        &constant_words[..constant_count],
        &mut register_tags[..register_count],
        &mut register_words[..register_count],
        &program[..program_count],
        &mut data_tags[..data_count],
        &mut data_words[..data_count],
    );
    let kinds = left.kinds;
    let stored = left.stored;
    let tally = left.tally;
    let own = own_of(tally);
    AfterRun {
        rows: Rows {
            at: run_rings::rows_with(at, n.rows, kinds, stored),
            n: rows.n,
        },
        table: ProcessTable {
            users: users_of(left),
        },
        result: RunResult {
            answer: Ok(total(own)),
            own,
        },
    }
}

// A run of the state in the buffers: 8, then 9, then 10.
pub fn run(
    rows: Rows,
    table: ProcessTable,
    constant_tags: &[u8],
    constant_words: &[u64],
    register_tags: &mut [u8],
    register_words: &mut [u64],
    program: &[u64],
    data_tags: &mut [u8],
    data_words: &mut [u64],
    schedule: &[u8],
    n: Sizes,
) -> AfterRun
    ensures { RunPromise n (lent_buffers (held_rows rows) table constant_tags.now constant_words.now register_tags.old register_words.old program.now data_tags.old data_words.old) schedule.now result.result (lent_buffers (held_rows result.rows) result.table constant_tags.now constant_words.now register_tags.new register_words.new program.now data_tags.new data_words.new) × SamePlaces rows result.rows }
{
    if library_state::refused(
        rows,
        table,
        constant_tags,
        constant_words,
        register_tags,
        register_words,
        program,
        data_tags,
        data_words,
        n,
    ) {
        return refused(Refusal::UnsoundState, rows, table);
    }
    if MOST_ITEMS < schedule.len() {
        return refused(Refusal::ListTooLong, rows, table);
    }
    if !items_sound(schedule) {
        return refused(Refusal::ItemOutOfRange, rows, table);
    }
    run_cut(
        rows,
        table,
        constant_tags,
        constant_words,
        register_tags,
        register_words,
        program,
        data_tags,
        data_words,
        schedule,
        n,
    )
}

// ---- one item: a run over it alone

// The trap of a kind.
fn trap_of(k: u8) -> Trap
    ensures { result ≡ trap_of k }
{
    match k {
        0x00 => Trap::CreateFault,
        0x12 => Trap::IllegalInstruction,
        0x14 => Trap::ProtectionViolation,
        0x16 => Trap::PrivilegedInstruction,
        0x1A => Trap::SupervisorCall,
        0x1C => Trap::SimulatedInstruction,
        _ => Trap::DataException,
    }
}

// How the one item ended: by its count, and of a trap by the trap record of the task's row.
fn ending_of(c: Counts, row: Row) -> Ending
    ensures { result ≡ ending_of c row }
{
    if c.executed == 1 {
        return Ending::Executed;
    }
    if c.waved == 1 {
        return Ending::Waved;
    }
    if c.idle == 1 {
        return Ending::Idle;
    }
    Ending::Trapped(trap_of(row.kind), row.psw)
}

fn answer_of(answer: Result<Counts, Refusal>, row: Row) -> Result<Ending, Refusal>
    ensures { result ≡ answer_of answer row }
{
    match answer {
        Err(e) => Err(e),
        Ok(c) => Ok(ending_of(c, row)),
    }
}

// Row i of seven, counted round.
fn row_at(rows: [Row; TASKS], i: usize) -> Row
    ensures { result ≡ row_at rows i }
{
    rows[i % TASKS]
}

// One item of a task, whose row stands at `place` where it is listed: 8, then 10.
pub fn step(
    rows: Rows,
    place: usize,
    table: ProcessTable,
    constant_tags: &[u8],
    constant_words: &[u64],
    register_tags: &mut [u8],
    register_words: &mut [u64],
    program: &[u64],
    data_tags: &mut [u8],
    data_words: &mut [u64],
    n: Sizes,
    task: u8,
) -> AfterStep
    ensures { (StandsAt task (held_rows rows) place → StepPromise n (lent_buffers (held_rows rows) table constant_tags.now constant_words.now register_tags.old register_words.old program.now data_tags.old data_words.old) task result.answer (lent_buffers (held_rows result.rows) result.table constant_tags.now constant_words.now register_tags.new register_words.new program.now data_tags.new data_words.new)) × SamePlaces rows result.rows }
{
    let schedule = [task];
    let after = run(
        rows,
        table,
        constant_tags,
        constant_words,
        register_tags,
        register_words,
        program,
        data_tags,
        data_words,
        &schedule,
        n,
    );
    let rows = after.rows;
    let table = after.table;
    let result = after.result;
    let answer = result.answer;
    let at = rows.at;
    let row = row_at(at, place);
    AfterStep {
        rows,
        table,
        answer: answer_of(answer, row),
    }
}
