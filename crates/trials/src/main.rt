// Refusals 7 to 10 of the calls read, run, step and write, at both sides of their boundaries, on one small state; its live counts on one of seven
// tasks; runs with tries. A line for each call: what it answered, of a run also each task's own counts, and how many lent places are as they were
// before it.
#![tactic(auto)]

use library::Sizes;
use refusal::Refusal;
use run::{Counts, TASK_NUMBERS};
use std::io;
use step::{Ending, NUMBERS, PLACES, PTS, ProcessTable, Processes, QUEUES, Queue};
use window::{Row, TASKS};

// What lies in a lent place before a call; no value of the state is equal to it.
const MARK: u8 = 0xEE;

const WORD_MARK: u64 = 0xEE;

// ---- the state: 3 constants, 8 registers, 16 program words, 32 data words; an image of 578 bytes

// The windows of its one row end with the memories.
fn trial_row() -> Row {
    let mut row = library::empty_row();
    row.task = 1;
    row.rl = 3;
    row
}

// This row, and empty ones behind it.
fn rows_from(row: Row) -> [Row; TASKS] {
    let mut rows = hep::no_rows();
    rows[0] = row;
    rows
}

// The sizes of the state with so many rows.
fn sizes(rows: usize) -> Sizes {
    Sizes {
        rows,
        constants: 3,
        registers: 8,
        program: 16,
        data_words: 32,
    }
}

// No processes but those of this queue, which has the number k.
fn queues_with(k: usize, queue: Queue) -> [Queue; QUEUES] {
    let mut queues = [library::empty_queue(); QUEUES];
    queues[k % QUEUES] = queue;
    queues
}

// The table of these queues, whose n processes are all of one task; each has this PSW.
fn table_of(psw: u64, queues: [Queue; QUEUES], flag: u8, task: usize, n: usize) -> ProcessTable {
    let mut live = [0; NUMBERS];
    live[task % NUMBERS] = n;
    ProcessTable {
        users: Processes {
            psw: [psw; PTS],
            queues,
            flag,
            live,
            count: n,
        },
    }
}

// The processes with these PTs, of which a queue has room for 64.
fn queue_of(pts: &[u8]) -> Queue {
    let mut queue = library::empty_queue();
    for (place, pt) in queue.pts.iter_mut().zip(pts) {
        *place = *pt;
    }
    queue.len = pts.len();
    queue
}

// Task 1 has two processes, of PT 3 and of this one, with this PSW each.
fn table_with(pt: u8, psw: u64, flag: u8) -> ProcessTable {
    table_of(psw, queues_with(2, queue_of(&[3, pt])), flag, 1, 2)
}

fn trial_table() -> ProcessTable {
    table_with(9, 0, 0)
}

// Task 1 has a process of PT 3, and one of this PT in its SFU queue.
fn table_sfu(pt: u8) -> ProcessTable {
    let mut queues = queues_with(2, queue_of(&[3]));
    queues[3] = queue_of(&[pt]);
    table_of(0, queues, 0, 1, 2)
}

// The queue with number k, of a task that has no row, has one process.
fn table_unlisted(k: usize) -> ProcessTable {
    table_of(0, queues_with(k, queue_of(&[0])), 0, k / 2, 1)
}

// So many processes, with the PTs 0 to 63.
fn queue_full(len: usize) -> Queue {
    let mut queue = library::empty_queue();
    for i in 0..PLACES {
        queue.pts[i] = i as u8;
    }
    queue.len = len;
    queue
}

// Task 1 has so many processes in its queue, or in its SFU queue: 2 or 3.
fn table_full(k: usize, len: usize, flag: u8) -> ProcessTable {
    table_of(0, queues_with(k, queue_full(len)), flag, 1, len)
}

// Task 1 has 63 processes in its queue and one in its SFU queue.
fn table_both(flag: u8) -> ProcessTable {
    let mut queues = queues_with(2, queue_full(63));
    queues[3] = queue_of(&[63]);
    table_of(0, queues, flag, 1, 64)
}

// The state before a call, in buffers that are as long as its fields.
#[derive(Clone, Copy)]
struct State {
    rows: [Row; TASKS],
    n: usize,
    table: ProcessTable,
    qualities: [u8; 3],
    tags: [u8; 8],
    data_tags: [u8; 32],
}

// A sound state of one row.
fn sound() -> State {
    State {
        rows: rows_from(trial_row()),
        n: 1,
        table: trial_table(),
        qualities: [2; 3],
        tags: [1; 8],
        data_tags: [1; 32],
    }
}

fn with_row(row: Row) -> State {
    State {
        rows: rows_from(row),
        ..sound()
    }
}

fn with_table(table: ProcessTable) -> State {
    State { table, ..sound() }
}

fn with_tags(tag: u8) -> State {
    State {
        tags: [tag; 8],
        ..sound()
    }
}

// ---- lines

fn print_refusal(rt: &impl Print, e: Refusal) -> io::Result<()> {
    print!(rt; "R{}", refusal::number(e))
}

fn print_kept(rt: &impl Print, kept: usize) -> io::Result<()> {
    print!(rt; " {kept}")
}

// How many places have the mark.
fn marked<T: Copy + PartialEq>(places: &[T], mark: T) -> usize {
    places.iter().filter(|place| **place == mark).count()
}

// ---- write

// The state with these tags in place of its own.
fn write_tags(
    rt: &impl Print,
    out: &mut [u8],
    state: State,
    qualities: &[u8],
    tags: &[u8],
    data_tags: &[u8],
) -> io::Result<()> {
    let written = hep::write_owned(
        state.rows,
        state.table,
        qualities,
        &[5; 3],
        tags,
        &[6; 8],
        &[7; 16],
        data_tags,
        &[8; 32],
        out,
        sizes(state.n),
    );
    match written {
        Err(e) => print_refusal(rt, e)?,
        Ok(length) => print!(rt; "wrote {length}")?,
    }
    print!(rt; ", kept")?;
    print_kept(rt, marked(out, MARK))?;
    println!(rt)
}

fn write_to(rt: &impl Print, out: &mut [u8], state: State) -> io::Result<()> {
    write_tags(
        rt,
        out,
        state,
        &state.qualities,
        &state.tags,
        &state.data_tags,
    )
}

// To a buffer as long as the image.
fn write_state(rt: &impl Print, state: State) -> io::Result<()> {
    write_to(rt, &mut [MARK; 578], state)
}

// To a buffer as long as an image with 64 processes.
fn write_full(rt: &impl Print, table: ProcessTable) -> io::Result<()> {
    write_to(rt, &mut [MARK; 1198], with_table(table))
}

fn write_row(rt: &impl Print, row: Row) -> io::Result<()> {
    write_state(rt, with_row(row))
}

fn write_rows_of(rt: &impl Print, n: usize) -> io::Result<()> {
    write_state(rt, State { n, ..sound() })
}

fn write_table(rt: &impl Print, table: ProcessTable) -> io::Result<()> {
    write_state(rt, with_table(table))
}

fn write_quality(rt: &impl Print, quality: u8) -> io::Result<()> {
    let mut state = sound();
    state.qualities[2] = quality;
    write_state(rt, state)
}

fn write_tag(rt: &impl Print, tag: u8) -> io::Result<()> {
    let mut state = sound();
    state.tags[7] = tag;
    write_state(rt, state)
}

fn write_data_tag(rt: &impl Print, tag: u8) -> io::Result<()> {
    let mut state = sound();
    state.data_tags[31] = tag;
    write_state(rt, state)
}

fn write_bounds(rt: &impl Print) -> io::Result<()> {
    print!(rt; "write to 578 bytes: ")?;
    write_to(rt, &mut [MARK; 578], sound())?;
    print!(rt; "write to 577 bytes: ")?;
    write_to(rt, &mut [MARK; 577], sound())?;
    print!(rt; "write to 579 bytes: ")?;
    write_to(rt, &mut [MARK; 579], sound())?;
    print!(rt; "unsound, to 577 bytes: ")?;
    write_to(rt, &mut [MARK; 577], with_tags(7))
}

// With tags of which one memory has too few.
fn write_short(rt: &impl Print, qualities: &[u8], tags: &[u8], data_tags: &[u8]) -> io::Result<()> {
    let mut out = [MARK; 578];
    write_tags(rt, &mut out, sound(), qualities, tags, data_tags)
}

fn write_memories(rt: &impl Print) -> io::Result<()> {
    print!(rt; "constant quality 6: ")?;
    write_quality(rt, 6)?;
    print!(rt; "constant quality 7: ")?;
    write_quality(rt, 7)?;
    print!(rt; "register tag 6: ")?;
    write_tag(rt, 6)?;
    print!(rt; "register tag 7: ")?;
    write_tag(rt, 7)?;
    print!(rt; "register tag 14: ")?;
    write_tag(rt, 14)?;
    print!(rt; "register tag 15: ")?;
    write_tag(rt, 15)?;
    print!(rt; "data state 2: ")?;
    write_data_tag(rt, 2)?;
    print!(rt; "2 constant qualities of 3: ")?;
    write_short(rt, &[2; 2], &[1; 8], &[1; 32])?;
    print!(rt; "7 register tags of 8: ")?;
    write_short(rt, &[2; 3], &[1; 7], &[1; 32])?;
    print!(rt; "31 data states of 32: ")?;
    write_short(rt, &[2; 3], &[1; 8], &[1; 31])
}

fn write_rows(rt: &impl Print) -> io::Result<()> {
    let mut row = trial_row();
    print!(rt; "CB 4095: ")?;
    row.cb = 4095;
    write_row(rt, row)?;
    print!(rt; "CB 4096: ")?;
    row.cb = 4096;
    write_row(rt, row)?;
    row = trial_row();
    print!(rt; "registers 2 to 9 of 8: ")?;
    row.rb = 1;
    row.rl = 4;
    write_row(rt, row)?;
    print!(rt; "an empty register window: ")?;
    row.rb = 1023;
    write_row(rt, row)?;
    print!(rt; "RB 1024: ")?;
    row.rb = 1024;
    write_row(rt, row)?;
    row = trial_row();
    print!(rt; "kind 14: ")?;
    row.kind = 0x14;
    write_row(rt, row)?;
    print!(rt; "kind 13: ")?;
    row.kind = 0x13;
    write_row(rt, row)?;
    row = trial_row();
    print!(rt; "a PSW beside FF: ")?;
    row.psw = 1;
    write_row(rt, row)?;
    print!(rt; "an empty row after it: ")?;
    write_rows_of(rt, 2)?;
    print!(rt; "8 rows: ")?;
    write_rows_of(rt, 8)
}

fn write_tables(rt: &impl Print) -> io::Result<()> {
    print!(rt; "PT 63: ")?;
    write_table(rt, table_with(63, 0, 0))?;
    print!(rt; "PT 64: ")?;
    write_table(rt, table_with(64, 0, 0))?;
    print!(rt; "PT 3 twice: ")?;
    write_table(rt, table_with(3, 0, 0))?;
    print!(rt; "PSW FF FF FF FF 0F FF FF: ")?;
    write_table(rt, table_with(9, 0xFF_FFFF_FF0F_FFFF, 0))?;
    print!(rt; "PSW FF FF FF FF 1F FF FF: ")?;
    write_table(rt, table_with(9, 0xFF_FFFF_FF1F_FFFF, 0))?;
    print!(rt; "PSW 1 00 00 00 00 00 00 00: ")?;
    write_table(rt, table_with(9, 0x100_0000_0000_0000, 0))?;
    print!(rt; "flag 1: ")?;
    write_table(rt, table_with(9, 0, 1))?;
    print!(rt; "flag 2: ")?;
    write_table(rt, table_with(9, 0, 2))
}

fn write_full_tables(rt: &impl Print) -> io::Result<()> {
    print!(rt; "63 processes, flag 0: ")?;
    write_full(rt, table_full(2, 63, 0))?;
    print!(rt; "64 processes, flag 0: ")?;
    write_full(rt, table_full(2, 64, 0))?;
    print!(rt; "64 processes, flag 1: ")?;
    write_full(rt, table_full(2, 64, 1))?;
    print!(rt; "65 processes, flag 1: ")?;
    write_full(rt, table_full(2, 65, 1))?;
    print!(rt; "63 SFU processes, flag 0: ")?;
    write_full(rt, table_full(3, 63, 0))?;
    print!(rt; "64 SFU processes, flag 0: ")?;
    write_full(rt, table_full(3, 64, 0))?;
    print!(rt; "64 SFU processes, flag 1: ")?;
    write_full(rt, table_full(3, 64, 1))?;
    print!(rt; "65 SFU processes, flag 1: ")?;
    write_full(rt, table_full(3, 65, 1))?;
    print!(rt; "63 processes and one SFU process, flag 0: ")?;
    write_full(rt, table_both(0))?;
    print!(rt; "63 processes and one SFU process, flag 1: ")?;
    write_full(rt, table_both(1))
}

fn write_sfu_tables(rt: &impl Print) -> io::Result<()> {
    print!(rt; "SFU process with PT 4: ")?;
    write_table(rt, table_sfu(4))?;
    print!(rt; "SFU process with PT 64: ")?;
    write_table(rt, table_sfu(64))?;
    print!(rt; "PT 3 in both queues: ")?;
    write_table(rt, table_sfu(3))?;
    print!(rt; "a process without a row: ")?;
    write_table(rt, table_unlisted(4))?;
    print!(rt; "an SFU process without a row: ")?;
    write_table(rt, table_unlisted(5))?;
    print!(rt; "a process of task 0: ")?;
    write_table(rt, table_unlisted(0))?;
    print!(rt; "an SFU process of task 0: ")?;
    write_table(rt, table_unlisted(1))
}

// ---- read

fn read_into(
    rt: &impl Print,
    image: &[u8],
    qualities: &mut [u8],
    constants: &mut [u64],
    tags: &mut [u8],
    words: &mut [u64],
    program: &mut [u64],
    data_tags: &mut [u8],
    data_words: &mut [u64],
) -> io::Result<()> {
    let x = hep::read_owned(
        hep::no_rows(),
        hep::no_processes(),
        qualities,
        constants,
        tags,
        words,
        program,
        data_tags,
        data_words,
        image,
    );
    match x.answer {
        Err(e) => print_refusal(rt, e)?,
        Ok(n) => print!(rt; "read {} row", n.rows)?,
    }
    print!(rt; ", kept")?;
    print_kept(rt, marked(qualities, MARK))?;
    print_kept(rt, marked(constants, WORD_MARK))?;
    print_kept(rt, marked(tags, MARK))?;
    print_kept(rt, marked(words, WORD_MARK))?;
    print_kept(rt, marked(program, WORD_MARK))?;
    print_kept(rt, marked(data_tags, MARK))?;
    print_kept(rt, marked(data_words, WORD_MARK))?;
    println!(rt)
}

// Reads into buffers of so many places, of which there is one more than the image needs.
fn read_trial(
    rt: &impl Print,
    image: &[u8],
    qualities_room: usize,
    constants_room: usize,
    tags_room: usize,
    words_room: usize,
    program_room: usize,
    data_tags_room: usize,
    data_words_room: usize,
) -> io::Result<()> {
    let mut qualities = [MARK; 4];
    let mut constants = [WORD_MARK; 4];
    let mut tags = [MARK; 9];
    let mut words = [WORD_MARK; 9];
    let mut program = [WORD_MARK; 17];
    let mut data_tags = [MARK; 33];
    let mut data_words = [WORD_MARK; 33];
    let qualities_room = qualities_room.min(4);
    let constants_room = constants_room.min(4);
    let tags_room = tags_room.min(9);
    let words_room = words_room.min(9);
    let program_room = program_room.min(17);
    let data_tags_room = data_tags_room.min(33);
    let data_words_room = data_words_room.min(33);
    read_into(
        rt,
        image,
        &mut qualities[..qualities_room],
        &mut constants[..constants_room],
        &mut tags[..tags_room],
        &mut words[..words_room],
        &mut program[..program_room],
        &mut data_tags[..data_tags_room],
        &mut data_words[..data_words_room],
    )
}

fn read_trials(rt: &impl Print, image: &[u8]) -> io::Result<()> {
    print!(rt; "read: ")?;
    read_trial(rt, image, 3, 3, 8, 8, 16, 32, 32)?;
    print!(rt; "read, all one longer: ")?;
    read_trial(rt, image, 4, 4, 9, 9, 17, 33, 33)?;
    print!(rt; "read, qualities short: ")?;
    read_trial(rt, image, 2, 3, 8, 8, 16, 32, 32)?;
    print!(rt; "read, constants short: ")?;
    read_trial(rt, image, 3, 2, 8, 8, 16, 32, 32)?;
    print!(rt; "read, tags short: ")?;
    read_trial(rt, image, 3, 3, 7, 8, 16, 32, 32)?;
    print!(rt; "read, words short: ")?;
    read_trial(rt, image, 3, 3, 8, 7, 16, 32, 32)?;
    print!(rt; "read, program short: ")?;
    read_trial(rt, image, 3, 3, 8, 8, 15, 32, 32)?;
    print!(rt; "read, data states short: ")?;
    read_trial(rt, image, 3, 3, 8, 8, 16, 31, 32)?;
    print!(rt; "read, data words short: ")?;
    read_trial(rt, image, 3, 3, 8, 8, 16, 32, 31)
}

fn read_state(rt: &impl Print) -> io::Result<()> {
    let state = sound();
    let mut image = [0; 578];
    let _ = hep::write_owned(
        state.rows,
        state.table,
        &state.qualities,
        &[5; 3],
        &state.tags,
        &[6; 8],
        &[7; 16],
        &state.data_tags,
        &[8; 32],
        &mut image,
        sizes(state.n),
    );
    read_trials(rt, &image)
}

// ---- run

fn print_counts(rt: &impl Print, c: Counts) -> io::Result<()> {
    print!(rt;
        "E{} W{} T{} I{} S{}",
        c.executed, c.waved, c.trapped, c.idle, c.tries
    )
}

fn print_ran(rt: &impl Print, c: Counts) -> io::Result<()> {
    print!(rt; "ran ")?;
    print_counts(rt, c)
}

fn none_counted(c: Counts) -> bool {
    c.executed == 0 && c.waved == 0 && c.trapped == 0 && c.idle == 0 && c.tries == 0
}

// The own counts of each task number that has any, and how many have none.
fn print_own(rt: &impl Print, own: [Counts; TASK_NUMBERS]) -> io::Result<()> {
    for (task, counts) in own.iter().enumerate() {
        if !none_counted(*counts) {
            print!(rt; ", task {task} ")?;
            print_counts(rt, *counts)?;
        }
    }
    let without = own.iter().filter(|counts| none_counted(**counts)).count();
    print!(rt; ", {without} numbers without counts")
}

// The kind of the first row, and how many processes task 1 has in its queue and in its SFU queue.
fn print_left(rt: &impl Print, rows: [Row; TASKS], table: ProcessTable) -> io::Result<()> {
    print!(rt; ", kind {:02x}, queues", rows[0].kind)?;
    print_kept(rt, table.users.queues[2].len)?;
    print_kept(rt, table.users.queues[3].len)
}

// No listed code: a step traps.
const UNLISTED: u64 = 7;

// LODI of data word 0 into register 0, which waits until the word is full.
const LOAD: u64 = 0x6C04_0000_4000_0000;

// Runs the state over a schedule; each program word is this one.
fn run_state(rt: &impl Print, state: State, schedule: &[u8], program: u64) -> io::Result<()> {
    let mut tags = state.tags;
    let mut words = [WORD_MARK; 8];
    let mut data_tags = state.data_tags;
    let mut data_words = [WORD_MARK; 32];
    let x = hep::run_owned(
        state.rows,
        state.table,
        &state.qualities,
        &[5; 3],
        &mut tags,
        &mut words,
        &[program; 16],
        &mut data_tags,
        &mut data_words,
        schedule,
        sizes(state.n),
    );
    match x.result.answer {
        Err(e) => print_refusal(rt, e)?,
        Ok(c) => print_ran(rt, c)?,
    }
    print_own(rt, x.result.own)?;
    print_left(rt, x.rows.at, x.table)?;
    print!(rt; ", kept")?;
    print_kept(rt, marked(&words, WORD_MARK))?;
    print_kept(rt, marked(&data_words, WORD_MARK))?;
    println!(rt)
}

fn run_over(rt: &impl Print, schedule: &[u8], tag: u8) -> io::Result<()> {
    run_state(rt, with_tags(tag), schedule, UNLISTED)
}

fn run_trials(rt: &impl Print) -> io::Result<()> {
    print!(rt; "a list of 65,535: ")?;
    run_over(rt, &[1; 65535], 1)?;
    print!(rt; "a list of 65,536: ")?;
    run_over(rt, &[1; 65536], 1)?;
    print!(rt; "of 65,536 that are no tasks: ")?;
    run_over(rt, &[8; 65536], 1)?;
    print!(rt; "no list: ")?;
    run_over(rt, &[1; 0], 1)?;
    print!(rt; "items 1 and 7: ")?;
    run_over(rt, &[1, 7], 1)?;
    print!(rt; "items 1 and 8: ")?;
    run_over(rt, &[1, 8], 1)?;
    print!(rt; "items 1 and 0: ")?;
    run_over(rt, &[1, 0], 1)?;
    print!(rt; "an unsound state, a list of 65,536: ")?;
    run_over(rt, &[1; 65536], 7)
}

// Loads by task 1, whose processes have the PTs of this table, while data words are in this state.
fn run_loads(
    rt: &impl Print,
    table: ProcessTable,
    schedule: &[u8],
    data_state: u8,
) -> io::Result<()> {
    let state = State {
        data_tags: [data_state; 32],
        ..with_table(table)
    };
    run_state(rt, state, schedule, LOAD)
}

fn try_trials(rt: &impl Print) -> io::Result<()> {
    print!(rt; "a load of an empty data word: ")?;
    run_loads(rt, trial_table(), &[1], 0)?;
    print!(rt; "and two items more: ")?;
    run_loads(rt, trial_table(), &[1, 1, 1], 0)?;
    print!(rt; "a try and a step of an empty data word: ")?;
    run_loads(rt, table_sfu(4), &[1], 0)?;
    print!(rt; "of a full one: ")?;
    run_loads(rt, table_sfu(4), &[1], 1)?;
    print!(rt; "and two items more: ")?;
    run_loads(rt, table_sfu(4), &[1, 1, 1], 1)?;
    print!(rt; "no try of task 2: ")?;
    run_loads(rt, table_sfu(4), &[2, 2], 1)?;
    print!(rt; "PT 3 in both queues: ")?;
    run_loads(rt, table_sfu(3), &[1], 1)?;
    print!(rt; "an SFU process without a row: ")?;
    run_loads(rt, table_unlisted(5), &[1], 1)
}

// ---- live counts: tasks 1 to 7 with two processes and an SFU process each; an image of 936 bytes

fn listed(task: u8) -> Row {
    let mut row = trial_row();
    row.task = task;
    row
}

// Writes the state with these live counts and this total, and runs it.
fn count_trial(rt: &impl Print, live: [usize; NUMBERS], count: usize) -> io::Result<()> {
    let rows = [
        listed(1),
        listed(2),
        listed(3),
        listed(4),
        listed(5),
        listed(6),
        listed(7),
    ];
    let none = library::empty_queue();
    let queues = [
        none,
        none,
        queue_of(&[0, 1]),
        queue_of(&[2]),
        queue_of(&[3, 4]),
        queue_of(&[5]),
        queue_of(&[6, 7]),
        queue_of(&[8]),
        queue_of(&[9, 10]),
        queue_of(&[11]),
        queue_of(&[12, 13]),
        queue_of(&[14]),
        queue_of(&[15, 16]),
        queue_of(&[17]),
        queue_of(&[18, 19]),
        queue_of(&[20]),
    ];
    let table = ProcessTable {
        users: Processes {
            psw: [0; PTS],
            queues,
            flag: 0,
            live,
            count,
        },
    };
    let state = State {
        rows,
        n: TASKS,
        ..with_table(table)
    };
    write_to(rt, &mut [MARK; 936], state)?;
    print!(rt; "    run: ")?;
    run_state(rt, state, &[1, 7], UNLISTED)
}

// The count of this task is n.
fn miscount(rt: &impl Print, task: usize, n: usize) -> io::Result<()> {
    let mut live = [0, 3, 3, 3, 3, 3, 3, 3];
    live[task % NUMBERS] = n;
    print!(rt; "count of task {task} is {n}: ")?;
    count_trial(rt, live, 21)
}

fn count_trials(rt: &impl Print) -> io::Result<()> {
    print!(rt; "counts of 3, total 21: ")?;
    count_trial(rt, [0, 3, 3, 3, 3, 3, 3, 3], 21)?;
    print!(rt; "total 22: ")?;
    count_trial(rt, [0, 3, 3, 3, 3, 3, 3, 3], 22)?;
    print!(rt; "total 20: ")?;
    count_trial(rt, [0, 3, 3, 3, 3, 3, 3, 3], 20)?;
    print!(rt; "count of task 1 is 4, total 22: ")?;
    count_trial(rt, [0, 4, 3, 3, 3, 3, 3, 3], 22)?;
    miscount(rt, 0, 1)?;
    for task in 1..NUMBERS {
        miscount(rt, task, 4)?;
        miscount(rt, task, 2)?;
    }
    Ok(())
}

// ---- step

fn print_ending(rt: &impl Print, e: Ending) -> io::Result<()> {
    match e {
        Ending::Executed => print!(rt; "executed"),
        Ending::Waved => print!(rt; "waved"),
        Ending::Trapped(_, psw) => print!(rt; "trapped, PSW {psw:x}"),
        Ending::Idle => print!(rt; "idle"),
    }
}

// One step of a task on the state with these register tags.
fn step_of(rt: &impl Print, task: u8, tag: u8) -> io::Result<()> {
    let state = with_tags(tag);
    let mut tags = state.tags;
    let mut data_tags = state.data_tags;
    let x = hep::step_owned(
        state.rows,
        state.table,
        &state.qualities,
        &[5; 3],
        &mut tags,
        &mut [6; 8],
        &[7; 16],
        &mut data_tags,
        &mut [8; 32],
        sizes(state.n),
        task,
    );
    match x.answer {
        Err(e) => print_refusal(rt, e)?,
        Ok(e) => print_ending(rt, e)?,
    }
    println!(rt)
}

fn step_trials(rt: &impl Print) -> io::Result<()> {
    print!(rt; "a step of task 1: ")?;
    step_of(rt, 1, 1)?;
    print!(rt; "of task 7, which is unlisted: ")?;
    step_of(rt, 7, 1)?;
    print!(rt; "of task 0: ")?;
    step_of(rt, 0, 1)?;
    print!(rt; "of task 8: ")?;
    step_of(rt, 8, 1)?;
    print!(rt; "of task 8, on an unsound state: ")?;
    step_of(rt, 8, 7)
}

fn main(rt: HostRuntime) -> io::Result<()> {
    write_bounds(&rt)?;
    write_memories(&rt)?;
    write_rows(&rt)?;
    write_tables(&rt)?;
    write_full_tables(&rt)?;
    write_sfu_tables(&rt)?;
    read_state(&rt)?;
    run_trials(&rt)?;
    try_trials(&rt)?;
    count_trials(&rt)?;
    step_trials(&rt)
}
