// The batch program's output as text in a lent buffer: the report of a run, or the line of a refusal. A byte past the end is left out.
#![tactic(auto)]

ghost use Rattle.std.specs.Prelude.{◌≡◌, [], ◌∷◌, ◌++◌, ◌+◌, ◌*◌, ◌%◌, ◌<◌, ◌≤◌, ◌^◌, length, take};
ghost use Rattle.step.specs.State.{live_count};
ghost use Rattle.run.specs.Run.{no_counts, own_counts};
ghost use Rattle.report.specs.Report.{decimal, hex_digit, hex, kind_text, pc_text, counts_text, row_line, row_lines, counts_line, refusal_line, space};
ghost use Rattle.report_text.specs.Texts.{longest_counts, longest_row, longest_last, tally, TextPromise};
ghost use Rattle.report_text.specs.Code.Pushes.{Adds};
ghost use Rattle.window.specs.Limits.{tasks};

use refusal::Refusal;
use run::{Counts, TASK_NUMBERS};
use step::{NO_TRAP, NUMBERS, ProcessTable, Processes};
use window::{Row, TASKS};

// How many bytes are enough for every text.
pub const REPORT_ROOM: usize = 2048;

// How many live processes a task has.
fn live(table: Processes, task: u8) -> u64
    ensures { result ≡ live_count table task }
{
    table.live[task as usize % NUMBERS] as u64
}

// The own counts of a task, none past the last task number.
fn own_counts(own: &[Counts; TASK_NUMBERS], task: u8) -> Counts
    ensures { result ≡ own_counts task (tally no_counts own.now) }
{
    own.get(task as usize).copied().unwrap_or(Counts {
        executed: 0,
        waved: 0,
        trapped: 0,
        idle: 0,
        tries: 0,
    })
}

// A text under way: the lent buffer, and how many of its bytes are the text so far. It is written by hand, since `write!` says nothing of what a full
// buffer holds.
#[derive(Drop)]
struct Text<'a> {
    out: &'a mut [u8],
    len: usize,
}

impl Text<'_> {
    fn push(&mut self, byte: u8)
        ensures { Adds self.old self.new (byte ∷ []) }
    {
        if self.len < self.out.len() {
            self.out[self.len] = byte;
            self.len += 1;
        }
    }

    fn push_bytes(&mut self, bytes: &[u8])
        ensures { Adds self.old self.new bytes.now }
    {
        for byte in bytes {
            self.push(*byte);
        }
    }

    // Without leading zeros.
    fn push_decimal(&mut self, n: u64)
        ensures { Adds self.old self.new (decimal n) }
    {
        if 10 <= n {
            self.push_decimal(n / 10);
        }
        self.push(b'0' + (n % 10) as u8);
    }

    // The lowest hex digit.
    fn push_hex_digit(&mut self, n: u64)
        ensures { Adds self.old self.new (hex_digit (n % 16) ∷ []) }
    {
        let digit = (n % 16) as u8;
        if digit < 10 {
            self.push(b'0' + digit);
        } else {
            self.push(b'A' - 10 + digit);
        }
    }

    // The k lowest hex digits.
    fn push_hex(&mut self, k: u8, n: u64)
        ensures { Adds self.old self.new (hex k n) }
    {
        if 0 < k {
            self.push_hex(k - 1, n / 16);
            self.push_hex_digit(n);
        }
    }

    fn push_kind(&mut self, kind: u8)
        ensures { Adds self.old self.new (kind_text kind) }
    {
        if kind == NO_TRAP {
            self.push_bytes(b"--");
        } else {
            self.push_hex(2, kind as u64);
        }
    }

    fn push_pc(&mut self, kind: u8, psw: u64)
        ensures { Adds self.old self.new (pc_text kind psw) }
    {
        if kind == NO_TRAP {
            self.push_bytes(b"-----");
        } else {
            self.push_hex(5, word::pc(psw) as u64);
        }
    }

    // A label and a number.
    fn push_count(&mut self, label: &[u8], n: u32)
        ensures { Adds self.old self.new (label.now ++ decimal n) }
    {
        self.push_bytes(label);
        self.push_decimal(n as u64);
    }

    // The five counts of a run, or of one task.
    fn push_counts(&mut self, counts: Counts)
        ensures bound { length (counts_text counts) ≤ longest_counts }
        ensures text { Adds self.old self.new (counts_text counts) }
    {
        self.push_count(b"E", counts.executed);
        self.push_count(b" W", counts.waved);
        self.push_count(b" T", counts.trapped);
        self.push_count(b" I", counts.idle);
        self.push_count(b" S", counts.tries);
    }

    // The line of a row, with its task's own counts.
    fn push_row(&mut self, table: ProcessTable, row: Row, own: Counts)
        ensures bound { length (row_line table row own) ≤ longest_row }
        ensures text { Adds self.old self.new (row_line table row own) }
    {
        self.push_decimal(row.task as u64);
        self.push(b' ');
        self.push_decimal(live(table.users, row.task));
        self.push(b' ');
        self.push_kind(row.kind);
        self.push(b' ');
        self.push_pc(row.kind, row.psw);
        self.push(b' ');
        self.push_counts(own);
        self.push(b'\n');
    }

    fn push_rows(
        &mut self,
        rows: [Row; TASKS],
        n: usize,
        table: ProcessTable,
        own: [Counts; TASK_NUMBERS],
    )
        ensures bound { length (row_lines table (tally no_counts own) (take n rows)) ≤ tasks * longest_row }
        ensures text { Adds self.old self.new (row_lines table (tally no_counts own) (take n rows)) }
    {
        for row in &rows[..n.min(TASKS)] {
            self.push_row(table, *row, own_counts(&own, row.task));
        }
    }

    // The last line.
    fn push_last(&mut self, counts: Counts, flag: u8)
        ensures bound { length (counts_line counts flag) ≤ longest_last }
        ensures text { Adds self.old self.new (counts_line counts flag) }
    {
        self.push_counts(counts);
        self.push_count(b" CF", flag as u32);
        self.push(b'\n');
    }
}

// A line for each of the first n rows with its task's own counts, and the line of the counts.
pub fn report_text(
    rows: [Row; TASKS],
    n: usize,
    table: ProcessTable,
    counts: Counts,
    own: [Counts; TASK_NUMBERS],
    out: &mut [u8],
) -> usize
    ensures { TextPromise (row_lines table (tally counts own) (take n rows) ++ counts_line counts table.users.flag) out.old result out.new }
{
    let mut text = Text { out, len: 0 };
    text.push_rows(rows, n, table, own);
    text.push_last(counts, table.users.flag);
    text.len
}

// The one line of a refusal.
pub fn refusal_text(e: Refusal, out: &mut [u8]) -> usize
    ensures { TextPromise (refusal_line e) out.old result out.new }
{
    let mut text = Text { out, len: 0 };
    text.push_count(b"R", refusal::number(e) as u32);
    text.push(b'\n');
    text.len
}
