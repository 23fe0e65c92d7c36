// Operations on registers: those with the same operands share a function. Each acts at once: the public function tests the fields and looks
// the operands up, the function `_found` tests what stands there, then writes. The operands that were found are d, s1 and s2.
#![tactic(auto)]

ghost use Rattle.std.specs.Prelude.{◌≡◌, List, get_or, ℕ};
ghost use Rattle.word.specs.declared.Instruction.{Instruction};
ghost use Rattle.window.specs.declared.Row.{Row};
ghost use Rattle.window.specs.Memories.{Memory, memory};
ghost use Rattle.operand.specs.declared.Role.TheVariants.{Unused, Destination, Source};
ghost use Rattle.operand.specs.declared.Operand.{Operand};
ghost use Rattle.operand.specs.declared.Operand.TheVariants.{Absent};
ghost use Rattle.operand.specs.Code.Spans.{Spans};
ghost use Rattle.operation.specs.declared.Operation.TheVariants as operation;
ghost use Rattle.operation.specs.Roles.{roles};
ghost use Rattle.operation.specs.Environment.{Environment, environment_of};
ghost use Rattle.operation.specs.Code.FoundOperands.{instruction, all_found_at};
ghost use Rattle.operation.specs.Results.{quality0, result_three, result_two, result_one};
ghost use Rattle.operation.specs.Decide.{decide_found, decide_listed};
ghost use Rattle.step.specs.Code.Performs.{Performs};
ghost use Rattle.operation_checks.specs.Code.Operands.{DestinationFound, SourceFound};

use operand::Role;
use operation::{Course, One, Process, Three, Two, Windows};
use operation_checks::{FoundDestination, FoundSource};
use word::Outcome;

// Every bit one.
const ONES: u64 = 0xffff_ffff_ffff_ffff;

fn plain_result(word: u64) -> Outcome
    ensures { result ≡ quality0 word }
{
    Outcome { word, quality: 0 }
}

fn result_one(op: One) -> Outcome
    ensures { result ≡ result_one op }
{
    match op {
        One::Clr => plain_result(0),
        One::Ones => plain_result(ONES),
    }
}

fn result_two(op: Two, s1: u64) -> Outcome
    ensures { result ≡ result_two op s1 }
{
    match op {
        Two::Mov => plain_result(s1),
        Two::Not => plain_result(word::not(s1)),
        Two::Encode0 => plain_result(word::encode0(s1)),
        Two::Encode1 => plain_result(word::encode1(s1)),
        Two::Inc => word::add(s1, 1),
        Two::Dec => word::sub(s1, 1),
    }
}

fn result_three(op: Three, s1: u64, s2: u64) -> Outcome
    ensures { result ≡ result_three op s1 s2 }
{
    match op {
        Three::Eor => plain_result(word::eor(s1, s2)),
        Three::Eqv => plain_result(word::eqv(s1, s2)),
        Three::Nand => plain_result(word::nand(s1, s2)),
        Three::Nor => plain_result(word::nor(s1, s2)),
        Three::Or => plain_result(word::or(s1, s2)),
        Three::Bitclr => plain_result(word::bitclr(s1, s2)),
        Three::Bitset => plain_result(word::bitset(s1, s2)),
        Three::Add => word::add(s1, s2),
        Three::Sub => word::sub(s1, s2),
        Three::Mul => word::mul(s1, s2),
    }
}

fn one_found(
    op: One,
    psws: &mut [u64],
    process: Process,
    d: FoundDestination,
    register_tags: &mut [u8],
    register_words: &mut [u64],
) -> Course
    ensures { (row : Row) (v : Environment) (i : Instruction) (constants n : Memory) (fresh second third : ℕ) (od : Operand) → v.psw ≡ process.psw → process.psw ≡ get_or psws.old process.pt 0 → DestinationFound row od d → Performs row (decide_found (operation.One op) v i (all_found_at (memory register_tags.old register_words.old) constants (roles Destination Unused Unused) d.field second third od Absent Absent)) process.pt fresh result psws.old psws.new (memory register_tags.old register_words.old) (memory register_tags.new register_words.new) n n }
{
    if operation_checks::waits_d(d, register_tags) {
        return Course::Waits;
    }
    let out = result_one(op);
    operation_checks::write_d(d, out.word, out.quality, register_tags, register_words);
    operation_checks::continues(psws, process.pt, word::next(process.psw))
}

// CLR, ONE. They read no constant, so their row may have its constants anywhere.
pub fn one(
    op: One,
    windows: Windows,
    psws: &mut [u64],
    process: Process,
    first: u16,
    second: u16,
    third: u16,
    register_tags: &mut [u8],
    register_words: &mut [u64],
) -> Course
    ensures { (row : Row) (code flag fresh cb : ℕ) (program : List ℕ) (constants n : Memory) → Spans row cb windows.registers.base windows.registers.end → process.psw ≡ get_or psws.old process.pt 0 → Performs row (decide_listed (roles Destination Unused Unused) (operation.One op) (environment_of row process.psw flag program constants (memory register_tags.old register_words.old) n) (instruction code first second third)) process.pt fresh result psws.old psws.new (memory register_tags.old register_words.old) (memory register_tags.new register_words.new) n n }
{
    if operation_checks::illegal_fields(
        Role::Destination,
        first,
        Role::Unused,
        second,
        Role::Unused,
        third,
    ) {
        return Course::IllegalInstruction;
    }
    let Some(r) = operand::destination(
        windows.registers.base,
        windows.registers.end,
        process.psw,
        first,
    ) else {
        return Course::ProtectionViolation;
    };
    let d = operation_checks::found_destination(first, r);
    one_found(op, psws, process, d, register_tags, register_words)
}

fn two_found(
    op: Two,
    psws: &mut [u64],
    process: Process,
    d: FoundDestination,
    s1: FoundSource,
    constant_tags: &[u8],
    register_tags: &mut [u8],
    register_words: &mut [u64],
) -> Course
    ensures { (row : Row) (v : Environment) (i : Instruction) (constant_words : List ℕ) (n : Memory) (fresh third : ℕ) (od oa : Operand) → v.psw ≡ process.psw → process.psw ≡ get_or psws.old process.pt 0 → DestinationFound row od d → SourceFound row register_tags.old register_words.old (memory constant_tags.now constant_words) oa s1 → Performs row (decide_found (operation.Two op) v i (all_found_at (memory register_tags.old register_words.old) (memory constant_tags.now constant_words) (roles Destination Source Unused) d.field s1.field third od oa Absent)) process.pt fresh result psws.old psws.new (memory register_tags.old register_words.old) (memory register_tags.new register_words.new) n n }
{
    if operation_checks::waits_d_s1(d, s1, register_tags) {
        return Course::Waits;
    }
    if operation_checks::masked(process.psw, s1, constant_tags) {
        return Course::DataException;
    }
    let out = result_two(op, s1.word);
    operation_checks::write_d_s1(d, s1, out.word, out.quality, register_tags, register_words);
    operation_checks::continues(psws, process.pt, word::next(process.psw))
}

// MOV, NOT, ENCODE0, ENCODE1, INC, DEC.
pub fn two(
    op: Two,
    windows: Windows,
    psws: &mut [u64],
    process: Process,
    first: u16,
    second: u16,
    third: u16,
    constant_tags: &[u8],
    constant_words: &[u64],
    register_tags: &mut [u8],
    register_words: &mut [u64],
) -> Course
    ensures { (row : Row) (code flag fresh : ℕ) (program : List ℕ) (n : Memory) → Spans row windows.constants windows.registers.base windows.registers.end → process.psw ≡ get_or psws.old process.pt 0 → Performs row (decide_listed (roles Destination Source Unused) (operation.Two op) (environment_of row process.psw flag program (memory constant_tags.now constant_words.now) (memory register_tags.old register_words.old) n) (instruction code first second third)) process.pt fresh result psws.old psws.new (memory register_tags.old register_words.old) (memory register_tags.new register_words.new) n n }
{
    if operation_checks::illegal_fields(
        Role::Destination,
        first,
        Role::Source,
        second,
        Role::Unused,
        third,
    ) {
        return Course::IllegalInstruction;
    }
    let Some(r) = operand::destination(
        windows.registers.base,
        windows.registers.end,
        process.psw,
        first,
    ) else {
        return Course::ProtectionViolation;
    };
    let d = operation_checks::found_destination(first, r);
    let Some(a) = operand::source(
        windows.constants,
        windows.registers.base,
        windows.registers.end,
        process.psw,
        second,
    ) else {
        return Course::ProtectionViolation;
    };
    let s1 = operation_checks::found_source(
        second,
        a,
        constant_words,
        register_tags,
        register_words,
    );
    two_found(
        op,
        psws,
        process,
        d,
        s1,
        constant_tags,
        register_tags,
        register_words,
    )
}

fn three_found(
    op: Three,
    psws: &mut [u64],
    process: Process,
    d: FoundDestination,
    s1: FoundSource,
    s2: FoundSource,
    constant_tags: &[u8],
    register_tags: &mut [u8],
    register_words: &mut [u64],
) -> Course
    ensures { (row : Row) (v : Environment) (i : Instruction) (constant_words : List ℕ) (n : Memory) (fresh : ℕ) (od oa ob : Operand) → v.psw ≡ process.psw → process.psw ≡ get_or psws.old process.pt 0 → DestinationFound row od d → SourceFound row register_tags.old register_words.old (memory constant_tags.now constant_words) oa s1 → SourceFound row register_tags.old register_words.old (memory constant_tags.now constant_words) ob s2 → Performs row (decide_found (operation.Three op) v i (all_found_at (memory register_tags.old register_words.old) (memory constant_tags.now constant_words) (roles Destination Source Source) d.field s1.field s2.field od oa ob)) process.pt fresh result psws.old psws.new (memory register_tags.old register_words.old) (memory register_tags.new register_words.new) n n }
{
    if operation_checks::waits_d_s1_s2(d, s1, s2, register_tags) {
        return Course::Waits;
    }
    if operation_checks::masked_s1_s2(process.psw, s1, s2, constant_tags) {
        return Course::DataException;
    }
    let out = result_three(op, s1.word, s2.word);
    operation_checks::write_d_s1_s2(
        d,
        s1,
        s2,
        out.word,
        out.quality,
        register_tags,
        register_words,
    );
    operation_checks::continues(psws, process.pt, word::next(process.psw))
}

// EOR, EQV, NAND, NOR, OR, BITCLR, BITSET, ADD, SUB, MUL.
pub fn three(
    op: Three,
    windows: Windows,
    psws: &mut [u64],
    process: Process,
    first: u16,
    second: u16,
    third: u16,
    constant_tags: &[u8],
    constant_words: &[u64],
    register_tags: &mut [u8],
    register_words: &mut [u64],
) -> Course
    ensures { (row : Row) (code flag fresh : ℕ) (program : List ℕ) (n : Memory) → Spans row windows.constants windows.registers.base windows.registers.end → process.psw ≡ get_or psws.old process.pt 0 → Performs row (decide_listed (roles Destination Source Source) (operation.Three op) (environment_of row process.psw flag program (memory constant_tags.now constant_words.now) (memory register_tags.old register_words.old) n) (instruction code first second third)) process.pt fresh result psws.old psws.new (memory register_tags.old register_words.old) (memory register_tags.new register_words.new) n n }
{
    if operation_checks::illegal_fields(
        Role::Destination,
        first,
        Role::Source,
        second,
        Role::Source,
        third,
    ) {
        return Course::IllegalInstruction;
    }
    let Some(r) = operand::destination(
        windows.registers.base,
        windows.registers.end,
        process.psw,
        first,
    ) else {
        return Course::ProtectionViolation;
    };
    let d = operation_checks::found_destination(first, r);
    let Some(a) = operand::source(
        windows.constants,
        windows.registers.base,
        windows.registers.end,
        process.psw,
        second,
    ) else {
        return Course::ProtectionViolation;
    };
    let s1 = operation_checks::found_source(
        second,
        a,
        constant_words,
        register_tags,
        register_words,
    );
    let Some(b) = operand::source(
        windows.constants,
        windows.registers.base,
        windows.registers.end,
        process.psw,
        third,
    ) else {
        return Course::ProtectionViolation;
    };
    let s2 = operation_checks::found_source(
        third,
        b,
        constant_words,
        register_tags,
        register_words,
    );
    three_found(
        op,
        psws,
        process,
        d,
        s1,
        s2,
        constant_tags,
        register_tags,
        register_words,
    )
}
