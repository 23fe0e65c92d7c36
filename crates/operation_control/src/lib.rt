// Operations on the process itself: NOP, B, CALL, CREATE, QT and SVC. Each acts at once: the public function tests the fields and looks the operands up,
// the function `_found` tests what stands there, then writes. The operands that were found are d, s1 and s2.
#![tactic(auto)]

ghost use Rattle.std.specs.Prelude.{◌≡◌, cond, List, eqb, get_or, set, ℕ, ◌+◌, ◌*◌, ◌%◌, ◌^◌};
ghost use Rattle.word.specs.Fields.{next_of};
ghost use Rattle.word.specs.Tests.{holds_of};
ghost use Rattle.word.specs.declared.Instruction.{Instruction};
ghost use Rattle.window.specs.declared.Row.{Row};
ghost use Rattle.window.specs.Memories.{Memory, memory};
ghost use Rattle.operand.specs.declared.Role.TheVariants.{Unused, Free, Destination, Source};
ghost use Rattle.operand.specs.declared.Operand.{Operand};
ghost use Rattle.operand.specs.declared.Operand.TheVariants.{Absent};
ghost use Rattle.operand.specs.Code.Spans.{Spans};
ghost use Rattle.operation.specs.declared.Code.TheVariants.{Svc};
ghost use Rattle.operation.specs.declared.Operation.TheVariants as operation;
ghost use Rattle.operation.specs.declared.Course.TheVariants.{Creates};
ghost use Rattle.operation.specs.Roles.{roles};
ghost use Rattle.operation.specs.Environment.{Environment, environment_of};
ghost use Rattle.operation.specs.Code.FoundOperands.{instruction, all_found_at};
ghost use Rattle.operation.specs.Perform.{branched, called, created, create_waits};
ghost use Rattle.operation.specs.Decide.{decide_found, decide_listed, decide_code};
ghost use Rattle.step.specs.Code.Performs.{Performs};
ghost use Rattle.operation_checks.specs.Code.Operands.{DestinationFound, SourceFound};

use operand::Role;
use operation::{Course, Process, Windows};
use operation_checks::{FoundDestination, FoundSource};

// NOP.
pub fn nop(psws: &mut [u64], process: Process, first: u16, second: u16, third: u16) -> Course
    ensures { (row : Row) (code flag fresh : ℕ) (program : List ℕ) (constants : Memory) (m n : Memory) → process.psw ≡ get_or psws.old process.pt 0 → Performs row (decide_listed (roles Unused Unused Unused) operation.Nop (environment_of row process.psw flag program constants m n) (instruction code first second third)) process.pt fresh result psws.old psws.new m m n n }
{
    if operation_checks::illegal_fields(
        Role::Unused,
        first,
        Role::Unused,
        second,
        Role::Unused,
        third,
    ) {
        return Course::IllegalInstruction;
    }
    operation_checks::continues(psws, process.pt, word::next(process.psw))
}

// B: PC = P, then each field gets S1's added.
fn branched_psw(psw: u64, p: u32, s1: u64) -> u64
    ensures { result ≡ branched psw p s1 }
{
    word::psw(
        word::ci(psw) as u64 + word::ci(s1) as u64,
        word::ri(psw) as u64 + word::ri(s1) as u64,
        word::utm(psw) as u64 + word::utm(s1) as u64,
        p as u64 + word::pc(s1) as u64,
    )
}

// On a true test the branch, else PC + 1.
fn branch_psw(c: u16, p: u16, first: u16, psw: u64, s1: u64, s2: u64, y: u8) -> u64
    ensures { result ≡ cond (holds_of c s2 y psw) (branched psw (p * 2 ^ 16 + first) s1) (next_of psw) }
{
    if word::holds(c, s2, y, psw) {
        return branched_psw(psw, (p as u32) * 65536 + first as u32, s1);
    }
    word::next(psw)
}

fn branch_found(
    c: u16,
    p: u16,
    psws: &mut [u64],
    process: Process,
    first: u16,
    s1: FoundSource,
    s2: FoundSource,
    constant_tags: &[u8],
    register_tags: &mut [u8],
) -> Course
    ensures { (row : Row) (v : Environment) (i : Instruction) (words constant_words : List ℕ) (n : Memory) (fresh : ℕ) (oa ob : Operand) → v.psw ≡ process.psw → i.first ≡ first → process.psw ≡ get_or psws.old process.pt 0 → SourceFound row register_tags.old words (memory constant_tags.now constant_words) oa s1 → SourceFound row register_tags.old words (memory constant_tags.now constant_words) ob s2 → Performs row (decide_found (operation.Branch c p) v i (all_found_at (memory register_tags.old words) (memory constant_tags.now constant_words) (roles Free Source Source) first s1.field s2.field Absent oa ob)) process.pt fresh result psws.old psws.new (memory register_tags.old words) (memory register_tags.new words) n n }
{
    if operation_checks::waits_s1_s2(s1, s2) {
        return Course::Waits;
    }
    if operation_checks::masked_s1_s2(process.psw, s1, s2, constant_tags) {
        return Course::DataException;
    }
    operation_checks::release_s1_s2(s1, s2, register_tags);
    operation_checks::continues(
        psws,
        process.pt,
        branch_psw(c, p, first, process.psw, s1.word, s2.word, s2.tag),
    )
}

// B: the right 16 bits of P, S1, S2.
pub fn branch(
    c: u16,
    p: u16,
    windows: Windows,
    psws: &mut [u64],
    process: Process,
    first: u16,
    second: u16,
    third: u16,
    constant_tags: &[u8],
    constant_words: &[u64],
    register_tags: &mut [u8],
    register_words: &[u64],
) -> Course
    ensures { (row : Row) (code flag fresh : ℕ) (program : List ℕ) (n : Memory) → Spans row windows.constants windows.registers.base windows.registers.end → process.psw ≡ get_or psws.old process.pt 0 → Performs row (decide_listed (roles Free Source Source) (operation.Branch c p) (environment_of row process.psw flag program (memory constant_tags.now constant_words.now) (memory register_tags.old register_words.now) n) (instruction code first second third)) process.pt fresh result psws.old psws.new (memory register_tags.old register_words.now) (memory register_tags.new register_words.now) n n }
{
    if operation_checks::illegal_fields(
        Role::Free,
        first,
        Role::Source,
        second,
        Role::Source,
        third,
    ) {
        return Course::IllegalInstruction;
    }
    let Some(a) = operand::source(
        windows.constants,
        windows.registers.base,
        windows.registers.end,
        process.psw,
        second,
    ) else {
        return Course::ProtectionViolation;
    };
    let s1 = operation_checks::found_source(
        second,
        a,
        constant_words,
        register_tags,
        register_words,
    );
    let Some(b) = operand::source(
        windows.constants,
        windows.registers.base,
        windows.registers.end,
        process.psw,
        third,
    ) else {
        return Course::ProtectionViolation;
    };
    let s2 = operation_checks::found_source(
        third,
        b,
        constant_words,
        register_tags,
        register_words,
    );
    branch_found(
        c,
        p,
        psws,
        process,
        first,
        s1,
        s2,
        constant_tags,
        register_tags,
    )
}

// CALL: PC comes from S1.
fn called_psw(psw: u64, s1: u64) -> u64
    ensures { result ≡ called psw s1 }
{
    word::psw(
        word::ci(psw) as u64,
        word::ri(psw) as u64,
        word::utm(psw) as u64,
        word::pc(s1) as u64,
    )
}

// On a true test the call, else PC + 1.
fn call_psw(c: u16, psw: u64, s1: u64, s2: u64, y: u8) -> u64
    ensures { result ≡ cond (holds_of c s2 y psw) (called psw s1) (next_of psw) }
{
    if word::holds(c, s2, y, psw) {
        return called_psw(psw, s1);
    }
    word::next(psw)
}

// D gets the PSW with PC + 1, whatever the test says.
fn call_found(
    c: u16,
    psws: &mut [u64],
    process: Process,
    d: FoundDestination,
    s1: FoundSource,
    s2: FoundSource,
    constant_tags: &[u8],
    register_tags: &mut [u8],
    register_words: &mut [u64],
) -> Course
    ensures { (row : Row) (v : Environment) (i : Instruction) (constant_words : List ℕ) (n : Memory) (fresh : ℕ) (od oa ob : Operand) → v.psw ≡ process.psw → process.psw ≡ get_or psws.old process.pt 0 → DestinationFound row od d → SourceFound row register_tags.old register_words.old (memory constant_tags.now constant_words) oa s1 → SourceFound row register_tags.old register_words.old (memory constant_tags.now constant_words) ob s2 → Performs row (decide_found (operation.Call c) v i (all_found_at (memory register_tags.old register_words.old) (memory constant_tags.now constant_words) (roles Destination Source Source) d.field s1.field s2.field od oa ob)) process.pt fresh result psws.old psws.new (memory register_tags.old register_words.old) (memory register_tags.new register_words.new) n n }
{
    if operation_checks::waits_d_s1_s2(d, s1, s2, register_tags) {
        return Course::Waits;
    }
    if operation_checks::masked_s1_s2(process.psw, s1, s2, constant_tags) {
        return Course::DataException;
    }
    operation_checks::write_d_s1_s2(
        d,
        s1,
        s2,
        word::next(process.psw),
        0,
        register_tags,
        register_words,
    );
    operation_checks::continues(
        psws,
        process.pt,
        call_psw(c, process.psw, s1.word, s2.word, s2.tag),
    )
}

// CALL: D, S1, S2.
pub fn call(
    c: u16,
    windows: Windows,
    psws: &mut [u64],
    process: Process,
    first: u16,
    second: u16,
    third: u16,
    constant_tags: &[u8],
    constant_words: &[u64],
    register_tags: &mut [u8],
    register_words: &mut [u64],
) -> Course
    ensures { (row : Row) (code flag fresh : ℕ) (program : List ℕ) (n : Memory) → Spans row windows.constants windows.registers.base windows.registers.end → process.psw ≡ get_or psws.old process.pt 0 → Performs row (decide_listed (roles Destination Source Source) (operation.Call c) (environment_of row process.psw flag program (memory constant_tags.now constant_words.now) (memory register_tags.old register_words.old) n) (instruction code first second third)) process.pt fresh result psws.old psws.new (memory register_tags.old register_words.old) (memory register_tags.new register_words.new) n n }
{
    if operation_checks::illegal_fields(
        Role::Destination,
        first,
        Role::Source,
        second,
        Role::Source,
        third,
    ) {
        return Course::IllegalInstruction;
    }
    let Some(r) = operand::destination(
        windows.registers.base,
        windows.registers.end,
        process.psw,
        first,
    ) else {
        return Course::ProtectionViolation;
    };
    let d = operation_checks::found_destination(first, r);
    let Some(a) = operand::source(
        windows.constants,
        windows.registers.base,
        windows.registers.end,
        process.psw,
        second,
    ) else {
        return Course::ProtectionViolation;
    };
    let s1 = operation_checks::found_source(
        second,
        a,
        constant_words,
        register_tags,
        register_words,
    );
    let Some(b) = operand::source(
        windows.constants,
        windows.registers.base,
        windows.registers.end,
        process.psw,
        third,
    ) else {
        return Course::ProtectionViolation;
    };
    let s2 = operation_checks::found_source(
        third,
        b,
        constant_words,
        register_tags,
        register_words,
    );
    call_found(
        c,
        psws,
        process,
        d,
        s1,
        s2,
        constant_tags,
        register_tags,
        register_words,
    )
}

// S1's field where the last bit is 1, else the creator's.
fn taken_field(bit: u16, field: u64, creator: u64) -> u64
    ensures { result ≡ cond (eqb (bit % 2) 1) field creator }
{
    if bit % 2 == 1 { field } else { creator }
}

// ACT bits 8, 4, 2, 1 take CI, RI, UTM, PC from S1.
fn created_fields(act: u16, psw: u64, s1: u64) -> u64
    ensures { result ≡ created act psw s1 }
{
    let ci = taken_field(act / 8, word::ci(s1) as u64, word::ci(psw) as u64);
    let ri = taken_field(act / 4, word::ri(s1) as u64, word::ri(psw) as u64);
    let utm = taken_field(act / 2, word::utm(s1) as u64, word::utm(psw) as u64);
    let pc = taken_field(act, word::pc(s1) as u64, word::pc(psw) as u64 + 1);
    word::psw(ci, ri, utm, pc)
}

// The same; ACT 1 takes PC alone, as CALL does.
fn created_psw(act: u16, psw: u64, s1: u64) -> u64
    ensures { result ≡ created act psw s1 }
{
    if act == 1 {
        return called_psw(psw, s1);
    }
    created_fields(act, psw, s1)
}

// Check 8: a true CREATE with the create fault flag up.
fn create_waits(holds: bool, flag: u8) -> bool
    ensures { result ≡ create_waits holds flag }
{
    if holds {
        return flag != 0;
    }
    false
}

// A process joins with the PSW new at the PT fresh.
fn creates(psws: &mut [u64], pt: usize, p: u64, fresh: usize, new: u64) -> Course
    ensures { (result ≡ Creates) × (psws.new ≡ set (set psws.old pt p) fresh new) }
{
    window::set_at(psws, pt, p);
    window::set_at(psws, fresh, new);
    Course::Creates
}

fn create_found(
    c: u16,
    act: u16,
    psws: &mut [u64],
    process: Process,
    flag: u8,
    fresh: usize,
    s1: FoundSource,
    s2: FoundSource,
    constant_tags: &[u8],
    register_tags: &mut [u8],
) -> Course
    ensures { (row : Row) (v : Environment) (i : Instruction) (words constant_words : List ℕ) (n : Memory) (first : ℕ) (oa ob : Operand) → v.psw ≡ process.psw → v.flag ≡ flag → process.psw ≡ get_or psws.old process.pt 0 → SourceFound row register_tags.old words (memory constant_tags.now constant_words) oa s1 → SourceFound row register_tags.old words (memory constant_tags.now constant_words) ob s2 → Performs row (decide_found (operation.Create c act) v i (all_found_at (memory register_tags.old words) (memory constant_tags.now constant_words) (roles Unused Source Source) first s1.field s2.field Absent oa ob)) process.pt fresh result psws.old psws.new (memory register_tags.old words) (memory register_tags.new words) n n }
{
    if operation_checks::waits_s1_s2(s1, s2) {
        return Course::Waits;
    }
    if operation_checks::masked_s1_s2(process.psw, s1, s2, constant_tags) {
        return Course::DataException;
    }
    let holds = word::holds(c, s2.word, s2.tag, process.psw);
    if create_waits(holds, flag) {
        return Course::Waits;
    }
    operation_checks::release_s1_s2(s1, s2, register_tags);
    if holds {
        return creates(
            psws,
            process.pt,
            word::next(process.psw),
            fresh,
            created_psw(act, process.psw, s1.word),
        );
    }
    operation_checks::continues(psws, process.pt, word::next(process.psw))
}

// CREATE: S1, S2. A created process gets the PT fresh.
pub fn create(
    c: u16,
    act: u16,
    windows: Windows,
    psws: &mut [u64],
    process: Process,
    flag: u8,
    fresh: usize,
    first: u16,
    second: u16,
    third: u16,
    constant_tags: &[u8],
    constant_words: &[u64],
    register_tags: &mut [u8],
    register_words: &[u64],
) -> Course
    ensures { (row : Row) (code : ℕ) (program : List ℕ) (n : Memory) → Spans row windows.constants windows.registers.base windows.registers.end → process.psw ≡ get_or psws.old process.pt 0 → Performs row (decide_listed (roles Unused Source Source) (operation.Create c act) (environment_of row process.psw flag program (memory constant_tags.now constant_words.now) (memory register_tags.old register_words.now) n) (instruction code first second third)) process.pt fresh result psws.old psws.new (memory register_tags.old register_words.now) (memory register_tags.new register_words.now) n n }
{
    if operation_checks::illegal_fields(
        Role::Unused,
        first,
        Role::Source,
        second,
        Role::Source,
        third,
    ) {
        return Course::IllegalInstruction;
    }
    let Some(a) = operand::source(
        windows.constants,
        windows.registers.base,
        windows.registers.end,
        process.psw,
        second,
    ) else {
        return Course::ProtectionViolation;
    };
    let s1 = operation_checks::found_source(
        second,
        a,
        constant_words,
        register_tags,
        register_words,
    );
    let Some(b) = operand::source(
        windows.constants,
        windows.registers.base,
        windows.registers.end,
        process.psw,
        third,
    ) else {
        return Course::ProtectionViolation;
    };
    let s2 = operation_checks::found_source(
        third,
        b,
        constant_words,
        register_tags,
        register_words,
    );
    create_found(
        c,
        act,
        psws,
        process,
        flag,
        fresh,
        s1,
        s2,
        constant_tags,
        register_tags,
    )
}

fn quit_found(
    c: u16,
    psws: &mut [u64],
    process: Process,
    s2: FoundSource,
    constant_tags: &[u8],
    register_tags: &mut [u8],
) -> Course
    ensures { (row : Row) (v : Environment) (i : Instruction) (words constant_words : List ℕ) (n : Memory) (fresh first second : ℕ) (ob : Operand) → v.psw ≡ process.psw → process.psw ≡ get_or psws.old process.pt 0 → SourceFound row register_tags.old words (memory constant_tags.now constant_words) ob s2 → Performs row (decide_found (operation.Quit c) v i (all_found_at (memory register_tags.old words) (memory constant_tags.now constant_words) (roles Unused Unused Source) first second s2.field Absent Absent ob)) process.pt fresh result psws.old psws.new (memory register_tags.old words) (memory register_tags.new words) n n }
{
    if operation_checks::waits_source(s2) {
        return Course::Waits;
    }
    if operation_checks::masked(process.psw, s2, constant_tags) {
        return Course::DataException;
    }
    operation_checks::release(s2, register_tags);
    if word::holds(c, s2.word, s2.tag, process.psw) {
        return Course::Quits;
    }
    operation_checks::continues(psws, process.pt, word::next(process.psw))
}

// QT: S2.
pub fn quit(
    c: u16,
    windows: Windows,
    psws: &mut [u64],
    process: Process,
    first: u16,
    second: u16,
    third: u16,
    constant_tags: &[u8],
    constant_words: &[u64],
    register_tags: &mut [u8],
    register_words: &[u64],
) -> Course
    ensures { (row : Row) (code flag fresh : ℕ) (program : List ℕ) (n : Memory) → Spans row windows.constants windows.registers.base windows.registers.end → process.psw ≡ get_or psws.old process.pt 0 → Performs row (decide_listed (roles Unused Unused Source) (operation.Quit c) (environment_of row process.psw flag program (memory constant_tags.now constant_words.now) (memory register_tags.old register_words.now) n) (instruction code first second third)) process.pt fresh result psws.old psws.new (memory register_tags.old register_words.now) (memory register_tags.new register_words.now) n n }
{
    if operation_checks::illegal_fields(
        Role::Unused,
        first,
        Role::Unused,
        second,
        Role::Source,
        third,
    ) {
        return Course::IllegalInstruction;
    }
    let Some(b) = operand::source(
        windows.constants,
        windows.registers.base,
        windows.registers.end,
        process.psw,
        third,
    ) else {
        return Course::ProtectionViolation;
    };
    let s2 = operation_checks::found_source(
        third,
        b,
        constant_words,
        register_tags,
        register_words,
    );
    quit_found(c, psws, process, s2, constant_tags, register_tags)
}

// SVC: any first field, the others unused. It traps with the PC past it.
pub fn svc(psws: &mut [u64], process: Process, second: u16, third: u16) -> Course
    ensures { (row : Row) (v : Environment) (code first fresh : ℕ) (m n : Memory) → v.psw ≡ process.psw → process.psw ≡ get_or psws.old process.pt 0 → Performs row (decide_code Svc v (instruction code first second third)) process.pt fresh result psws.old psws.new m m n n }
{
    if operation_checks::illegal_fields(Role::Free, 0, Role::Unused, second, Role::Unused, third) {
        return Course::IllegalInstruction;
    }
    let past = word::next(process.psw);
    window::set_at(psws, process.pt, past);
    Course::SupervisorCall
}
