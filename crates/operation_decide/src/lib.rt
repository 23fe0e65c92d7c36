// One instruction of a process: it is fetched, decoded and handed to its operation, which acts at once.
#![tactic(auto)]

ghost use Rattle.std.specs.Prelude.{◌≡◌, List, get_or, ℕ};
ghost use Rattle.window.specs.declared.Row.{Row};
ghost use Rattle.window.specs.Windows.{program_window, data_window};
ghost use Rattle.window.specs.Code.Spans.{Span};
ghost use Rattle.window.specs.Memories.{memory};
ghost use Rattle.operand.specs.Code.Spans.{Spans};
ghost use Rattle.operation.specs.declared.Code.TheVariants.{Listed};
ghost use Rattle.operation.specs.Environment.{environment_of};
ghost use Rattle.operation.specs.Decide.{decide_code, decide};
ghost use Rattle.operation.specs.Code.FoundOperands.{instruction};
ghost use Rattle.step.specs.Code.Performs.{Performs};

use operation::{Code, Course, Operation, Process, Windows};

// An operation, by its operands or by itself: its checks are in the function that it is handed to. The three fields go on as numbers: as word's Instruction
// they take 22 to 27 instructions more a step, and create and quit miss their bar (165.0 for 160).
fn decide_listed(
    op: Operation,
    windows: Windows,
    psws: &mut [u64],
    process: Process,
    flag: u8,
    fresh: usize,
    first: u16,
    second: u16,
    third: u16,
    constant_tags: &[u8],
    constant_words: &[u64],
    register_tags: &mut [u8],
    register_words: &mut [u64],
    data_tags: &mut [u8],
    data_words: &mut [u64],
) -> Course
    ensures { (row : Row) (code : ℕ) (program : List ℕ) → Spans row windows.constants windows.registers.base windows.registers.end → Span (data_window row) windows.data.base windows.data.end → process.psw ≡ get_or psws.old process.pt 0 → Performs row (decide_code (Listed op) (environment_of row process.psw flag program (memory constant_tags.now constant_words.now) (memory register_tags.old register_words.old) (memory data_tags.old data_words.old)) (instruction code first second third)) process.pt fresh result psws.old psws.new (memory register_tags.old register_words.old) (memory register_tags.new register_words.new) (memory data_tags.old data_words.old) (memory data_tags.new data_words.new) }
{
    match op {
        Operation::Nop => operation_control::nop(psws, process, first, second, third),
        Operation::Three(o) => operation_registers::three(
            o,
            windows,
            psws,
            process,
            first,
            second,
            third,
            constant_tags,
            constant_words,
            register_tags,
            register_words,
        ),
        Operation::Two(o) => operation_registers::two(
            o,
            windows,
            psws,
            process,
            first,
            second,
            third,
            constant_tags,
            constant_words,
            register_tags,
            register_words,
        ),
        Operation::One(o) => operation_registers::one(
            o,
            windows,
            psws,
            process,
            first,
            second,
            third,
            register_tags,
            register_words,
        ),
        Operation::Branch(c, p) => operation_control::branch(
            c,
            p,
            windows,
            psws,
            process,
            first,
            second,
            third,
            constant_tags,
            constant_words,
            register_tags,
            register_words,
        ),
        Operation::Call(c) => operation_control::call(
            c,
            windows,
            psws,
            process,
            first,
            second,
            third,
            constant_tags,
            constant_words,
            register_tags,
            register_words,
        ),
        Operation::Create(c, act) => operation_control::create(
            c,
            act,
            windows,
            psws,
            process,
            flag,
            fresh,
            first,
            second,
            third,
            constant_tags,
            constant_words,
            register_tags,
            register_words,
        ),
        Operation::Quit(c) => operation_control::quit(
            c,
            windows,
            psws,
            process,
            first,
            second,
            third,
            constant_tags,
            constant_words,
            register_tags,
            register_words,
        ),
        Operation::LoadIndirect(low) => operation_data::load_indirect(
            low,
            windows,
            psws,
            process,
            first,
            second,
            third,
            constant_tags,
            constant_words,
            register_tags,
            register_words,
            data_tags,
            data_words,
        ),
        Operation::LoadIndexed(low) => operation_data::load_indexed(
            low,
            windows,
            psws,
            process,
            first,
            second,
            third,
            constant_tags,
            constant_words,
            register_tags,
            register_words,
            data_tags,
            data_words,
        ),
        Operation::StoreIndirect(low) => operation_data::store_indirect(
            low,
            windows,
            psws,
            process,
            first,
            second,
            third,
            constant_tags,
            constant_words,
            register_tags,
            register_words,
            data_tags,
            data_words,
        ),
        Operation::StoreIndexed(low) => operation_data::store_indexed(
            low,
            windows,
            psws,
            process,
            first,
            second,
            third,
            constant_tags,
            constant_words,
            register_tags,
            register_words,
            data_tags,
            data_words,
        ),
    }
}

// Checks 2 and 3 of the code; the other checks are the operation's.
fn decide_code(
    code: Code,
    windows: Windows,
    psws: &mut [u64],
    process: Process,
    flag: u8,
    fresh: usize,
    first: u16,
    second: u16,
    third: u16,
    constant_tags: &[u8],
    constant_words: &[u64],
    register_tags: &mut [u8],
    register_words: &mut [u64],
    data_tags: &mut [u8],
    data_words: &mut [u64],
) -> Course
    ensures { (row : Row) (k : ℕ) (program : List ℕ) → Spans row windows.constants windows.registers.base windows.registers.end → Span (data_window row) windows.data.base windows.data.end → process.psw ≡ get_or psws.old process.pt 0 → Performs row (decide_code code (environment_of row process.psw flag program (memory constant_tags.now constant_words.now) (memory register_tags.old register_words.old) (memory data_tags.old data_words.old)) (instruction k first second third)) process.pt fresh result psws.old psws.new (memory register_tags.old register_words.old) (memory register_tags.new register_words.new) (memory data_tags.old data_words.old) (memory data_tags.new data_words.new) }
{
    match code {
        Code::Privileged => Course::PrivilegedInstruction,
        Code::Simulated => Course::SimulatedInstruction,
        Code::Svc => operation_control::svc(psws, process, second, third),
        Code::Listed(op) => decide_listed(
            op,
            windows,
            psws,
            process,
            flag,
            fresh,
            first,
            second,
            third,
            constant_tags,
            constant_words,
            register_tags,
            register_words,
            data_tags,
            data_words,
        ),
        Code::Unlisted => Course::IllegalInstruction,
    }
}

// What the process does; a created process gets the PT fresh. Check 1: PC outside the program window.
pub fn decide(
    windows: Windows,
    psws: &mut [u64],
    process: Process,
    flag: u8,
    fresh: usize,
    constant_tags: &[u8],
    constant_words: &[u64],
    register_tags: &mut [u8],
    register_words: &mut [u64],
    program: &[u64],
    data_tags: &mut [u8],
    data_words: &mut [u64],
) -> Course
    ensures { (row : Row) → Spans row windows.constants windows.registers.base windows.registers.end → Span (program_window row) windows.program.base windows.program.end → Span (data_window row) windows.data.base windows.data.end → process.psw ≡ get_or psws.old process.pt 0 → Performs row (decide (environment_of row process.psw flag program.now (memory constant_tags.now constant_words.now) (memory register_tags.old register_words.old) (memory data_tags.old data_words.old))) process.pt fresh result psws.old psws.new (memory register_tags.old register_words.old) (memory register_tags.new register_words.new) (memory data_tags.old data_words.old) (memory data_tags.new data_words.new) }
{
    let Some(a) = window::place_below(
        windows.program.base,
        windows.program.end,
        word::pc(process.psw),
    ) else {
        return Course::ProtectionViolation;
    };
    let i = word::instruction_of(window::at_or(program, a, 0));
    decide_code(
        operation_decode::decode(i.code),
        windows,
        psws,
        process,
        flag,
        fresh,
        i.first,
        i.second,
        i.third,
        constant_tags,
        constant_words,
        register_tags,
        register_words,
        data_tags,
        data_words,
    )
}
