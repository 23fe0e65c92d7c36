// Codes: what a 16-bit code stands for.
#![tactic(auto)]

ghost use Rattle.std.specs.Prelude.{◌≡◌, cond, eqb};
ghost use Rattle.operation.specs.declared.Code.TheVariants.{Unlisted};
ghost use Rattle.operation.specs.Codes.{call_of, quit_of, data_code_of, code_of};
ghost use Rattle.operation_decode.specs.Code.Columns.{column_of, privileged_of};

use operation::{Code, One, Operation, Three, Two};

// CALL 79 C 1: the last digit is fixed.
fn call_code(low: u16) -> Code
    ensures { result ≡ call_of low }
{
    if low % 16 == 1 {
        Code::Listed(Operation::Call(low / 16))
    } else {
        Code::Unlisted
    }
}

// QT 19 C 0.
fn quit_code(low: u16) -> Code
    ensures { result ≡ quit_of low }
{
    if low % 16 == 0 {
        Code::Listed(Operation::Quit(low / 16))
    } else {
        Code::Unlisted
    }
}

// The bits C, N and R are zero.
fn data_code(op: Operation, low: u16) -> Code
    ensures { result ≡ data_code_of op low }
{
    if low < 32 {
        Code::Listed(op)
    } else {
        Code::Unlisted
    }
}

// The only code under its left byte.
fn only(low: u16, key: u16, code: Code) -> Code
    ensures { result ≡ cond (eqb low key) code Unlisted }
{
    if low == key { code } else { Code::Unlisted }
}

fn codes_41(low: u16) -> Code
    ensures { result ≡ column_of 0x41 low }
{
    match low {
        0x1C => Code::Listed(Operation::One(One::Clr)),
        0x13 => Code::Listed(Operation::One(One::Ones)),
        _ => Code::Unlisted,
    }
}

fn codes_61(low: u16) -> Code
    ensures { result ≡ column_of 0x61 low }
{
    match low {
        0x0A => Code::Simulated,
        0x08 => Code::Simulated,
        0x1F => Code::Listed(Operation::Two(Two::Mov)),
        0x10 => Code::Listed(Operation::Two(Two::Not)),
        0x30 => Code::Listed(Operation::Two(Two::Inc)),
        0x2F => Code::Listed(Operation::Two(Two::Dec)),
        _ => Code::Unlisted,
    }
}

fn codes_67(low: u16) -> Code
    ensures { result ≡ column_of 0x67 low }
{
    match low {
        0x18 => Code::Listed(Operation::Two(Two::Encode0)),
        0x10 => Code::Listed(Operation::Two(Two::Encode1)),
        _ => Code::Unlisted,
    }
}

fn codes_71(low: u16) -> Code
    ensures { result ≡ column_of 0x71 low }
{
    match low {
        0x19 => Code::Listed(Operation::Three(Three::Eor)),
        0x16 => Code::Listed(Operation::Three(Three::Eqv)),
        0x11 => Code::Listed(Operation::Three(Three::Nand)),
        0x14 => Code::Listed(Operation::Three(Three::Nor)),
        0x1B => Code::Listed(Operation::Three(Three::Or)),
        0x26 => Code::Listed(Operation::Three(Three::Add)),
        0x39 => Code::Listed(Operation::Three(Three::Sub)),
        _ => Code::Unlisted,
    }
}

fn codes_77(low: u16) -> Code
    ensures { result ≡ column_of 0x77 low }
{
    match low {
        0x28 => Code::Listed(Operation::Three(Three::Bitclr)),
        0x20 => Code::Listed(Operation::Three(Three::Bitset)),
        _ => Code::Unlisted,
    }
}

// The codes on chapter 5 pages marked privileged.
fn privileged_code(code: u16) -> Code
    ensures { result ≡ privileged_of code }
{
    match code {
        0x0700 => Code::Privileged,
        0x3601 => Code::Privileged,
        0x3700 => Code::Privileged,
        0x3B7F => Code::Privileged,
        0x3C00 => Code::Privileged,
        0x4A00 => Code::Privileged,
        0x5700 => Code::Privileged,
        0x5800 => Code::Privileged,
        0x7600 => Code::Privileged,
        0x8700 => Code::Privileged,
        0x8701 => Code::Privileged,
        0x9900 => Code::Privileged,
        0x9901 => Code::Privileged,
        0x9902 => Code::Privileged,
        0x9903 => Code::Privileged,
        0xB700 => Code::Privileged,
        0xC900 => Code::Privileged,
        0xD700 => Code::Privileged,
        0xE10E => Code::Privileged,
        0xE11F => Code::Privileged,
        0xE705 => Code::Privileged,
        0xE706 => Code::Privileged,
        0xE707 => Code::Privileged,
        0xE97F => Code::Privileged,
        0xEC00 => Code::Privileged,
        0xF101 => Code::Privileged,
        0xF10D => Code::Privileged,
        _ => Code::Unlisted,
    }
}

// By the left eight bits first, then by the right eight.
pub fn decode(code: u16) -> Code
    ensures { result ≡ code_of code }
{
    let high = code / 256;
    let low = code % 256;
    match high {
        0x00 => only(low, 0, Code::Listed(Operation::Nop)),
        0x09 => only(low, 0, Code::Svc),
        0x19 => quit_code(low),
        0x38 => Code::Listed(Operation::Branch(low / 16, low % 16)),
        0x39 => Code::Listed(Operation::Create(low / 16, low % 16)),
        0x41 => codes_41(low),
        0x61 => codes_61(low),
        0x67 => codes_67(low),
        0x6C => data_code(Operation::LoadIndirect(low), low),
        0x71 => codes_71(low),
        0x72 => only(low, 0, Code::Simulated),
        0x73 => only(low, 0x20, Code::Listed(Operation::Three(Three::Mul))),
        0x77 => codes_77(low),
        0x79 => call_code(low),
        0x7C => data_code(Operation::LoadIndexed(low), low),
        0x7F => only(low, 0, Code::Simulated),
        0xBC => data_code(Operation::StoreIndirect(low), low),
        0xFC => data_code(Operation::StoreIndexed(low), low),
        0x07
        | 0x36
        | 0x37
        | 0x3B
        | 0x3C
        | 0x4A
        | 0x57
        | 0x58
        | 0x76
        | 0x87
        | 0x99
        | 0xB7
        | 0xC9
        | 0xD7
        | 0xE1
        | 0xE7
        | 0xE9
        | 0xEC
        | 0xF1 => privileged_code(code),
        _ => Code::Unlisted,
    }
}
