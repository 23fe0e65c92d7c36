// Operations: what a code stands for, the checks of an instruction, and what it decides.
#![tactic(auto)]

ghost use Rattle.std.specs.Prelude.{◌≡◌};
ghost use Rattle.operation.specs.Environment.{kind_of};
ghost use Rattle.operation.specs.Code.Courses.{trap_course};

use operand::{Operand, Role};
use window::Cell;
use word::Part;

// An operation, with the test, the action list or the access bits that its code holds; of B also the left digit of its address.
#[derive(Clone, Copy)]
pub enum Operation {
    Nop,
    Three(Three),
    Two(Two),
    One(One),
    Branch(u16, u16),
    Call(u16),
    Create(u16, u16),
    Quit(u16),
    LoadIndirect(u16),
    LoadIndexed(u16),
    StoreIndirect(u16),
    StoreIndexed(u16),
}

// The operations on registers, by their operands; each gives D a result. D, S1, S2.
#[derive(Clone, Copy)]
pub enum Three {
    Eor,
    Eqv,
    Nand,
    Nor,
    Or,
    Bitclr,
    Bitset,
    Add,
    Sub,
    Mul,
}

// D, S1.
#[derive(Clone, Copy)]
pub enum Two {
    Mov,
    Not,
    Encode0,
    Encode1,
    Inc,
    Dec,
}

// D: CLR, and ONE, which gives all ones.
#[derive(Clone, Copy)]
pub enum One {
    Clr,
    Ones,
}

// What a 16-bit code stands for.
#[derive(Clone, Copy)]
pub enum Code {
    Privileged,
    Simulated,
    Svc,
    Listed(Operation),
    Unlisted,
}

// The roles of the three fields after the code.
#[derive(Clone, Copy)]
pub struct Roles {
    pub first: Role,
    pub second: Role,
    pub third: Role,
}

// A field that was looked up: its role, access code and place, and the cell there before the step.
#[derive(Clone, Copy)]
pub struct FoundOperand {
    pub role: Role,
    pub access: u8,
    pub operand: Operand,
    pub cell: Cell,
}

#[derive(Clone, Copy)]
pub struct FoundOperands {
    pub first: FoundOperand,
    pub second: FoundOperand,
    pub third: FoundOperand,
}

// Why a step traps.
#[derive(Clone, Copy)]
pub enum Trap {
    CreateFault,
    IllegalInstruction,
    ProtectionViolation,
    PrivilegedInstruction,
    SupervisorCall,
    SimulatedInstruction,
    DataException,
}

// What a step waits for.
#[derive(Clone, Copy)]
pub enum Wait {
    Access,
    Data,
    Create,
}

// What becomes of the process: it goes on with a PSW, it leaves, or it goes on and a process with the second PSW joins.
#[derive(Clone, Copy)]
pub enum Fate {
    Continues(u64),
    Quits,
    Creates(u64, u64),
}

// What an executed step writes, in order: the sources of the three fields, the destination, the data word; and the process's fate.
#[derive(Clone, Copy)]
pub struct Effects {
    pub first: Option<(usize, Cell)>,
    pub second: Option<(usize, Cell)>,
    pub third: Option<(usize, Cell)>,
    pub destination: Option<(usize, Cell)>,
    pub datum: Option<(usize, Cell)>,
    pub fate: Fate,
}

#[derive(Clone, Copy)]
pub enum Decision {
    Waits(Wait),
    Traps(Trap, u64),
    Executes(Effects),
}

// A decision without what it carries: how the process goes on, or why it traps. No operation answers the create fault.
#[derive(Clone, Copy)]
pub enum Course {
    Continues,
    // for an access test or the create fault flag
    Waits,
    // for the state of a data word
    WaitsForData,
    Quits,
    Creates,
    CreateFault,
    IllegalInstruction,
    ProtectionViolation,
    PrivilegedInstruction,
    SupervisorCall,
    SimulatedInstruction,
    DataException,
}

// A window of a task by its numbers: its real addresses go from base on and end below end.
#[derive(Clone, Copy)]
pub struct Bounds {
    pub base: u32,
    pub end: u32,
}

// The windows of a task by their numbers; of its constants the base doubled.
#[derive(Clone, Copy)]
pub struct Windows {
    pub constants: u32,
    pub registers: Bounds,
    pub program: Bounds,
    pub data: Bounds,
}

// The process that acts: its PT and its PSW.
#[derive(Clone, Copy)]
pub struct Process {
    pub pt: usize,
    pub psw: u64,
}

impl From<Trap> for Course {
    ghost from_gives = { λ trap course. course ≡ trap_course trap };

    fn from(trap: Trap) -> Course {
        match trap {
            Trap::CreateFault => Course::CreateFault,
            Trap::IllegalInstruction => Course::IllegalInstruction,
            Trap::ProtectionViolation => Course::ProtectionViolation,
            Trap::PrivilegedInstruction => Course::PrivilegedInstruction,
            Trap::SupervisorCall => Course::SupervisorCall,
            Trap::SimulatedInstruction => Course::SimulatedInstruction,
            Trap::DataException => Course::DataException,
        }
    }
}

// The trap kind as document 01 numbers it.
pub fn kind(k: Trap) -> u8
    ensures { result ≡ kind_of k }
{
    match k {
        Trap::CreateFault => 0x00,
        Trap::IllegalInstruction => 0x12,
        Trap::ProtectionViolation => 0x14,
        Trap::PrivilegedInstruction => 0x16,
        Trap::SupervisorCall => 0x1A,
        Trap::SimulatedInstruction => 0x1C,
        Trap::DataException => 0x1E,
    }
}
