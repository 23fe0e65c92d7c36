// The image: its fields as values.
#![tactic(auto)]

// The bytes of a row, a process, a cell and a word.
pub const ROW_BYTES: usize = 28;

pub const PROCESS_BYTES: usize = 10;

pub const CELL_BYTES: usize = 9;

pub const WORD_BYTES: usize = 8;

// A process as the image has it.
#[derive(Clone, Copy)]
pub struct Process {
    pub pt: u8,
    pub task: u8,
    pub psw: u64,
}
