// The types of filling a module: which jobs go in together (document 02, L13).
#![tactic(auto)]

// The most jobs that are given, and the most that are chosen.
pub const MOST_JOBS: usize = 15;

pub const MOST_CHOSEN: usize = 7;

// The best of the choices tried: a binary number, job 1 being the lowest bit, and the sum of the needs of its jobs.
#[derive(Clone, Copy)]
pub struct Best {
    pub choice: u64,
    pub sum: u64,
}

// The first of the best choices tried, its sum, the tries made, and a ceiling of every choice's sum.
#[derive(Clone, Copy)]
pub struct Filling {
    pub choice: u64,
    pub sum: u64,
    pub tries: u64,
    pub ceiling: u64,
}
