// What a plan and a question are in memory, and their limits.
#![tactic(auto)]

pub mod limits;
mod refusal;

pub use refusal::Refusal;

// S: chances, weights and bounds count in parts of it.
pub const SCALE: u32 = 1 << 30;

// S for products and sums, which take 64 bits.
// A constant calls no From.
pub const WIDE_SCALE: u64 = SCALE as u64;

// Which way a quotient is rounded: down for a lower bound, up for an upper one.
#[derive(Clone, Copy)]
pub enum Rounding {
    Down,
    Up,
}

// A plan's head: months n, opening reserve u, claim sizes m, and the income c of every month.
#[derive(Clone, Copy, Debug, PartialEq, Eq)]
pub struct Head {
    pub months: usize,
    pub opening: usize,
    pub sizes: usize,
    pub income: usize,
}

// One of the four questions; k is a number of claims and L a level.
#[derive(Clone, Copy)]
pub enum Question {
    Survive,
    Both(usize),
    High(usize),
    Low(usize),
}

// An ask: the plan's head and one question.
#[derive(Clone, Copy)]
pub struct Ask {
    pub head: Head,
    pub question: Question,
}

// A lower and an upper bound in parts of S.
#[derive(Clone, Copy)]
pub struct Bounds {
    pub lower: u32,
    pub upper: u32,
}
