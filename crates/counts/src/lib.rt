// A count each, so that one cannot be taken for another, and those of a run together.
#![tactic(auto)]

#[derive(Clone, Copy, Default)]
pub struct Cycles(pub u32);

#[derive(Clone, Copy, Default)]
pub struct Instructions(pub u32);

#[derive(Clone, Copy, Default)]
pub struct Entries(pub u32);

#[derive(Clone, Copy, Default)]
pub struct Records(pub usize);

#[derive(Clone, Copy, Default)]
pub struct Sent(pub usize);

#[derive(Clone, Copy, Default)]
pub struct Leaps(pub u32);

// The counts that both runs report.
#[derive(Clone, Copy, Default)]
pub struct Counts {
    pub cycles: Cycles,
    pub instructions: Instructions,
    pub entries: Entries,
    pub used: Records,
    pub sent: Sent,
}
