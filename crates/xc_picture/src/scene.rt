use xc_data::{Items, Text};

/// An entry of the journal, as a bar from the column in which it began to that of its number.
#[derive(Drop)]
pub struct Bar {
    pub tx: u32,
    pub job: u32,
    /// The length that the journal had when it began; its number, if that is less.
    pub from: u32,
    /// The entry's number, from 1 to 2,000.
    pub to: u32,
    pub committed: bool,
    /// The transaction that it met, if it was aborted by a conflict or a revocation.
    pub rival: Option<u32>,
    /// Whether a late call of it ended.
    pub late: bool,
    pub faults: bool,
    pub remains: bool,
    /// Its lines.
    pub tip: Text,
}

/// What a job's line tells: its block, and how it ended.
#[derive(Drop)]
pub struct LaneName {
    /// The job's number, at most 2,000.
    pub lane: u32,
    pub name: Text,
}

/// The place of an entry in a picture.
#[derive(Clone, Copy, Debug, Drop)]
pub struct Spot {
    pub lane: u32,
    /// The column where it ends.
    pub to: u32,
}

/// All that a picture shows.
#[derive(Drop)]
pub struct Scene {
    /// The first 2,000 entries, in their order.
    pub bars: Items<Bar>,
    pub names: Items<LaneName>,
    /// The last lane, at most 2,001.
    pub lanes: u32,
    /// How many entries there are beyond the first 2,000.
    pub left_out: u64,
    /// The number of the line at which the text broke, if it did.
    pub break_at: Option<u32>,
}
