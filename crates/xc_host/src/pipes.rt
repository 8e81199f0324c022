use xc_data::Chunk;

/// A pipe's state: how many bytes it holds, and whether it is shut.
#[derive(Clone, Copy, Debug, PartialEq)]
pub struct HostState {
    pub held: u32,
    pub shut: bool,
}

/// What one take gives.
#[derive(Debug, Drop, PartialEq)]
pub enum Took {
    Bytes(Chunk),
    /// None is there yet.
    Empty,
    /// None is there, and it is shut.
    End,
}
