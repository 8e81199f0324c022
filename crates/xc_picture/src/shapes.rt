/// A point of a picture, in pixels from its upper left corner.
#[derive(Clone, Copy, Debug)]
pub struct Point {
    pub x: u64,
    pub y: u64,
}

/// A rectangle, by its upper left corner and its size in pixels.
#[derive(Clone, Copy, Debug)]
pub struct Area {
    pub x: u64,
    pub y: u64,
    pub width: u64,
    pub height: u64,
}

/// What a rectangle shows: a transaction, or a mark in it.
#[derive(Clone, Copy, Debug)]
pub enum ShapeStyle {
    Committed,
    Aborted,
    Late,
    Faults,
    Remains,
}
