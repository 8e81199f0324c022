/// How the reading of a text ended.
#[derive(Clone, Copy, Debug, PartialEq, Eq)]
pub enum Ending {
    /// At the text's end, behind the totals.
    Whole,
    /// At the line of this number, counted from 1, which may not stand there, or isn't there.
    Broken { line: u32 },
}
