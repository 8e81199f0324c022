use xc_model::Rules;

/// What the words of a command line chose for a cooperative run.
#[derive(Clone, Copy, Debug, PartialEq, Eq)]
pub struct CoopChosen {
    /// Turns that a poll of a job takes at most, 1 to 1,000.
    pub share: u32,
    pub rules: Rules,
}
