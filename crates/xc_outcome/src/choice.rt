use xc_model::Rules;

/// What a run needs of the words of its command line.
#[derive(Clone, Copy, Debug, PartialEq, Eq)]
pub struct Choice {
    pub rules: Rules,
    /// The seed of a generated script, which is then run in place of the one that is read.
    pub seed: Option<u64>,
}
