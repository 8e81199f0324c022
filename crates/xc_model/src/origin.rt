use crate::rules::Rules;
use xc_text::Script;

/// What a run was started with. Contracts name it.
#[derive(Drop)]
pub struct Origin {
    pub script: Script,
    /// The host's count of faults then.
    pub faults: u64,
    pub rules: Rules,
}
