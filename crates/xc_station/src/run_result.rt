use xc_data::{JobList, KeptList, WordList};
use xc_host::OpenErr;
use xc_journal::Journal;
use xc_text::Script;

/// What a station was started with.
#[derive(Drop)]
pub struct Opening {
    pub script: Script,
    /// The host's count of faults then.
    pub faults: u64,
}

/// A host that a station was not started over, as it was, and why.
#[derive(Drop)]
pub struct NotStarted<H> {
    pub host: H,
    pub why: OpenErr,
}

/// What a whole run leaves.
#[derive(Drop)]
pub struct End<H> {
    pub host: H,
    pub opening: Opening,
    /// What aborted transactions gave back and nobody took again, in front of what the host's pipes and pairs hold.
    pub kept: KeptList,
    pub words: WordList,
    /// With the entries that weren't handed out; of a script these are all.
    pub journal: Journal,
    pub jobs: JobList,
}
