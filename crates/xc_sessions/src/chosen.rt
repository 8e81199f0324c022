use xc_model::Rules;

/// What the words of a command line chose for a run with sessions.
#[derive(Clone, Copy, Debug, PartialEq, Eq)]
pub struct ServeChosen {
    /// Links that are accepted, 1 to 64.
    pub sessions: u32,
    /// The port of 127.0.0.1 on which they are awaited, 1 to 65,535.
    pub port: u16,
    pub rules: Rules,
}
