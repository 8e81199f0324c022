use xc_model::Rules;

/// What a journal is judged by, beside the entries themselves.
#[derive(Clone, Copy, Debug)]
pub struct Basis {
    /// The rules of its run.
    pub rules: Rules,
    /// Clients asked its transactions, and no script did.
    pub clients: bool,
}
