/// Why an entry is false: the first of these, in this order.
#[derive(Clone, Copy, Debug, PartialEq, Eq)]
pub enum Reason {
    /// Its job isn't started, or it began out of its turn.
    Numbers,
    /// A reply is not the plain machine's.
    Reply,
    /// A late end is not, or there are too few or too many.
    Late,
    /// A record is not, or its compensation ended as none can.
    Records,
    /// What it held is not what its calls claimed.
    Held,
    /// Its job doesn't go on, its rank is another one, too many attempts failed, or its end was not asked.
    Story,
}
