use std::collections::LinkedList;

/// What a pass knows of a value with a journal of E, with events V, that was started with O. Contracts alone name it.
pub struct View<E, V, O> {
    /// The longest beginning of the value's journal that it knows.
    pub seen: LinkedList<E>,
    /// The entries that were added while it held the value, with their places.
    pub mine: LinkedList<(u64, E)>,
    /// The events that were made while it held the value.
    pub events: LinkedList<V>,
    /// What the value was started with; none only in a pass that is gone.
    pub origin: Option<O>,
    /// Its part of the right to close.
    pub shares: u64,
    /// How often it found another inside.
    pub lost: u64,
    /// How often it entered.
    pub won: u64,
    pub inside: bool,
    /// The journal that was handed out when it last entered.
    pub given: LinkedList<E>,
    /// The count of events then.
    pub counted: u64,
    /// The shorter of the two journals that were seen, where it last met another pass.
    pub beside: LinkedList<E>,
}
