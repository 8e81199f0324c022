ghost use Rattle.std.specs.Prelude.{◌≡◌};
ghost use Rattle.xc_buffers.specs.Sources.{source_cmp, source_of, is_before};
ghost use Rattle.xc_maps.specs.Keys.{num_cmp};

use std::cmp::Ordering;
use xc_data::{KeptItem, Num};

/// Where data was taken: a pipe, or a side of a pair.
#[derive(Clone, Copy)]
pub enum Endpoint {
    Pipe(Num),
    Side { pair: Num, side: u8 },
}

fn compared(a: Num, b: Num) -> Ordering
    ensures { result ≡ num_cmp a b }
{
    match a.tx.cmp(&b.tx) {
        Ordering::Equal => a.k.cmp(&b.k),
        Ordering::Less => Ordering::Less,
        Ordering::Greater => Ordering::Greater,
    }
}

impl Endpoint {
    /// Where an item was taken.
    pub fn of(item: &KeptItem) -> Endpoint
        ensures { result ≡ source_of item.now }
    {
        match item {
            KeptItem::Bytes { pipe, .. } => Endpoint::Pipe(*pipe),
            KeptItem::Message { pair, side, .. } => Endpoint::Side {
                pair: *pair,
                side: *side,
            },
        }
    }

    fn compared(self, other: Endpoint) -> Ordering
        ensures { result ≡ source_cmp self other }
    {
        match (self, other) {
            (Endpoint::Pipe(a), Endpoint::Pipe(b)) => compared(a, b),
            (Endpoint::Pipe(_), Endpoint::Side { .. }) => Ordering::Less,
            (Endpoint::Side { .. }, Endpoint::Pipe(_)) => Ordering::Greater,
            (Endpoint::Side { pair: a, side: s }, Endpoint::Side { pair: b, side: t }) => {
                match compared(a, b) {
                    Ordering::Equal => s.cmp(&t),
                    Ordering::Less => Ordering::Less,
                    Ordering::Greater => Ordering::Greater,
                }
            }
        }
    }

    /// Pipes stand before pairs, each by number, and the sides of a pair by number.
    pub fn is_before(self, other: Endpoint) -> bool
        ensures { result ≡ is_before self other }
    {
        self.compared(other).is_lt()
    }
}
