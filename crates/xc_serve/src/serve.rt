ghost use Rattle.std.specs.Prelude.{◌≡◌, IfOk, OnErr};
ghost use Rattle.std.specs.Io.KnownBytes.{Keeps};
ghost use Rattle.xc_edge.specs.Counts.{HasCause};
ghost use Rattle.xc_links.specs.Lines.{IsCut};
ghost use Rattle.xc_links.specs.Wires.{giving};
ghost use Rattle.xc_serve.specs.Answers.{answer_bytes};
ghost use Rattle.xc_serve.specs.Gains.{IsOfScript};
ghost use Rattle.xc_serve.specs.Serving.{IsSaid, IsServed};
ghost use Rattle.xc_serve.specs.Sessions.{IsAsked, IsSession};

use crate::answer::ServeAnswer;
use crate::ask::follow;
use crate::order::{Order, order_of};
use std::alloc::Global;
use std::sync::Wait;
use xc_edge::Failed;
use xc_host::Host;
use xc_links::{Duplex, LINE_BYTES, WireLine, read_line, send_whole};
use xc_station::Station;
use xc_turnstile::{Pass, Turnstile};

/// How a session ended.
#[derive(Clone, Copy, Debug, PartialEq, Eq)]
pub enum SessionEnd {
    /// By a line `quit`, or since no more lines came.
    Quit,
    /// By a line that was too long.
    TooLong,
    /// By a read or a write that failed.
    LinkFault,
    /// There was no memory for an answer.
    NoMemory,
}

/// What a session leaves.
#[derive(Drop)]
pub struct Served<H: Host> {
    pub pass: Pass<Box<Station<H>>>,
    pub end: SessionEnd,
}

// The next order; `None` where no line comes any more.
fn next_order<L: Duplex>(link: &mut L) -> Result<Option<Order>, Failed>
    ensures asked { IfOk result (IsAsked (L.told link.old) (L.told link.new)) }
    ensures cut { OnErr result (IsCut (L.told link.old) (L.told link.new)) }
    ensures other { Keeps (L.told link.old).taken (L.told link.new).taken }
    ensures cause { HasCause (giving (L.told link.old)) (giving (L.told link.new)) result }
{
    let mut buffer = [0; LINE_BYTES];
    match read_line(link, &mut buffer)? {
        WireLine::Whole(size) => Ok(Some(order_of(&buffer[..size]))),
        WireLine::TooLong => Ok(Some(Order::TooLong)),
        WireLine::Rest(_) => Ok(None),
    }
}

// What a line leads to: to the next one, or to the session's end.
#[derive(Clone, Copy)]
enum Next {
    Line,
    End(SessionEnd),
}

// Writes the answer to an order.
fn say<L: Duplex>(link: &mut L, order: Order, answer: &ServeAnswer) -> Next
    ensures { IsSaid (L.told link.old) (L.told link.new) order (answer_bytes answer.now) result }
{
    if send_whole(link, answer.as_bytes()).is_err() {
        return Next::End(SessionEnd::LinkFault);
    }
    match order {
        Order::Quit => Next::End(SessionEnd::Quit),
        Order::TooLong => Next::End(SessionEnd::TooLong),
        Order::Work | Order::Seen | Order::Entry(_) | Order::Bad => Next::Line,
    }
}

// Follows an order, and writes its answer.
fn serve_order<L: Duplex, H: Host, R: Wait>(
    rt: &R,
    alloc: Global,
    link: &mut L,
    shop: &Turnstile<Box<Station<H>>>,
    pass: Pass<Box<Station<H>>>,
    order: Order,
) -> (Pass<Box<Station<H>>>, Next)
    requires table { pass.table ≡ shop.now.table.shared.table_id }
    requires scripted { IsOfScript pass }
    ensures { IsServed pass result.0 (record { old = L.told link.old; new = L.told link.new }) order result.1 }
{
    let (pass, answer) = follow(rt, alloc, shop, pass, order);
    let next = match answer {
        Some(answer) => say(link, order, &answer),
        None => Next::End(SessionEnd::NoMemory),
    };
    (pass, next)
}

/// Serves a link: each line that it sends asks for something, and is answered before the next one is read. A job that was begun
/// is run to its end before its answer is written. It may wait.
pub fn serve_one<L: Duplex, H: Host + Send, R: Wait>(
    rt: &R,
    alloc: Global,
    link: &mut L,
    shop: &Turnstile<Box<Station<H>>>,
    pass: Pass<Box<Station<H>>>,
) -> Served<H>
    requires table { pass.table ≡ shop.now.table.shared.table_id }
    requires scripted { IsOfScript pass }
    ensures { IsSession pass result.pass (L.told link.old) (L.told link.new) result.end }
{
    let mut mine = pass;
    for _ in rt.forever() {
        let order = match next_order(link) {
            Ok(Some(order)) => order,
            Ok(None) => {
                return Served {
                    pass: mine,
                    end: SessionEnd::Quit,
                };
            }
            Err(Failed) => {
                return Served {
                    pass: mine,
                    end: SessionEnd::LinkFault,
                };
            }
        };
        let (back, next) = serve_order(rt, alloc, link, shop, mine, order);
        mine = back;
        match next {
            Next::Line => {}
            Next::End(end) => return Served { pass: mine, end },
        }
    }
    unreachable!()
}
