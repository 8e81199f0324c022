ghost use Rattle.std.specs.Prelude.{◌≡◌, ◌≤◌, ◌*◌, ◌^◌, []};
ghost use Rattle.std.specs.Thread.{IsSync};
ghost use Rattle.xc_meet.specs.Members.{LeavesSessions};
ghost use Rattle.xc_serve.specs.Gains.{IsOfScript};
ghost use Rattle.xc_serve.specs.Sessions.{IsSession};

use crate::part::part;
use crate::session::Session;
use std::alloc::Global;
use std::sync::Wait;
use std::thread::{Threads, join};
use xc_host::Host;
use xc_links::{Duplex, Links};
use xc_roomy::Roomy;
use xc_serve::serve_one;
use xc_station::Station;
use xc_turnstile::{Pass, Turnstile};

/// Accepts `count` links, one after another, and serves each while a thread of its own awaits the next; where no thread can be had,
/// each is served before the next is awaited. An accept that fails is the last. The sessions are entered backwards, the last one first.
/// All passes are met. It may wait.
pub fn serve_all<
    L: Duplex + Send + Drop,
    Ls: Links<Link = L> + Send + Drop,
    H: Host + Send,
    R: Threads + Wait + Sync,
>(
    rt: &R,
    alloc: Global,
    shop: &Turnstile<Box<Station<H>>>,
    pass: Pass<Box<Station<H>>>,
    links: Ls,
    backwards: Roomy<Session<L>>,
    count: u32,
) -> (Pass<Box<Station<H>>>, Ls, Roomy<Session<L>>)
    requires table { pass.table ≡ shop.now.table.shared.table_id }
    requires scripted { IsOfScript pass }
    requires shares { (2 ^ 25 * count ≤ pass.view.shares) × (pass.view.shares ≤ 2 ^ 32) }
    requires none { backwards.items ≡ [] }
    requires room { count ≤ backwards.spare }
    ensures { LeavesSessions L.told (record { old = pass; new = result.0 }) (record { old = Ls.told links; new = Ls.told result.1 })
        (record { old = backwards; new = result.2 }) count }
{
    if count == 0 {
        return (pass, links, backwards);
    }
    let mut links = links;
    let Ok(link) = links.accept() else {
        return (pass, links, backwards);
    };
    let (rest, own) = part(shop, pass);
    let left = count - 1;
    let (others, served) = join(
        rt,
        || -> (Pass<Box<Station<H>>>, Ls, Roomy<Session<L>>)
            requires sync { IsSync R.row }
            requires table { rest.table ≡ shop.now.table.shared.table_id }
            requires scripted { IsOfScript rest }
            requires shares { (2 ^ 25 * left ≤ rest.view.shares) × (rest.view.shares ≤ 2 ^ 32) }
            requires none { backwards.items ≡ [] }
            requires room { left ≤ backwards.spare }
            ensures { LeavesSessions L.told (record { old = rest; new = result.0 }) (record { old = Ls.told links; new = Ls.told result.1 })
                (record { old = backwards; new = result.2 }) left }
        { serve_all(rt, alloc, shop, rest, links, backwards, left) },
        || -> (Pass<Box<Station<H>>>, Session<L>)
            requires { IsSync R.row × (own.table ≡ shop.now.table.shared.table_id) × IsOfScript own }
            ensures { IsSession own result.0 (L.told link) (L.told result.1.link) result.1.end }
        {
            let mut link = link;
            let served = serve_one(rt, alloc, &mut link, shop, own);
            let end = served.end;
            link.finish();
            (served.pass, Session { link, end })
        },
    );
    let (own, session) = served;
    let (met, links, mut backwards) = others;
    backwards.enter(session);
    (shop.meet(met, own), links, backwards)
}
