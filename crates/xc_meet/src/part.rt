ghost use Rattle.std.specs.Prelude.{◌≡◌, ◌≤◌, ◌+◌, ◌/◌, ◌^◌, ◌<◌};
ghost use Rattle.xc_meet.specs.Parts.{IsHalfReturned, IsParted};

use xc_host::Host;
use xc_station::Station;
use xc_turnstile::{Pass, Turnstile};

// Half of a small pass goes back to the other one.
fn halved<H: Host>(
    shop: &Turnstile<Box<Station<H>>>,
    kept: Pass<Box<Station<H>>>,
    small: Pass<Box<Station<H>>>,
) -> (Pass<Box<Station<H>>>, Pass<Box<Station<H>>>)
    requires tables { (kept.table ≡ shop.now.table.shared.table_id) × (small.table ≡ shop.now.table.shared.table_id) }
    requires enough { 2 ≤ small.view.shares }
    requires few { kept.view.shares + small.view.shares < 2 ^ 64 }
    ensures { IsHalfReturned kept small result.0 result.1 }
{
    let mut back = small;
    let small = shop.split(&mut back);
    (shop.meet(kept, back), small)
}

/// The 128th part of a pass, and the rest of it.
pub fn part<H: Host>(
    shop: &Turnstile<Box<Station<H>>>,
    pass: Pass<Box<Station<H>>>,
) -> (Pass<Box<Station<H>>>, Pass<Box<Station<H>>>)
    requires table { pass.table ≡ shop.now.table.shared.table_id }
    requires shares { (2 ^ 25 ≤ pass.view.shares) × (pass.view.shares ≤ 2 ^ 32) }
    ensures { IsParted pass result.0 result.1 }
{
    let mut kept = pass;
    let small = shop.split(&mut kept);
    let (kept, small) = halved(shop, kept, small);
    let (kept, small) = halved(shop, kept, small);
    let (kept, small) = halved(shop, kept, small);
    let (kept, small) = halved(shop, kept, small);
    let (kept, small) = halved(shop, kept, small);
    halved(shop, kept, small)
}
