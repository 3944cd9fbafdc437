// The share of one other core: the longest of its offered phases first, as many as may come before.
ghost use Rattle.std.specs.Prelude.{◌≡◌, ◌+◌, ◌*◌, ◌≤◌, map, length};
ghost use Rattle.tasks.specs.Limits.{capped};
ghost use Rattle.argument.specs.Sums.{ceil};
ghost use Rattle.argument.specs.LongestFirst.{taken, less};
ghost use Rattle.demand.specs.Caps.{limit_of};
ghost use Rattle.demand.specs.Offers.{listed, of_core, phases_in};

use crate::cap::Cap;
use crate::offer::Offer;

// The offers of all cores are given as they are kept, the longest first.
pub fn share(offers: &[Offer], core: u8, w: u32, cap: Cap) -> u64
    requires { length offers.now ≤ 128 }
    ensures value { result ≡ taken (limit_of cap) (phases_in w (of_core core (map listed offers.now))) }
    ensures bound { result ≤ 128 * ((w + 20000000) * 10000000) }
{
    let mut left = cap;
    let mut ticks: u64 = 0;
    for offer in offers {
        if offer.core == core {
            ticks += ticks_of(offer, w, &mut left);
        }
    }
    ticks
}

// What one offer adds, as far as the cap lets it through.
fn ticks_of(offer: &Offer, w: u32, left: &mut Cap) -> u64
    ensures value { result ≡ offer.now.length.0 * capped (limit_of left.old) (ceil (w + offer.now.deadline) offer.now.spacing) }
    ensures after { limit_of left.new ≡ less (limit_of left.old) (ceil (w + offer.now.deadline) offer.now.spacing) }
    ensures bound { result ≤ (w + 20000000) * 10000000 }
{
    u64::from(offer.length.0) * left.take(offer.many(w))
}
