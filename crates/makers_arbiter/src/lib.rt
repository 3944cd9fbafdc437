// An arbiter that a maker adds, in a crate of its own. It serves in batches: those who wait when a batch is
// opened are served from the lowest port up, and whoever joins meanwhile waits for the next batch.
#![tactic(auto)]

ghost use Rattle.std.specs.Prelude.{◌≡◌, ℕ, ◌^◌, ◌<◌, ◌≤◌, true, false, Some};
ghost use Rattle.bus.specs.Masks.{has};
ghost use Rattle.makers_arbiter.specs.Turnover.{in_either};

pub mod calls;

use bus::ports::Ports;

#[derive(Clone, Copy, Debug)]
pub struct Batches {
    ports: Ports,
    // one bit for each port of the batch that is being served
    batch: u16,
    // one bit for each port that joined since the batch was opened
    joined: u16,
    // the port in service
    served: Option<u8>,
    ghost low: { batch < 2 ^ ports.count },
    ghost fresh: { joined < 2 ^ ports.count },
    // no port is in both
    ghost apart: { (p : ℕ) → has batch p ≡ true → has joined p ≡ false },
    // the one in service is a port that does not wait
    ghost port: { (p : ℕ) → served ≡ Some p → p < ports.count },
    ghost gone: { (p : ℕ) → served ≡ Some p → in_either batch joined p ≡ false },
}
