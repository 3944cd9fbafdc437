// Round robin: grants the first waiting port, counted upward from the one after the last granted.
#![tactic(auto)]

ghost use Rattle.std.specs.Prelude.{◌≡◌, ℕ, ◌+◌, ◌^◌, ◌<◌, ◌≤◌, false, Some};
ghost use Rattle.bus.specs.Masks.{has};

pub mod calls;
pub mod example;

use bus::ports::Ports;

#[derive(Clone, Copy, Debug)]
pub struct RoundRobin {
    ports: Ports,
    // one bit for each port that waits
    mask: u16,
    // where the count starts: one past the port granted last, 0 before any grant
    next: u8,
    // the port in service
    served: Option<u8>,
    ghost low: { mask < 2 ^ ports.count },
    ghost near: { next ≤ ports.count },
    // the one in service was granted last, and does not wait
    ghost last: { (p : ℕ) → served ≡ Some p → next ≡ p + 1 },
    ghost gone: { (p : ℕ) → served ≡ Some p → has mask p ≡ false },
}
