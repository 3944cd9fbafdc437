// The queue: grants the port that joined first.
#![tactic(auto)]

ghost use Rattle.std.specs.Prelude.{◌≡◌, ℕ, ◌<◌, ◌≤◌, true, false, length, nat_eq, take, Some};
ghost use Rattle.std.proofs.lemmas.Map.Keys.{IsDistinct-prop};
ghost use Rattle.queue.specs.Lines.{among, Apart};

pub mod calls;

use bus::ports::Ports;

#[derive(Clone, Copy, Debug)]
pub struct Queue {
    ports: Ports,
    // how many wait: an array beside its length, since an ArrayVec is not Copy and a queue is
    len: u8,
    // the first `len` are the ports that wait, in the order in which they joined
    order: [u8; 16],
    // the port in service
    served: Option<u8>,
    ghost fits: { len ≤ length order },
    // each that waits is a port, and waits once
    ghost below: { (p : ℕ) → among p (take len order) ≡ true → p < ports.count },
    ghost once: { Apart (take len order) } by { IsDistinct-prop nat_eq (take len order) },
    // the one in service is a port that does not wait
    ghost port: { (p : ℕ) → served ≡ Some p → p < ports.count },
    ghost gone: { (p : ℕ) → served ≡ Some p → among p (take len order) ≡ false },
}
