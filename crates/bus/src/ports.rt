// How many ports an arbiter has.
ghost use Rattle.std.specs.Prelude.{◌≡◌, ◌≢◌, ◌<◌, ◌≤◌, MatchResult};
ghost use Rattle.bus.specs.Means.{PortsRefused, PortRefused, PairRefused};

use crate::arbiter::MOST_PORTS;
use tasks::refusal::Refusal;

// 1 to 16 ports: the numbers below the count.
#[derive(Clone, Copy, Debug)]
pub struct Ports {
    count: u8,
    ghost some: { 1 ≤ count },
    ghost few: { count ≤ 16 },
}

impl Ports {
    // Refused: 6, the ports are not 1 to 16.
    pub fn new(count: u8) -> Result<Ports, Refusal>
        ensures { MatchResult result (λ ports. ports.count ≡ count) (λ e. PortsRefused count e) }
    {
        if count < 1 || count > MOST_PORTS {
            return Err(Refusal::Core);
        }
        Ok(Ports { count })
    }

    pub fn count(self) -> u8
        ensures { result ≡ self.count }
    {
        self.count
    }

    // Refused: 6, a is no port.
    pub fn check(self, a: u8) -> Result<(), Refusal>
        ensures { MatchResult result (λ _. a < self.count) (λ e. PortRefused self.count a e) }
    {
        if a >= self.count {
            return Err(Refusal::Core);
        }
        Ok(())
    }

    // Refused: 6, a or b is no port, or they are the same.
    pub fn check_pair(self, a: u8, b: u8) -> Result<(), Refusal>
        ensures { MatchResult result (λ _. (a < self.count) × (b < self.count) × (a ≢ b)) (λ e. PairRefused self.count a b e) }
    {
        check_pair(self.count, a, b)
    }
}

// Of an arbiter that is known by its count of ports alone.
// Refused: 6, a or b is no port, or they are the same.
pub fn check_pair(count: u8, a: u8, b: u8) -> Result<(), Refusal>
    ensures { MatchResult result (λ _. (a < count) × (b < count) × (a ≢ b)) (λ e. PairRefused count a b e) }
{
    if a >= count || b >= count || a == b {
        return Err(Refusal::Core);
    }
    Ok(())
}
