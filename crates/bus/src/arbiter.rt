// What an arbiter is: six calls, an account of its own, and the turn rule.
ghost use Rattle.std.specs.Prelude.{◌≡◌, true, false, MatchResult, OnErr};
ghost use Rattle.bus.specs.Turns.{Idle, Busy};
ghost use Rattle.bus.specs.Means.{Means, Laws, LimitOf, LimitRefused, JoinRefused, GrantRefused, DoneRefused};

use tasks::limit::Limit;
use tasks::refusal::Refusal;

// A port for each core, and no platform has more cores.
pub const MOST_PORTS: u8 = 16;

pub trait Arbiter: Drop {
    // What a value stands for, when its parts agree, and what each call makes of it.
    ghost means: { Means Self };

    // How many ports there are.
    fn ports(&self) -> u8
        ensures { result ≡ (means.meaning self.now).ports };

    // The most phases of port b that may be granted while a phase of port a waits.
    // Refused: 6, a or b is no port, or they are the same.
    fn limit(&self, a: u8, b: u8) -> Result<Limit, Refusal>
        ensures { MatchResult result (λ l. LimitOf (means.meaning self.now) a b l) (λ e. LimitRefused (means.meaning self.now) a b e) };

    // Whether no port waits and none is in service. A value whose parts disagree is not idle.
    fn idle(&self) -> bool
        ensures yes_idle { result ≡ true → means.stands self.now × Idle (means.meaning self.now) }
        ensures not_idle { result ≡ false → means.stands self.now → Busy (means.meaning self.now) };

    // Port a begins to wait.
    // Refused: 6, a is no port; 15, it waits or is in service already.
    fn join(&mut self, a: u8) -> Result<(), Refusal>
        ensures unchanged { OnErr result (self.new ≡ self.old) }
        ensures account { means.stands self.old → MatchResult result (λ _. means.joins self.old a self.new) (λ e. JoinRefused (means.meaning self.old) a e) };

    // Takes one port from the waiting into service, and answers which.
    // Refused: 16, nobody waits; 17, a port is in service.
    fn grant(&mut self) -> Result<u8, Refusal>
        ensures unchanged { OnErr result (self.new ≡ self.old) }
        ensures account { means.stands self.old → MatchResult result (λ c. means.grants self.old c self.new) (λ e. GrantRefused (means.meaning self.old) e) };

    // Ends the service.
    // Refused: 18, no port is in service.
    fn done(&mut self) -> Result<(), Refusal>
        ensures unchanged { OnErr result (self.new ≡ self.old) }
        ensures account { means.stands self.old → MatchResult result (λ _. means.ends self.old self.new) (λ e. DoneRefused (means.meaning self.old) e) };

    // The turn rule.
    ghost lawful: { Laws means };
}
