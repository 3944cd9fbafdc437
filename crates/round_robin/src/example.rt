// Round robin on one example: the count goes upward, then from 0.
ghost use Rattle.std.specs.Prelude.{◌≡◌, [], ◌∷◌, IfOk, MatchResult};
ghost use Rattle.bus.specs.Courses.{Course, grants, ends};
ghost use Rattle.round_robin.specs.Account.{round_means};
ghost use Rattle.round_robin.specs.Example.{ZeroAndTwoWait};

use crate::RoundRobin;
use bus::arbiter::Arbiter;
use tasks::refusal::Refusal;

// Two turns, the first to its end. With 3 ports, the last granted 0, and ports 0 and 2 waiting, 2 is granted, then 0.
pub fn two_then_zero(ring: &mut RoundRobin) -> Result<(u8, u8), Refusal>
    ensures course { IfOk result (λ granted. Course round_means ring.old (grants granted.1 ∷ ends ∷ grants granted.0 ∷ []) ring.new) }
    ensures order { ZeroAndTwoWait ring.old → MatchResult result (λ granted. (granted.0 ≡ 2) × (granted.1 ≡ 0)) (λ _. ⊥) }
{
    let first = ring.grant()?;
    ring.done()?;
    let second = ring.grant()?;
    Ok((first, second))
}
