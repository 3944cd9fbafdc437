// How long a port can be kept waiting, by any arbiter.
ghost use Rattle.std.specs.Prelude.{IfOk, MatchResult};
ghost use Rattle.bus.specs.Means.{LimitOf, LimitRefused};
ghost use Rattle.bus.specs.Courses.{NoTurnsPassALimit, EveryCourseKeepsTheTurnRule, NoWaitIsLonger};

use crate::arbiter::Arbiter;
use tasks::limit::Limit;
use tasks::refusal::Refusal;

// The most phases of port b that are granted while port a waits once, whatever is called on this arbiter: the limit.
// Refused: 6, a or b is no port, or they are the same.
pub fn longest_wait<B: Arbiter>(bus: &B, a: u8, b: u8) -> Result<Limit, Refusal>
    ensures answer { MatchResult result (λ l. LimitOf (B.Arbiter.means.meaning bus.now) a b l) (λ e. LimitRefused (B.Arbiter.means.meaning bus.now) a b e) }
    ensures bound { IfOk result (λ l. NoWaitIsLonger B.Arbiter.means bus.now a b l) }
    ensures rule { EveryCourseKeepsTheTurnRule B.Arbiter.means }
    ensures turns { NoTurnsPassALimit }
{
    bus.limit(a, b)
}
