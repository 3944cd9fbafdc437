// The library's arbiters as one type, and the bus line of a plan as a value of it.
#![tactic(auto)]

ghost use Rattle.std.specs.Prelude.{◌≡◌, Ok, Err, MatchResult};
ghost use Rattle.tasks.specs.Refusals.{told};
ghost use Rattle.tasks.specs.Platforms.{cores_verdict, favoured};
ghost use Rattle.bus.specs.Means.{PortsRefused};
ghost use Rattle.bus_line.specs.Lines.{BaseMade, BusMade};

use either_arbiter::Either;
use favour::Favour;
use queue::Queue;
use round_robin::RoundRobin;
use tasks::platform::{Bottom, BusLine, Favours};
use tasks::refusal::Refusal;

// An arbiter at the bottom of a bus line.
pub type Base = Either<Queue, RoundRobin>;

// Every arbiter that a bus line can spell: a bottom arbiter under no, one or two favours.
pub type Bus = Either<Base, Either<Favour<Base>, Favour<Favour<Base>>>>;

fn base_of(bottom: Bottom, ports: u8) -> Result<Base, Refusal>
    ensures { MatchResult result (λ base. BaseMade bottom ports base) (λ e. PortsRefused ports e) }
{
    match bottom {
        Bottom::Queue => Ok(Either::First(Queue::new(ports)?)),
        Bottom::RoundRobin => Ok(Either::Second(RoundRobin::new(ports)?)),
    }
}

// The arbiter that a bus line spells, idle.
// Refused: 6, the ports are not 1 to 16, or a favoured port is none of them.
pub fn bus_of(line: BusLine, ports: u8) -> Result<Bus, Refusal>
    ensures { MatchResult result (λ bus. (cores_verdict ports (favoured line.favours) ≡ Ok tt) × BusMade line ports bus) (λ e. cores_verdict ports (favoured line.favours) ≡ Err (told e)) }
{
    let base = base_of(line.bottom, ports)?;
    match line.favours {
        Favours::Nobody => Ok(Either::First(base)),
        Favours::One(outer) => {
            let one = Favour::new(base, outer)?;
            Ok(Either::Second(Either::First(one)))
        }
        Favours::Two(outer, inner) => {
            let one = Favour::new(base, inner)?;
            let two = Favour::new(one, outer)?;
            Ok(Either::Second(Either::Second(two)))
        }
    }
}
