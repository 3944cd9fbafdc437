// Cores and the bus line of a plan.
ghost use Rattle.std.specs.Prelude.{◌≡◌, ◌<◌, ◌≤◌, true, false, length, Ok, Err, MatchResult};
ghost use Rattle.tasks.specs.Refusals.{told, refusal};
ghost use Rattle.tasks.specs.Platforms.{line_verdict, cores_verdict, is_bottom, bottom_number, favoured};

use crate::refusal::Refusal;

// The arbiter at the bottom of a bus line.
#[derive(Clone, Copy, PartialEq, Eq, Debug)]
pub enum Bottom {
    Queue,
    RoundRobin,
}

// The favoured ports of a bus line, the outermost first.
#[derive(Clone, Copy, PartialEq, Eq, Debug)]
pub enum Favours {
    Nobody,
    One(u8),
    Two(u8, u8),
}

// The arbiter that a plan is meant for: kept with the plan, and with its sheet.
#[derive(Clone, Copy, PartialEq, Eq, Debug)]
pub struct BusLine {
    pub bottom: Bottom,
    pub favours: Favours,
}

// 1 is the queue, 2 round robin.
impl TryFrom<u8> for Bottom {
    type Error = Refusal;

    ghost try_from_gives = { λ number r. MatchResult r (λ b. (bottom_number b ≡ number) × (is_bottom number ≡ true)) (λ e. (told e ≡ refusal 3) × (is_bottom number ≡ false)) };

    fn try_from(number: u8) -> Result<Bottom, Refusal> {
        match number {
            1 => Ok(Bottom::Queue),
            2 => Ok(Bottom::RoundRobin),
            _ => Err(Refusal::Kind),
        }
    }
}

impl From<Bottom> for u8 {
    ghost from_gives = { λ bottom number. number ≡ bottom_number bottom };

    fn from(bottom: Bottom) -> u8 {
        match bottom {
            Bottom::Queue => 1,
            Bottom::RoundRobin => 2,
        }
    }
}

// At most two ports, the outermost first.
impl TryFrom<&[u8]> for Favours {
    type Error = Refusal;

    ghost try_from_gives = { λ ports r. MatchResult r (λ f. (favoured f ≡ ports.now) × (length ports.now ≤ 2)) (λ e. (told e ≡ refusal 3) × (2 < length ports.now)) };

    fn try_from(ports: &[u8]) -> Result<Favours, Refusal> {
        match ports {
            [] => Ok(Favours::Nobody),
            [outer] => Ok(Favours::One(*outer)),
            [outer, inner] => Ok(Favours::Two(*outer, *inner)),
            _ => Err(Refusal::Kind),
        }
    }
}

impl BusLine {
    // The bus line that plain numbers spell: a bottom that is known, and at most two favours.
    pub fn new(bottom: u8, favours: &[u8]) -> Result<BusLine, Refusal>
        ensures { MatchResult result (λ line. (line_verdict bottom favours.now ≡ Ok tt) × (bottom_number line.bottom ≡ bottom) × (favoured line.favours ≡ favours.now)) (λ e. line_verdict bottom favours.now ≡ Err (told e)) }
    {
        Ok(BusLine {
            bottom: Bottom::try_from(bottom)?,
            favours: Favours::try_from(favours)?,
        })
    }
}

// 1 to 16 cores, numbered from 0, and a bus line that favours only ports of these cores.
#[derive(Clone, Copy, PartialEq, Eq, Debug)]
pub struct Platform {
    pub cores: u8,
    pub line: BusLine,
}

impl Platform {
    pub fn new(cores: u8, line: BusLine) -> Result<Platform, Refusal>
        ensures { MatchResult result (λ p. (cores_verdict cores (favoured line.favours) ≡ Ok tt) × (p.cores ≡ cores) × (p.line ≡ line)) (λ e. cores_verdict cores (favoured line.favours) ≡ Err (told e)) }
    {
        let in_reach = match line.favours {
            Favours::Nobody => true,
            Favours::One(outer) => outer < cores,
            Favours::Two(outer, inner) => outer < cores && inner < cores,
        };
        if cores == 0 || cores > 16 || !in_reach {
            return Err(Refusal::Core);
        }
        Ok(Platform { cores, line })
    }
}
