// Why a call is turned down. A refused call changes nothing.
ghost use Rattle.std.specs.Prelude.{◌≡◌, Some};
ghost use Rattle.tasks.specs.Refusals.{told, no_memory, number_of, refusal_text};

use std::alloc::AllocError;
use std::fmt;

#[derive(Clone, Copy, PartialEq, Eq, Debug)]
pub enum Refusal {
    // a sheet is empty, has no record, or ends inside one
    Short,
    // a sheet's first byte is no known version
    Version,
    // an unknown kind of record, a length that is wrong for it, an unknown bottom arbiter, more than two favours
    Kind,
    // a sheet's first record is no platform, or a later one is
    Place,
    // too few bytes or log rows lent for the answer
    Narrow,
    // a core or port number too high; cores or ports not 1 to 16; the limit of a port and itself
    Core,
    // the added id is in the plan
    Known,
    // the id given to the call is not in the plan
    Unknown,
    // the plan has 64 tasks
    Full,
    // the rank is 0, or another task of that core has it
    Rank,
    // a phase of length 0
    Length,
    // a + e + r ≤ deadline ≤ spacing ≤ 10,000,000 is broken
    Times,
    // nothing is settled since open or the last edit
    Edited,
    // the arbiter's ports are not the plan's cores
    Ports,
    // a join of a port that waits or is in service
    Twice,
    // a grant while nobody waits
    NoneWaits,
    // a grant during a service; a run on an arbiter, or a favour over one, that is not idle
    Busy,
    // a done without a service
    Idle,
    // a script is unlawful; its first faulty row, counted from 0
    Script(usize),
    // no memory: not of the table, so it has no number, and only the making of a plan may answer it
    Memory,
}

impl Refusal {
    // The number that the table gives this refusal; want of memory has none. Written out, since a case with a value has no number by itself.
    pub fn number(self) -> Option<u8>
        ensures { result ≡ number_of (told self) }
    {
        match self {
            Refusal::Short => Some(1),
            Refusal::Version => Some(2),
            Refusal::Kind => Some(3),
            Refusal::Place => Some(4),
            Refusal::Narrow => Some(5),
            Refusal::Core => Some(6),
            Refusal::Known => Some(7),
            Refusal::Unknown => Some(8),
            Refusal::Full => Some(9),
            Refusal::Rank => Some(10),
            Refusal::Length => Some(11),
            Refusal::Times => Some(12),
            Refusal::Edited => Some(13),
            Refusal::Ports => Some(14),
            Refusal::Twice => Some(15),
            Refusal::NoneWaits => Some(16),
            Refusal::Busy => Some(17),
            Refusal::Idle => Some(18),
            Refusal::Script(_) => Some(19),
            Refusal::Memory => None,
        }
    }
}

// A number is told as `refused` with it.
impl fmt::Display for Refusal {
    ghost output = { λ e. Some (refusal_text (told e)) };

    fn fmt<W: fmt::Write>(&self, f: &mut fmt::Formatter<W>) -> fmt::Result {
        match self.number() {
            Some(number) => write!(f, "refused {number}"),
            None => f.write_str("no memory"),
        }
    }
}

impl From<AllocError> for Refusal {
    ghost from_gives = { λ _ e. told e ≡ no_memory };

    fn from(_: AllocError) -> Refusal {
        Self::Memory
    }
}
