// Reading what a record holds.
ghost use Rattle.std.specs.Prelude.{◌≡◌, false, length, Ok, Err, MatchResult};
ghost use Rattle.tasks.specs.Refusals.{told, refusal};
ghost use Rattle.sheets.specs.Records.{part, spot};
ghost use Rattle.sheets.specs.Entries.{kind_number, is_kind, row_in, platform_in, task_in, held_in, entry_in, held};

use crate::entry::{Entry, Kind};
use crate::placed::Placed;
use crate::reader::Record;
use byteorder::{BigEndian, ByteOrder};
use tasks::platform::BusLine;
use tasks::refusal::Refusal;
use tasks::task::Row;

// 1 is a platform, 2 a task.
impl TryFrom<u8> for Kind {
    type Error = Refusal;

    ghost try_from_gives = { λ number r. MatchResult r (λ kind. kind_number kind ≡ number) (λ e. (told e ≡ refusal 3) × (is_kind number ≡ false)) };

    fn try_from(number: u8) -> Result<Kind, Refusal> {
        match number {
            1 => Ok(Kind::Platform),
            2 => Ok(Kind::Task),
            _ => Err(Refusal::Kind),
        }
    }
}

impl From<Kind> for u8 {
    ghost from_gives = { λ kind number. number ≡ kind_number kind };

    fn from(kind: Kind) -> u8 {
        match kind {
            Kind::Platform => 1,
            Kind::Task => 2,
        }
    }
}

// The platform or the task of a record, by its kind.
pub fn entry_of(found: Record<'_>) -> Result<Entry, Refusal>
    ensures { MatchResult result (λ entry. held_in (part found.entry) ≡ Ok (held entry)) (λ e. held_in (part found.entry) ≡ Err (told e)) }
{
    match Kind::try_from(found.kind)? {
        Kind::Platform => platform_of(found.body),
        Kind::Task => task_of(found.body),
    }
}

// The same, with the record's place where it is refused.
impl TryFrom<Record<'_>> for Entry {
    type Error = Placed<Refusal>;

    ghost try_from_gives = { λ found r. MatchResult r (λ entry. entry_in (part found) ≡ Ok (held entry)) (λ bad. entry_in (part found) ≡ Err (spot bad)) };

    fn try_from(found: Record<'_>) -> Result<Entry, Placed<Refusal>> {
        entry_of(found).map_err(|refusal| Placed::at(found.place, refusal))
    }
}

fn platform_of(body: &[u8]) -> Result<Entry, Refusal>
    ensures { MatchResult result (λ entry. platform_in body.now ≡ Ok (held entry)) (λ e. platform_in body.now ≡ Err (told e)) }
{
    let [cores, bottom, count, favours @ ..] = body else {
        return Err(Refusal::Kind);
    };
    if favours.len() != usize::from(*count) {
        return Err(Refusal::Kind);
    }
    let line = BusLine::new(*bottom, favours)?;
    Ok(Entry::Platform(*cores, line))
}

// A task's body, from its own first byte.
fn task_of(body: &[u8]) -> Result<Entry, Refusal>
    ensures { MatchResult result (λ entry. task_in body.now ≡ Ok (held entry)) (λ e. task_in body.now ≡ Err (told e)) }
{
    if body.len() != 24 {
        return Err(Refusal::Kind);
    }
    Ok(Entry::Task(row_of(body)))
}

// Each number stands at its own place of the body: a pattern would name 24 bytes.
fn row_of(body: &[u8]) -> Row
    requires { length body.now ≡ 24 }
    ensures { result ≡ row_in body.now }
{
    Row {
        id: BigEndian::read_u16(body),
        core: body[2],
        rank: body[3],
        spacing: BigEndian::read_u32(&body[4..]),
        deadline: BigEndian::read_u32(&body[8..]),
        a: BigEndian::read_u32(&body[12..]),
        e: BigEndian::read_u32(&body[16..]),
        r: BigEndian::read_u32(&body[20..]),
    }
}
