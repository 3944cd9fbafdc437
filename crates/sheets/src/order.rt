// The order of records: a platform first, and then tasks only.
ghost use Rattle.std.specs.Prelude.{◌≡◌};
ghost use Rattle.sheets.specs.Records.{due, past};
ghost use Rattle.sheets.specs.Spelled.{head_in, task_record};
ghost use Rattle.sheets.specs.Answers.{start_seen, listed_seen};

use crate::entry::Entry;
use crate::placed::Placed;
use crate::reader::Reader;
use tasks::platform::BusLine;
use tasks::refusal::Refusal;
use tasks::task::Row;

// The platform at the head of a sheet: no Platform, since the plan layer has not judged its cores.
#[derive(Clone, Copy)]
pub struct Start {
    pub cores: u8,
    pub line: BusLine,
}

// The first record: a platform.
pub fn first(reader: &mut Reader<'_>) -> Result<Placed<Start>, Placed<Refusal>>
    ensures value { start_seen result ≡ head_in reader.old.place (due reader.old) }
    ensures moved { reader.new ≡ past reader.old }
{
    let due = reader.place();
    let Some(found) = reader.next()? else {
        return Err(Placed::at(due, Refusal::Short));
    };
    match Entry::try_from(found)? {
        Entry::Platform(cores, line) => Ok(Placed::at(found.place, Start { cores, line })),
        Entry::Task(_) => Err(Placed::at(found.place, Refusal::Place)),
    }
}

// A later record: a task, or none at the sheet's end.
pub fn later(reader: &mut Reader<'_>) -> Result<Option<Placed<Row>>, Placed<Refusal>>
    ensures value { listed_seen result ≡ task_record (due reader.old) }
    ensures moved { reader.new ≡ past reader.old }
{
    let Some(found) = reader.next()? else {
        return Ok(None);
    };
    match Entry::try_from(found)? {
        Entry::Task(row) => Ok(Some(Placed::at(found.place, row))),
        Entry::Platform(_, _) => Err(Placed::at(found.place, Refusal::Place)),
    }
}
