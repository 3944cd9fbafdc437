// Loading: the records of a sheet in order, each task as an add to those before it.
ghost use Rattle.std.specs.Prelude.{◌≡◌, suc, length, vec_capacity};
ghost use Rattle.tasks.specs.Refusals.{told};
ghost use Rattle.sheets.specs.Records.{spot};
ghost use Rattle.sheets.specs.Spelled.{rows_from, spelled, sheet_fault, plan_fault};
ghost use Rattle.sheets.specs.Answers.{mistake, gathered, plan_seen};

use crate::order::{first, later};
use crate::placed::Placed;
use crate::plan::{Fault, Layer};
use crate::reader::Reader;
use rules::table::Table;
use tasks::platform::Platform;
use tasks::refusal::Refusal;

// What the layers below the plan's find is the sheet's fault.
impl From<Placed<Refusal>> for Fault {
    ghost from_gives = { λ bad fault. mistake fault ≡ sheet_fault (spot bad) };

    fn from(bad: Placed<Refusal>) -> Fault {
        Fault {
            refusal: bad.what,
            layer: Layer::Sheet,
            place: bad.place,
        }
    }
}

impl Fault {
    // The plan refuses what the record at the place spells.
    fn by_plan(refusal: Refusal, place: usize) -> Fault
        ensures { mistake result ≡ plan_fault (told refusal) place }
    {
        Fault {
            refusal,
            layer: Layer::Plan,
            place,
        }
    }
}

// Adds the tasks from the reader's place to the sheet's end.
fn gather(reader: &mut Reader<'_>, table: &mut Table) -> Result<(), Fault>
    ensures platform { table.new.platform ≡ table.old.platform }
    ensures room { vec_capacity table.new.rows ≡ vec_capacity table.old.rows }
    ensures value { gathered result table.new.rows.items ≡ rows_from (suc (length reader.old.sheet.now)) table.old.platform.cores reader.old.sheet.now reader.old.place table.old.rows.items }
{
    while let Some(task) = later(reader)? {
        table
            .add(task.what)
            .map_err(|refusal| Fault::by_plan(refusal, task.place))?;
    }
    Ok(())
}

// The platform and the tasks that a sheet spells, in order, in place of what the table held. After a fault it holds what may
// stand in a plan, and no more is said of it. Its room stays in either case.
pub fn read_plan(sheet: &[u8], table: &mut Table) -> Result<(), Fault>
    ensures plan { plan_seen result table.new ≡ spelled sheet.now }
    ensures room { vec_capacity table.new.rows ≡ vec_capacity table.old.rows }
{
    let mut reader = Reader::new(sheet)?;
    let start = first(&mut reader)?;
    let platform = Platform::new(start.what.cores, start.what.line).map_err(
        |refusal| Fault::by_plan(refusal, start.place),
    )?;
    table.begin(platform);
    gather(&mut reader, table)
}
