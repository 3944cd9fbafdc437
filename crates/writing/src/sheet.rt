// A plan as the bytes of its sheet.
ghost use Rattle.std.specs.Prelude.{◌≡◌, ◌+◌, ◌≤◌, ◌++◌, length};
ghost use Rattle.tasks.specs.Platforms.{bottom_number, favoured};
ghost use Rattle.sheets.specs.Bytes.{in_four};
ghost use Rattle.sheets.specs.Written.{platform_bytes, task_bytes, written};

use crate::text::Text;
use sheets::entry::Kind;
use tasks::platform::{Favours, Platform};
use tasks::task::Row;

// The platform's record: its length is 4 plus the favours.
fn add_platform<const ROOM: usize>(text: &mut Text<ROOM>, platform: Platform)
    requires { length text.old.bytes + 8 ≤ ROOM }
    ensures bytes { text.new.bytes ≡ text.old.bytes ++ platform_bytes platform.cores (bottom_number platform.line.bottom) (favoured platform.line.favours) }
    ensures len { length text.new.bytes ≤ length text.old.bytes + 8 }
    ensures room { text.old.room ≤ text.new.room }
{
    let kind = u8::from(Kind::Platform);
    let cores = platform.cores;
    let bottom = u8::from(platform.line.bottom);
    match platform.line.favours {
        Favours::Nobody => text.add(&[0, 4, kind, cores, bottom, 0]),
        Favours::One(outer) => text.add(&[0, 5, kind, cores, bottom, 1, outer]),
        Favours::Two(outer, inner) => text.add(&[0, 6, kind, cores, bottom, 2, outer, inner]),
    }
}

// Four bytes, the highest first.
fn add_four<const ROOM: usize>(text: &mut Text<ROOM>, n: u32)
    requires { length text.old.bytes + 4 ≤ ROOM }
    ensures bytes { text.new.bytes ≡ text.old.bytes ++ in_four n }
    ensures room { text.old.room ≤ text.new.room }
{
    text.add(&n.to_be_bytes());
}

// A task's record: its length is 25.
fn add_task<const ROOM: usize>(text: &mut Text<ROOM>, row: Row)
    requires { length text.old.bytes + 27 ≤ ROOM }
    ensures bytes { text.new.bytes ≡ text.old.bytes ++ task_bytes row }
    ensures room { text.old.room ≤ text.new.room }
{
    let kind = u8::from(Kind::Task);
    let [high, low] = row.id.to_be_bytes();
    text.add(&[0, 25, kind, high, low, row.core, row.rank]);
    add_four(text, row.spacing);
    add_four(text, row.deadline);
    add_four(text, row.a);
    add_four(text, row.e);
    add_four(text, row.r);
}

// All bytes of a plan's sheet, in place of what the text held: at most 9 and 27 for each task.
pub fn sheet_text<const ROOM: usize>(text: &mut Text<ROOM>, platform: Platform, rows: &[Row])
    requires few { length rows.now ≤ 64 }
    requires room { 4096 ≤ ROOM }
    ensures bytes { text.new.bytes ≡ written (record { cores = platform.cores; bottom = bottom_number platform.line.bottom; favours = favoured platform.line.favours; rows = rows.now }) }
    ensures room { text.old.room ≤ text.new.room }
{
    text.clear();
    text.add(&[1]);
    add_platform(text, platform);
    for row in rows {
        add_task(text, *row);
    }
}
