// The sheet of the box with three tasks, whole and with bytes changed, and sheets of many tasks.
use settler::plan::Plan;
use sheets::plan::Layer;
use std::test::Fail;
use tasks::refusal::Refusal;

// Task 3 of the box: its record.
pub fn third_record() -> [u8; 27] {
    [
        0x00, 0x19, 0x02, 0x00, 0x03, 0x01, 0x01, 0x00, 0x00, 0x00, 0x32, 0x00, 0x00, 0x00, 0x32,
        0x00, 0x00, 0x00, 0x04, 0x00, 0x00, 0x00, 0x08, 0x00, 0x00, 0x00, 0x02,
    ]
}

// The box: the version, the platform at byte 1, and the tasks at bytes 7, 34 and 61.
pub fn box_sheet() -> [u8; 88] {
    [
        1, //
        0, 4, 1, 2, 1, 0, //
        0, 25, 2, 0, 1, 0, 1, 0, 0, 0, 40, 0, 0, 0, 40, 0, 0, 0, 2, 0, 0, 0, 5, 0, 0, 0, 1, //
        0, 25, 2, 0, 2, 0, 2, 0, 0, 0, 60, 0, 0, 0, 60, 0, 0, 0, 3, 0, 0, 0, 6, 0, 0, 0, 2, //
        0, 25, 2, 0, 3, 1, 1, 0, 0, 0, 50, 0, 0, 0, 50, 0, 0, 0, 4, 0, 0, 0, 8, 0, 0, 0, 2,
    ]
}

// The refusal, the layer and the place of a fault, or none where the sheet loads: in a row of a table they read better without names.
pub fn fault_of(plan: &mut Plan, sheet: &[u8]) -> Option<(Refusal, Layer, usize)> {
    let fault = plan.load(sheet).err()?;
    Some((fault.refusal, fault.layer, fault.place))
}

// The box with some bytes changed.
fn changed(changes: &[(usize, u8)]) -> [u8; 88] {
    let mut sheet = box_sheet();
    for (place, byte) in changes {
        if let Some(here) = sheet.get_mut(*place) {
            *here = *byte;
        }
    }
    sheet
}

// What comes of the first bytes of a sheet.
fn fault_of_front(plan: &mut Plan, sheet: &[u8], count: usize) -> Option<(Refusal, Layer, usize)> {
    fault_of(plan, sheet.get(..count).unwrap_or(sheet))
}

// What comes of the box's first bytes, with some of them changed.
pub fn fault_with(
    plan: &mut Plan,
    changes: &[(usize, u8)],
    count: usize,
) -> Option<(Refusal, Layer, usize)> {
    let sheet = changed(changes);
    fault_of_front(plan, &sheet, count)
}

// A sheet of one core and as many tasks, each with its own id and rank.
pub fn many(rt: &HostRuntime, tasks: u8) -> Result<Vec<u8>, Fail> {
    let mut sheet = Vec::with_capacity(rt.alloc(), 2048)?;
    sheet.extend_from_slice(&[1, 0, 4, 1, 1, 2, 0])?;
    for i in 0..tasks {
        sheet.extend_from_slice(&[
            0,
            25,
            2,
            1,
            i,
            0,
            i + 1,
            0,
            0,
            0,
            40,
            0,
            0,
            0,
            40,
            0,
            0,
            0,
            2,
            0,
            0,
            0,
            5,
            0,
            0,
            0,
            1,
        ])?;
    }
    Ok(sheet)
}
