// Loading, saving and printing.
use crate::samples::{box_sheet, fault_of, fault_with, many, third_record};
use queue::Queue;
use settler::plan::Plan;
use sheets::plan::Layer;
use std::test::Fail;
use tasks::refusal::Refusal;
use tasks::task::Row;

// the third task of the box
const THIRD: Row = Row {
    id: 3,
    core: 1,
    rank: 1,
    spacing: 50,
    deadline: 50,
    a: 4,
    e: 8,
    r: 2,
};

#[test]
fn the_third_task_is_written_as_its_record(rt: HostRuntime) -> Result<(), Fail> {
    let mut plan = Plan::open(rt.alloc(), 2, 1, &[])?;
    plan.add(THIRD)?;
    let mut out = [7u8; 40];
    assert_eq!(rt; plan.save(&mut out), Ok(34));
    assert_eq!(rt; &out[0..7], [1, 0, 4, 1, 2, 1, 0].as_slice());
    assert_eq!(rt; &out[7..34], third_record().as_slice());
    // bytes beyond those written stay
    assert_eq!(rt; &out[34..40], [7, 7, 7, 7, 7, 7].as_slice());
    Ok(())
}

#[test]
fn its_record_is_read_as_the_third_task(rt: HostRuntime) -> Result<(), Fail> {
    let mut sheet = Vec::with_capacity(rt.alloc(), 40)?;
    sheet.extend_from_slice(&[1, 0, 5, 1, 2, 2, 1, 0])?;
    sheet.extend_from_slice(&third_record())?;
    let mut plan = Plan::open(rt.alloc(), 7, 1, &[])?;
    assert_eq!(rt; fault_of(&mut plan, sheet.as_slice()), None);
    // the plan holds that task, and no other
    assert_eq!(rt; plan.add(THIRD), Err(Refusal::Known));
    assert_eq!(rt; plan.change(THIRD), Ok(()));
    let mut out = [0u8; 35];
    assert_eq!(rt; plan.save(&mut out), Ok(35));
    assert_eq!(rt; &out[..], sheet.as_slice());
    Ok(())
}

#[test]
fn the_sheet_layer_tells_1_and_2(rt: HostRuntime) -> Result<(), Fail> {
    let mut plan = Plan::open(rt.alloc(), 2, 1, &[])?;
    let table: [(&[(usize, u8)], usize, Option<(Refusal, Layer, usize)>); 8] = [
        (&[], 88, None),
        (&[], 0, Some((Refusal::Short, Layer::Sheet, 0))),
        (&[], 1, Some((Refusal::Short, Layer::Sheet, 1))),
        (&[], 2, Some((Refusal::Short, Layer::Sheet, 1))),
        (&[], 87, Some((Refusal::Short, Layer::Sheet, 61))),
        (&[(0, 2)], 88, Some((Refusal::Version, Layer::Sheet, 0))),
        (&[(0, 0)], 1, Some((Refusal::Version, Layer::Sheet, 0))),
        // the version before a short record
        (&[(0, 2)], 5, Some((Refusal::Version, Layer::Sheet, 0))),
    ];
    for (changes, count, expected) in table {
        assert_eq!(rt; fault_with(&mut plan, changes, count), expected);
    }
    Ok(())
}

#[test]
fn the_sheet_layer_tells_3(rt: HostRuntime) -> Result<(), Fail> {
    let mut plan = Plan::open(rt.alloc(), 2, 1, &[])?;
    let table: [(&[(usize, u8)], usize, usize); 12] = [
        // an unknown kind, also in place of a platform
        (&[(9, 3)], 88, 7),
        (&[(3, 0)], 88, 1),
        // a length of 0 as the last two bytes of a sheet
        (&[(62, 0)], 63, 61),
        (&[(2, 0)], 3, 1),
        // a length that is wrong for the kind
        (&[(2, 5)], 88, 1),
        (&[(8, 24)], 88, 7),
        (&[(6, 1)], 88, 1),
        // a bottom arbiter that is not 1 or 2
        (&[(5, 0)], 88, 1),
        (&[(5, 3)], 88, 1),
        // over two favours
        (&[(2, 7), (6, 3), (8, 1), (9, 1)], 88, 1),
        // 3 before 6 of one record, and before 1 of a later one
        (&[(4, 0), (5, 3)], 88, 1),
        (&[(9, 3)], 60, 7),
    ];
    for (changes, count, place) in table {
        assert_eq!(rt;
            fault_with(&mut plan, changes, count),
            Some((Refusal::Kind, Layer::Sheet, place))
        );
    }
    Ok(())
}

#[test]
fn the_sheet_layer_tells_4(rt: HostRuntime) -> Result<(), Fail> {
    let mut plan = Plan::open(rt.alloc(), 2, 1, &[])?;
    let later: [(usize, u8); 5] = [(8, 4), (9, 1), (10, 2), (11, 1), (12, 0)];
    let malformed: [(usize, u8); 5] = [(8, 4), (9, 1), (10, 2), (11, 3), (12, 0)];
    let table: [(&[(usize, u8)], Option<(Refusal, Layer, usize)>); 5] = [
        // the first record is a task
        (&[(2, 25), (3, 2)], Some((Refusal::Place, Layer::Sheet, 1))),
        // a later record is a platform, sound or with cores that do not fit
        (&later, Some((Refusal::Place, Layer::Sheet, 7))),
        (
            &[(8, 4), (9, 1), (10, 0), (11, 1), (12, 0)],
            Some((Refusal::Place, Layer::Sheet, 7)),
        ),
        // 3 before 4
        (&malformed, Some((Refusal::Kind, Layer::Sheet, 7))),
        (&[(9, 1)], Some((Refusal::Kind, Layer::Sheet, 7))),
    ];
    for (changes, expected) in table {
        assert_eq!(rt; fault_with(&mut plan, changes, 88), expected);
    }
    Ok(())
}

#[test]
fn the_plan_layer_judges_the_platform(rt: HostRuntime) -> Result<(), Fail> {
    let mut plan = Plan::open(rt.alloc(), 2, 1, &[])?;
    let table: [(&[(usize, u8)], usize); 4] = [
        (&[(4, 0)], 88),
        (&[(4, 17)], 88),
        // a favoured port without a core
        (&[(2, 5), (6, 1), (7, 2)], 88),
        // before the fault of a later record
        (&[(4, 0), (9, 3)], 20),
    ];
    for (changes, count) in table {
        assert_eq!(rt;
            fault_with(&mut plan, changes, count),
            Some((Refusal::Core, Layer::Plan, 1))
        );
    }
    Ok(())
}

#[test]
fn the_plan_layer_judges_each_task_as_an_add(rt: HostRuntime) -> Result<(), Fail> {
    let mut plan = Plan::open(rt.alloc(), 2, 1, &[])?;
    let table: [(&[(usize, u8)], usize, Refusal, usize); 11] = [
        (&[(12, 2)], 88, Refusal::Core, 7),
        (&[(38, 1)], 88, Refusal::Known, 34),
        (&[(13, 0)], 88, Refusal::Rank, 7),
        (&[(40, 1)], 88, Refusal::Rank, 34),
        (&[(25, 0)], 88, Refusal::Length, 7),
        (&[(21, 7)], 88, Refusal::Times, 7),
        // the topmost of one record
        (&[(39, 2), (38, 1)], 88, Refusal::Core, 34),
        (&[(38, 1), (40, 1)], 88, Refusal::Known, 34),
        (&[(25, 0), (21, 1)], 88, Refusal::Length, 7),
        // an earlier record's 12 before a later record's 3 or 1
        (&[(21, 7), (36, 3)], 88, Refusal::Times, 7),
        (&[(21, 7)], 87, Refusal::Times, 7),
    ];
    for (changes, count, refusal, place) in table {
        assert_eq!(rt;
            fault_with(&mut plan, changes, count),
            Some((refusal, Layer::Plan, place))
        );
    }
    Ok(())
}

#[test]
fn a_refused_load_leaves_the_plan(rt: HostRuntime) -> Result<(), Fail> {
    let mut plan = Plan::open(rt.alloc(), 2, 1, &[])?;
    assert_eq!(rt; fault_of(&mut plan, &box_sheet()), None);
    assert_eq!(rt;
        fault_with(&mut plan, &[(4, 16), (87, 0)], 88),
        Some((Refusal::Length, Layer::Plan, 61))
    );
    let mut out = vec![in rt.alloc(); 0u8; 88]?;
    assert_eq!(rt; plan.save(out.as_mut_slice()), Ok(88));
    assert_eq!(rt; out.as_slice(), box_sheet().as_slice());
    Ok(())
}

#[test]
fn a_sheet_of_64_tasks_is_saved_as_the_same_bytes(rt: HostRuntime) -> Result<(), Fail> {
    let mut plan = Plan::open(rt.alloc(), 2, 1, &[])?;
    let full = many(&rt, 64)?;
    assert_eq!(rt; fault_of(&mut plan, full.as_slice()), None);
    let mut out = vec![in rt.alloc(); 0u8; 1735]?;
    assert_eq!(rt; plan.save(out.as_mut_slice()), Ok(1735));
    assert_eq!(rt; out.as_slice(), full.as_slice());
    assert_eq!(rt;
        fault_of(&mut plan, many(&rt, 65)?.as_slice()),
        Some((Refusal::Full, Layer::Plan, 1735))
    );
    Ok(())
}

#[test]
fn a_cut_sheet_is_short_unless_records_are_whole(rt: HostRuntime) -> Result<(), Fail> {
    let mut plan = Plan::open(rt.alloc(), 2, 1, &[])?;
    for count in 0..89usize {
        let expected = match count {
            7 | 34 | 61 | 88 => None,
            0 => Some((Refusal::Short, Layer::Sheet, 0)),
            1..7 => Some((Refusal::Short, Layer::Sheet, 1)),
            8..34 => Some((Refusal::Short, Layer::Sheet, 7)),
            35..61 => Some((Refusal::Short, Layer::Sheet, 34)),
            _ => Some((Refusal::Short, Layer::Sheet, 61)),
        };
        assert_eq!(rt; fault_with(&mut plan, &[], count), expected);
    }
    Ok(())
}

#[test]
fn save_writes_all_or_nothing(rt: HostRuntime) -> Result<(), Fail> {
    let mut plan = Plan::open(rt.alloc(), 3, 2, &[2, 0])?;
    let mut few = [9u8; 8];
    assert_eq!(rt; plan.save(&mut few), Err(Refusal::Narrow));
    assert_eq!(rt; &few[..], [9, 9, 9, 9, 9, 9, 9, 9].as_slice());
    let mut enough = [9u8; 10];
    assert_eq!(rt; plan.save(&mut enough), Ok(9));
    assert_eq!(rt; &enough[..], [1, 0, 6, 1, 3, 2, 2, 2, 0, 9].as_slice());
    Ok(())
}

#[test]
fn print_needs_a_settled_plan_and_room(rt: HostRuntime) -> Result<(), Fail> {
    let mut plan = Plan::open(rt.alloc(), 2, 1, &[])?;
    let mut out = [9u8; 9];
    // 13 before 5
    assert_eq!(rt; plan.print(&mut out[0..0]), Err(Refusal::Edited));
    plan.settle(&Queue::new(2)?)?;
    assert_eq!(rt; plan.print(&mut out[0..6]), Err(Refusal::Narrow));
    assert_eq!(rt; &out[..], [9, 9, 9, 9, 9, 9, 9, 9, 9].as_slice());
    assert_eq!(rt; plan.print(&mut out), Ok(7));
    assert_eq!(rt; &out[..], b"late 0\n\x09\x09".as_slice());
    Ok(())
}

#[test]
fn the_box_prints_its_windows(rt: HostRuntime) -> Result<(), Fail> {
    let mut plan = Plan::open(rt.alloc(), 1, 2, &[])?;
    assert_eq!(rt; fault_of(&mut plan, &box_sheet()), None);
    plan.settle(&Queue::new(2)?)?;
    let mut out = [0u8; 49];
    assert_eq!(rt; plan.print(&mut out), Ok(49));
    assert_eq!(rt;
        &out[..],
        b"1 0 window 31\n2 0 window 31\n3 1 window 20\nlate 0\n".as_slice()
    );
    Ok(())
}
