// Edits of a plan, case by case: which refusal comes, alone and together with a later one.
#![tactic(auto)]

#[cfg(test)]
mod tests {
    use rules::table::Table;
    use settler::plan::Plan;
    use std::test::Fail;
    use tasks::platform::{BusLine, Platform};
    use tasks::refusal::Refusal;
    use tasks::task::Row;

    // a task that every plan of one core or more takes, if its id and rank are free
    const SOUND: Row = Row {
        id: 1,
        core: 0,
        rank: 1,
        spacing: 40,
        deadline: 40,
        a: 2,
        e: 5,
        r: 1,
    };

    #[test]
    fn open_judges_its_numbers(rt: HostRuntime) {
        let table: [(u8, u8, &[u8], Option<Refusal>); 13] = [
            (1, 1, &[], None),
            (16, 2, &[15, 0], None),
            (2, 1, &[1, 1], None),
            (2, 0, &[], Some(Refusal::Kind)),
            (2, 3, &[], Some(Refusal::Kind)),
            (2, 1, &[0, 1, 0], Some(Refusal::Kind)),
            (0, 1, &[], Some(Refusal::Core)),
            (17, 1, &[], Some(Refusal::Core)),
            (2, 1, &[2], Some(Refusal::Core)),
            (2, 1, &[0, 2], Some(Refusal::Core)),
            (2, 1, &[2, 0], Some(Refusal::Core)),
            // 3 before 6
            (0, 3, &[9], Some(Refusal::Kind)),
            (0, 1, &[9, 9, 9], Some(Refusal::Kind)),
        ];
        for (cores, bottom, favours, expected) in table {
            let answer = Plan::open(rt.alloc(), cores, bottom, favours);
            assert_eq!(rt; answer.err(), expected);
        }
    }

    #[test]
    fn add_judges_in_order(rt: HostRuntime) -> Result<(), Fail> {
        let mut plan = Plan::open(rt.alloc(), 2, 1, &[])?;
        plan.add(SOUND)?;
        let table = [
            // each refusal alone
            (
                Row {
                    id: 2,
                    core: 2,
                    rank: 2,
                    ..SOUND
                },
                Err(Refusal::Core),
            ),
            (Row { rank: 2, ..SOUND }, Err(Refusal::Known)),
            (
                Row {
                    id: 2,
                    rank: 0,
                    ..SOUND
                },
                Err(Refusal::Rank),
            ),
            (Row { id: 2, ..SOUND }, Err(Refusal::Rank)),
            (
                Row {
                    id: 2,
                    rank: 2,
                    a: 0,
                    ..SOUND
                },
                Err(Refusal::Length),
            ),
            (
                Row {
                    id: 2,
                    rank: 2,
                    e: 0,
                    ..SOUND
                },
                Err(Refusal::Length),
            ),
            (
                Row {
                    id: 2,
                    rank: 2,
                    r: 0,
                    ..SOUND
                },
                Err(Refusal::Length),
            ),
            (
                Row {
                    id: 2,
                    rank: 2,
                    deadline: 7,
                    ..SOUND
                },
                Err(Refusal::Times),
            ),
            (
                Row {
                    id: 2,
                    rank: 2,
                    deadline: 41,
                    ..SOUND
                },
                Err(Refusal::Times),
            ),
            (
                Row {
                    id: 2,
                    rank: 2,
                    a: u32::MAX,
                    e: u32::MAX,
                    r: u32::MAX,
                    ..SOUND
                },
                Err(Refusal::Times),
            ),
            // and together with a later one
            (Row { core: 2, ..SOUND }, Err(Refusal::Core)),
            (Row { rank: 0, ..SOUND }, Err(Refusal::Known)),
            (
                Row {
                    id: 2,
                    a: 0,
                    ..SOUND
                },
                Err(Refusal::Rank),
            ),
            (
                Row {
                    id: 2,
                    rank: 0,
                    deadline: 0,
                    ..SOUND
                },
                Err(Refusal::Rank),
            ),
            (
                Row {
                    id: 2,
                    rank: 2,
                    a: 0,
                    deadline: 0,
                    ..SOUND
                },
                Err(Refusal::Length),
            ),
            // the same rank on another core is free
            (
                Row {
                    id: 2,
                    core: 1,
                    ..SOUND
                },
                Ok(()),
            ),
        ];
        for (row, expected) in table {
            assert_eq!(rt; plan.add(row), expected);
        }
        Ok(())
    }

    #[test]
    fn bounds_are_met_exactly(rt: HostRuntime) -> Result<(), Fail> {
        let mut plan = Plan::open(rt.alloc(), 1, 1, &[])?;
        let long = Row {
            spacing: 10_000_000,
            deadline: 10_000_000,
            ..SOUND
        };
        assert_eq!(rt;
            plan.add(Row {
                spacing: 10_000_001,
                ..long
            }),
            Err(Refusal::Times)
        );
        assert_eq!(rt; plan.add(long), Ok(()));
        let full = Row {
            id: 2,
            rank: 2,
            a: 10,
            e: 20,
            r: 10,
            ..SOUND
        };
        assert_eq!(rt; plan.add(Row { e: 21, ..full }), Err(Refusal::Times));
        assert_eq!(rt; plan.add(full), Ok(()));
        Ok(())
    }

    #[test]
    fn a_plan_takes_64_tasks(rt: HostRuntime) -> Result<(), Fail> {
        let mut plan = Plan::open(rt.alloc(), 1, 1, &[])?;
        for i in 1..65u8 {
            assert_eq!(rt;
                plan.add(Row {
                    id: u16::from(i),
                    rank: i,
                    ..SOUND
                }),
                Ok(())
            );
        }
        let more = Row {
            id: 65,
            rank: 65,
            ..SOUND
        };
        assert_eq!(rt; plan.add(more), Err(Refusal::Full));
        // known before full, full before rank
        assert_eq!(rt; plan.add(Row { id: 64, ..more }), Err(Refusal::Known));
        assert_eq!(rt; plan.add(Row { rank: 0, ..more }), Err(Refusal::Full));
        assert_eq!(rt; plan.remove(1), Ok(()));
        assert_eq!(rt; plan.add(more), Ok(()));
        Ok(())
    }

    #[test]
    fn change_and_remove_judge_in_order(rt: HostRuntime) -> Result<(), Fail> {
        let mut plan = Plan::open(rt.alloc(), 2, 1, &[])?;
        plan.add(SOUND)?;
        plan.add(Row {
            id: 2,
            rank: 2,
            ..SOUND
        })?;
        assert_eq!(rt;
            plan.change(Row {
                core: 2,
                id: 9,
                ..SOUND
            }),
            Err(Refusal::Core)
        );
        assert_eq!(rt;
            plan.change(Row {
                id: 9,
                rank: 0,
                ..SOUND
            }),
            Err(Refusal::Unknown)
        );
        assert_eq!(rt;
            plan.change(Row {
                rank: 2,
                a: 0,
                ..SOUND
            }),
            Err(Refusal::Rank)
        );
        assert_eq!(rt;
            plan.change(Row {
                rank: 0,
                a: 0,
                ..SOUND
            }),
            Err(Refusal::Rank)
        );
        assert_eq!(rt;
            plan.change(Row {
                a: 0,
                deadline: 0,
                ..SOUND
            }),
            Err(Refusal::Length)
        );
        assert_eq!(rt;
            plan.change(Row {
                deadline: 0,
                ..SOUND
            }),
            Err(Refusal::Times)
        );
        // a task does not clash with its own rank
        assert_eq!(rt; plan.change(SOUND), Ok(()));
        assert_eq!(rt;
            plan.change(Row {
                core: 1,
                rank: 2,
                ..SOUND
            }),
            Ok(())
        );
        assert_eq!(rt; plan.remove(9), Err(Refusal::Unknown));
        assert_eq!(rt; plan.remove(2), Ok(()));
        assert_eq!(rt; plan.remove(2), Err(Refusal::Unknown));
        Ok(())
    }

    #[test]
    fn a_table_keeps_its_tasks(rt: HostRuntime) -> Result<(), Fail> {
        let platform = Platform::new(2, BusLine::new(1, &[])?)?;
        let other = Platform::new(1, BusLine::new(2, &[0])?)?;
        let mut table = Table::new(rt.alloc(), platform)?;
        assert_eq!(rt; table.add(SOUND), Ok(()));
        assert_eq!(rt; table.add(SOUND), Err(Refusal::Known));
        let third = Row { rank: 3, ..SOUND };
        assert_eq!(rt; table.change(third), Ok(()));
        assert_eq!(rt; table.place_of(1), Some(0));
        assert_eq!(rt; table.rows(), [third].as_slice());
        assert_eq!(rt; table.remove(2), Err(Refusal::Unknown));
        assert_eq!(rt; table.platform(), platform);
        table.begin(other);
        assert_eq!(rt; table.place_of(1), None);
        assert_eq!(rt; table.platform(), other);
        Ok(())
    }

    #[test]
    fn refusals_are_printed(rt: HostRuntime) -> Result<(), Fail> {
        let table = [
            (Refusal::Times, "refused 12"),
            (Refusal::Script(7), "refused 19"),
            (Refusal::Memory, "no memory"),
        ];
        for (why, text) in table {
            assert_eq!(rt; why.to_string(rt.alloc())?.as_str(), text);
        }
        Ok(())
    }
}
