// Settling and telling windows, case by case.
#![tactic(auto)]

#[cfg(test)]
mod tests {
    use bus::arbiter::Arbiter;
    use bus_line::bus_of;
    use favour::Favour;
    use queue::Queue;
    use round_robin::RoundRobin;
    use settler::plan::Plan;
    use std::alloc::Global;
    use std::process::Abort;
    use std::test::Fail;
    use tasks::outcome::Outcome;
    use tasks::outcome::Outcome::*;
    use tasks::platform::BusLine;
    use tasks::refusal::Refusal;
    use tasks::task::Row;

    const FIRST: Row = Row {
        id: 1,
        core: 0,
        rank: 1,
        spacing: 40,
        deadline: 40,
        a: 2,
        e: 5,
        r: 1,
    };

    const SECOND: Row = Row {
        id: 2,
        core: 0,
        rank: 2,
        spacing: 60,
        deadline: 60,
        a: 3,
        e: 6,
        r: 2,
    };

    const THIRD: Row = Row {
        id: 3,
        core: 1,
        rank: 1,
        spacing: 50,
        deadline: 50,
        a: 4,
        e: 8,
        r: 2,
    };

    // the three-task box, with a deadline for task 3
    fn boxed(heap: Global, deadline: u32) -> Result<Plan, Refusal> {
        let mut plan = Plan::open(heap, 2, 1, &[])?;
        plan.add(FIRST)?;
        plan.add(SECOND)?;
        plan.add(Row { deadline, ..THIRD })?;
        Ok(plan)
    }

    // settling answers so many late tasks, and then each window is told
    fn tells<B: Arbiter>(
        rt: &impl Abort,
        plan: &mut Plan,
        bus: Result<B, Refusal>,
        late: usize,
        outcomes: [Outcome; 3],
    ) -> Result<(), Fail> {
        assert_eq!(rt; plan.settle(&bus?), Ok(late));
        for (id, outcome) in [1, 2, 3].into_iter().zip(outcomes) {
            assert_eq!(rt; plan.window(id), Ok(outcome));
        }
        Ok(())
    }

    #[test]
    fn the_box_on_the_queue(rt: HostRuntime) -> Result<(), Fail> {
        let mut plan = boxed(rt.alloc(), 50)?;
        tells(
            &rt,
            &mut plan,
            Queue::new(2),
            0,
            [Window(31), Window(31), Window(20)],
        )
    }

    #[test]
    fn the_box_on_round_robin(rt: HostRuntime) -> Result<(), Fail> {
        let mut plan = boxed(rt.alloc(), 50)?;
        tells(
            &rt,
            &mut plan,
            RoundRobin::new(2),
            0,
            [Window(31), Window(31), Window(20)],
        )
    }

    // the outcomes told before give way to those of the next arbiter
    #[test]
    fn the_box_with_port_0_favoured(rt: HostRuntime) -> Result<(), Fail> {
        let mut plan = boxed(rt.alloc(), 50)?;
        tells(
            &rt,
            &mut plan,
            Queue::new(2),
            0,
            [Window(31), Window(31), Window(20)],
        )?;
        let favoured = bus_of(BusLine::new(1, &[0])?, 2);
        tells(
            &rt,
            &mut plan,
            favoured,
            0,
            [Window(31), Window(31), Window(30)],
        )
    }

    #[test]
    fn the_box_with_a_nearer_deadline(rt: HostRuntime) -> Result<(), Fail> {
        let mut plan = boxed(rt.alloc(), 20)?;
        tells(
            &rt,
            &mut plan,
            Queue::new(2),
            0,
            [Window(25), Window(25), Window(20)],
        )
    }

    #[test]
    fn the_box_with_a_late_task(rt: HostRuntime) -> Result<(), Fail> {
        let mut plan = boxed(rt.alloc(), 19)?;
        tells(
            &rt,
            &mut plan,
            Queue::new(2),
            1,
            [Window(25), Window(25), Late(20)],
        )
    }

    #[test]
    fn a_lone_task(rt: HostRuntime) -> Result<(), Fail> {
        let mut plan = Plan::open(rt.alloc(), 1, 1, &[])?;
        assert_eq!(rt; plan.settle(&Queue::new(1)?), Ok(0));
        plan.add(Row {
            spacing: 3,
            deadline: 3,
            a: 1,
            e: 1,
            r: 1,
            ..FIRST
        })?;
        assert_eq!(rt; plan.settle(&Queue::new(1)?), Ok(0));
        assert_eq!(rt; plan.window(1), Ok(Window(3)));
        Ok(())
    }

    #[test]
    fn ports_unequal_to_cores(rt: HostRuntime) -> Result<(), Fail> {
        let mut plan = boxed(rt.alloc(), 50)?;
        assert_eq!(rt; plan.settle(&Queue::new(1)?), Err(Refusal::Ports));
        assert_eq!(rt; plan.window(1), Err(Refusal::Edited));
        assert_eq!(rt; plan.settle(&Queue::new(2)?), Ok(0));
        assert_eq!(rt; plan.settle(&Queue::new(3)?), Err(Refusal::Ports));
        assert_eq!(rt; plan.window(1), Ok(Window(31)));
        assert_eq!(rt; plan.window(3), Ok(Window(20)));
        Ok(())
    }

    #[test]
    fn an_unknown_id_comes_before_unsettled(rt: HostRuntime) -> Result<(), Fail> {
        let mut plan = boxed(rt.alloc(), 50)?;
        assert_eq!(rt; plan.window(9), Err(Refusal::Unknown));
        assert_eq!(rt; plan.window(1), Err(Refusal::Edited));
        assert_eq!(rt; plan.settle(&Queue::new(2)?), Ok(0));
        assert_eq!(rt; plan.window(9), Err(Refusal::Unknown));
        Ok(())
    }

    #[test]
    fn an_accepted_edit_takes_the_outcomes_away(rt: HostRuntime) -> Result<(), Fail> {
        let mut plan = boxed(rt.alloc(), 50)?;
        assert_eq!(rt; plan.settle(&Queue::new(2)?), Ok(0));
        // even one that changes nothing
        assert_eq!(rt; plan.change(FIRST), Ok(()));
        assert_eq!(rt; plan.window(1), Err(Refusal::Edited));
        assert_eq!(rt; plan.settle(&Queue::new(2)?), Ok(0));
        assert_eq!(rt;
            plan.add(Row {
                id: 4,
                rank: 3,
                ..FIRST
            }),
            Ok(())
        );
        assert_eq!(rt; plan.window(1), Err(Refusal::Edited));
        assert_eq!(rt; plan.settle(&Queue::new(2)?).is_ok(), true);
        assert_eq!(rt; plan.remove(4), Ok(()));
        assert_eq!(rt; plan.window(1), Err(Refusal::Edited));
        Ok(())
    }

    #[test]
    fn a_refused_edit_keeps_the_outcomes(rt: HostRuntime) -> Result<(), Fail> {
        let mut plan = boxed(rt.alloc(), 50)?;
        assert_eq!(rt; plan.settle(&Queue::new(2)?), Ok(0));
        assert_eq!(rt; plan.add(FIRST), Err(Refusal::Known));
        assert_eq!(rt; plan.window(1), Ok(Window(31)));
        assert_eq!(rt; plan.change(Row { rank: 2, ..FIRST }), Err(Refusal::Rank));
        assert_eq!(rt; plan.window(2), Ok(Window(31)));
        assert_eq!(rt; plan.remove(9), Err(Refusal::Unknown));
        assert_eq!(rt; plan.window(3), Ok(Window(20)));
        Ok(())
    }

    #[test]
    fn a_busy_arbiter_is_as_good(rt: HostRuntime) -> Result<(), Fail> {
        let mut plan = boxed(rt.alloc(), 50)?;
        let mut bus = Queue::new(2)?;
        bus.join(1)?;
        bus.grant()?;
        bus.join(0)?;
        tells(
            &rt,
            &mut plan,
            Ok(bus),
            0,
            [Window(31), Window(31), Window(20)],
        )
    }
}
