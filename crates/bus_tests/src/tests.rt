// What each arbiter does, table by table.
use crate::play::Step::*;
use crate::play::{all_join, favoured, play, refused, serve, table};
use bus::arbiter::Arbiter;
use bus_line::{Bus, bus_of};
use either_arbiter::Either;
use favour::Favour;
use makers_arbiter::Batches;
use queue::Queue;
use round_robin::RoundRobin;
use std::process::Abort;
use std::test::Fail;
use tasks::limit::Limit;
use tasks::platform::{Bottom, BusLine, Favours};
use tasks::refusal::Refusal;

#[test]
fn queue_serves_in_the_order_of_joining(rt: HostRuntime) -> Result<(), Fail> {
    table(
        &rt,
        Queue::new(4),
        &[
            Joins(2),
            Joins(0),
            Joins(3),
            Idle(false),
            Grants(2),
            Joins(1),
            Ends,
            Grants(0),
            Ends,
            Joins(2),
            Grants(3),
            Ends,
            Grants(1),
            Ends,
            Grants(2),
            Idle(false),
            Ends,
            Limits(0, 3, Some(1)),
        ],
    )
}

#[test]
fn queue_takes_every_port(rt: HostRuntime) -> Result<(), Fail> {
    let mut bus = all_join(Queue::new(16))?;
    for port in (0..16).rev() {
        serve(&rt, &mut bus, port)?;
    }
    assert!(rt; bus.idle());
    Ok(())
}

#[test]
fn ring_of_one(rt: HostRuntime) -> Result<(), Fail> {
    table(
        &rt,
        RoundRobin::new(1),
        &[
            Joins(0),
            Grants(0),
            NoJoin(0, 15),
            Ends,
            Joins(0),
            Grants(0),
            Ends,
            NoGrant(16),
        ],
    )
}

#[test]
fn ring_of_three(rt: HostRuntime) -> Result<(), Fail> {
    // Before any grant the count starts at 0; then it starts one past the last granted.
    table(
        &rt,
        RoundRobin::new(3),
        &[
            Joins(2),
            Joins(0),
            Grants(0),
            Joins(1),
            Ends,
            Joins(0),
            Grants(1),
            Ends,
            Grants(2),
            Ends,
            Grants(0),
            Ends,
            Joins(0),
            Joins(2),
            Grants(2),
            Ends,
            Grants(0),
            Ends,
            Limits(2, 0, Some(1)),
        ],
    )
}

#[test]
fn ring_of_sixteen(rt: HostRuntime) -> Result<(), Fail> {
    // From the last port the count goes on at 0.
    table(
        &rt,
        RoundRobin::new(16),
        &[
            Joins(15),
            Grants(15),
            Joins(14),
            Joins(0),
            Ends,
            Joins(15),
            Grants(0),
            Ends,
            Grants(14),
            Ends,
            Grants(15),
            Ends,
        ],
    )
}

#[test]
fn ring_takes_every_port(rt: HostRuntime) -> Result<(), Fail> {
    let mut bus = all_join(RoundRobin::new(16))?;
    for port in 0..16 {
        serve(&rt, &mut bus, port)?;
    }
    assert!(rt; bus.idle());
    Ok(())
}

#[test]
fn one_favour(rt: HostRuntime) -> Result<(), Fail> {
    table(
        &rt,
        favoured(Queue::new(3), 1),
        &[
            Joins(0),
            Joins(2),
            Joins(1),
            Grants(1),
            Ends,
            Joins(1),
            Grants(1),
            Ends,
            Grants(0),
            Joins(1),
            Ends,
            Joins(0),
            Grants(1),
            Ends,
            Grants(2),
            Ends,
            Grants(0),
            Ends,
            Limits(0, 1, None),
            Limits(1, 0, Some(1)),
            Limits(0, 2, Some(1)),
        ],
    )
}

#[test]
fn two_favours(rt: HostRuntime) -> Result<(), Fail> {
    table(
        &rt,
        favoured(favoured(RoundRobin::new(4), 2), 3),
        &[
            Joins(1),
            Joins(0),
            Joins(2),
            Joins(3),
            Grants(3),
            Ends,
            Grants(2),
            Ends,
            Grants(0),
            Joins(2),
            Ends,
            Grants(2),
            Ends,
            Grants(1),
            Ends,
            Limits(2, 3, None),
            Limits(3, 2, Some(1)),
            Limits(0, 2, None),
        ],
    )
}

#[test]
fn a_favour_twice_on_one_port(rt: HostRuntime) -> Result<(), Fail> {
    table(
        &rt,
        favoured(favoured(Queue::new(3), 1), 1),
        &[
            Joins(2),
            Joins(1),
            NoJoin(1, 15),
            Grants(1),
            NoJoin(1, 15),
            NoGrant(17),
            Ends,
            Grants(2),
            Ends,
            Limits(0, 1, None),
            Limits(1, 0, Some(1)),
        ],
    )
}

#[test]
fn batches(rt: HostRuntime) -> Result<(), Fail> {
    // 0 and 3 join while the batch of 1 and 2 is served: they make the next one.
    table(
        &rt,
        Batches::new(4),
        &[
            Joins(2),
            Joins(1),
            Grants(1),
            Joins(0),
            Ends,
            Grants(2),
            Joins(3),
            Ends,
            Grants(0),
            Joins(1),
            Ends,
            Joins(0),
            Grants(3),
            Ends,
            Grants(0),
            Ends,
            Grants(1),
            Ends,
            Limits(0, 1, Some(2)),
        ],
    )
}

// Each refusal of a call alone, and with one that is judged later: nobody waits during a service, which is 16 before 17.
fn refusals<B: Arbiter>(rt: &impl Abort, made: Result<B, Refusal>) -> Result<(), Fail> {
    table(
        rt,
        made,
        &[
            NoEnd(18),
            NoGrant(16),
            NoJoin(3, 6),
            NoJoin(255, 6),
            Joins(2),
            NoJoin(2, 15),
            NoJoin(3, 6),
            NoEnd(18),
            Grants(2),
            NoJoin(2, 15),
            NoJoin(3, 6),
            NoGrant(16),
            Joins(0),
            NoGrant(17),
            Ends,
            Grants(0),
            Ends,
            NoEnd(18),
            NoGrant(16),
            NoLimit(3, 0, 6),
            NoLimit(0, 3, 6),
            NoLimit(1, 1, 6),
            NoLimit(3, 3, 6),
        ],
    )
}

#[test]
fn refusals_of_calls(rt: HostRuntime) -> Result<(), Fail> {
    refusals(&rt, Queue::new(3))?;
    refusals(&rt, RoundRobin::new(3))?;
    refusals(&rt, Batches::new(3))
}

#[test]
fn refusals_of_calls_on_favours(rt: HostRuntime) -> Result<(), Fail> {
    refusals(&rt, favoured(Queue::new(3), 2))?;
    refusals(&rt, favoured(RoundRobin::new(3), 0))?;
    refusals(&rt, favoured(favoured(Batches::new(3), 0), 2))
}

#[test]
fn refusals_of_makings(rt: HostRuntime) {
    for ports in [0, 17, 255] {
        assert_eq!(rt; refused(Queue::new(ports)), Some(6));
        assert_eq!(rt; refused(RoundRobin::new(ports)), Some(6));
        assert_eq!(rt; refused(Batches::new(ports)), Some(6));
    }
}

#[test]
fn a_refused_favour_hands_the_arbiter_back(rt: HostRuntime) -> Result<(), Fail> {
    let mut bus = Queue::new(3)?;
    play(&rt, &mut bus, &[Joins(2), Joins(1)])?;
    // The port is too high and the arbiter is not idle: 6 is judged before 17.
    let Err(high) = Favour::new(bus, 3) else {
        return Err(Fail::new("taken"));
    };
    assert_eq!(rt; high.why.number(), Some(6));
    let Err(busy) = Favour::new(high.below, 0) else {
        return Err(Fail::new("taken"));
    };
    assert_eq!(rt; busy.why.number(), Some(17));
    let mut back = busy.below;
    play(&rt, &mut back, &[Grants(2), Ends, Grants(1), Ends])
}

fn made(bottom: Bottom, favours: Favours, ports: u8) -> Result<Bus, Refusal> {
    bus_of(BusLine { bottom, favours }, ports)
}

#[test]
fn bus_lines(rt: HostRuntime) -> Result<(), Fail> {
    table(
        &rt,
        made(Bottom::Queue, Favours::Nobody, 3),
        &[
            Joins(2),
            Joins(1),
            Joins(0),
            Grants(2),
            Ends,
            Grants(1),
            Ends,
            Grants(0),
            Ends,
        ],
    )?;
    table(
        &rt,
        made(Bottom::RoundRobin, Favours::One(1), 3),
        &[
            Joins(2),
            Joins(1),
            Joins(0),
            Grants(1),
            Ends,
            Grants(0),
            Ends,
            Grants(2),
            Ends,
        ],
    )?;
    table(
        &rt,
        made(Bottom::Queue, Favours::Two(0, 1), 3),
        &[
            Joins(2),
            Joins(1),
            Joins(0),
            Grants(0),
            Ends,
            Grants(1),
            Ends,
            Grants(2),
            Ends,
        ],
    )
}

#[test]
fn bus_lines_refused(rt: HostRuntime) -> Result<(), Fail> {
    assert_eq!(rt; refused(made(Bottom::Queue, Favours::Nobody, 0)), Some(6));
    assert_eq!(rt;
        refused(made(Bottom::RoundRobin, Favours::Nobody, 17)),
        Some(6)
    );
    assert_eq!(rt; refused(made(Bottom::Queue, Favours::One(3), 3)), Some(6));
    assert_eq!(rt;
        refused(made(Bottom::Queue, Favours::Two(0, 3), 3)),
        Some(6)
    );
    refusals(&rt, made(Bottom::Queue, Favours::Two(0, 2), 3))
}

#[test]
fn one_list_of_different_arbiters(rt: HostRuntime) -> Result<(), Fail> {
    let ring = made(Bottom::RoundRobin, Favours::Nobody, 2)?;
    let mut buses = [Either::First(ring), Either::Second(Batches::new(2)?)];
    for bus in buses.iter_mut() {
        play(
            &rt,
            bus,
            &[
                Joins(1),
                Joins(0),
                Grants(0),
                Ends,
                Joins(0),
                Grants(1),
                Ends,
                Grants(0),
                Ends,
            ],
        )?;
    }
    Ok(())
}
