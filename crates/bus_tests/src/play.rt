// A table of calls on an arbiter, each with its answer.
use bus::arbiter::Arbiter;
use favour::Favour;
use std::process::Abort;
use std::test::Fail;
use tasks::limit::Limit;
use tasks::refusal::Refusal;

// A table of values reads like a script; a list of closures would name the arbiter and the answer's check in each row.
#[derive(Clone, Copy)]
pub(crate) enum Step {
    // a join of this port is taken
    Joins(u8),
    // a grant answers this port
    Grants(u8),
    // a done is taken
    Ends,
    // whether the arbiter is idle
    Idle(bool),
    // the limit of two ports
    Limits(u8, u8, Limit),
    // each call refused, with this number: that of the rules, as a maker reads it
    NoJoin(u8, u8),
    NoGrant(u8),
    NoEnd(u8),
    NoLimit(u8, u8, u8),
}

// The number of the refusal; none where the call was taken.
pub(crate) fn refused<T: Drop>(answer: Result<T, Refusal>) -> Option<u8> {
    answer.err().and_then(|why| why.number())
}

fn turn<B: Arbiter>(rt: &impl Abort, bus: &mut B, step: Step) -> Result<(), Fail> {
    match step {
        Step::Joins(a) => bus.join(a)?,
        Step::Grants(c) => assert_eq!(rt; bus.grant()?, c),
        Step::Ends => bus.done()?,
        Step::Idle(is) => assert_eq!(rt; bus.idle(), is),
        Step::Limits(a, b, l) => assert_eq!(rt; bus.limit(a, b)?, l),
        Step::NoJoin(a, n) => assert_eq!(rt; refused(bus.join(a)), Some(n)),
        Step::NoGrant(n) => assert_eq!(rt; refused(bus.grant()), Some(n)),
        Step::NoEnd(n) => assert_eq!(rt; refused(bus.done()), Some(n)),
        Step::NoLimit(a, b, n) => assert_eq!(rt; refused(bus.limit(a, b)), Some(n)),
    }
    Ok(())
}

pub(crate) fn play<B: Arbiter>(rt: &impl Abort, bus: &mut B, steps: &[Step]) -> Result<(), Fail> {
    for step in steps {
        turn(rt, bus, *step)?;
    }
    Ok(())
}

// A table on an arbiter that was just made, from idle to idle.
pub(crate) fn table<B: Arbiter>(
    rt: &impl Abort,
    made: Result<B, Refusal>,
    steps: &[Step],
) -> Result<(), Fail> {
    let mut bus = made?;
    assert!(rt; bus.idle());
    play(rt, &mut bus, steps)?;
    assert!(rt; bus.idle());
    Ok(())
}

pub(crate) fn favoured<B: Arbiter>(
    below: Result<B, Refusal>,
    port: u8,
) -> Result<Favour<B>, Refusal> {
    Ok(Favour::new(below?, port)?)
}

// All 16 ports join, the highest first.
pub(crate) fn all_join<B: Arbiter>(made: Result<B, Refusal>) -> Result<B, Fail> {
    let mut bus = made?;
    for port in (0..16).rev() {
        bus.join(port)?;
    }
    Ok(bus)
}

// The next turn is this port's.
pub(crate) fn serve<B: Arbiter>(rt: &impl Abort, bus: &mut B, port: u8) -> Result<(), Fail> {
    play(rt, bus, &[Step::Grants(port), Step::Ends])
}
