// One of two arbiters: an arbiter again, so that arbiters of different types go into one list of calls.
#![tactic(auto)]

ghost use Rattle.either_arbiter.specs.Account.{either_means};
ghost use Rattle.either_arbiter.specs.Laws.{either_laws};

use bus::arbiter::Arbiter;
use tasks::limit::Limit;
use tasks::refusal::Refusal;

// A type of its own, and not that of the crate `either`: that one could be an arbiter only in the crate of the trait, which knows none.
#[derive(Drop)]
pub enum Either<X, Y> {
    First(X),
    Second(Y),
}

impl<X: Arbiter, Y: Arbiter> Arbiter for Either<X, Y> {
    ghost means = { either_means X.Arbiter.means Y.Arbiter.means };

    ghost lawful = { either_laws X.Arbiter.means Y.Arbiter.means X.Arbiter.lawful Y.Arbiter.lawful };

    fn ports(&self) -> u8 {
        match self {
            Either::First(x) => x.ports(),
            Either::Second(y) => y.ports(),
        }
    }

    fn limit(&self, a: u8, b: u8) -> Result<Limit, Refusal> {
        match self {
            Either::First(x) => x.limit(a, b),
            Either::Second(y) => y.limit(a, b),
        }
    }

    fn idle(&self) -> bool {
        match self {
            Either::First(x) => x.idle(),
            Either::Second(y) => y.idle(),
        }
    }

    fn join(&mut self, a: u8) -> Result<(), Refusal> {
        match self {
            Either::First(x) => x.join(a),
            Either::Second(y) => y.join(a),
        }
    }

    fn grant(&mut self) -> Result<u8, Refusal> {
        match self {
            Either::First(x) => x.grant(),
            Either::Second(y) => y.grant(),
        }
    }

    fn done(&mut self) -> Result<(), Refusal> {
        match self {
            Either::First(x) => x.done(),
            Either::Second(y) => y.done(),
        }
    }
}
