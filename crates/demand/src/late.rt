// How many of a table of outcomes are late.
ghost use Rattle.std.specs.Prelude.{◌≡◌};
ghost use Rattle.demand.specs.Settled.{late_count};

use tasks::outcome::Outcome;

pub fn late_count(outcomes: &[Outcome]) -> usize
    ensures { result ≡ late_count outcomes.now }
{
    outcomes
        .iter()
        .filter(|outcome| matches!(outcome, Outcome::Late(_)))
        .count()
}
