// How many phases of one core may come before the phases of another, over all of its turns.
ghost use Rattle.std.specs.Prelude.{◌≡◌, ◌≤◌};
ghost use Rattle.tasks.specs.Limits.{times, capped};
ghost use Rattle.argument.specs.LongestFirst.{less};
ghost use Rattle.demand.specs.Caps.{limit_of};

use tasks::limit::Limit;

#[derive(Clone, Copy, Debug)]
pub struct Cap {
    // None: no limit
    pub left: Option<u64>,
}

impl Cap {
    // A limit for each turn, over so many turns.
    pub fn new(turns: u64, limit: Limit) -> Cap
        requires { turns ≤ 10000000000 }
        ensures { limit_of result ≡ times turns limit }
    {
        Cap {
            left: limit.map(|n| turns * u64::from(n)),
        }
    }

    // Lets through as many of these phases as it can, and has so many fewer left.
    pub fn take(&mut self, many: u64) -> u64
        ensures value { result ≡ capped (limit_of self.old) many }
        ensures after { limit_of self.new ≡ less (limit_of self.old) many }
        ensures bound { result ≤ many }
    {
        let taken = self.left.map_or(many, |left| left.min(many));
        self.left = self.left.map(|left| left.saturating_sub(many));
        taken
    }
}
