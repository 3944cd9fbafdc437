// The favour: one port before all others, over any arbiter. It is an arbiter again, so favours pile up.
#![tactic(auto)]

ghost use Rattle.std.specs.Prelude.{◌≡◌, MatchResult};
ghost use Rattle.favour.specs.Account.{favour_means};
ghost use Rattle.favour.specs.Making.{Made, NotMade};
ghost use Rattle.favour.specs.Laws.{favour_laws};

use bus::arbiter::Arbiter;
use bus::ports::check_pair;
use bus::service::{check_free, end_service, is_served};
use tasks::limit::Limit;
use tasks::refusal::Refusal;

// What a favour knows itself.
#[derive(Clone, Copy, Debug)]
pub struct Own {
    // the favoured port
    port: u8,
    // whether it waits
    waits: bool,
    // the port in service, favoured or not
    served: Option<u8>,
}

#[derive(Drop)]
pub struct Favour<B> {
    own: Own,
    // never hears of the favoured port
    below: B,
}

// What could not be favoured comes back as it was.
#[derive(Drop, Debug)]
pub struct Unmade<B> {
    pub why: Refusal,
    pub below: B,
}

impl<B: Drop> From<Unmade<B>> for Refusal {
    ghost from_gives = { λ e r. r ≡ e.why };

    fn from(e: Unmade<B>) -> Refusal {
        e.why
    }
}

impl<B: Arbiter> Favour<B> {
    // Favours a port over an idle arbiter.
    // Refused, and the arbiter handed back: 6, no such port; 17, the arbiter is not idle.
    pub fn new(below: B, port: u8) -> Result<Favour<B>, Unmade<B>>
        ensures { MatchResult result (λ favour. Made B.Arbiter.means below port favour) (λ e. (e.below ≡ below) × NotMade B.Arbiter.means below port e.why) }
    {
        if port >= below.ports() {
            return Err(Unmade {
                why: Refusal::Core,
                below,
            });
        }
        if !below.idle() {
            return Err(Unmade {
                why: Refusal::Busy,
                below,
            });
        }
        let own = Own {
            port,
            waits: false,
            served: None,
        };
        Ok(Favour { own, below })
    }
}

#[tactic(auto, using(crate::specs::Turns::own_wanted))]
impl<B: Arbiter> Arbiter for Favour<B> {
    ghost means = { favour_means B.Arbiter.means };

    ghost lawful = { favour_laws B.Arbiter.means B.Arbiter.lawful };

    fn ports(&self) -> u8 {
        self.below.ports()
    }

    fn limit(&self, a: u8, b: u8) -> Result<Limit, Refusal> {
        check_pair(self.below.ports(), a, b)?;
        if b == self.own.port {
            return Ok(None);
        }
        if a == self.own.port {
            return Ok(Some(1));
        }
        self.below.limit(a, b)
    }

    fn idle(&self) -> bool {
        // A value that is idle stands, so its favoured port is a port.
        !self.own.waits
            && self.own.served.is_none()
            && self.own.port < self.below.ports()
            && self.below.idle()
    }

    fn join(&mut self, a: u8) -> Result<(), Refusal> {
        if a != self.own.port {
            return self.below.join(a);
        }
        if self.own.waits || is_served(self.own.served, a) {
            return Err(Refusal::Twice);
        }
        self.own.waits = true;
        Ok(())
    }

    fn grant(&mut self) -> Result<u8, Refusal> {
        let port = self.own.port;
        if self.own.waits {
            check_free(self.own.served)?;
            self.own.waits = false;
            self.own.served = Some(port);
            return Ok(port);
        }
        if is_served(self.own.served, port) {
            // The arbiter below serves nobody now: it is idle if nobody waits there.
            if self.below.idle() {
                return Err(Refusal::NoneWaits);
            }
            return Err(Refusal::Busy);
        }
        let c = self.below.grant()?;
        self.own.served = Some(c);
        Ok(c)
    }

    fn done(&mut self) -> Result<(), Refusal> {
        // The service of another port ends below too.
        if self.own.served.is_some() && !is_served(self.own.served, self.own.port) {
            self.below.done()?;
        }
        end_service(&mut self.own.served)
    }
}
