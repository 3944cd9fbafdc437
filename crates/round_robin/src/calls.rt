// Round robin's calls.
ghost use Rattle.std.specs.Prelude.{◌≡◌, MatchResult};
ghost use Rattle.bus.specs.Means.{PortsRefused};
ghost use Rattle.round_robin.specs.Account.{round_means, Fresh};
ghost use Rattle.round_robin.specs.Laws.{round_laws};

use crate::RoundRobin;
use bus::arbiter::Arbiter;
use bus::ports::Ports;
use bus::service::{check_free, end_service, is_served};
use tasks::limit::Limit;
use tasks::refusal::Refusal;

impl RoundRobin {
    // An idle round robin before any grant. Refused: 6, the ports are not 1 to 16.
    pub fn new(ports: u8) -> Result<RoundRobin, Refusal>
        ensures { MatchResult result (λ ring. Fresh ports ring) (λ e. PortsRefused ports e) }
    {
        Ok(RoundRobin {
            ports: Ports::new(ports)?,
            mask: 0,
            next: 0,
            served: None,
        })
    }
}

#[tactic(auto, using(crate::proofs::Steps::ring_steps))]
impl Arbiter for RoundRobin {
    ghost means = { round_means };

    ghost lawful = { round_laws };

    fn ports(&self) -> u8 {
        self.ports.count()
    }

    fn limit(&self, a: u8, b: u8) -> Result<Limit, Refusal> {
        self.ports.check_pair(a, b)?;
        Ok(Some(1))
    }

    fn idle(&self) -> bool {
        self.mask == 0 && self.served.is_none()
    }

    fn join(&mut self, a: u8) -> Result<(), Refusal> {
        self.ports.check(a)?;
        let flag = 1u16 << a;
        if is_served(self.served, a) || self.mask & flag != 0 {
            return Err(Refusal::Twice);
        }
        self.mask |= flag;
        Ok(())
    }

    fn grant(&mut self) -> Result<u8, Refusal> {
        if self.mask == 0 {
            return Err(Refusal::NoneWaits);
        }
        check_free(self.served)?;
        let start = u32::from(self.next);
        let ahead = self.mask.rotate_right(start).trailing_zeros();
        let c = ((start + ahead) % u16::BITS) as u8;
        self.mask ^= 1u16 << c;
        self.next = c + 1;
        self.served = Some(c);
        Ok(c)
    }

    fn done(&mut self) -> Result<(), Refusal> {
        end_service(&mut self.served)
    }
}
