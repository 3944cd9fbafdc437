// The calls of the batches.
ghost use Rattle.std.specs.Prelude.{◌≡◌, MatchResult};
ghost use Rattle.bus.specs.Means.{PortsRefused};
ghost use Rattle.makers_arbiter.specs.Turnover.{opened, behind};
ghost use Rattle.makers_arbiter.specs.Account.{batch_means, Fresh};
ghost use Rattle.makers_arbiter.specs.Laws.{batch_laws};

use crate::Batches;
use bus::arbiter::Arbiter;
use bus::ports::Ports;
use bus::service::{check_free, end_service, is_served};
use tasks::limit::Limit;
use tasks::refusal::Refusal;

impl Batches {
    // Nobody waits, and nobody is in service. Refused: 6, the ports are not 1 to 16.
    pub fn new(ports: u8) -> Result<Batches, Refusal>
        ensures { MatchResult result (λ batches. Fresh ports batches) (λ e. PortsRefused ports e) }
    {
        Ok(Batches {
            ports: Ports::new(ports)?,
            batch: 0,
            joined: 0,
            served: None,
        })
    }

    // The batch to serve from, and those who stay behind.
    fn turned_over(&self) -> (u16, u16)
        ensures batch { result.0 ≡ opened self.now.batch self.now.joined }
        ensures behind { result.1 ≡ behind self.now.batch self.now.joined }
    {
        if self.batch == 0 {
            (self.joined, 0)
        } else {
            (self.batch, self.joined)
        }
    }
}

#[tactic(auto, using(crate::proofs::Steps::batch_steps))]
impl Arbiter for Batches {
    ghost means = { batch_means };

    ghost lawful = { batch_laws };

    fn ports(&self) -> u8 {
        self.ports.count()
    }

    fn limit(&self, a: u8, b: u8) -> Result<Limit, Refusal> {
        self.ports.check_pair(a, b)?;
        Ok(Some(2))
    }

    fn idle(&self) -> bool {
        self.batch == 0 && self.joined == 0 && self.served.is_none()
    }

    fn join(&mut self, a: u8) -> Result<(), Refusal> {
        self.ports.check(a)?;
        let flag = 1u16 << a;
        if is_served(self.served, a) || self.batch & flag != 0 || self.joined & flag != 0 {
            return Err(Refusal::Twice);
        }
        self.joined |= flag;
        Ok(())
    }

    fn grant(&mut self) -> Result<u8, Refusal> {
        let (batch, behind) = self.turned_over();
        if batch == 0 {
            return Err(Refusal::NoneWaits);
        }
        check_free(self.served)?;
        let c = batch.trailing_zeros() as u8;
        self.batch = batch ^ (1u16 << c);
        self.joined = behind;
        self.served = Some(c);
        Ok(c)
    }

    fn done(&mut self) -> Result<(), Refusal> {
        end_service(&mut self.served)
    }
}
