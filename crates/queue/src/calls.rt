// The queue's calls.
ghost use Rattle.std.specs.Prelude.{◌≡◌, MatchResult};
ghost use Rattle.bus.specs.Means.{PortsRefused};
ghost use Rattle.queue.specs.Lines.{among};
ghost use Rattle.queue.specs.Account.{line, queue_means, Fresh};
ghost use Rattle.queue.specs.Laws.{queue_laws};

use crate::Queue;
use bus::arbiter::Arbiter;
use bus::ports::Ports;
use bus::service::{check_free, end_service, is_served};
use tasks::limit::Limit;
use tasks::refusal::Refusal;

impl Queue {
    // An idle queue. Refused: 6, the ports are not 1 to 16.
    pub fn new(ports: u8) -> Result<Queue, Refusal>
        ensures { MatchResult result (λ queue. Fresh ports queue) (λ e. PortsRefused ports e) }
    {
        Ok(Queue {
            ports: Ports::new(ports)?,
            len: 0,
            order: [0; 16],
            served: None,
        })
    }

    fn has(&self, a: u8) -> bool
        ensures { result ≡ among a (line self.now) }
    {
        self.order[..usize::from(self.len)].contains(&a)
    }
}

#[tactic(auto, using(crate::proofs::Steps::line_steps))]
impl Arbiter for Queue {
    ghost means = { queue_means };

    ghost lawful = { queue_laws };

    fn ports(&self) -> u8 {
        self.ports.count()
    }

    fn limit(&self, a: u8, b: u8) -> Result<Limit, Refusal> {
        self.ports.check_pair(a, b)?;
        Ok(Some(1))
    }

    fn idle(&self) -> bool {
        self.len == 0 && self.served.is_none()
    }

    fn join(&mut self, a: u8) -> Result<(), Refusal> {
        self.ports.check(a)?;
        if is_served(self.served, a) || self.has(a) {
            return Err(Refusal::Twice);
        }
        self.order[usize::from(self.len)] = a;
        self.len += 1;
        Ok(())
    }

    fn grant(&mut self) -> Result<u8, Refusal> {
        if self.len == 0 {
            return Err(Refusal::NoneWaits);
        }
        check_free(self.served)?;
        let c = self.order[0];
        self.order.rotate_left(1);
        self.len -= 1;
        self.served = Some(c);
        Ok(c)
    }

    fn done(&mut self) -> Result<(), Refusal> {
        end_service(&mut self.served)
    }
}
