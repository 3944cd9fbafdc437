// The port in service, if any. An Option: a type of our own would repeat its methods.
ghost use Rattle.std.specs.Prelude.{◌≡◌, ℕ, Some, None, MatchResult};
ghost use Rattle.tasks.specs.Refusals.{told, refusal};
ghost use Rattle.bus.specs.Turns.{in_service};

use tasks::refusal::Refusal;

// Whether this port is the one in service.
pub fn is_served(served: Option<u8>, port: u8) -> bool
    ensures { result ≡ in_service served port }
{
    served == Some(port)
}

// Refused: 17, a port is in service.
pub fn check_free(served: Option<u8>) -> Result<(), Refusal>
    ensures { MatchResult result (λ _. served ≡ None) (λ e. (told e ≡ refusal 17) × ((p : ℕ) × (served ≡ Some p))) }
{
    match served {
        Some(_) => Err(Refusal::Busy),
        None => Ok(()),
    }
}

// Ends the service.
// Refused: 18, no port is in service.
pub fn end_service(served: &mut Option<u8>) -> Result<(), Refusal>
    ensures answer { MatchResult result (λ _. (p : ℕ) × (served.old ≡ Some p)) (λ e. (told e ≡ refusal 18) × (served.old ≡ None)) }
    ensures after { served.new ≡ None }
{
    match served.take() {
        Some(_) => Ok(()),
        None => Err(Refusal::Idle),
    }
}
