// Certificates of termination.
ghost use Rattle.std.specs.Prelude.{◌≡◌};

use kb_kbo::Kbo;
use kb_linear::Interp;
use kb_lpo::Precedence;
use std::alloc::AllocError;

/// A member of a family of orders.
#[derive(Drop)]
pub enum Certificate {
    Lpo(Precedence),
    Linear(Interp),
    Kbo(Kbo),
}

impl Clone for Certificate {
    ghost is_clone = { λ a b. b ≡ a };

    fn clone(&self) -> Result<Certificate, AllocError> {
        match self {
            Certificate::Lpo(prec) => Ok(Certificate::Lpo(prec.clone()?)),
            Certificate::Linear(i) => Ok(Certificate::Linear(i.clone()?)),
            Certificate::Kbo(order) => Ok(Certificate::Kbo(order.clone()?)),
        }
    }
}
