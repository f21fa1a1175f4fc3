//! Why bytes can't be judged.
ghost use Rattle.std.specs.Prelude.{◌≡◌};

use bt_feed::SinkFault;
use std::alloc::AllocError;
use thiserror::Error;

/// Why bytes can't be judged.
#[derive(Clone, Copy, PartialEq, Eq, Debug, Error)]
pub enum JudgeFault {
    /// The sink didn't take an item.
    #[error("{0}")]
    Sink(SinkFault),
    #[error("out of memory")]
    Memory,
}

impl From<AllocError> for JudgeFault {
    ghost use Rattle.bt_judge.specs.declared.fault.JudgeFault.TheVariants.{Memory};

    ghost from_gives = { λ _ e. e ≡ Memory };

    fn from(_: AllocError) -> JudgeFault {
        JudgeFault::Memory
    }
}
