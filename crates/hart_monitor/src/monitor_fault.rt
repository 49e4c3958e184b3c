// Why a script wasn't done to its end.
ghost use Rattle.std.specs.Prelude.{◌≡◌};
ghost use Rattle.hart_monitor.specs.declared.monitor_fault.MonitorFault.TheVariants.{SinkFailed, Memory};

use board_outside::SinkFault;
use hart_words::WantOfMemory;
use thiserror::Error;

/// Why a script wasn't done to its end.
#[derive(Clone, Copy, Debug, PartialEq, Eq, Drop, Error)]
pub enum MonitorFault {
    #[error("the sink failed")]
    SinkFailed,
    #[error("memory was wanting")]
    Memory,
}

impl From<SinkFault> for MonitorFault {
    ghost from_gives = { λ _ e. e ≡ SinkFailed };

    fn from(_: SinkFault) -> MonitorFault {
        MonitorFault::SinkFailed
    }
}

impl From<WantOfMemory> for MonitorFault {
    ghost from_gives = { λ _ e. e ≡ Memory };

    fn from(_: WantOfMemory) -> MonitorFault {
        MonitorFault::Memory
    }
}
