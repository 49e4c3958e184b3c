// By which count events come.
ghost use Rattle.std.specs.Prelude.{◌≡◌};
ghost use Rattle.lab_positions.specs.Position.{rises};

use chain_moves::slot::{BASE, SLOT_END};
use hart_report::Stepped;

/// By which count events come: by steps, as in a run, or by bodies, as in a chain.
#[derive(Clone, Copy, Debug, PartialEq, Eq, Drop)]
pub enum Timing {
    Steps,
    Bodies,
}

/// Whether the count rises with this step.
pub(crate) fn rises(timing: Timing, told: &Stepped) -> bool
    ensures { result ≡ rises timing told.now }
{
    match timing {
        Timing::Steps => true,
        Timing::Bodies => match *told {
            Stepped::Retired { pc, .. } => pc < BASE || pc >= SLOT_END,
            _ => false,
        },
    }
}
