// An input as the selection sees it.
ghost use Rattle.std.specs.Prelude.{◌≡◌, ◌<◌};

use clic_regs::Clic;

/// An input with its level, its priority, and whether the hardware takes its handler from the
/// table of vectors.
#[derive(Clone, Copy, Debug, PartialEq, Eq, Drop)]
pub struct Choice {
    pub id: u32,
    pub level: u8,
    pub priority: u8,
    pub shv: bool,
}

impl Choice {
    ghost use Rattle.clic_regs.specs.ClicState.{input_count};
    ghost use Rattle.clic_select.specs.Top.{choice_of, is_greater};

    /// An input of the controller.
    #[inline]
    pub(crate) fn of(clic: &Clic, id: u32) -> Choice
        requires { id < input_count clic.now }
        ensures { result ≡ choice_of clic.now id }
    {
        Choice {
            id,
            level: clic.level_of(id),
            priority: clic.priority_of(id),
            shv: clic.hard_vectored(id),
        }
    }

    /// By level, then by priority, then by number.
    #[inline]
    pub fn is_greater(self, other: Choice) -> bool
        ensures { result ≡ is_greater self other }
    {
        self.level > other.level
            || (self.level == other.level
                && (self.priority > other.priority
                    || (self.priority == other.priority && self.id > other.id)))
    }
}
