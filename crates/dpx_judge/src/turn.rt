ghost use Rattle.std.specs.Prelude.{◌<◌};
ghost use Rattle.dpx_aux.specs.Asking.{asks_at_most};
ghost use Rattle.dpx_judge.specs.Machine.{IsSound};

use crate::step::Step;

/// Where a training stands, and how often its request there was asked in vain.
#[derive(Clone, Copy)]
pub(crate) struct Turn {
    pub step: Step,
    pub in_vain: u8,
    ghost few: { in_vain < asks_at_most },
    ghost sound: { IsSound step },
}
