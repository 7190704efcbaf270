ghost use Rattle.std.specs.Prelude.{◌<◌, ◌*◌, []};
ghost use Rattle.dpx_lane.specs.Codes.{AllCodes};

use crate::LaneWork;
use crate::coder::Coder;
use crate::delay::{delay_row, fills};
use crate::word_table::WordTable;
use arrayvec::ArrayVec;

/// A lane's state on the way out: it delays, scrambles and codes.
#[derive(Drop)]
pub struct LaneTx {
    waiting: ArrayVec<u16, 7>,
    coder: Coder,
    table: WordTable,
    ghost codes: { AllCodes waiting.items },
}

impl LaneTx {
    ghost use Rattle.dpx_lane.specs.Sending.{HasSent};

    /// The state of a lane, 0 to 3: it lags two clocks for each lane before it.
    pub fn new(lane: u8) -> LaneTx
        requires { lane < 4 }
        ensures { HasSent result (2 * lane) [] [] }
    {
        LaneTx {
            waiting: fills(2 * lane),
            coder: Coder::new(),
            table: WordTable::new(),
        }
    }
}

impl LaneWork for LaneTx {
    ghost use Rattle.dpx_lane.specs.Codes.{AllCodes};
    ghost use Rattle.dpx_lane.specs.Sending.{SendsRow};

    ghost takes = { λ s row. AllCodes row };

    ghost does = { SendsRow };

    fn run(&mut self, row: &mut [u16]) {
        delay_row(&mut self.waiting, row);
        self.coder.code_row(&self.table, row);
    }
}
