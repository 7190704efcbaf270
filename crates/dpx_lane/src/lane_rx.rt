ghost use Rattle.std.specs.Prelude.{◌≡◌, ℕ, List, []};
ghost use Rattle.dpx_lane.specs.Reading.{IsFault};

use crate::decoder::Decoder;
use crate::symbol_table::SymbolTable;
use crate::{LaneFault, LaneWork};

/// A lane's state on the way in: it decodes and takes the key off, up to the first bad word.
#[derive(Drop)]
pub struct LaneRx {
    decoder: Decoder,
    table: SymbolTable,
}

impl LaneRx {
    ghost use Rattle.dpx_lane.specs.Receiving.{HasRead, IsReading, good_clocks};

    /// A lane that may start at either disparity.
    pub fn new() -> LaneRx
        ensures nothing { HasRead result [] [] }
        ensures clocks { good_clocks result ≡ 0 }
    {
        LaneRx {
            decoder: Decoder::new(),
            table: SymbolTable::new(),
        }
    }

    /// The first bad word of all rows, if there was one.
    pub fn fault(&self) -> Option<LaneFault>
        ensures first { (words left : List ℕ) → HasRead self.now words left → IsFault words result }
        ensures reading { (words left : List ℕ) → HasRead self.now words left → IsReading words left result }
    {
        self.decoder.fault()
    }
}

impl LaneWork for LaneRx {
    ghost use Rattle.dpx_lane.specs.Receiving.{TakesRow, ReadsRow};

    ghost takes = { TakesRow };

    ghost does = { ReadsRow };

    fn run(&mut self, row: &mut [u16]) {
        self.decoder.read_row(&self.table, row);
    }
}
