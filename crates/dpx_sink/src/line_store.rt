ghost use Rattle.std.specs.Prelude.{◌≤◌, vec_capacity};
ghost use Rattle.dpx_sink.specs.Room.{line_room};

use dpx_base::{LaneBytes, Memory};
use std::alloc::Global;

/// The most rows of a line: 8,192 pixels of six bytes each on one lane.
pub(crate) const LINE_ROOM: usize = 49152;

/// The rows of the line under way: the symbols of all lanes, clock by clock.
#[derive(Drop)]
pub(crate) struct LineStore {
    rows: Vec<LaneBytes>,
    ghost room: { line_room ≤ vec_capacity rows },
}

impl LineStore {
    ghost use Rattle.std.specs.Prelude.{◌≡◌, ℕ, List, [], ◌∷◌, ◌++◌, IfOk, slice_index, slice_index_or};
    ghost use Rattle.dpx_sink.specs.Line.{StoreStands};

    /// Takes its memory, and has no row.
    pub fn new(alloc: Global) -> Result<LineStore, Memory>
        ensures { IfOk result (λ store. StoreStands store []) }
    {
        Ok(LineStore {
            rows: Vec::with_capacity(alloc, LINE_ROOM).map_err(|_| Memory)?,
        })
    }

    /// Has no row.
    pub fn clear(&mut self)
        ensures { StoreStands self.new [] }
    {
        self.rows.clear();
    }

    /// Takes a row, as far as a line has room.
    #[tactic(auto, using(crate::proofs::Stores::stored, crate::proofs::Stores::full))]
    pub fn take(&mut self, row: LaneBytes)
        ensures { (rows : List (List ℕ)) → StoreStands self.old rows → StoreStands self.new (rows ++ row ∷ []) }
    {
        if self.rows.len() < LINE_ROOM {
            self.rows.push_reserved(row);
        }
    }

    /// Symbol j of a lane; 0 where the line has none.
    pub fn symbol(&self, lane: usize, j: usize) -> u8
        ensures { result ≡ slice_index (slice_index_or self.now.rows.items j []) lane }
    {
        if j >= self.rows.len() {
            return 0;
        }
        let row = self.rows[j];
        if lane < row.len() { row.get(lane) } else { 0 }
    }
}
