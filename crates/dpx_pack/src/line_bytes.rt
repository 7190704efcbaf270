ghost use Rattle.std.specs.Prelude.{◌≡◌, ◌<◌, ◌≤◌, ◌⊎◌, length, map, slice_get, Some, vec_len};

use std::marker::Model;

/// The bytes of a line, lane by lane.
#[derive(Drop)]
pub struct LineBytes {
    lanes: Vec<Vec<u8>>,
}

impl Model for LineBytes {
    ghost use Rattle.std.specs.Prelude.{◌≡◌, ◌⊎◌, ℕ, List, map, vec_len};

    ghost Value = { List (List ℕ) };

    ghost view = { λ l. map (λ lane. lane.items) l.lanes.items };

    ghost invariant = { λ l. (vec_len l.lanes ≡ 1) ⊎ (vec_len l.lanes ≡ 2) ⊎ (vec_len l.lanes ≡ 4) };
}

impl LineBytes {
    /// The bytes of one, two or four lanes, lane 0 first.
    pub fn from_lanes(lanes: Vec<Vec<u8>>) -> LineBytes
        requires { (vec_len lanes ≡ 1) ⊎ (vec_len lanes ≡ 2) ⊎ (vec_len lanes ≡ 4) }
        ensures { result ≡ map (λ lane. lane.items) lanes.items }
    {
        LineBytes { lanes }
    }

    /// How many lanes there are.
    pub fn count(&self) -> usize
        ensures value { result ≡ length self.now }
        ensures lanes { (result ≡ 1) ⊎ (result ≡ 2) ⊎ (result ≡ 4) }
    {
        self.lanes.len()
    }

    /// The bytes of a lane.
    pub fn lane(&self, lane: usize) -> &[u8]
        requires { lane < length self.now }
        ensures { slice_get self.now lane ≡ Some result.now }
    {
        self.lanes[lane].as_slice()
    }
}
