ghost use Rattle.std.specs.Prelude.{◌≡◌, ◌<◌, ◌≤◌, ◌+◌, ◌*◌, ◌%◌, ◌/◌, [], ◌∷◌, ◌++◌};
ghost use Rattle.std.specs.Prelude.{ℕ, length, IfOk, vec_len, vec_capacity};
ghost use Rattle.dpx_base.specs.Capture.{word_bytes, words_in};
ghost use Rattle.dpx_base.specs.Lanes.{lanes_count};
ghost use Rattle.dpx_base.specs.Words.{words_of};
ghost use Rattle.dpx_lane.specs.Codes.{code_of};
ghost use Rattle.dpx_lane.specs.Rows.{entry, lane_by_lane, clock_words, no_rows};

use crate::code_of;
use crate::words::{put_word, word_of};
use dpx_base::{LaneSet, Lanes, Memory};
use std::alloc::Global;
use std::marker::Model;

const ROOM: usize = 8192;

/// A batch of clocks as one row a lane, lane 0 first: codes of symbols, or words.
#[derive(Drop)]
pub struct LaneRows {
    pub(crate) lanes: Lanes,
    pub(crate) first: Vec<u16>,
    pub(crate) second: Vec<u16>,
    pub(crate) third: Vec<u16>,
    pub(crate) fourth: Vec<u16>,
}

impl Model for LaneRows {
    ghost use Rattle.std.specs.Prelude.{length};
    ghost use Rattle.dpx_lane.specs.Room.{HasRoom};
    ghost use Rattle.dpx_lane.specs.Rows.{in_use, RowsFacts};

    ghost Value = { RowsFacts };

    ghost view = { λ r. record {
      lanes = r.lanes;
      rows = in_use r.lanes r.first.items r.second.items r.third.items r.fourth.items;
      clocks = length r.first.items;
    } };

    ghost invariant = { HasRoom };
}

fn put(row: &mut Vec<u16>, entry: u16)
    requires { vec_len row.old < vec_capacity row.old }
    ensures items { row.new.items ≡ row.old.items ++ entry ∷ [] }
    ensures capacity { vec_capacity row.old ≡ vec_capacity row.new }
{
    row.push_reserved(entry);
}

impl LaneRows {
    /// Takes room for 8,192 clocks, and holds none.
    pub fn new(alloc: Global, lanes: Lanes) -> Result<LaneRows, Memory>
        ensures { IfOk result (λ rows. rows ≡ no_rows lanes) }
    {
        Ok(LaneRows {
            lanes,
            first: Vec::with_capacity(alloc, ROOM).map_err(|_| Memory)?,
            second: Vec::with_capacity(alloc, ROOM).map_err(|_| Memory)?,
            third: Vec::with_capacity(alloc, ROOM).map_err(|_| Memory)?,
            fourth: Vec::with_capacity(alloc, ROOM).map_err(|_| Memory)?,
        })
    }

    pub fn lanes(&self) -> Lanes
        ensures { result ≡ self.now.lanes }
    {
        self.lanes
    }

    /// The clocks that it holds.
    #[tactic(auto, using(crate::proofs::EvenRows::as_many, crate::proofs::EvenRows::even))]
    pub fn len(&self) -> usize
        ensures value { result ≡ self.now.clocks }
        ensures within { result ≤ 8192 }
        ensures lanes { length self.now.rows ≡ lanes_count self.now.lanes }
        ensures even { (lane : ℕ) → lane < lanes_count self.now.lanes
            → length (words_of self.now.rows lane) ≡ self.now.clocks }
    {
        self.first.len()
    }

    pub fn clear(&mut self)
        ensures { self.new ≡ no_rows self.old.lanes }
    {
        self.first.clear();
        self.second.clear();
        self.third.clear();
        self.fourth.clear();
    }

    /// An entry of a lane's row.
    pub fn get(&self, lane: u8, clock: usize) -> u16
        requires lane { lane < lanes_count self.now.lanes }
        requires clock { clock < self.now.clocks }
        ensures { result ≡ entry self.now lane clock }
    {
        match lane {
            0 => self.first[clock],
            1 => self.second[clock],
            2 => self.third[clock],
            _ => self.fourth[clock],
        }
    }

    /// A lane's row.
    pub fn row(&self, lane: u8) -> &[u16]
        requires { lane < lanes_count self.now.lanes }
        ensures { result.now ≡ words_of self.now.rows lane }
    {
        match lane {
            0 => self.first.as_slice(),
            1 => self.second.as_slice(),
            2 => self.third.as_slice(),
            _ => self.fourth.as_slice(),
        }
    }

    /// Puts the codes of a set behind the rows.
    pub fn push_set(&mut self, set: &LaneSet)
        requires room { self.old.clocks < 8192 }
        requires lanes { length set.now ≡ lanes_count self.old.lanes }
        ensures { self.new ≡ record {
          lanes = self.old.lanes;
          rows = lane_by_lane (λ row sym. row ++ code_of sym ∷ []) self.old.rows set.now;
          clocks = self.old.clocks + 1;
        } }
    {
        let first = code_of(set.get(0));
        let (second, third, fourth) = match self.lanes {
            Lanes::One => (0, 0, 0),
            Lanes::Two => (code_of(set.get(1)), 0, 0),
            Lanes::Four => (
                code_of(set.get(1)),
                code_of(set.get(2)),
                code_of(set.get(3)),
            ),
        };
        put(&mut self.first, first);
        put(&mut self.second, second);
        put(&mut self.third, third);
        put(&mut self.fourth, fourth);
    }

    /// Puts the words of one clock behind the rows.
    fn push_words(&mut self, bytes: &[u8])
        requires room { self.old.clocks < 8192 }
        requires size { length bytes.now ≡ 2 * lanes_count self.old.lanes }
        ensures { self.new ≡ record {
          lanes = self.old.lanes;
          rows = lane_by_lane (λ row word. row ++ word ∷ []) self.old.rows (clock_words self.old.lanes bytes.now);
          clocks = self.old.clocks + 1;
        } }
    {
        let first = word_of(bytes, 0);
        let (second, third, fourth) = match self.lanes {
            Lanes::One => (0, 0, 0),
            Lanes::Two => (word_of(bytes, 1), 0, 0),
            Lanes::Four => (word_of(bytes, 1), word_of(bytes, 2), word_of(bytes, 3)),
        };
        put(&mut self.first, first);
        put(&mut self.second, second);
        put(&mut self.third, third);
        put(&mut self.fourth, fourth);
    }

    /// Writes the entries of so many lanes in a capture's order. Their number is known when this is compiled: each word
    /// then costs no test.
    fn write_clocks<const LANES: usize>(&self, to: &mut [u8])
        requires lanes { LANES ≡ lanes_count self.now.lanes }
        requires size { length to.old ≡ 2 * (LANES * self.now.clocks) }
        ensures { to.new ≡ word_bytes LANES self.now.clocks self.now.rows }
    {
        for clock in 0..self.len() {
            for lane in 0..LANES {
                put_word(to, 2 * (clock * LANES + lane), self.get(lane as u8, clock));
            }
        }
    }

    /// Writes the entries in a capture's order: clock by clock, and lane by lane within a clock.
    pub fn write_words(&self, to: &mut [u8])
        requires { length to.old ≡ 2 * (lanes_count self.now.lanes * self.now.clocks) }
        ensures { to.new ≡ word_bytes (lanes_count self.now.lanes) self.now.clocks self.now.rows }
    {
        match self.lanes {
            Lanes::One => self.write_clocks::<1>(to),
            Lanes::Two => self.write_clocks::<2>(to),
            Lanes::Four => self.write_clocks::<4>(to),
        }
    }

    /// Replaces what the rows held by the words of these bytes, in a capture's order.
    pub fn read_words(&mut self, bytes: &[u8])
        requires whole { length bytes.now % (2 * lanes_count self.old.lanes) ≡ 0 }
        requires few { length bytes.now ≤ 2 * lanes_count self.old.lanes * 8192 }
        ensures { self.new ≡ record {
          lanes = self.old.lanes;
          rows = words_in (lanes_count self.old.lanes) (length bytes.now / (2 * lanes_count self.old.lanes)) bytes.now;
          clocks = length bytes.now / (2 * lanes_count self.old.lanes);
        } }
    {
        let size = 2 * usize::from(self.lanes.count());
        self.clear();
        for done in 0..bytes.len() / size {
            self.push_words(&bytes[size * done..size * (done + 1)]);
        }
    }
}
