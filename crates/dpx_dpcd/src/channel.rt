ghost use Rattle.std.specs.Prelude.{◌≡◌, ◌<◌, ◌≤◌, replicate, slice_set};
ghost use Rattle.dpx_dpcd.specs.Channel.{good_cell, channel_cell, place_of};

use dpx_base::Rate;
use std::marker::Model;

/// How one lane of a modelled channel behaves at one rate.
#[derive(Clone, Copy, Debug, PartialEq, Eq)]
pub struct Cell {
    cr: bool,
    eq: bool,
    swing: u8,
    emph: u8,
}

impl Model for Cell {
    ghost use Rattle.std.specs.Prelude.{◌≤◌};
    ghost use Rattle.dpx_dpcd.specs.Cell.{CellFacts};

    ghost Value = { CellFacts };

    ghost view = { λ c. record { cr = c.cr; eq = c.eq; swing = c.swing; emph = c.emph } };

    ghost invariant = { λ c. (c.swing ≤ 3) × (c.emph ≤ 3) };

    ghost inverse = { λ v. record { cr = v.cr; eq = v.eq; swing = v.swing; emph = v.emph } };
}

impl Cell {
    /// `cr` and `eq`: whether the lane recovers its clock and equalises, driven as it asks: with this
    /// swing and this pre-emphasis, each at most 3.
    pub fn new(cr: bool, eq: bool, swing: u8, emph: u8) -> Cell
        requires swing { swing ≤ 3 }
        requires emph { emph ≤ 3 }
        ensures { result ≡ record { cr = cr; eq = eq; swing = swing; emph = emph } }
    {
        Cell {
            cr,
            eq,
            swing,
            emph,
        }
    }

    /// The lane recovers its clock where it is driven as it asks.
    pub fn cr(&self) -> bool
        ensures { result ≡ self.now.cr }
    {
        self.cr
    }

    /// The lane equalises where it has recovered its clock.
    pub fn eq(&self) -> bool
        ensures { result ≡ self.now.eq }
    {
        self.eq
    }

    /// The voltage swing that the lane asks for, 0 to 3.
    pub fn swing(&self) -> u8
        ensures value { result ≡ self.now.swing }
        ensures bound { result ≤ 3 }
    {
        self.swing
    }

    /// The pre-emphasis that the lane asks for, 0 to 3.
    pub fn emph(&self) -> u8
        ensures value { result ≡ self.now.emph }
        ensures bound { result ≤ 3 }
    {
        self.emph
    }
}

/// A modelled channel: a cell for each rate and lane, seen as their list, the four lanes of RBR first.
#[derive(Drop)]
pub struct Channel {
    cells: [Cell; 16],
}

impl Model for Channel {
    ghost use Rattle.std.specs.Prelude.{List};
    ghost use Rattle.dpx_dpcd.specs.Cell.{CellFacts};

    ghost Value = { List CellFacts };

    ghost view = { λ c. c.cells };
}

impl Channel {
    /// Every lane recovers and equalises at every rate, with the least drive.
    pub fn perfect() -> Channel
        ensures { result ≡ replicate 16 good_cell }
    {
        Channel {
            cells: [Cell::new(true, true, 0, 0); 16],
        }
    }

    /// How a lane, 0 to 3, behaves at the rate.
    pub fn cell(&self, rate: Rate, lane: u8) -> Cell
        requires { lane < 4 }
        ensures { result ≡ channel_cell self.now rate lane }
    {
        self.cells[place_of(rate, lane)]
    }

    /// Lets a lane, 0 to 3, behave so at the rate.
    pub fn set(&mut self, rate: Rate, lane: u8, cell: Cell)
        requires { lane < 4 }
        ensures { self.new ≡ slice_set self.old (place_of rate lane) cell }
    {
        self.cells[place_of(rate, lane)] = cell;
    }
}

fn place_of(rate: Rate, lane: u8) -> usize
    requires { lane < 4 }
    ensures value { result ≡ place_of rate lane }
    ensures bound { result < 16 }
{
    let first = match rate {
        Rate::Rbr => 0,
        Rate::Hbr => 4,
        Rate::Hbr2 => 8,
        Rate::Hbr3 => 12,
    };
    first + usize::from(lane)
}
