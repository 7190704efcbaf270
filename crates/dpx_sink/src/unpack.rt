ghost use Rattle.std.specs.Prelude.{◌≡◌, ◌<◌, ◌≤◌, ◌*◌, ◌/◌, ◌%◌, ℕ, List, length, take, slice_get, Some, IfOk};
ghost use Rattle.std.specs.Prelude.{vec_capacity};
ghost use Rattle.dpx_base.specs.Lanes.{lanes_count};
ghost use Rattle.dpx_base.specs.Mode.{depth_bits};
ghost use Rattle.dpx_base.specs.Timing.{symbols_of};
ghost use Rattle.dpx_grammar.specs.Accepted.{pixels_in_rows};
ghost use Rattle.dpx_pack.specs.Lanes.{whole_pixel_count};
ghost use Rattle.dpx_reception.specs.Due.{pixel_records};
ghost use Rattle.dpx_sink.specs.Columns.{column};
ghost use Rattle.dpx_sink.specs.Room.{line_room};

use crate::line_store::LineStore;
use dpx_base::{Depth, Lanes, Memory, Pixel, write_pixel};
use dpx_pack::Unpacker;
use dpx_timing::symbols;
use std::alloc::Global;

/// The most pixels of a line.
const WIDEST: usize = 8192;

/// The pixels of a line, lane by lane.
#[derive(Drop)]
pub(crate) struct LanePixels {
    first: Vec<Pixel>,
    second: Vec<Pixel>,
    third: Vec<Pixel>,
    fourth: Vec<Pixel>,
    ghost first_room: { 8192 ≤ vec_capacity first },
    ghost second_room: { 8192 ≤ vec_capacity second },
    ghost third_room: { 8192 ≤ vec_capacity third },
    ghost fourth_room: { 8192 ≤ vec_capacity fourth },
}

/// The pixels that a lane's first symbols make whole.
#[tactic(auto, using(crate::proofs::Columns::within))]
fn unpack_lane<const C: usize>(
    store: &LineStore,
    lane: usize,
    symbols: usize,
    pixels: &mut Vec<Pixel>,
)
    requires depth { (6 ≤ C) × (C ≤ 16) }
    requires few { whole_pixel_count C symbols ≤ 8192 }
    requires room { 8192 ≤ vec_capacity pixels.old }
    ensures pixels { pixels.new.items ≡ column C store.now.rows.items lane symbols }
    ensures room { vec_capacity pixels.new ≡ vec_capacity pixels.old }
{
    pixels.clear();
    let mut unpacker = Unpacker::<C>::new();
    for j in 0..symbols {
        if let Some(pixel) = unpacker.push(store.symbol(lane, j)) {
            pixels.push_reserved(pixel);
        }
    }
}

impl LanePixels {
    ghost use Rattle.dpx_sink.specs.Columns.{in_turns};
    ghost use Rattle.dpx_sink.specs.Line.{StoreStands};
    ghost use Rattle.dpx_sink.specs.Pixels.{pixels_of};

    /// Takes its memory.
    pub fn new(alloc: Global) -> Result<LanePixels, Memory> {
        Ok(LanePixels {
            first: Vec::with_capacity(alloc, WIDEST).map_err(|_| Memory)?,
            second: Vec::with_capacity(alloc, WIDEST).map_err(|_| Memory)?,
            third: Vec::with_capacity(alloc, WIDEST).map_err(|_| Memory)?,
            fourth: Vec::with_capacity(alloc, WIDEST).map_err(|_| Memory)?,
        })
    }

    /// The pixels that the first symbols of each lane make whole.
    fn unpack<const C: usize>(&mut self, store: &LineStore, lanes: Lanes, symbols: usize)
        requires depth { (6 ≤ C) × (C ≤ 16) }
        requires few { whole_pixel_count C symbols ≤ 8192 }
        ensures { (lane : ℕ) → lane < lanes_count lanes
            → pixels_of self.new lane ≡ column C store.now.rows.items lane symbols }
    {
        unpack_lane::<C>(store, 0, symbols, &mut self.first);
        if lanes != Lanes::One {
            unpack_lane::<C>(store, 1, symbols, &mut self.second);
        }
        if lanes == Lanes::Four {
            unpack_lane::<C>(store, 2, symbols, &mut self.third);
            unpack_lane::<C>(store, 3, symbols, &mut self.fourth);
        }
    }

    /// A pixel of a lane.
    fn pixel(&self, lane: usize, k: usize) -> Pixel
        requires { k < length (pixels_of self.now lane) }
        ensures { slice_get (pixels_of self.now lane) k ≡ Some result }
    {
        match lane {
            0 => self.first[k],
            1 => self.second[k],
            2 => self.third[k],
            _ => self.fourth[k],
        }
    }

    /// The records of a line's pixels, which the lanes have in turn.
    fn write_records(&self, lanes: Lanes, width: usize, records: &mut [u8])
        requires width { width ≤ 8192 }
        requires there { (x : ℕ) → x < width
            → x / lanes_count lanes < length (pixels_of self.now (x % lanes_count lanes)) }
        requires room { length records.old ≡ line_room }
        ensures room { length records.new ≡ line_room }
        ensures records { take (6 * width) records.new
            ≡ pixel_records (in_turns (pixels_of self.now) (lanes_count lanes) width) }
    {
        let step = usize::from(lanes.count());
        for x in 0..width {
            let record = write_pixel(self.pixel(x % step, x / step));
            records[6 * x..6 * x + 6].copy_from_slice(&record);
        }
    }

    /// The records of the pixels of a line of this width, in front of the room for them.
    fn unpack_depth<const C: usize>(
        &mut self,
        store: &LineStore,
        lanes: Lanes,
        width: usize,
        symbols: usize,
        records: &mut [u8],
    )
        requires depth { (6 ≤ C) × (C ≤ 16) }
        requires width { width ≤ 8192 }
        requires symbols { symbols ≡ symbols_of width (lanes_count lanes) (3 * C) }
        requires room { length records.old ≡ line_room }
        ensures room { length records.new ≡ line_room }
        ensures records { (rows : List (List ℕ)) → StoreStands store.now rows
            → take (6 * width) records.new ≡ pixel_records (pixels_in_rows C (lanes_count lanes) width rows) }
    {
        self.unpack::<C>(store, lanes, symbols);
        self.write_records(lanes, width, records);
    }

    /// The same, for attributes' depth.
    pub fn unpack_line(
        &mut self,
        store: &LineStore,
        lanes: Lanes,
        depth: Depth,
        width: u16,
        records: &mut [u8],
    )
        requires width { width ≤ 8192 }
        requires room { length records.old ≡ line_room }
        ensures room { length records.new ≡ line_room }
        ensures records { (rows : List (List ℕ)) → StoreStands store.now rows
            → take (6 * width) records.new
            ≡ pixel_records (pixels_in_rows (depth_bits depth) (lanes_count lanes) width rows) }
    {
        let count = symbols(width, depth, lanes) as usize;
        let pixels = usize::from(width);
        match depth {
            Depth::Six => self.unpack_depth::<6>(store, lanes, pixels, count, records),
            Depth::Eight => self.unpack_depth::<8>(store, lanes, pixels, count, records),
            Depth::Ten => self.unpack_depth::<10>(store, lanes, pixels, count, records),
            Depth::Twelve => self.unpack_depth::<12>(store, lanes, pixels, count, records),
            Depth::Sixteen => self.unpack_depth::<16>(store, lanes, pixels, count, records),
        }
    }
}
