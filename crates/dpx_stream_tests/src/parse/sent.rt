ghost use Rattle.std.specs.Prelude.{◌≡◌, length};
ghost use Rattle.dpx_base.specs.declared.lanes.Lanes.TheVariants.{Two};
ghost use Rattle.dpx_parse.specs.Parser.{lanes_of};

use super::{BE, BF, BS, FE, FS, SE, SR, SS, link, symbol};
use dpx_base::{LaneSet, Lanes};
use dpx_parse::{Event, ParseBad, ParseWhy, Parser};
use std::process::Abort;

/// The four columns of 16 × 2 pixels of 28 × 4 at 54,000 kHz and 8 bits, on a link of 162,000 kHz.
const COLUMNS: [[u16; 9]; 4] = [
    [0x00, 0xd2, 0xf0, 0x00, 0x1c, 0x00, 0x04, 0x00, 0x04],
    [0x00, 0xd2, 0xf0, 0x00, 0x08, 0x00, 0x02, 0x00, 0x01],
    [0x00, 0xd2, 0xf0, 0x00, 0x10, 0x00, 0x02, 0x00, 0x00],
    [0x00, 0xd2, 0xf0, 0x02, 0x78, 0xd0, 0x21, 0x00, 0x00],
];

/// The group that begins a header, and its block: this tells the vertical blanking.
fn header(line: u64, index: u64) -> u16 {
    let blank = !(line % 4 == 2);
    match index {
        0 | 3 => { if line == 0 { SR } else { BS } }
        1 | 2 => BF,
        4 | 7 => { if blank { 0x11 } else { 0x10 } }
        5 | 8 => 0xf0,
        _ => 0,
    }
}

/// A set of the attributes, lane by lane.
fn attributes(index: u64) -> [u16; 2] {
    match index {
        0 | 1 => [SS, SS],
        20 => [SE, SE],
        _ => {
            let row = (index.saturating_sub(2) % 18) as usize;
            if row < 9 {
                [COLUMNS[0][row], COLUMNS[1][row]]
            } else {
                [COLUMNS[2][row - 9], COLUMNS[3][row - 9]]
            }
        }
    }
}

/// A set of an active line in units of 32, of which 16 are symbols.
fn shown(index: u64) -> u16 {
    match index % 32 {
        0..=15 => 7,
        16 => FS,
        31 => FE,
        _ => 0,
    }
}

/// The sets of two frames from the first SR on, on two lanes: each header is 84 clocks behind the one before.
pub(crate) fn sent(number: u64) -> [u16; 2] {
    let line = number / 84;
    let place = number % 84;
    if place < 10 {
        [header(line, place); 2]
    } else if line % 4 == 0 && place < 31 {
        attributes(place - 10)
    } else if line % 4 == 0 || line % 4 == 3 || place < 43 {
        [0, 0]
    } else if place == 43 {
        [BE, BE]
    } else {
        [shown(place - 44); 2]
    }
}

/// What is done to the sets that were sent.
#[derive(Clone, Copy, Debug)]
enum Change {
    Nothing,
    TakenOut { first: u64, count: u64 },
    PutIn { before: u64 },
    Zeroed { first: u64, last: u64 },
}

fn changed(change: Change, number: u64) -> [u16; 2] {
    match change {
        Change::TakenOut { first, count } if number >= first => sent(number.saturating_add(count)),
        Change::PutIn { before } if number == before => [0, 0],
        Change::PutIn { before } if number > before => sent(number.saturating_sub(1)),
        Change::Zeroed { first, last } if first <= number && number <= last => [0, 0],
        _ => sent(number),
    }
}

/// How many attributes, line starts, valid sets and line ends were told.
fn told(counts: [u32; 4], event: Event) -> [u32; 4] {
    let [attributes, starts, valid, ends] = counts;
    match event {
        Event::Nothing => counts,
        Event::Attributes(_) => [attributes.saturating_add(1), starts, valid, ends],
        Event::LineStart => [attributes, starts.saturating_add(1), valid, ends],
        Event::Valid(_) => [attributes, starts, valid.saturating_add(1), ends],
        Event::LineEnd => [attributes, starts, valid, ends.saturating_add(1)],
    }
}

/// What is told of so many sets, and the tail.
fn read(change: Change, sets: u64) -> Result<([u32; 4], u64), ParseBad> {
    let mut parser = Parser::new(link(Lanes::Two, true));
    let mut counts = [0; 4];
    for number in 0..sets {
        let [first, second] = changed(change, number);
        let set = LaneSet::from_slice(&[symbol(first), symbol(second)]);
        counts = told(counts, parser.feed(&set)?);
    }
    Ok((counts, parser.tail()))
}

#[test]
fn sets_that_were_sent_are_read(rt: HostRuntime) {
    assert_eq!(rt; read(Change::Nothing, 598), Ok(([2, 4, 96, 4], 0)));
    assert_eq!(rt; read(Change::Nothing, 217), Ok(([1, 2, 29, 1], 6)));
}

/// The sets so changed are refused at this one.
fn is_refused(rt: &impl Abort, change: Change, set: u64, why: ParseWhy) {
    assert_eq!(rt; read(change, 598), Err(ParseBad { set, why }), "{change:?}");
}

#[test]
fn sets_that_are_lost_or_put_in_are_found(rt: HostRuntime) {
    let lost = Change::TakenOut {
        first: 167,
        count: 1,
    };
    is_refused(&rt, lost, 167, ParseWhy::LineShort { got: 23, want: 24 });
    is_refused(&rt, Change::PutIn { before: 168 }, 168, ParseWhy::LineLong);
    let line = Change::Zeroed {
        first: 211,
        last: 251,
    };
    is_refused(&rt, line, 366, ParseWhy::FrameShort { got: 1, want: 2 });
    let attributes = Change::TakenOut {
        first: 346,
        count: 21,
    };
    is_refused(&rt, attributes, 442, ParseWhy::FrameLong);
}
