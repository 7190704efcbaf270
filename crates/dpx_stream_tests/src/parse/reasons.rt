//! Sets with two reasons, on two lanes: the earlier one is named.

ghost use Rattle.std.specs.Prelude.{◌≡◌};
ghost use Rattle.dpx_base.specs.declared.lanes.Lanes.TheVariants.{Two};
ghost use Rattle.dpx_parse.specs.Parser.{lanes_of};

use super::{BE, BF, BS, CP, FS, SE, SR, SS, answers, link, symbol};
use dpx_base::{LaneSet, Lanes};
use dpx_msa::MsaBad;
use dpx_parse::{ParseBad, ParseWhy, Parser};
use std::process::Abort;

type Pair = [u16; 2];

const ZERO: Pair = [0, 0];

const GROUP: &[Pair] = &[[SR, SR], [BF, BF], [BF, BF], [SR, SR]];

const BLOCK: &[Pair] = &[ZERO; 6];

const OPENED: &[Pair] = &[[SS, SS], [SS, SS]];

/// The columns of 16 × 1 pixels of 6 bits: a line has 18 symbols on each of two lanes.
const CLOCKS: &[Pair] = &[ZERO; 13];

const SIZES: &[Pair] = &[[16, 0], [0, 1], [1, 1], ZERO, ZERO];

const NOTHING: &[Pair] = &[ZERO; 18];

const CLOSED: &[Pair] = &[[SE, SE]];

const BEGUN: &[Pair] = &[[BE, BE]];

const SYMBOL: &[Pair] = &[[7, 7]];

const LINE: &[Pair] = &[[7, 7]; 18];

const NEXT: &[Pair] = &[[BS, BS], [BF, BF], [BF, BF], [BS, BS]];

/// Feeds sets of two lanes.
fn feed(parser: &mut Parser, sets: &[Pair]) -> Result<(), ParseBad>
    requires { lanes_of parser.old ≡ Two }
    ensures { lanes_of parser.new ≡ Two }
{
    for pair in sets {
        let [first, second] = pair;
        parser.feed(&LaneSet::from_slice(&[symbol(*first), symbol(*second)]))?;
    }
    Ok(())
}

/// Feeds pieces of such sets.
fn feed_each(parser: &mut Parser, pieces: &[&[Pair]]) -> Result<(), ParseBad>
    requires { lanes_of parser.old ≡ Two }
    ensures { lanes_of parser.new ≡ Two }
{
    for piece in pieces {
        feed(parser, piece)?;
    }
    Ok(())
}

/// How many sets pieces have.
fn size_of(pieces: &[&[Pair]]) -> u64 {
    let mut sets = 0u64;
    for piece in pieces {
        sets = sets.saturating_add(piece.len() as u64);
    }
    sets
}

/// Behind these sets this one is refused for this reason.
fn is_refused(rt: &impl Abort, before: &[&[Pair]], set: Pair, why: ParseWhy) {
    let mut parser = Parser::new(link(Lanes::Two, true));
    assert!(rt; feed_each(&mut parser, before).is_ok());
    answers(rt, feed(&mut parser, &[set]), Some((size_of(before), why)));
}

/// Behind these sets this one is refused for this reason; and where its lanes differ, for that.
fn is_mixed_first(rt: &impl Abort, before: &[&[Pair]], set: Pair, why: ParseWhy, mixed: Pair) {
    is_refused(rt, before, set, why);
    is_refused(rt, before, mixed, ParseWhy::Mixed);
}

#[test]
fn differing_lanes_are_named_first_in_a_header(rt: HostRuntime) {
    let protected = ParseWhy::Protected;
    is_mixed_first(&rt, &[&[[SR, SR]]], [CP, CP], protected, [CP, BF]);
    is_mixed_first(&rt, &[&[[SR, SR], [BF, BF]]], [CP, CP], protected, [BF, CP]);
    let group = ParseWhy::BadGroup;
    is_mixed_first(&rt, &[&[[SR, SR]]], ZERO, group, [0, BF]);
    let begun = [GROUP, BLOCK, &[[BS, BS], [BF, BF], [BF, BF]]];
    is_mixed_first(&rt, &begun, [SR, SR], group, [BS, SR]);
    let control = ParseWhy::BadControl;
    is_mixed_first(&rt, &[GROUP], [BF, BF], control, [BF, 0]);
    is_mixed_first(&rt, &[GROUP, BLOCK], [FS, FS], control, [FS, 0]);
}

#[test]
fn differing_lanes_are_named_before_what_vb_id_tells(rt: HostRuntime) {
    let interlaced = ParseWhy::Interlaced;
    is_mixed_first(&rt, &[GROUP], [4, 4], interlaced, [4, BS]);
    is_mixed_first(
        &rt,
        &[GROUP, BLOCK, NEXT],
        [0x15, 0x15],
        interlaced,
        [SE, 0x15],
    );
    let differs = ParseWhy::VbIdDiffers;
    let copied = [GROUP, &[[0x10, 0x10], ZERO, ZERO]];
    is_mixed_first(&rt, &copied, [0x11, 0x11], differs, [0x11, SE]);
    is_mixed_first(&rt, &[GROUP], [0x10, 0x11], differs, [0x10, BE]);
    is_refused(&rt, &[GROUP], [4, 0x10], interlaced);
    is_refused(&rt, &[GROUP], [0x14, 0x15], interlaced);
}

#[test]
fn differing_lanes_are_named_before_the_attributes(rt: HostRuntime) {
    let nothing = ParseWhy::Msa(MsaBad::Width(0));
    is_mixed_first(
        &rt,
        &[GROUP, BLOCK, OPENED, NOTHING],
        [SE, SE],
        nothing,
        [SE, SS],
    );
    let short = ParseWhy::FrameShort { got: 0, want: 1 };
    let readable = [
        GROUP, BLOCK, OPENED, CLOCKS, SIZES, CLOSED, OPENED, CLOCKS, SIZES,
    ];
    is_mixed_first(&rt, &readable, [SE, SE], short, [SE, 0]);
    let unreadable = [GROUP, BLOCK, OPENED, CLOCKS, SIZES, CLOSED, OPENED, NOTHING];
    is_mixed_first(&rt, &unreadable, [SE, SE], short, [0, SE]);
}

#[test]
fn differing_lanes_are_named_before_the_counts_of_a_line(rt: HostRuntime) {
    let short = |got| ParseWhy::LineShort { got, want: 18 };
    let first = [GROUP, BLOCK, OPENED, CLOCKS, SIZES, CLOSED, BEGUN];
    is_mixed_first(&rt, &first, [BS, BS], short(0), [BS, SR]);
    let some = [GROUP, BLOCK, OPENED, CLOCKS, SIZES, CLOSED, BEGUN, SYMBOL];
    is_mixed_first(&rt, &some, [SR, SR], short(1), [7, SR]);
    let all = [GROUP, BLOCK, OPENED, CLOCKS, SIZES, CLOSED, BEGUN, LINE];
    is_mixed_first(&rt, &all, [7, 7], ParseWhy::LineLong, [7, FS]);
    let next = [
        GROUP, BLOCK, OPENED, CLOCKS, SIZES, CLOSED, BEGUN, LINE, NEXT, BLOCK,
    ];
    is_mixed_first(&rt, &next, [BE, BE], ParseWhy::FrameLong, [BE, SS]);
}
