//! Modes in use: VESA DMT and CVT with reduced blanking, and CTA-861.

use super::{LANES, RATES, Sizes, by_hand, mode, outcome};
use dpx_base::{Depth, Link};
use std::process::Abort;

const MODES: [Sizes; 30] = [
    [640, 480, 800, 525, 25_175],
    [720, 480, 858, 525, 27_000],
    [720, 576, 864, 625, 27_000],
    [800, 600, 1056, 628, 40_000],
    [848, 480, 1088, 517, 33_750],
    [1024, 768, 1344, 806, 65_000],
    [1152, 864, 1600, 900, 108_000],
    [1280, 720, 1650, 750, 74_250],
    [1280, 768, 1440, 790, 68_250],
    [1280, 800, 1440, 823, 71_000],
    [1280, 960, 1800, 1000, 108_000],
    [1280, 1024, 1688, 1066, 108_000],
    [1360, 768, 1792, 795, 85_500],
    [1366, 768, 1792, 798, 85_500],
    [1400, 1050, 1560, 1080, 101_000],
    [1440, 900, 1600, 926, 88_750],
    [1600, 900, 1800, 1000, 108_000],
    [1600, 1200, 2160, 1250, 162_000],
    [1680, 1050, 1840, 1080, 119_000],
    [1792, 1344, 2448, 1394, 204_750],
    [1856, 1392, 2528, 1439, 218_250],
    [1920, 1080, 2200, 1125, 148_500],
    [1920, 1200, 2080, 1235, 154_000],
    [1920, 1440, 2600, 1500, 234_000],
    [2560, 1440, 2720, 1481, 241_500],
    [2560, 1600, 2720, 1646, 268_500],
    [3440, 1440, 3600, 1481, 319_750],
    [3840, 2160, 4400, 2250, 297_000],
    [3840, 2160, 4000, 2222, 533_250],
    [3840, 2160, 4400, 2250, 594_000],
];

const DEPTHS: [Depth; 5] = [
    Depth::Six,
    Depth::Eight,
    Depth::Ten,
    Depth::Twelve,
    Depth::Sixteen,
];

/// A mode fits each link as it does by hand.
fn on_each_link(rt: &impl Abort, sizes: Sizes, depth: Depth) {
    let mode = mode(rt, sizes, depth);
    for rate in RATES {
        for lanes in LANES {
            let link = Link {
                rate,
                lanes,
                enhanced: true,
            };
            let wanted = by_hand::outcome(sizes, depth, link);
            assert_eq!(rt;
                outcome(&mode, link, 64),
                wanted,
                "{sizes:?} {depth:?} {link:?}"
            );
        }
    }
}

#[test]
fn modes_in_use_fit_as_they_do_by_hand(rt: HostRuntime) {
    for sizes in MODES {
        for depth in DEPTHS {
            on_each_link(&rt, sizes, depth);
        }
    }
}
