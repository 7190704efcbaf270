//! A model has registers, defers and a channel.

use super::super::behaves;
use super::{Frame, Row};
use dpx_base::{Lanes, Link, Rate};
use dpx_dpcd::{Cell, SinkPlan};
use dpx_files::{Job, Need, read_job};
use std::test::Fail;

const MODEL: Frame = (
    r#"{"link":{"rate":"HBR2","lanes":4},"sink":{"model":"#,
    "}}",
);

/// A member behind good `caps`.
const MEMBER: Frame = (
    r#"{"link":{"rate":"HBR3","lanes":4},"sink":{"model":{"caps":"00112233445566778899aabbccddeeff","#,
    "}}}",
);

/// One lane of a channel.
const CELL: Frame = (
    r#"{"link":{"rate":"HBR3","lanes":4},"sink":{"model":{"caps":"00112233445566778899aabbccddeeff",
    "channel":{"HBR2":[[1,1,0,0],[1,0,3,0],"#,
    ",[0,1,0,3]]}}}}",
);

const BAD_CAPS: &str =
    r#"{}; {"caps":null}; {"caps":""}; {"caps":12}; {"caps":["00"]}; {"caps":"s"};
    {"caps":"00112233445566778899aabbccddee"}; {"caps":"00112233445566778899aabbccddeef"};
    {"caps":"00112233445566778899aabbccddeeff0"}; {"caps":"00112233445566778899aabbccddeeff00"};
    {"caps":"00112233445566778899aabbccddeefg"}; {"extended":"00112233445566778899aabbccddeeff"};
    {"defers":256,"extended":1,"channel":1}"#;

const CAPS: &str =
    r#"{"caps":"00112233445566778899aabbccddeeff"}; {"caps":"00112233445566778899AABBCCDDEEFF"};
    {"caps":"00112233445566778899aAbBcCdDeEfF","x":{"caps":1}}"#;

const BAD_EXTENDED: &str =
    r#""extended":null; "extended":""; "extended":0; "extended":"00112233445566778899aabbccddee";
    "extended":"00112233445566778899aabbccddeeff00"; "extended":"00112233445566778899aabbccddeefx";
    "extended":{},"defers":256"#;

const BAD_DEFERS: &str =
    r#""defers":null; "defers":256; "defers":-1; "defers":1.5; "defers":1.0; "defers":"0";
    "defers":-0; "defers":[0]; "defers":18446744073709551616; "defers":65536; "defers":256,"channel":1"#;

const MEMBERS: &str =
    r#""defers":0; "defers":255; "defers":8,"extended":"FFFFFFFFFFFFFFFFffffffffffffffff";
    "channel":{}; "channel":{"rbr":1,"HBR4":2}; "channel":null,"channel":{};
    "channel":{"HBR3":[[1,1,0,0],[1,1,0,0],[1,1,0,0],[1,1,0,0]]}"#;

const BAD_CHANNELS: &str =
    r#""channel":null; "channel":[]; "channel":1; "channel":{"RBR":null}; "channel":{"HBR":{}};
    "channel":{"HBR2":[]}; "channel":{"HBR3":[1,1,0,0]}; "channel":{"RBR":[[1,1,0,0],[1,1,0,0],[1,1,0,0]]};
    "channel":{"RBR":[[1,1,0,0],[1,1,0,0],[1,1,0,0],[1,1,0,0],[1,1,0,0]]}"#;

const BAD_CELLS: &str =
    r#"null; []; {}; [1,1,0]; [1,1,0,0,0]; [2,1,0,0]; [1,2,0,0]; [1,1,4,0]; [1,1,0,4]; [-1,1,0,0];
    [1,1,0,-1]; [true,1,0,0]; [1,null,0,0]; [1,1,"0",0]; [1,1,0,1.0]; [1,1,0,[0]]; [1,1,256,0]; [257,1,0,0];
    [1,1,0,0],[1,1,0,0]"#;

pub(crate) const ROWS: &[Row] = &[
    (MODEL, "caps", BAD_CAPS),
    (MODEL, "ok", CAPS),
    (MEMBER, "extended", BAD_EXTENDED),
    (MEMBER, "defers", BAD_DEFERS),
    (MEMBER, "ok", MEMBERS),
    (MEMBER, "channel", BAD_CHANNELS),
    (CELL, "channel", BAD_CELLS),
    (CELL, "ok", "[0,0,0,0]; [1,0,3,3]; [0,1,2,1]"),
];

const SEVEN_DEFERS: &str =
    r#"{"link":{"rate":"HBR3","lanes":4},"sink":{"model":{"caps":"120A84010000000000000000000000FF",
    "defers":7,"channel":{"HBR2":[[0,1,2,1],[1,0,0,3],[0,0,3,0],[1,1,1,2]]}}}}"#;

#[test]
fn a_model_is_read_with_its_defaults(rt: HostRuntime) -> Result<(), Fail> {
    let Job::Train { link, sink } = read_job(rt.alloc(), SEVEN_DEFERS.as_bytes(), Need::Train)?
    else {
        return Err("no training".into());
    };
    let wanted = Link {
        rate: Rate::Hbr3,
        lanes: Lanes::Four,
        enhanced: true,
    };
    assert_eq!(rt; link, wanted);
    let SinkPlan::Model {
        caps,
        extended,
        defers,
        channel,
    } = sink
    else {
        return Err("no model".into());
    };
    assert_eq!(rt; caps, *b"\x12\x0a\x84\x01\0\0\0\0\0\0\0\0\0\0\0\xff");
    assert_eq!(rt; extended, caps);
    assert_eq!(rt; defers, 7);
    let good = Cell::new(true, true, 0, 0);
    for rate in [Rate::Rbr, Rate::Hbr, Rate::Hbr3] {
        for lane in 0..4 {
            behaves(&rt, &channel, rate, lane, good);
        }
    }
    behaves(&rt, &channel, Rate::Hbr2, 0, Cell::new(false, true, 2, 1));
    behaves(&rt, &channel, Rate::Hbr2, 1, Cell::new(true, false, 0, 3));
    behaves(&rt, &channel, Rate::Hbr2, 2, Cell::new(false, false, 3, 0));
    behaves(&rt, &channel, Rate::Hbr2, 3, Cell::new(true, true, 1, 2));
    Ok(())
}
