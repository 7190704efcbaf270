//! The link comes first.

use super::{Frame, Row, WHOLE};
use dpx_files::{Job, Need, read_job};
use std::test::Fail;

const RATE: Frame = (
    r#"{"link":{"lanes":1,"rate":"#,
    r#"},"sink":{"script":[]}}"#,
);

const LANES: Frame = (
    r#"{"link":{"rate":"RBR","lanes":"#,
    r#"},"sink":{"script":[]}}"#,
);

const ENHANCED: Frame = (
    r#"{"link":{"rate":"RBR","lanes":1"#,
    r#"},"sink":{"script":[]}}"#,
);

const NO_LINK: &str =
    r#"{}; {"link":null}; {"link":[]}; {"link":"RBR"}; {"Link":{}}; {"sink":{"script":1}};
    {"link":{"rate":"RBR","lanes":1},"sink":{"script":[]},"link":1}"#;

const NO_RATE: &str =
    r#"{"link":{}}; {"link":{"lanes":1}}; {"link":{"lanes":3}}; {"link":{"lanes":1},"sink":1}"#;

const BAD_RATES: &str =
    r#"null; 6; true; ""; "rbr"; "RBR "; "HBR1"; "HBR4"; "HBR22"; ["RBR"]; "RBR","rate":0"#;

const RATES: &str = r#""RBR"; "HBR"; "HBR2"; "HBR3"; "\u0052BR"; 0,"rate":"RBR""#;

const BAD_LANES: &str = r#"0; 3; 5; 8; 257; 258; -1; -0; 1.0; 1e0; 1.5; "1"; null; true; [1]; {};
    18446744073709551617; 1,"lanes":3"#;

const GOOD_LANES: &str = r#"1; 2; 4; 3,"lanes":1; 1,"x":-1.5e3"#;

const BAD_FRAMING: &str =
    r#","enhanced":null; ,"enhanced":2; ,"enhanced":-1; ,"enhanced":true; ,"enhanced":false;
    ,"enhanced":"1"; ,"enhanced":1.0; ,"enhanced":[1]; ,"enhanced":257; ,"enhanced":1,"enhanced":2"#;

const GOOD_FRAMING: &str =
    r#"; ,"enhanced":0; ,"enhanced":1; ,"Enhanced":2; ,"enhanced":2,"enhanced":0"#;

/// The lanes come before the framing, and the sink behind it.
const LANES_FIRST: &str = r#"{"link":{"rate":"RBR","lanes":3,"enhanced":2}}"#;

const FRAMING_FIRST: &str = r#"{"link":{"rate":"RBR","lanes":1,"enhanced":2}}"#;

pub(crate) const ROWS: &[Row] = &[
    (WHOLE, "link", NO_LINK),
    (WHOLE, "rate", NO_RATE),
    (RATE, "rate", BAD_RATES),
    (RATE, "ok", RATES),
    (WHOLE, "lanes", r#"{"link":{"rate":"RBR"}}"#),
    (LANES, "lanes", BAD_LANES),
    (LANES, "ok", GOOD_LANES),
    (ENHANCED, "enhanced", BAD_FRAMING),
    (ENHANCED, "ok", GOOD_FRAMING),
    (WHOLE, "lanes", LANES_FIRST),
    (WHOLE, "enhanced", FRAMING_FIRST),
];

#[test]
fn framing_is_enhanced_by_default(rt: HostRuntime) -> Result<(), Fail> {
    for (member, wanted) in [
        ("", true),
        (",\"enhanced\":1", true),
        (",\"enhanced\":0", false),
    ] {
        let (before, behind) = ENHANCED;
        let text = format!(in rt.alloc(); "{before}{member}{behind}")?;
        let Job::Train { link, .. } = read_job(rt.alloc(), text.as_bytes(), Need::Train)? else {
            return Err("no training".into());
        };
        assert_eq!(rt; link.enhanced, wanted);
    }
    Ok(())
}
