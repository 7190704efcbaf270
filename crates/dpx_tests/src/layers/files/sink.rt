//! A sink is a script or a model.

use super::{Frame, Row, SCRIPT, WHOLE};
use dpx_base::{Answer, Lanes, Rate};
use dpx_dpcd::SinkPlan;
use dpx_files::{Job, Need, read_job};
use std::process::Abort;
use std::test::Fail;

const SINK: Frame = (r#"{"link":{"rate":"HBR","lanes":2},"sink":"#, "}");

const NO_SINK: &str = r#"null; []; "script"; {}; {"Script":[]}; {"script":[],"model":null};
    {"script":null,"model":null}; {"script":[],"model":{}}; {"script":1,"model":1}"#;

const BAD_SCRIPTS: &str =
    r#"null; {}; "s"; 0; [1]; [null]; [[]]; ["S"]; ["ss"]; ["0"]; ["000"]; ["0g"]; [" 00"];
    ["0x00"]; ["00","s","0"]; ["s",null]; ["s"],"script":1; ["0000000000000000000000000000000000000000 "];
    ["000000000000000000000000000000000000000000"]; ["00000000000000000000000000000000000000000"]"#;

const SCRIPTS: &str = r#"[]; [""]; ["s"]; ["00","s","","fF","Ff"]; ["\u0073"]; 1,"script":["s"];
    ["00112233445566778899aABbcCDdeEFf01234567"]"#;

const NO_MODEL: &str = r#"{"model":null}; {"model":[]}; {"model":"caps"}"#;

pub(crate) const ROWS: &[Row] = &[
    (WHOLE, "sink", r#"{"link":{"rate":"RBR","lanes":1}}"#),
    (SINK, "sink", NO_SINK),
    (SINK, "script", r#"{"script":null}"#),
    (SCRIPT, "script", BAD_SCRIPTS),
    (SCRIPT, "ok", SCRIPTS),
    (SINK, "model", NO_MODEL),
];

const FOUR_ANSWERS: &str = r#"{"link":{"rate":"RBR","lanes":1},"sink":{"script":
    ["0012068100000000000000000000000000","s","","0fF0"]}}"#;

fn is_answer(rt: &impl Abort, answer: &Answer, wanted: Option<&[u8]>) {
    match answer {
        Answer::Silent => assert!(rt; wanted.is_none()),
        Answer::Bytes(given) => assert_eq!(rt; Some(given.as_slice()), wanted),
    }
}

#[test]
fn a_script_has_the_answers_of_its_texts(rt: HostRuntime) -> Result<(), Fail> {
    let Job::Train { link, sink } = read_job(rt.alloc(), FOUR_ANSWERS.as_bytes(), Need::Train)?
    else {
        return Err("no training".into());
    };
    assert_eq!(rt;
        (link.rate, link.lanes, link.enhanced),
        (Rate::Rbr, Lanes::One, true)
    );
    let SinkPlan::Script(answers) = sink else {
        return Err("no script".into());
    };
    let [first, second, third, fourth] = answers.as_slice() else {
        return Err("not four answers".into());
    };
    is_answer(
        &rt,
        first,
        Some(b"\0\x12\x06\x81\0\0\0\0\0\0\0\0\0\0\0\0\0"),
    );
    is_answer(&rt, second, None);
    is_answer(&rt, third, Some(&[]));
    is_answer(&rt, fourth, Some(&[0x0f, 0xf0]));
    Ok(())
}
