//! A job is a JSON object of a bounded length.

use super::{Row, SCRIPT, WHOLE, ends, outcome, repeated};
use dpx_files::{Field, JobBad};
use std::test::Fail;

const GOOD: &str = r#"{"link":{"rate":"RBR","lanes":1},"sink":{"script":[]}}"#;

const NOT_JSON: &str = r#"; {; {}x; {} {}; {,}; {'link':1}; [01]; [.5]; [NaN]; [1e999]; // a; {"a":"
"}; {"a":1,}; {"a":"\ud800"}; {"\udc00":1}; {"a":"\x"}; {"link" {}}; tru"#;

const NO_OBJECT: &str = r#"[]; null; 1; -0; "link"; true; [{}]"#;

pub(crate) const ROWS: &[Row] = &[
    (WHOLE, "not json", NOT_JSON),
    (WHOLE, "job", NO_OBJECT),
    (WHOLE, "ok", GOOD),
];

#[test]
fn bytes_that_are_no_text_are_no_json(rt: HostRuntime) {
    let texts: [&[u8]; 5] = [
        b"\xff",
        b"{\"a\":\"\xc3\"}",
        b"\xef\xbb\xbf{}",
        b"{}\x80",
        b" ",
    ];
    for text in texts {
        assert_eq!(rt; outcome(rt.alloc(), text), "not json");
    }
}

#[test]
fn the_longest_job_is_read(rt: HostRuntime) -> Result<(), Fail> {
    for (length, wanted) in [(1_048_576, "ok"), (1_048_577, "too long")] {
        let mut bytes = Vec::from_slice(rt.alloc(), GOOD.as_bytes())?;
        bytes.resize(length, b' ')?;
        assert_eq!(rt; outcome(rt.alloc(), bytes.as_slice()), wanted);
    }
    Ok(())
}

#[test]
fn the_longest_script_is_read(rt: HostRuntime) -> Result<(), Fail> {
    for (answers, wanted) in [(4095, "ok"), (4096, "script")] {
        let list = repeated(rt.alloc(), "[", "\"00\",", answers, "\"s\"]")?;
        ends(&rt, rt.alloc(), SCRIPT, wanted, list.as_str())?;
    }
    Ok(())
}

#[test]
fn the_deepest_text_is_read(rt: HostRuntime) -> Result<(), Fail> {
    for (arrays, wanted) in [(126, "link"), (127, "not json")] {
        let open = repeated(rt.alloc(), "{\"x\":", "[", arrays, "")?;
        let text = repeated(rt.alloc(), open.as_str(), "]", arrays, "}")?;
        ends(&rt, rt.alloc(), WHOLE, wanted, text.as_str())?;
    }
    Ok(())
}

#[test]
fn refusals_are_printed(rt: HostRuntime) -> Result<(), Fail> {
    for (bad, wanted) in [
        (JobBad::TooLong, "job too long"),
        (JobBad::NotJson, "job not json"),
        (JobBad::Wrong(Field::Root), "job wrong job"),
        (JobBad::Wrong(Field::Extended), "job wrong extended"),
        (JobBad::Memory, "memory"),
    ] {
        assert_eq!(rt; format!(in rt.alloc(); "{bad}")?.as_str(), wanted);
    }
    Ok(())
}
