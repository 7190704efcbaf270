//! The command `recv` over objects in memory: reads and writes that fail.

use super::receiving::{CLEAR, Heard, Hearing, capture, hear};
use super::sending::TWO_LANES;
use std::alloc::Global;
use std::process::Abort;
use std::test::Fail;
use std::thread::Threads;

const RECORDS: usize = 384;

/// What a run leaves is a front of this, in records and in report.
fn is_front<R: Abort>(rt: &R, heard: &Heard, whole: &Heard) {
    assert!(rt;
        whole
            .records
            .as_slice()
            .starts_with(heard.records.as_slice())
    );
    assert!(rt; heard.records.len() <= RECORDS);
}

/// The read of this number fails: the lines that end before it are received, and nothing of the others.
fn read_fails<R: Abort + Threads + Sync>(
    rt: &R,
    alloc: Global,
    capture: &[u8],
    whole: &Heard,
    read: u64,
) -> Result<(), Fail> {
    let reads = [read];
    let hearing = Hearing {
        step: 1,
        reads: &reads,
        ..CLEAR
    };
    let heard = hear(rt, alloc, "recv a b one", capture, hearing)?;
    assert_eq!(rt; heard.status, 7);
    assert!(rt; heard.printed.as_str().ends_with("read fault\n"));
    is_front(rt, &heard, whole);
    Ok(())
}

#[test]
fn a_read_that_fails_leaves_what_was_received_before(rt: HostRuntime) -> Result<(), Fail> {
    let sent = capture(&rt, rt.alloc(), TWO_LANES, 8)?;
    let whole = hear(&rt, rt.alloc(), "recv a b", sent.as_slice(), CLEAR)?;
    // one byte a read: 2,812 of them, and one that finds the end
    for read in 0..2813u64 {
        read_fails(&rt, rt.alloc(), sent.as_slice(), &whole, read)?;
    }
    Ok(())
}

#[test]
fn a_write_of_the_pixels_that_fails_ends_the_command(rt: HostRuntime) -> Result<(), Fail> {
    let sent = capture(&rt, rt.alloc(), TWO_LANES, 8)?;
    let whole = hear(&rt, rt.alloc(), "recv a b", sent.as_slice(), CLEAR)?;
    for write in 0..RECORDS as u64 + 1 {
        let records = [write];
        let hearing = Hearing {
            records: &records,
            ..CLEAR
        };
        let heard = hear(&rt, rt.alloc(), "recv a b", sent.as_slice(), hearing)?;
        is_front(&rt, &heard, &whole);
        if heard.status == 0 {
            assert_eq!(rt; heard.records.len(), RECORDS);
            return Ok(());
        }
        assert_eq!(rt; heard.status, 8);
        assert!(rt; heard.printed.as_str().ends_with("write fault\n"));
    }
    Err("no run ended well".into())
}

#[test]
fn a_write_of_the_report_that_fails_ends_the_command(rt: HostRuntime) -> Result<(), Fail> {
    let sent = capture(&rt, rt.alloc(), TWO_LANES, 8)?;
    let whole = hear(&rt, rt.alloc(), "recv a b", sent.as_slice(), CLEAR)?;
    for write in 0..1024u64 {
        let report = [write];
        let hearing = Hearing {
            report: &report,
            ..CLEAR
        };
        let heard = hear(&rt, rt.alloc(), "recv a b", sent.as_slice(), hearing)?;
        is_front(&rt, &heard, &whole);
        assert!(rt; whole.printed.as_str().starts_with(heard.printed.as_str()));
        if heard.status == 0 {
            assert_eq!(rt; heard.records.len(), RECORDS);
            return Ok(());
        }
        assert_eq!(rt; heard.status, 8);
    }
    Err("no run ended well".into())
}
