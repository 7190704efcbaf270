ghost use Rattle.std.specs.Prelude.{◌≡◌, ◌++◌, OnOk};
ghost use Rattle.dpx_cli.specs.RecvLines.{received_line, header_line, truncated_line, no_lock_line, finish_line};
ghost use Rattle.dpx_cli.specs.RecvLines.{place_text, bad_word_line, wrong_word_line, word_line, byte_text};
ghost use Rattle.dpx_cli.specs.RecvLines.{attributes_text, short_text, why_text, set_line};

use crate::report::Report;
use dpx_align::AlignBad;
use dpx_base::Place;
use dpx_msa::MsaBad;
use dpx_parse::{ParseBad, ParseWhy};
use dpx_sink::{FinishEnd, Received};
use std::alloc::AllocError;

/// Writes how much was received.
#[tactic(auto, unfolding(crate::specs::RecvLines::received_line))]
pub(crate) fn push_received(report: &mut Report, received: Received) -> Result<(), AllocError>
    ensures { OnOk result (report.new ≡ report.old ++ received_line received) }
{
    report.push_named("received frames ", received.frames)?;
    report.push_named(" lines ", received.lines)?;
    report.push_named(" tail ", received.tail_clocks)?;
    report.push("\n")
}

/// Writes that so many bytes are no header.
#[tactic(auto, unfolding(crate::specs::RecvLines::header_line))]
pub(crate) fn push_header(report: &mut Report, count: u8) -> Result<(), AllocError>
    ensures { OnOk result (report.new ≡ report.old ++ header_line count) }
{
    report.push_named("capture header after ", u64::from(count))?;
    report.push(" bytes")?;
    report.push("\n")
}

/// Writes why a capture without a fault was not received.
pub(crate) fn push_finish_end(report: &mut Report, end: FinishEnd) -> Result<(), AllocError>
    ensures { OnOk result (report.new ≡ report.old ++ finish_line end) }
{
    match end {
        FinishEnd::Truncated { clock, bytes } => push_truncated(report, clock, bytes),
        FinishEnd::NoLock { clocks } => push_no_lock(report, clocks),
    }
}

#[tactic(auto, unfolding(crate::specs::RecvLines::truncated_line))]
fn push_truncated(report: &mut Report, clock: u64, bytes: u8) -> Result<(), AllocError>
    ensures { OnOk result (report.new ≡ report.old ++ truncated_line clock bytes) }
{
    report.push_named("capture truncated at clock ", clock)?;
    report.push_named(" with ", u64::from(bytes))?;
    report.push(" bytes")?;
    report.push("\n")
}

#[tactic(auto, unfolding(crate::specs::RecvLines::no_lock_line))]
fn push_no_lock(report: &mut Report, clocks: u64) -> Result<(), AllocError>
    ensures { OnOk result (report.new ≡ report.old ++ no_lock_line clocks) }
{
    report.push_named("no lock in ", clocks)?;
    report.push(" clocks")?;
    report.push("\n")
}

/// Writes the first word fault.
pub(crate) fn push_bad_word(report: &mut Report, bad: AlignBad) -> Result<(), AllocError>
    ensures { OnOk result (report.new ≡ report.old ++ word_line bad) }
{
    match bad {
        AlignBad::BadWord { place, value } => push_word_value(report, place, value),
        AlignBad::NotAWord { place, word } => push_wrong_word(report, "not a word", place, word),
        AlignBad::WrongColumn { place, word } => {
            push_wrong_word(report, "wrong column", place, word)
        }
    }
}

#[tactic(auto, unfolding(crate::specs::RecvLines::bad_word_line))]
fn push_word_value(report: &mut Report, place: Place, value: u16) -> Result<(), AllocError>
    ensures { OnOk result (report.new ≡ report.old ++ bad_word_line place value) }
{
    report.push("word value")?;
    push_place(report, place)?;
    report.push_named(" is ", u64::from(value))?;
    report.push("\n")
}

#[tactic(auto, unfolding(crate::specs::RecvLines::wrong_word_line))]
fn push_wrong_word(
    report: &mut Report,
    reason: &str,
    place: Place,
    word: u16,
) -> Result<(), AllocError>
    ensures { OnOk result (report.new ≡ report.old ++ wrong_word_line reason.now place word) }
{
    report.push(reason)?;
    push_place(report, place)?;
    report.push(": ")?;
    report.push_word(word)?;
    report.push("\n")
}

#[tactic(auto, unfolding(crate::specs::RecvLines::place_text))]
fn push_place(report: &mut Report, place: Place) -> Result<(), AllocError>
    ensures { OnOk result (report.new ≡ report.old ++ place_text place) }
{
    report.push_named(" at clock ", place.clock)?;
    report.push_named(" lane ", u64::from(place.lane))
}

/// Writes the first set that is refused.
#[tactic(auto, unfolding(crate::specs::RecvLines::set_line))]
pub(crate) fn push_bad_set(report: &mut Report, bad: ParseBad) -> Result<(), AllocError>
    ensures { OnOk result (report.new ≡ report.old ++ set_line bad) }
{
    report.push_named("set ", bad.set)?;
    report.push(" ")?;
    push_why(report, bad.why)?;
    report.push("\n")
}

fn push_why(report: &mut Report, why: ParseWhy) -> Result<(), AllocError>
    ensures { OnOk result (report.new ≡ report.old ++ why_text why) }
{
    match why {
        ParseWhy::Mixed => report.push("mixed"),
        ParseWhy::BadControl => report.push("control"),
        ParseWhy::BadGroup => report.push("group"),
        ParseWhy::Protected => report.push("protected"),
        ParseWhy::Interlaced => report.push("interlaced"),
        ParseWhy::VbIdDiffers => report.push("vbid differs"),
        ParseWhy::Msa(bad) => push_bad_attributes(report, bad),
        ParseWhy::LineLong => report.push("line long"),
        ParseWhy::LineShort { got, want } => push_short(report, "line short ", got, want),
        ParseWhy::FrameShort { got, want } => push_short(report, "frame short ", got, want),
        ParseWhy::FrameLong => report.push("frame long"),
    }
}

#[tactic(auto, unfolding(crate::specs::RecvLines::short_text))]
fn push_short(report: &mut Report, name: &str, got: u32, want: u32) -> Result<(), AllocError>
    ensures { OnOk result (report.new ≡ report.old ++ short_text name.now got want) }
{
    report.push_named(name, u64::from(got))?;
    report.push_named(" want ", u64::from(want))
}

fn push_bad_attributes(report: &mut Report, bad: MsaBad) -> Result<(), AllocError>
    ensures { OnOk result (report.new ≡ report.old ++ attributes_text bad) }
{
    match bad {
        MsaBad::Colour(misc0) => push_bad_byte(report, "attributes colour ", misc0),
        MsaBad::DepthCode(misc0) => push_bad_byte(report, "attributes depth ", misc0),
        MsaBad::Misc1(misc1) => push_bad_byte(report, "attributes misc1 ", misc1),
        MsaBad::Width(width) => report.push_named("attributes width ", u64::from(width)),
        MsaBad::Height(height) => report.push_named("attributes height ", u64::from(height)),
        MsaBad::NvidZero => report.push("attributes nvid"),
    }
}

#[tactic(auto, unfolding(crate::specs::RecvLines::byte_text))]
fn push_bad_byte(report: &mut Report, name: &str, byte: u8) -> Result<(), AllocError>
    ensures { OnOk result (report.new ≡ report.old ++ byte_text name.now byte) }
{
    report.push(name)?;
    report.push_byte(byte)
}
