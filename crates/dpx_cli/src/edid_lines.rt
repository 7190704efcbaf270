ghost use Rattle.std.specs.Prelude.{◌≡◌, ◌++◌, ◌<◌, length, codes, OnOk};
ghost use Rattle.dpx_cli.specs.EdidLines.{edid_report, edid_line, sizes_text, syncs_text, rest_text, timing_text};
ghost use Rattle.dpx_cli.specs.EdidLines.{bit, mode_field_word, slot_text, slot_line, slot_lines, unfetched_line};
ghost use Rattle.dpx_cli.specs.EdidLines.{refused_line, spent_line, bad_edid_line, bad_place_line, bad_byte_line};

use crate::lines::{last_word, push_requests};
use crate::report::Report;
use dpx_aux::LastAnswer;
use dpx_base::{Mode, ModeField};
use dpx_edid::{Edid, EdidBad, FetchEnd, I2cEnd, Slot};
use std::alloc::AllocError;

/// Writes what a base block says, which was fetched with so many requests.
#[tactic(auto, unfolding(crate::specs::EdidLines::edid_report))]
pub(crate) fn push_edid(report: &mut Report, edid: &Edid, requests: u32) -> Result<(), AllocError>
    ensures { OnOk result (report.new ≡ report.old ++ edid_report edid.now requests) }
{
    push_version(report, edid.version, edid.revision, requests)?;
    push_slots(report, &edid.slots)
}

#[tactic(auto, unfolding(crate::specs::EdidLines::edid_line))]
fn push_version(
    report: &mut Report,
    version: u8,
    revision: u8,
    requests: u32,
) -> Result<(), AllocError>
    ensures { OnOk result (report.new ≡ report.old ++ edid_line version revision requests) }
{
    report.push_named("edid ", u64::from(version))?;
    report.push_named(".", u64::from(revision))?;
    push_requests(report, requests)
}

/// A line for each slot.
#[tactic(auto, using(crate::proofs::SlotSteps::slot_lines_none, crate::proofs::SlotSteps::slot_lines_more))]
fn push_slots(report: &mut Report, slots: &[Slot]) -> Result<(), AllocError>
    requires { length slots.now < 256 }
    ensures { OnOk result (report.new ≡ report.old ++ slot_lines 0 slots.now) }
{
    for (number, slot) in slots.iter().enumerate() {
        push_slot(report, number as u64, slot)?;
    }
    Ok(())
}

#[tactic(auto, unfolding(crate::specs::EdidLines::slot_line))]
fn push_slot(report: &mut Report, number: u64, slot: &Slot) -> Result<(), AllocError>
    ensures { OnOk result (report.new ≡ report.old ++ slot_line number slot.now) }
{
    report.push_named("slot ", number)?;
    push_slot_text(report, slot)?;
    report.push("\n")
}

fn push_slot_text(report: &mut Report, slot: &Slot) -> Result<(), AllocError>
    ensures { OnOk result (report.new ≡ report.old ++ slot_text slot.now) }
{
    match slot {
        Slot::Other => report.push(" other"),
        Slot::Interlaced => report.push(" interlaced"),
        Slot::Illegal(field) => push_illegal(report, *field),
        Slot::Timing(mode) => push_timing(report, mode),
    }
}

fn push_illegal(report: &mut Report, field: ModeField) -> Result<(), AllocError>
    ensures { OnOk result (report.new ≡ report.old ++ (codes " illegal " ++ mode_field_word field)) }
{
    report.push(" illegal ")?;
    report.push(mode_field_word(field))
}

/// The name of the field's member in a job.
fn mode_field_word(field: ModeField) -> &'static str
    ensures { result.now ≡ mode_field_word field }
{
    match field {
        ModeField::Width => "width",
        ModeField::Height => "height",
        ModeField::Htotal => "htotal",
        ModeField::Vtotal => "vtotal",
        ModeField::Hsw => "hsw",
        ModeField::Hstart => "hstart",
        ModeField::Vsw => "vsw",
        ModeField::Vstart => "vstart",
        ModeField::Clock => "clock",
    }
}

#[tactic(auto, unfolding(crate::specs::EdidLines::timing_text))]
fn push_timing(report: &mut Report, mode: &Mode) -> Result<(), AllocError>
    ensures { OnOk result (report.new ≡ report.old ++ timing_text mode.now) }
{
    push_sizes(report, mode)?;
    push_syncs(report, mode)?;
    push_rest(report, mode)
}

#[tactic(auto, unfolding(crate::specs::EdidLines::sizes_text))]
fn push_sizes(report: &mut Report, mode: &Mode) -> Result<(), AllocError>
    ensures { OnOk result (report.new ≡ report.old ++ sizes_text mode.now) }
{
    report.push_named(" width ", u64::from(mode.width()))?;
    report.push_named(" height ", u64::from(mode.height()))?;
    report.push_named(" total ", u64::from(mode.htotal()))?;
    report.push_named(" ", u64::from(mode.vtotal()))
}

#[tactic(auto, unfolding(crate::specs::EdidLines::syncs_text))]
fn push_syncs(report: &mut Report, mode: &Mode) -> Result<(), AllocError>
    ensures { OnOk result (report.new ≡ report.old ++ syncs_text mode.now) }
{
    report.push_named(" start ", u64::from(mode.hstart()))?;
    report.push_named(" ", u64::from(mode.vstart()))?;
    report.push_named(" sync ", u64::from(mode.hsw()))?;
    report.push_named(" ", u64::from(mode.vsw()))
}

#[tactic(auto, unfolding(crate::specs::EdidLines::rest_text))]
fn push_rest(report: &mut Report, mode: &Mode) -> Result<(), AllocError>
    ensures { OnOk result (report.new ≡ report.old ++ rest_text mode.now) }
{
    report.push_named(" polarity ", bit(mode.hsp()))?;
    report.push_named(" ", bit(mode.vsp()))?;
    report.push_named(" clock ", u64::from(mode.clock_khz()))
}

fn bit(set: bool) -> u64
    ensures { result ≡ bit set }
{
    if set { 1 } else { 0 }
}

/// Writes why no base block was fetched.
pub(crate) fn push_unfetched(report: &mut Report, end: FetchEnd) -> Result<(), AllocError>
    ensures { OnOk result (report.new ≡ report.old ++ unfetched_line end) }
{
    match end.why {
        I2cEnd::Refused => push_refused(report, end.requests),
        I2cEnd::Spent(last) => push_spent(report, last, end.requests),
    }
}

#[tactic(auto, unfolding(crate::specs::EdidLines::refused_line))]
fn push_refused(report: &mut Report, requests: u32) -> Result<(), AllocError>
    ensures { OnOk result (report.new ≡ report.old ++ refused_line requests) }
{
    report.push("i2c refused")?;
    push_requests(report, requests)
}

#[tactic(auto, unfolding(crate::specs::EdidLines::spent_line))]
fn push_spent(report: &mut Report, last: LastAnswer, requests: u32) -> Result<(), AllocError>
    ensures { OnOk result (report.new ≡ report.old ++ spent_line last requests) }
{
    report.push("i2c spent last ")?;
    report.push(last_word(last))?;
    push_requests(report, requests)
}

/// Writes why a base block is refused.
pub(crate) fn push_bad_edid(
    report: &mut Report,
    why: EdidBad,
    requests: u32,
) -> Result<(), AllocError>
    ensures { OnOk result (report.new ≡ report.old ++ bad_edid_line why requests) }
{
    match why {
        EdidBad::Header(place) => push_bad_place(report, place, requests),
        EdidBad::Sum(sum) => push_bad_byte(report, "edid sum ", sum, requests),
        EdidBad::Version(version) => push_bad_byte(report, "edid version ", version, requests),
    }
}

#[tactic(auto, unfolding(crate::specs::EdidLines::bad_place_line))]
fn push_bad_place(report: &mut Report, place: u8, requests: u32) -> Result<(), AllocError>
    ensures { OnOk result (report.new ≡ report.old ++ bad_place_line place requests) }
{
    report.push_named("edid header ", u64::from(place))?;
    push_requests(report, requests)
}

#[tactic(auto, unfolding(crate::specs::EdidLines::bad_byte_line))]
fn push_bad_byte(report: &mut Report, text: &str, byte: u8, requests: u32) -> Result<(), AllocError>
    ensures { OnOk result (report.new ≡ report.old ++ bad_byte_line text.now byte requests) }
{
    report.push(text)?;
    report.push_byte(byte)?;
    push_requests(report, requests)
}
