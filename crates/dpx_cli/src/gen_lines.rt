ghost use Rattle.std.specs.Prelude.{◌≡◌, ◌≤◌, ◌*◌, ◌++◌, OnOk};
ghost use Rattle.dpx_source.specs.Drive.{pixel_count};
ghost use Rattle.dpx_cli.specs.GenLines.{gen_line, equal_line, gen_lines};

use crate::recv_lines::push_received;
use crate::report::Report;
use crate::send_lines::{push_plan, push_sent};
use dpx_sink::Received;
use dpx_timing::Plan;
use std::alloc::AllocError;

/// Writes what is reported of a number's frames: how much was received of what was sent, and how many pixels came back
/// as they were.
#[tactic(auto, unfolding(crate::specs::GenLines::gen_lines))]
pub(crate) fn push_generated(
    report: &mut Report,
    seed: u32,
    plan: &Plan,
    received: Received,
    equal: u64,
) -> Result<(), AllocError>
    ensures { OnOk result (report.new ≡ report.old ++ gen_lines seed plan.now received equal) }
{
    push_seed(report, seed)?;
    push_plan(report, plan)?;
    push_sent(report, plan)?;
    push_received(report, received)?;
    push_equal(report, pixel_count(plan), equal)
}

#[tactic(auto, unfolding(crate::specs::GenLines::gen_line))]
fn push_seed(report: &mut Report, seed: u32) -> Result<(), AllocError>
    ensures { OnOk result (report.new ≡ report.old ++ gen_line seed) }
{
    report.push_named("gen seed ", u64::from(seed))?;
    report.push_named(" mode ", u64::from(seed % 4))?;
    report.push_named(" frames ", u64::from(1 + seed / 4 % 2))?;
    report.push("\n")
}

#[tactic(auto, unfolding(crate::specs::GenLines::equal_line))]
fn push_equal(report: &mut Report, count: u64, equal: u64) -> Result<(), AllocError>
    ensures { OnOk result (report.new ≡ report.old ++ equal_line count equal) }
{
    report.push_named("pixels ", count)?;
    report.push_named(" equal ", equal)?;
    report.push("\n")
}

/// The pixels of all frames of a plan.
#[tactic(auto, using(crate::proofs::Counts::pixels_fit))]
pub(crate) fn pixel_count(plan: &Plan) -> u64
    ensures value { result ≡ pixel_count plan.now }
    ensures small { result ≤ 65535 * 8192 * 8192 }
{
    let mode = plan.mode();
    u64::from(plan.frames()) * u64::from(mode.height()) * u64::from(mode.width())
}
