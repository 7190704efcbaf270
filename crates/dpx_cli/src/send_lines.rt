ghost use Rattle.std.specs.Prelude.{◌≡◌, ◌*◌, ◌++◌, OnOk};
ghost use Rattle.dpx_base.specs.Plan.{clocks};
ghost use Rattle.dpx_cli.specs.SendLines.{unfit_line, too_fast_line, too_slow_line, no_room_line, plan_line};
ghost use Rattle.dpx_cli.specs.SendLines.{sent_line, bad_pixel_line, pixels_ended_line};

use crate::report::Report;
use dpx_timing::{Plan, Unfit};
use std::alloc::AllocError;

/// Writes why a mode does not fit.
pub(crate) fn push_unfit(report: &mut Report, why: Unfit) -> Result<(), AllocError>
    ensures { OnOk result (report.new ≡ report.old ++ unfit_line why) }
{
    match why {
        Unfit::TooFast { n, m } => push_too_fast(report, n, m),
        Unfit::TooSlow { n, m, unit } => push_too_slow(report, n, m, unit),
        Unfit::NoRoom { have, need } => push_no_room(report, have, need),
    }
}

#[tactic(auto, unfolding(crate::specs::SendLines::too_fast_line))]
fn push_too_fast(report: &mut Report, n: u64, m: u64) -> Result<(), AllocError>
    ensures { OnOk result (report.new ≡ report.old ++ too_fast_line n m) }
{
    report.push_named("unfit too fast n ", n)?;
    report.push_named(" m ", m)?;
    report.push("\n")
}

#[tactic(auto, unfolding(crate::specs::SendLines::too_slow_line))]
fn push_too_slow(report: &mut Report, n: u64, m: u64, unit: u8) -> Result<(), AllocError>
    ensures { OnOk result (report.new ≡ report.old ++ too_slow_line n m unit) }
{
    report.push_named("unfit too slow n ", n)?;
    report.push_named(" m ", m)?;
    report.push_named(" unit ", u64::from(unit))?;
    report.push("\n")
}

#[tactic(auto, unfolding(crate::specs::SendLines::no_room_line))]
fn push_no_room(report: &mut Report, have: u64, need: u64) -> Result<(), AllocError>
    ensures { OnOk result (report.new ≡ report.old ++ no_room_line have need) }
{
    report.push_named("unfit no room have ", have)?;
    report.push_named(" need ", need)?;
    report.push("\n")
}

/// Writes the numbers of a plan's lines.
#[tactic(auto, unfolding(crate::specs::SendLines::plan_line))]
pub(crate) fn push_plan(report: &mut Report, plan: &Plan) -> Result<(), AllocError>
    ensures { OnOk result (report.new ≡ report.old ++ plan_line plan.now) }
{
    report.push_named("plan symbols ", u64::from(plan.symbols()))?;
    report.push_named(" n ", plan.n())?;
    report.push_named(" m ", plan.m())?;
    report.push_named(" unit ", u64::from(plan.unit()))?;
    report.push_named(" delay ", u64::from(plan.delay()))?;
    report.push_named(" end ", plan.line_end())?;
    report.push_named(" bound ", u64::from(plan.bound()))?;
    report.push("\n")
}

/// Writes how much was sent.
#[tactic(auto, unfolding(crate::specs::SendLines::sent_line))]
pub(crate) fn push_sent(report: &mut Report, plan: &Plan) -> Result<(), AllocError>
    ensures { OnOk result (report.new ≡ report.old ++ sent_line plan.now) }
{
    let lines = u64::from(plan.frames()) * u64::from(plan.mode().height());
    report.push_named("sent frames ", u64::from(plan.frames()))?;
    report.push_named(" lines ", lines)?;
    report.push_named(" clocks ", plan.clocks())?;
    report.push("\n")
}

#[tactic(auto, unfolding(crate::specs::SendLines::bad_pixel_line))]
pub(crate) fn push_bad_pixel(report: &mut Report, number: u64, value: u16) -> Result<(), AllocError>
    ensures { OnOk result (report.new ≡ report.old ++ bad_pixel_line number value) }
{
    report.push_named("pixel ", number)?;
    report.push_named(" bad ", u64::from(value))?;
    report.push("\n")
}

#[tactic(auto, unfolding(crate::specs::SendLines::pixels_ended_line))]
pub(crate) fn push_pixels_ended(report: &mut Report, number: u64) -> Result<(), AllocError>
    ensures { OnOk result (report.new ≡ report.old ++ pixels_ended_line number) }
{
    report.push_named("pixels ended at ", number)?;
    report.push("\n")
}
