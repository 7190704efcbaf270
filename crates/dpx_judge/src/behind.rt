ghost use Rattle.std.specs.Prelude.{◌≡◌, ◌<◌, ◌≤◌, length};
ghost use Rattle.dpx_phase.specs.Endings.{recovery_reads, equalisation_reads};
ghost use Rattle.dpx_judge.specs.Machine.{what_follows, behind_base_block, capable, behind_recovery, behind_recovery_status};
ghost use Rattle.dpx_judge.specs.Machine.{recovered, behind_equalisation, behind_equalisation_status, attempted};
ghost use Rattle.dpx_judge.specs.Machine.{behind_attempt, brings, brings_in, IsReached, IsSound};

use crate::step::{Act, Attempt, Step};
use dpx_aux::AuxEnd;
use dpx_base::Link;
use dpx_dpcd::{Caps, CapsBad, Drive, Status6, has_extended};
use dpx_link::{AttemptEnd, Next, Verdict, equalised, next_of};
use dpx_phase::{Level, NO_DRIVE, PhaseEnd, equalisation_end, next_level, recovery_end};

/// What follows a wait or an acknowledged transaction.
#[derive(Clone, Copy)]
pub(crate) enum Behind {
    Go(Step),
    /// The training has ended so.
    Stop(Result<Verdict, AuxEnd>),
}

/// What follows the step, in a training of `top`, where these bytes were brought; a wait and a write bring none.
pub(crate) fn what_follows(top: Link, step: &Step, bytes: &[u8]) -> Behind
    requires sound { IsSound step.now }
    requires brought { length bytes.now ≡ brings step.now }
    ensures value { result ≡ what_follows top step.now bytes.now }
    ensures sound { IsReached result }
{
    match step {
        Step::BaseBlock => behind_base_block(block_of(bytes)),
        Step::ExtendedField => capable(Caps::read(&block_of(bytes))),
        Step::Power(caps) => {
            let first = caps.start(top);
            Behind::Go(Step::Configuration(Attempt {
                caps: *caps,
                first,
                link: first,
            }))
        }
        Step::Configuration(attempt) => Behind::Go(Step::Coding(*attempt)),
        Step::Coding(attempt) => Behind::Go(Step::Recovery {
            attempt: *attempt,
            act: Act::Start,
            level: Level {
                drive: NO_DRIVE,
                alike: 1,
            },
            number: 1,
        }),
        Step::Recovery {
            attempt,
            act,
            level,
            number,
        } => behind_recovery(attempt, *act, *level, *number, bytes),
        Step::Equalisation {
            attempt,
            act,
            drive,
            number,
        } => behind_equalisation(attempt, *act, *drive, *number, bytes),
        Step::Close(verdict) => Behind::Stop(Ok(*verdict)),
    }
}

/// Behind the block: its extended field, where it says that there is one.
fn behind_base_block(block: [u8; 16]) -> Behind
    ensures value { result ≡ behind_base_block block }
    ensures sound { IsReached result }
{
    if has_extended(&block) {
        Behind::Go(Step::ExtendedField)
    } else {
        capable(Caps::read(&block))
    }
}

fn capable(caps: Result<Caps, CapsBad>) -> Behind
    ensures value { result ≡ capable caps }
    ensures sound { IsReached result }
{
    match caps {
        Ok(caps) => Behind::Go(Step::Power(caps)),
        Err(why) => Behind::Stop(Ok(Verdict::CapsRefused { why })),
    }
}

fn behind_recovery(attempt: &Attempt, act: Act, level: Level, number: u8, bytes: &[u8]) -> Behind
    requires number { number ≤ recovery_reads }
    requires alike { level.alike ≤ number }
    requires brought { length bytes.now ≡ brings_in act }
    ensures value { result ≡ behind_recovery attempt.now act level number bytes.now }
    ensures sound { IsReached result }
{
    let act = match act {
        Act::Start | Act::Adjust => Act::Wait,
        Act::Wait => Act::Read,
        Act::Read => return behind_recovery_status(attempt, level, number, status_of(bytes)),
    };
    Behind::Go(Step::Recovery {
        attempt: *attempt,
        act,
        level,
        number,
    })
}

fn behind_recovery_status(attempt: &Attempt, level: Level, number: u8, status: Status6) -> Behind
    requires number { number ≤ recovery_reads }
    requires alike { level.alike ≤ number }
    ensures value { result ≡ behind_recovery_status attempt.now level number status }
    ensures sound { IsReached result }
{
    let lanes = attempt.link.lanes;
    match recovery_end(lanes, status, level, number) {
        Some(end) => recovered(attempt, end),
        None => Behind::Go(Step::Recovery {
            attempt: *attempt,
            act: Act::Adjust,
            level: next_level(lanes, status, level),
            number: number + 1,
        }),
    }
}

/// Behind clock recovery: equalisation, where it was done.
fn recovered(attempt: &Attempt, end: PhaseEnd) -> Behind
    ensures value { result ≡ recovered attempt.now end }
    ensures sound { IsReached result }
{
    match end {
        PhaseEnd::Done { drive, .. } => Behind::Go(Step::Equalisation {
            attempt: *attempt,
            act: Act::Start,
            drive,
            number: 1,
        }),
        PhaseEnd::Failed { last, .. } | PhaseEnd::Lost { last } => {
            behind_attempt(attempt, AttemptEnd::Unrecovered { last })
        }
        PhaseEnd::Aux(why) => Behind::Stop(Err(why)),
    }
}

fn behind_equalisation(
    attempt: &Attempt,
    act: Act,
    drive: Drive,
    number: u8,
    bytes: &[u8],
) -> Behind
    requires number { number ≤ equalisation_reads }
    requires brought { length bytes.now ≡ brings_in act }
    ensures value { result ≡ behind_equalisation attempt.now act drive number bytes.now }
    ensures sound { IsReached result }
{
    let act = match act {
        Act::Start | Act::Adjust => Act::Wait,
        Act::Wait => Act::Read,
        Act::Read => return behind_equalisation_status(attempt, drive, number, status_of(bytes)),
    };
    Behind::Go(Step::Equalisation {
        attempt: *attempt,
        act,
        drive,
        number,
    })
}

fn behind_equalisation_status(
    attempt: &Attempt,
    drive: Drive,
    number: u8,
    status: Status6,
) -> Behind
    requires { number ≤ equalisation_reads }
    ensures value { result ≡ behind_equalisation_status attempt.now drive number status }
    ensures sound { IsReached result }
{
    let lanes = attempt.link.lanes;
    match equalisation_end(lanes, status, drive, number) {
        Some(end) => attempted(attempt, equalised(end)),
        None => Behind::Go(Step::Equalisation {
            attempt: *attempt,
            act: Act::Adjust,
            drive: status.level(lanes),
            number: number + 1,
        }),
    }
}

fn attempted(attempt: &Attempt, end: Result<AttemptEnd, AuxEnd>) -> Behind
    ensures value { result ≡ attempted attempt.now end }
    ensures sound { IsReached result }
{
    match end {
        Ok(end) => behind_attempt(attempt, end),
        Err(why) => Behind::Stop(Err(why)),
    }
}

/// Behind an attempt: the next one, or the closing write.
fn behind_attempt(attempt: &Attempt, end: AttemptEnd) -> Behind
    ensures value { result ≡ behind_attempt attempt.now end }
    ensures sound { IsReached result }
{
    match next_of(attempt.first, attempt.link, end) {
        Next::Try(link) => Behind::Go(Step::Configuration(Attempt { link, ..*attempt })),
        Next::Stop(verdict) => Behind::Go(Step::Close(verdict)),
    }
}

fn block_of(bytes: &[u8]) -> [u8; 16]
    requires { length bytes.now ≡ 16 }
    ensures { result ≡ bytes.now }
{
    let mut block = [0; 16];
    block.copy_from_slice(bytes);
    block
}

fn status_of(bytes: &[u8]) -> Status6
    requires { length bytes.now ≡ 6 }
    ensures { result ≡ record { bytes = bytes.now } }
{
    let mut status = [0; 6];
    status.copy_from_slice(bytes);
    Status6 { bytes: status }
}
