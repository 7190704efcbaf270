ghost use Rattle.std.specs.Prelude.{◌≡◌, ◌<◌, ◌≤◌, ◌↔◌, length, None, IfOk, IfSome, IsErr, IsErrOf};
ghost use Rattle.serde_json.specs.View.{view};
ghost use Rattle.dpx_dpcd.specs.Model.{IsPlan};
ghost use Rattle.dpx_files.specs.Job.{reading, job_of, train_of, send_of, run_of, edid_of, watch_of, judge_of};
ghost use Rattle.dpx_files.specs.Job.{sink_of, longest_job, plan_asked, shape_asked, events_asked, need_of, IsJob};
ghost use Rattle.dpx_files.specs.Events.{most_events};
ghost use Rattle.dpx_files.specs.Members.{json_of};
ghost use Rattle.dpx_files.specs.Refusal.{GivesUnlessMemory, refused};
ghost use Rattle.dpx_files.specs.Shape.{IsShape};

use crate::entries::read_entries;
use crate::events::read_events;
use crate::link_fields::read_link;
use crate::members::{member, object_in, read_value};
use crate::model::read_model;
use crate::script::read_script;
use crate::shape::read_shape;
use crate::{Field, JobBad, Shape};
use dpx_base::{EntryList, EventList, Link};
use dpx_dpcd::SinkPlan;
use serde_json::Value;
use std::alloc::Global;

/// The command that a job is read for; it decides which fields count.
#[derive(Clone, Copy, Debug, PartialEq, Eq)]
pub enum Need {
    Train,
    Send,
    Run,
    Edid,
    Watch,
    Judge,
}

/// What a job asks for.
#[derive(Drop)]
pub enum Job {
    /// Train this link with this sink.
    Train {
        link: Link,
        sink: SinkPlan,
    },
    /// Send this shape over this link.
    Send {
        link: Link,
        shape: Shape,
    },
    /// Train this link with this sink, and send this shape over the link that was trained.
    Run {
        link: Link,
        shape: Shape,
        sink: SinkPlan,
    },
    /// Fetch the EDID of this sink.
    Edid {
        sink: SinkPlan,
    },
    /// Supervise this link with this sink through these events.
    Watch {
        link: Link,
        sink: SinkPlan,
        events: EventList,
    },
    /// Judge whether this history is a training of this link.
    Judge {
        link: Link,
        entries: EntryList,
    },
}

/// How many bytes a job has at most.
pub const LONGEST_JOB: usize = 1_048_576;

/// Reads a job, a JSON text. The refusals come in the order of `JobBad`.
///
/// The fields are tried in the order of `Field`, and the first that is wrong is named.
#[tactic(auto, unfolding(crate::specs::Job::reading))]
pub fn read_job(alloc: Global, bytes: &[u8], need: Need) -> Result<Job, JobBad>
    ensures exact { GivesUnlessMemory (reading need bytes.now) result }
    ensures too_long { IsErrOf result JobBad.TooLong ↔ (longest_job < length bytes.now) }
    ensures not_json { IsErrOf result JobBad.NotJson → json_of bytes.now ≡ None }
    ensures only_json { json_of bytes.now ≡ None → IsErr result }
    ensures plan { IfOk result (λ job. IfSome (plan_asked job) IsPlan) }
    ensures shape { IfOk result (λ job. IfSome (shape_asked job) IsShape) }
    ensures events { IfOk result (λ job. IfSome (events_asked job) (λ events. length events ≤ most_events)) }
    ensures kind { IfOk result (λ job. need_of job ≡ need) }
{
    if bytes.len() > LONGEST_JOB {
        return Err(JobBad::TooLong);
    }
    let value = read_value(alloc, bytes)?;
    job_of(alloc, &value, need)
}

fn job_of(alloc: Global, value: &Value, need: Need) -> Result<Job, JobBad>
    ensures exact { GivesUnlessMemory (refused (job_of need (view value.now))) result }
    ensures good { IfOk result IsJob }
    ensures kind { IfOk result (λ job. need_of job ≡ need) }
{
    match need {
        Need::Train => train_job(alloc, value),
        Need::Send => Ok(send_job(value)?),
        Need::Run => run_job(alloc, value),
        Need::Edid => edid_job(alloc, value),
        Need::Watch => watch_job(alloc, value),
        Need::Judge => judge_job(alloc, value),
    }
}

#[tactic(auto, unfolding(crate::specs::Job::train_of))]
fn train_job(alloc: Global, value: &Value) -> Result<Job, JobBad>
    ensures exact { GivesUnlessMemory (refused (train_of (view value.now))) result }
    ensures good { IfOk result IsJob }
    ensures kind { IfOk result (λ job. need_of job ≡ Need.Train) }
{
    let root = object_in(Field::Root, Some(value))?;
    let link = read_link(root)?;
    let sink = read_sink(alloc, root)?;
    Ok(Job::Train { link, sink })
}

#[tactic(auto, unfolding(crate::specs::Job::send_of))]
fn send_job(value: &Value) -> Result<Job, Field>
    ensures exact { result ≡ send_of (view value.now) }
    ensures good { IfOk result IsJob }
    ensures kind { IfOk result (λ job. need_of job ≡ Need.Send) }
{
    let root = object_in(Field::Root, Some(value))?;
    Ok(Job::Send {
        link: read_link(root)?,
        shape: read_shape(root)?,
    })
}

#[tactic(auto, unfolding(crate::specs::Job::run_of))]
fn run_job(alloc: Global, value: &Value) -> Result<Job, JobBad>
    ensures exact { GivesUnlessMemory (refused (run_of (view value.now))) result }
    ensures good { IfOk result IsJob }
    ensures kind { IfOk result (λ job. need_of job ≡ Need.Run) }
{
    let root = object_in(Field::Root, Some(value))?;
    let link = read_link(root)?;
    let shape = read_shape(root)?;
    let sink = read_sink(alloc, root)?;
    Ok(Job::Run { link, shape, sink })
}

#[tactic(auto, unfolding(crate::specs::Job::edid_of))]
fn edid_job(alloc: Global, value: &Value) -> Result<Job, JobBad>
    ensures exact { GivesUnlessMemory (refused (edid_of (view value.now))) result }
    ensures good { IfOk result IsJob }
    ensures kind { IfOk result (λ job. need_of job ≡ Need.Edid) }
{
    let root = object_in(Field::Root, Some(value))?;
    let sink = read_sink(alloc, root)?;
    Ok(Job::Edid { sink })
}

#[tactic(auto, unfolding(crate::specs::Job::watch_of))]
fn watch_job(alloc: Global, value: &Value) -> Result<Job, JobBad>
    ensures exact { GivesUnlessMemory (refused (watch_of (view value.now))) result }
    ensures good { IfOk result IsJob }
    ensures kind { IfOk result (λ job. need_of job ≡ Need.Watch) }
{
    let root = object_in(Field::Root, Some(value))?;
    let link = read_link(root)?;
    let sink = read_sink(alloc, root)?;
    let events = read_events(alloc, member(Field::Events, root)?)?;
    Ok(Job::Watch { link, sink, events })
}

#[tactic(auto, unfolding(crate::specs::Job::judge_of))]
fn judge_job(alloc: Global, value: &Value) -> Result<Job, JobBad>
    ensures exact { GivesUnlessMemory (refused (judge_of (view value.now))) result }
    ensures good { IfOk result IsJob }
    ensures kind { IfOk result (λ job. need_of job ≡ Need.Judge) }
{
    let root = object_in(Field::Root, Some(value))?;
    let link = read_link(root)?;
    let entries = read_entries(alloc, member(Field::Entries, root)?)?;
    Ok(Job::Judge { link, entries })
}

#[tactic(auto, unfolding(crate::specs::Job::sink_of))]
fn read_sink(alloc: Global, root: &Value) -> Result<SinkPlan, JobBad>
    ensures exact { GivesUnlessMemory (refused (sink_of (view root.now))) result }
    ensures plan { IfOk result IsPlan }
{
    let sink = object_in(Field::Sink, root.get("sink"))?;
    match (sink.get("script"), sink.get("model")) {
        (Some(script), None) => Ok(SinkPlan::Script(read_script(alloc, script)?)),
        (None, Some(model)) => Ok(read_model(model)?),
        _ => Err(JobBad::Wrong(Field::Sink)),
    }
}
