ghost use Rattle.std.specs.Prelude.{map};
ghost use Rattle.dpx_words.specs.Reading.{WordsRead, train_of, sending_of, send_of, run_of, recv_of, gen_of, command_of};
ghost use Rattle.dpx_words.specs.Reading.{only_of, edid_of, watch_of, judge_of};

use crate::arguments::{named_seed, read_workers};
use crate::{Command, Name, WordsEnd};
use dpx_base::Workers;
use std::alloc::Global;

/// The command that words ask for of which none begins with a dash.
pub(crate) fn read_command(alloc: Global, words: &[&str]) -> Result<Command, WordsEnd>
    ensures { WordsRead (command_of (map (λ word. word.now) words.now)) result }
{
    let [verb, rest @ ..] = words else {
        return Err(WordsEnd::Usage);
    };
    match *verb {
        "train" => read_train(alloc, rest),
        "send" => read_send(alloc, rest),
        "run" => read_run(alloc, rest),
        "recv" => read_recv(alloc, rest),
        "gen" => read_gen(rest),
        "edid" => read_edid(alloc, rest),
        "watch" => read_watch(alloc, rest),
        "judge" => read_judge(alloc, rest),
        _ => Err(WordsEnd::Usage),
    }
}

/// The one word of a command that needs no more than a job.
fn read_only(alloc: Global, rest: &[&str]) -> Result<Name, WordsEnd>
    ensures { WordsRead (only_of (map (λ word. word.now) rest.now)) result }
{
    if rest.len() != 1 {
        return Err(WordsEnd::Usage);
    }
    Ok(Name::new(alloc, rest[0])?)
}

fn read_train(alloc: Global, rest: &[&str]) -> Result<Command, WordsEnd>
    ensures { WordsRead (train_of (map (λ word. word.now) rest.now)) result }
{
    let job = read_only(alloc, rest)?;
    Ok(Command::Train { job })
}

fn read_edid(alloc: Global, rest: &[&str]) -> Result<Command, WordsEnd>
    ensures { WordsRead (edid_of (map (λ word. word.now) rest.now)) result }
{
    let job = read_only(alloc, rest)?;
    Ok(Command::Edid { job })
}

fn read_watch(alloc: Global, rest: &[&str]) -> Result<Command, WordsEnd>
    ensures { WordsRead (watch_of (map (λ word. word.now) rest.now)) result }
{
    let job = read_only(alloc, rest)?;
    Ok(Command::Watch { job })
}

fn read_judge(alloc: Global, rest: &[&str]) -> Result<Command, WordsEnd>
    ensures { WordsRead (judge_of (map (λ word. word.now) rest.now)) result }
{
    let job = read_only(alloc, rest)?;
    Ok(Command::Judge { job })
}

/// The words of a command that sends, behind the first one.
#[derive(Drop)]
struct Sending {
    job: Name,
    pixels: Name,
    capture: Name,
    workers: Workers,
}

fn read_sending(alloc: Global, rest: &[&str]) -> Result<Sending, WordsEnd>
    ensures { WordsRead (sending_of (map (λ word. word.now) rest.now)) result }
{
    if rest.len() < 3 {
        return Err(WordsEnd::Usage);
    }
    let Some(workers) = read_workers(&rest[3..]) else {
        return Err(WordsEnd::Usage);
    };
    Ok(Sending {
        job: Name::new(alloc, rest[0])?,
        pixels: Name::new(alloc, rest[1])?,
        capture: Name::new(alloc, rest[2])?,
        workers,
    })
}

fn read_send(alloc: Global, rest: &[&str]) -> Result<Command, WordsEnd>
    ensures { WordsRead (send_of (map (λ word. word.now) rest.now)) result }
{
    let words = read_sending(alloc, rest)?;
    Ok(Command::Send {
        job: words.job,
        pixels: words.pixels,
        capture: words.capture,
        workers: words.workers,
    })
}

fn read_run(alloc: Global, rest: &[&str]) -> Result<Command, WordsEnd>
    ensures { WordsRead (run_of (map (λ word. word.now) rest.now)) result }
{
    let words = read_sending(alloc, rest)?;
    Ok(Command::Run {
        job: words.job,
        pixels: words.pixels,
        capture: words.capture,
        workers: words.workers,
    })
}

fn read_recv(alloc: Global, rest: &[&str]) -> Result<Command, WordsEnd>
    ensures { WordsRead (recv_of (map (λ word. word.now) rest.now)) result }
{
    if rest.len() < 2 {
        return Err(WordsEnd::Usage);
    }
    let Some(workers) = read_workers(&rest[2..]) else {
        return Err(WordsEnd::Usage);
    };
    Ok(Command::Recv {
        capture: Name::new(alloc, rest[0])?,
        pixels: Name::new(alloc, rest[1])?,
        workers,
    })
}

fn read_gen(rest: &[&str]) -> Result<Command, WordsEnd>
    ensures { WordsRead (gen_of (map (λ word. word.now) rest.now)) result }
{
    if rest.is_empty() {
        return Err(WordsEnd::Usage);
    }
    match (named_seed(rest[0]), read_workers(&rest[1..])) {
        (Some(seed), Some(workers)) => Ok(Command::Gen { seed, workers }),
        _ => Err(WordsEnd::Usage),
    }
}
