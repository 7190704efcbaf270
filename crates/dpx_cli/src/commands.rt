ghost use Rattle.std.specs.Prelude.{◌≡◌, ◌≢◌, ◌⊎◌, ℕ, ◌+◌, ◌*◌, ◌≤◌, IsSome};
ghost use Rattle.dpx_base.specs.Faults.{Rose};
ghost use Rattle.dpx_files.specs.Events.{most_events};
ghost use Rattle.dpx_link.specs.Training.{training_entries};
ghost use Rattle.dpx_watch.specs.Step.{step_entries};
ghost use Rattle.dpx_cli.specs.declared.stop.Stop.{Stop};
ghost use Rattle.dpx_cli.specs.Commands.{Ask, NoReading, IsTrain, IsSend, IsRun, IsRecv, IsGen, IsEdid, IsWatch, IsJudge};
ghost use Rattle.dpx_cli.specs.Edid.{EdidDoes};
ghost use Rattle.dpx_cli.specs.Gen.{GenDoes};
ghost use Rattle.dpx_cli.specs.Judge.{JudgeDoes};
ghost use Rattle.dpx_cli.specs.Printing.{StopsAtOnce};
ghost use Rattle.dpx_cli.specs.Recv.{RecvDoes};
ghost use Rattle.dpx_cli.specs.Run.{RunDoes};
ghost use Rattle.dpx_cli.specs.Send.{SendDoes};
ghost use Rattle.dpx_cli.specs.Status.{IsExitStatus, IsClean, Means};
ghost use Rattle.dpx_cli.specs.Step.{◌⇒◌};
ghost use Rattle.dpx_cli.specs.Watch.{WatchDoes};
ghost use Rattle.dpx_cli.specs.Train.{SaysTrained, TrainDoes};
ghost use Rattle.dpx_cli.specs.Transfer.{PrintsFirst};

use crate::edid::edid;
use crate::generate::generate;
use crate::judge::judge;
use crate::printing::print_stop;
use crate::recv::recv;
use crate::run::run;
use crate::send::send;
use crate::stop::Stop;
use crate::train::train;
use crate::watch::watch;
use dpx_base::{Gate, NoGate, Pipe, Sink, Source};
use dpx_dpcd::LoadPort;
use dpx_files::headers_come_back;
use dpx_lane::a_capture_is_one;
use dpx_reception::{captures_are_received, faults_stay, one_reception};
use dpx_sink::{a_capture_is_received, one_end};
use dpx_words::{Command, WordsEnd, read_words};
use std::alloc::Global;
use std::thread::Threads;

/// Does what the words of the command line ask for: `words` are those without the program's name. The job comes from
/// `src`, or a capture that is received; the pixels to be sent come from `pipe`; a sink is loaded into `aux`; a capture
/// that is sent goes to `pix`, or the pixels that are received; the report to `out`. The result is the exit status:
///
/// * 0: all was done
/// * 2: the words have no reading; 3: the job has none, or a pixel is out of range, or pixels are missing
/// * 4: not trained, capabilities refused, an AUX transaction failed, or no EDID was fetched
/// * 5: the mode does not fit the link; 6: the capture is refused
/// * 7: a read failed; 8: a write failed; 9: the pipe failed; 10: want of memory
/// * 13: the EDID is refused; 14: a recorded history is not that of a training
pub fn replay<S: Source, T: Pipe, P: LoadPort, O: Sink, R: Threads + Sync>(
    rt: &R,
    alloc: Global,
    words: &[String],
    src: &mut S,
    pipe: &mut T,
    aux: &mut P,
    pix: &mut O,
    out: &mut O,
) -> u8
    // Whatever is answered: training asks at most 3,104 AUX requests, over all of the call, and trained is said only
    // where the last status shows every lane in use done. A supervisor asks at most 3,120 an event, of 64 at most.
    // A port that surely tells as many entries as can come tells its history to the end.
    ensures bounded { (Ask IsWatch words.now → ⊥)
        → (P.state aux.new).asked_in_all ≤ (P.state aux.old).asked_in_all + 3104 }
    ensures watch_bounded { Ask IsWatch words.now
        → (P.state aux.new).asked_in_all ≤ (P.state aux.old).asked_in_all + 64 * 3120 }
    ensures trained { Ask IsTrain words.now ⊎ Ask IsRun words.now → result ≡ 0
        → SaysTrained (P.state aux.new) (PrintsFirst (O.seen out.old ⇒ O.seen out.new)) }
    ensures told { (Ask IsWatch words.now → ⊥) → training_entries ≤ P.surely_told
        → (aux.new ≡ aux.old) ⊎ IsSome (P.state aux.new).history }
    ensures watch_told { Ask IsWatch words.now → most_events * step_entries ≤ P.surely_told
        → (aux.new ≡ aux.old) ⊎ IsSome (P.state aux.new).history }

    // No other status. A fault comes only where its object counted one, and none that was counted is passed over.
    ensures statuses { IsExitStatus result }
    ensures read_fault { result ≡ 7 → Rose (S.seen src.old).faults (S.seen src.new).faults }
    ensures write_fault { result ≡ 8 → Rose (O.seen pix.old).faults (O.seen pix.new).faults
        ⊎ Rose (O.seen out.old).faults (O.seen out.new).faults }
    ensures pipe_fault { result ≡ 9 → Rose (T.state pipe.old).faults (T.state pipe.new).faults }
    ensures reads_are_calm { IsClean result → (S.seen src.new).faults ≡ (S.seen src.old).faults }
    ensures pipe_is_calm { IsClean result → (T.state pipe.new).faults ≡ (T.state pipe.old).faults }
    ensures pix_is_calm { IsClean result → (O.seen pix.new).faults ≡ (O.seen pix.old).faults }
    ensures writes_are_calm { result ≢ 8 → (O.seen out.new).faults ≡ (O.seen out.old).faults }

    // Words without a reading: the usage line is printed, or `memory` in its place, and nothing else is touched.
    ensures usage { Means 2 (NoReading words.now) result }
    ensures usage_is_printed { NoReading words.now → StopsAtOnce (O.seen out.old ⇒ O.seen out.new) Stop.Usage result }
    ensures usage_changes_only_out { NoReading words.now
        → (src.new ≡ src.old) × (pipe.new ≡ pipe.old) × (aux.new ≡ aux.old) × (pix.new ≡ pix.old) }

    // What each command does, status by status; the objects that it does not name are as they were.
    ensures train { Ask IsTrain words.now → TrainDoes (S.seen src.old ⇒ S.seen src.new)
        (P.state aux.old ⇒ P.state aux.new) (aux.new ≡ aux.old) (O.seen out.old ⇒ O.seen out.new) result }
    ensures train_keeps { Ask IsTrain words.now → (pipe.new ≡ pipe.old) × (pix.new ≡ pix.old) }
    ensures send { Ask IsSend words.now → SendDoes (S.seen src.old ⇒ S.seen src.new)
        (T.state pipe.old ⇒ T.state pipe.new) (O.seen pix.old ⇒ O.seen pix.new)
        ((pipe.new ≡ pipe.old) × (pix.new ≡ pix.old)) (O.seen out.old ⇒ O.seen out.new) result }
    ensures send_keeps { Ask IsSend words.now → aux.new ≡ aux.old }
    ensures run { Ask IsRun words.now → RunDoes (S.seen src.old ⇒ S.seen src.new)
        (P.state aux.old ⇒ P.state aux.new) (aux.new ≡ aux.old) (T.state pipe.old ⇒ T.state pipe.new)
        (O.seen pix.old ⇒ O.seen pix.new) ((pipe.new ≡ pipe.old) × (pix.new ≡ pix.old))
        (O.seen out.old ⇒ O.seen out.new) result }
    ensures recv { Ask IsRecv words.now → RecvDoes (S.seen src.old ⇒ S.seen src.new)
        (O.seen pix.old ⇒ O.seen pix.new) (pix.new ≡ pix.old) (O.seen out.old ⇒ O.seen out.new) result }
    ensures recv_keeps { Ask IsRecv words.now → (pipe.new ≡ pipe.old) × (aux.new ≡ aux.old) }
    ensures generate { (seed : ℕ) → Ask (IsGen seed) words.now
        → GenDoes seed (O.seen pix.old ⇒ O.seen pix.new) (pix.new ≡ pix.old) (O.seen out.old ⇒ O.seen out.new) result }
    ensures generate_keeps { (seed : ℕ) → Ask (IsGen seed) words.now
        → (src.new ≡ src.old) × (pipe.new ≡ pipe.old) × (aux.new ≡ aux.old) }
    ensures edid { Ask IsEdid words.now → EdidDoes (S.seen src.old ⇒ S.seen src.new)
        (P.state aux.old ⇒ P.state aux.new) (aux.new ≡ aux.old) (O.seen out.old ⇒ O.seen out.new) result }
    ensures edid_keeps { Ask IsEdid words.now → (pipe.new ≡ pipe.old) × (pix.new ≡ pix.old) }
    ensures watch { Ask IsWatch words.now → WatchDoes (S.seen src.old ⇒ S.seen src.new)
        (P.state aux.old ⇒ P.state aux.new) (aux.new ≡ aux.old) (O.seen out.old ⇒ O.seen out.new) result }
    ensures watch_keeps { Ask IsWatch words.now → (pipe.new ≡ pipe.old) × (pix.new ≡ pix.old) }
    ensures judge { Ask IsJudge words.now → JudgeDoes (S.seen src.old ⇒ S.seen src.new)
        (O.seen out.old ⇒ O.seen out.new) result }
    ensures judge_keeps { Ask IsJudge words.now → (pipe.new ≡ pipe.old) × (aux.new ≡ aux.old) × (pix.new ≡ pix.old) }
{
    replay_gated(rt, alloc, words, src, pipe, aux, pix, out, &NoGate)
}

/// The same with a gate, which each lane's worker tells of each row that it begins.
pub fn replay_gated<S: Source, T: Pipe, P: LoadPort, O: Sink, G: Gate, R: Threads + Sync>(
    rt: &R,
    alloc: Global,
    words: &[String],
    src: &mut S,
    pipe: &mut T,
    aux: &mut P,
    pix: &mut O,
    out: &mut O,
    gate: &G,
) -> u8
    // Whatever is answered: training asks at most 3,104 AUX requests, over all of the call, and trained is said only
    // where the last status shows every lane in use done. A supervisor asks at most 3,120 an event, of 64 at most.
    // A port that surely tells as many entries as can come tells its history to the end.
    ensures bounded { (Ask IsWatch words.now → ⊥)
        → (P.state aux.new).asked_in_all ≤ (P.state aux.old).asked_in_all + 3104 }
    ensures watch_bounded { Ask IsWatch words.now
        → (P.state aux.new).asked_in_all ≤ (P.state aux.old).asked_in_all + 64 * 3120 }
    ensures trained { Ask IsTrain words.now ⊎ Ask IsRun words.now → result ≡ 0
        → SaysTrained (P.state aux.new) (PrintsFirst (O.seen out.old ⇒ O.seen out.new)) }
    ensures told { (Ask IsWatch words.now → ⊥) → training_entries ≤ P.surely_told
        → (aux.new ≡ aux.old) ⊎ IsSome (P.state aux.new).history }
    ensures watch_told { Ask IsWatch words.now → most_events * step_entries ≤ P.surely_told
        → (aux.new ≡ aux.old) ⊎ IsSome (P.state aux.new).history }

    // No other status. A fault comes only where its object counted one, and none that was counted is passed over.
    ensures statuses { IsExitStatus result }
    ensures read_fault { result ≡ 7 → Rose (S.seen src.old).faults (S.seen src.new).faults }
    ensures write_fault { result ≡ 8 → Rose (O.seen pix.old).faults (O.seen pix.new).faults
        ⊎ Rose (O.seen out.old).faults (O.seen out.new).faults }
    ensures pipe_fault { result ≡ 9 → Rose (T.state pipe.old).faults (T.state pipe.new).faults }
    ensures reads_are_calm { IsClean result → (S.seen src.new).faults ≡ (S.seen src.old).faults }
    ensures pipe_is_calm { IsClean result → (T.state pipe.new).faults ≡ (T.state pipe.old).faults }
    ensures pix_is_calm { IsClean result → (O.seen pix.new).faults ≡ (O.seen pix.old).faults }
    ensures writes_are_calm { result ≢ 8 → (O.seen out.new).faults ≡ (O.seen out.old).faults }

    // Words without a reading: the usage line is printed, or `memory` in its place, and nothing else is touched.
    ensures usage { Means 2 (NoReading words.now) result }
    ensures usage_is_printed { NoReading words.now → StopsAtOnce (O.seen out.old ⇒ O.seen out.new) Stop.Usage result }
    ensures usage_changes_only_out { NoReading words.now
        → (src.new ≡ src.old) × (pipe.new ≡ pipe.old) × (aux.new ≡ aux.old) × (pix.new ≡ pix.old) }

    // What each command does, status by status; the objects that it does not name are as they were.
    ensures train { Ask IsTrain words.now → TrainDoes (S.seen src.old ⇒ S.seen src.new)
        (P.state aux.old ⇒ P.state aux.new) (aux.new ≡ aux.old) (O.seen out.old ⇒ O.seen out.new) result }
    ensures train_keeps { Ask IsTrain words.now → (pipe.new ≡ pipe.old) × (pix.new ≡ pix.old) }
    ensures send { Ask IsSend words.now → SendDoes (S.seen src.old ⇒ S.seen src.new)
        (T.state pipe.old ⇒ T.state pipe.new) (O.seen pix.old ⇒ O.seen pix.new)
        ((pipe.new ≡ pipe.old) × (pix.new ≡ pix.old)) (O.seen out.old ⇒ O.seen out.new) result }
    ensures send_keeps { Ask IsSend words.now → aux.new ≡ aux.old }
    ensures run { Ask IsRun words.now → RunDoes (S.seen src.old ⇒ S.seen src.new)
        (P.state aux.old ⇒ P.state aux.new) (aux.new ≡ aux.old) (T.state pipe.old ⇒ T.state pipe.new)
        (O.seen pix.old ⇒ O.seen pix.new) ((pipe.new ≡ pipe.old) × (pix.new ≡ pix.old))
        (O.seen out.old ⇒ O.seen out.new) result }
    ensures recv { Ask IsRecv words.now → RecvDoes (S.seen src.old ⇒ S.seen src.new)
        (O.seen pix.old ⇒ O.seen pix.new) (pix.new ≡ pix.old) (O.seen out.old ⇒ O.seen out.new) result }
    ensures recv_keeps { Ask IsRecv words.now → (pipe.new ≡ pipe.old) × (aux.new ≡ aux.old) }
    ensures generate { (seed : ℕ) → Ask (IsGen seed) words.now
        → GenDoes seed (O.seen pix.old ⇒ O.seen pix.new) (pix.new ≡ pix.old) (O.seen out.old ⇒ O.seen out.new) result }
    ensures generate_keeps { (seed : ℕ) → Ask (IsGen seed) words.now
        → (src.new ≡ src.old) × (pipe.new ≡ pipe.old) × (aux.new ≡ aux.old) }
    ensures edid { Ask IsEdid words.now → EdidDoes (S.seen src.old ⇒ S.seen src.new)
        (P.state aux.old ⇒ P.state aux.new) (aux.new ≡ aux.old) (O.seen out.old ⇒ O.seen out.new) result }
    ensures edid_keeps { Ask IsEdid words.now → (pipe.new ≡ pipe.old) × (pix.new ≡ pix.old) }
    ensures watch { Ask IsWatch words.now → WatchDoes (S.seen src.old ⇒ S.seen src.new)
        (P.state aux.old ⇒ P.state aux.new) (aux.new ≡ aux.old) (O.seen out.old ⇒ O.seen out.new) result }
    ensures watch_keeps { Ask IsWatch words.now → (pipe.new ≡ pipe.old) × (pix.new ≡ pix.old) }
    ensures judge { Ask IsJudge words.now → JudgeDoes (S.seen src.old ⇒ S.seen src.new)
        (O.seen out.old ⇒ O.seen out.new) result }
    ensures judge_keeps { Ask IsJudge words.now → (pipe.new ≡ pipe.old) × (aux.new ≡ aux.old) × (pix.new ≡ pix.old) }
{
    a_capture_is_one();
    headers_come_back();
    one_end();
    one_reception();
    faults_stay();
    captures_are_received();
    a_capture_is_received();
    match read_words(alloc, words) {
        Ok(Command::Train { .. }) => train(alloc, src, aux, out),
        Ok(Command::Send { workers, .. }) => { send(rt, alloc, src, pipe, pix, out, workers, gate) }
        Ok(Command::Run { workers, .. }) => {
            run(rt, alloc, src, pipe, aux, pix, out, workers, gate)
        }
        Ok(Command::Recv { workers, .. }) => recv(rt, alloc, src, pix, out, workers, gate),
        Ok(Command::Gen { seed, workers }) => generate(rt, alloc, seed, pix, out, workers, gate),
        Ok(Command::Edid { .. }) => edid(alloc, src, aux, out),
        Ok(Command::Watch { .. }) => watch(alloc, src, aux, out),
        Ok(Command::Judge { .. }) => judge(alloc, src, out),
        Err(WordsEnd::Usage) => print_stop(alloc, out, &Stop::Usage),
        Err(WordsEnd::Memory) => print_stop(alloc, out, &Stop::NoMemory),
    }
}
