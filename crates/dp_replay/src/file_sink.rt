ghost use Rattle.std.specs.Prelude.{◌≡◌, ◌<◌, ◌≤◌, false, true, length, IfOk, IsErr, Ok};
ghost use Rattle.dpx_base.specs.Faults.{HasCause};

use dpx_base::{Failed, Sink};
use std::fs;
use std::fs::File;
use std::io::{Stdout, Write};
use std::marker::Model;
use std::rt::Files;

/// Where a sink's bytes go.
#[derive(Drop)]
enum Target {
    File(File),
    Output(Stdout),
    /// Every byte is taken, and none is kept.
    Discard,
}

/// A sink over a file or standard output, or one that keeps nothing. It tells nothing of its contents.
#[derive(Drop)]
pub struct FileSink {
    target: Option<Target>,
    faults: u64,
}

impl Model for FileSink {
    ghost use Rattle.dp_replay.specs.Held.{is_there};
    ghost use Rattle.dp_replay.specs.HeldSink.{HeldSink, is_discard};

    ghost Value = { HeldSink };

    ghost view = { λ s. record {
      holds = is_there s.target;
      discards = is_discard s.target;
      faults = s.faults;
    } };
}

impl FileSink {
    /// Holds the file of this name, made or emptied, or nothing where it can't be opened.
    pub fn create<R: Files<File = File>>(files: &R, name: &str) -> FileSink
        ensures { result.faults ≡ 0 }
    {
        FileSink {
            target: fs::create(files, name).ok().map(Target::File),
            faults: 0,
        }
    }

    pub fn output(output: Stdout) -> FileSink
        ensures { result ≡ record { holds = true; discards = false; faults = 0 } }
    {
        FileSink {
            target: Some(Target::Output(output)),
            faults: 0,
        }
    }

    /// A sink that takes every byte and keeps none.
    pub fn discard() -> FileSink
        ensures { result ≡ record { holds = true; discards = true; faults = 0 } }
    {
        FileSink {
            target: Some(Target::Discard),
            faults: 0,
        }
    }

    /// A sink that holds nothing: each write to it fails.
    pub fn nothing() -> FileSink
        ensures { result ≡ record { holds = false; discards = false; faults = 0 } }
    {
        FileSink {
            target: None,
            faults: 0,
        }
    }
}

impl Sink for FileSink {
    ghost use Rattle.std.specs.Prelude.{None};

    ghost seen = { λ s. record { taken = None; faults = s.faults } };

    /// A write that takes no byte is a fault too.
    fn write(&mut self, piece: &[u8]) -> Result<usize, Failed>
        requires { 0 < length piece.now }
        ensures some { IfOk result (λ n. 0 < n) }
        ensures within { IfOk result (λ n. n ≤ length piece.now) }
        ensures cause { HasCause self.old.faults self.new.faults result }
        ensures nothing { self.old.holds ≡ false → IsErr result }
        ensures discards { self.old.discards ≡ true → result ≡ Ok (length piece.now) }
        ensures held { self.new.holds ≡ self.old.holds }
    {
        let count = match &mut self.target {
            Some(Target::File(file)) => file.write(piece).unwrap_or(0),
            Some(Target::Output(output)) => output.write(piece).unwrap_or(0),
            Some(Target::Discard) => piece.len(),
            None => 0,
        };
        if count == 0 {
            self.faults = self.faults.saturating_add(1);
            return Err(Failed);
        }
        Ok(count)
    }
}

#[cfg(test)]
mod tests {
    use super::*;
    use std::process::Abort;
    use std::test::Fail;

    fn fails_at_each_write(rt: &impl Abort, mut out: FileSink) {
        for faults in [1, 2] {
            assert!(rt; out.write(b"lane").is_err());
            assert_eq!(rt; out.faults, faults);
        }
    }

    #[test]
    fn a_file_that_cannot_be_made_is_a_fault_at_each_write(rt: HostRuntime) {
        // a full device can be opened and takes no byte
        for name in ["no folder/report", "/dev/full"] {
            fails_at_each_write(&rt, FileSink::create(&rt, name));
        }
        fails_at_each_write(&rt, FileSink::nothing());
    }

    fn takes(rt: &impl Abort, out: &mut FileSink, piece: &[u8])
        requires { 0 < length piece.now }
    {
        assert_eq!(rt; out.write(piece), Ok(piece.len()));
    }

    #[test]
    fn a_file_takes_what_is_written_and_is_emptied_when_made_again(
        rt: HostRuntime,
    ) -> Result<(), Fail> {
        let mut out = FileSink::create(&rt, "report");
        takes(&rt, &mut out, b"lane 0");
        takes(&rt, &mut out, b" swing 1");
        let report = fs::read_to_string(&rt, "report")?;
        assert_eq!(rt; report.as_str(), "lane 0 swing 1");
        let _again = FileSink::create(&rt, "report");
        assert!(rt; fs::read_to_string(&rt, "report")?.is_empty());
        Ok(())
    }

    #[test]
    fn a_sink_that_keeps_nothing_takes_every_byte(rt: HostRuntime) {
        let mut out = FileSink::discard();
        takes(&rt, &mut out, b"lane 0");
        takes(&rt, &mut out, b" swing 1");
        assert_eq!(rt; out.faults, 0);
    }
}
