ghost use Rattle.std.specs.Prelude.{◌≡◌, false, IsErr};
ghost use Rattle.std.specs.Io.{ReadsAtMost};
ghost use Rattle.dpx_base.specs.Faults.{HasCause};

use dpx_base::{Failed, Source};
use std::fs::File;
use std::io::Read;
use std::marker::Model;
use std::rt::Files;

/// A source over a file. It tells nothing of its contents.
#[derive(Drop)]
pub struct FileSource {
    file: Option<File>,
    faults: u64,
}

impl Model for FileSource {
    ghost use Rattle.dp_replay.specs.Held.{Held, is_there};

    ghost Value = { Held };

    ghost view = { λ s. record { holds = is_there s.file; faults = s.faults } };
}

impl FileSource {
    /// Holds the file of this name, or nothing where it can't be opened.
    pub fn open<R: Files<File = File>>(files: &R, name: &str) -> FileSource
        ensures { result.faults ≡ 0 }
    {
        FileSource {
            file: File::open(files, name).ok(),
            faults: 0,
        }
    }

    /// A source that holds nothing: each read of it fails.
    pub fn nothing() -> FileSource
        ensures { result ≡ record { holds = false; faults = 0 } }
    {
        FileSource {
            file: None,
            faults: 0,
        }
    }
}

impl Source for FileSource {
    ghost use Rattle.std.specs.Prelude.{None};

    ghost seen = { λ s. record { left = None; faults = s.faults } };

    fn read(&mut self, buf: &mut [u8]) -> Result<usize, Failed>
        ensures within { ReadsAtMost result buf.new }
        ensures cause { HasCause self.old.faults self.new.faults result }
        ensures nothing { self.old.holds ≡ false → IsErr result }
        ensures held { self.new.holds ≡ self.old.holds }
    {
        if let Some(file) = &mut self.file {
            if let Ok(count) = file.read(buf) {
                return Ok(count);
            }
        }
        self.faults = self.faults.saturating_add(1);
        Err(Failed)
    }
}

#[cfg(test)]
mod tests {
    use super::*;
    use std::fs;
    use std::process::Abort;
    use std::test::Fail;

    fn fails_at_each_read(rt: &impl Abort, mut src: FileSource) {
        for faults in [1, 2] {
            assert!(rt; src.read(&mut [0; 10]).is_err());
            assert_eq!(rt; src.faults, faults);
        }
    }

    #[test]
    fn a_file_that_cannot_be_read_is_a_fault_at_each_read(rt: HostRuntime) {
        // a folder can be opened and not read
        for name in ["no folder/link.json", "."] {
            fails_at_each_read(&rt, FileSource::open(&rt, name));
        }
        fails_at_each_read(&rt, FileSource::nothing());
    }

    fn gives(rt: &impl Abort, src: &mut FileSource, wanted: &[u8]) {
        let mut piece = [0; 10];
        assert_eq!(rt; src.read(&mut piece), Ok(wanted.len()));
        assert!(rt; piece.starts_with(wanted));
    }

    #[test]
    fn a_file_is_read_to_its_end(rt: HostRuntime) -> Result<(), Fail> {
        fs::write(&rt, "link.json", "{\"link\":null}")?;
        let mut src = FileSource::open(&rt, "link.json");
        gives(&rt, &mut src, b"{\"link\":nu");
        gives(&rt, &mut src, b"ll}");
        gives(&rt, &mut src, b"");
        assert_eq!(rt; src.faults, 0);
        Ok(())
    }
}
