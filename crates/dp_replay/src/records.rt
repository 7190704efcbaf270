ghost use Rattle.std.specs.Prelude.{◌≡◌, ◌≤◌, ◌<◌, ◌++◌, ℕ, [], length, take, IfOk, Err};
ghost use Rattle.std.specs.Io.KnownBytes.{Consumes, IsAtEnd, Keeps, ReadConsumes};
ghost use Rattle.dpx_base.specs.Faults.{HasCause};
ghost use Rattle.dpx_base.specs.Pipe.{CountsFaults};
ghost use Rattle.dp_replay.specs.declared.records.TakeEnd.{TakeEnd};
ghost use Rattle.dp_replay.specs.Records.{HasRecords, TakesPixels, left_of, unread};

use dpx_base::{Arrivals, Failed, Pixel, Source, read_pixel};
use std::marker::Model;

/// How many bytes are read at a time.
const PIECE: usize = 6144;

/// The pixels of records, which are read piece by piece.
#[derive(Drop)]
pub struct Records<S: Source> {
    source: S,
    piece: [u8; PIECE],
    /// What is left of the piece.
    start: usize,
    end: usize,
}

impl<S: Source> Model for Records<S> {
    ghost use Rattle.std.specs.Prelude.{◌≤◌, ◌-◌, take, drop};
    ghost use Rattle.dp_replay.specs.Records.{RecordsSeen};

    ghost Value = { RecordsSeen };

    ghost view = { λ r. record { waiting = take (r.end - r.start) (drop r.start r.piece); source = S.seen r.source } };

    ghost invariant = { λ r. (r.start ≤ r.end) × (r.end ≤ 6144) };
}

/// Why pixels were not taken: behind so many whole records one is missing or not whole, or a read failed.
#[derive(Clone, Copy, Debug, PartialEq, Eq)]
pub enum TakeEnd {
    Short(u8),
    Failed,
}

impl<S: Source> Records<S> {
    pub fn new(source: S) -> Records<S>
        ensures { result ≡ unread (S.seen source) }
    {
        Records {
            source,
            piece: [0; PIECE],
            start: 0,
            end: 0,
        }
    }

    /// A read of no bytes, which fails where there is nothing to read from.
    pub fn is_open(&mut self) -> Result<(), Failed>
        ensures kept { Keeps (left_of self.old) (left_of self.new) }
        ensures cause { HasCause self.old.source.faults self.new.source.faults result }
    {
        let _none = self.source.read(&mut [])?;
        Ok(())
    }

    /// The next pixels, two at most.
    pub fn take(&mut self, due: u8) -> Result<Arrivals, TakeEnd>
        requires { due ≤ 2 }
        ensures pixels { IfOk result (TakesPixels due (left_of self.old) (left_of self.new)) }
        ensures count { IfOk result (λ arrivals. length arrivals ≡ due) }
        ensures few { (n : ℕ) → result ≡ Err (TakeEnd.Short n) → n < due }
        ensures short { (n : ℕ) → result ≡ Err (TakeEnd.Short n) → HasRecords n (left_of self.old) }
        ensures faults { CountsFaults (result ≡ Err TakeEnd.Failed) self.old.source.faults self.new.source.faults }
    {
        let mut pixels = [Pixel::default(); 2];
        for place in 0..due {
            let mut record = [0; 6];
            match self.read_record(&mut record) {
                Ok(6) => pixels[usize::from(place)] = read_pixel(&record),
                Ok(_) => return Err(TakeEnd::Short(place)),
                Err(Failed) => return Err(TakeEnd::Failed),
            }
        }
        Ok(Arrivals::from_slice(&pixels[..usize::from(due)]))
    }

    /// How many bytes of the next record there are: six, or fewer at the end.
    fn read_record(&mut self, bytes: &mut [u8; 6]) -> Result<usize, Failed>
        ensures few { IfOk result (λ n. n ≤ 6) }
        ensures consumed { IfOk result (λ n. Consumes (left_of self.old) (left_of self.new) (take n bytes.new)) }
        ensures at_end { IfOk result (λ n. n < 6 → IsAtEnd (left_of self.new)) }
        ensures cause { HasCause self.old.source.faults self.new.source.faults result }
    {
        let mut have = 0;
        while have < 6 {
            let count = self.read_some(&mut bytes[have..])?;
            if count == 0 {
                break;
            }
            have += count;
        }
        Ok(have)
    }

    /// Some of the next bytes; none at the end.
    #[tactic(auto, using(crate::proofs::Left::read_taken))]
    fn read_some(&mut self, to: &mut [u8]) -> Result<usize, Failed>
        ensures few { IfOk result (λ n. n ≤ length to.old) }
        ensures consumes { ReadConsumes (left_of self.old) (left_of self.new) result to.new }
        ensures cause { HasCause self.old.source.faults self.new.source.faults result }
    {
        self.fill()?;
        Ok(self.take_waiting(to))
    }

    /// Hands over some of what waits; none only where nothing waits.
    fn take_waiting(&mut self, to: &mut [u8]) -> usize
        ensures few { result ≤ length to.old }
        ensures room { length to.new ≡ length to.old }
        ensures taken { self.old.waiting ≡ take result to.new ++ self.new.waiting }
        ensures source { self.new.source ≡ self.old.source }
        ensures some { result ≡ 0 → 0 < length to.old → self.new.waiting ≡ [] }
    {
        let count = to.len().min(self.end - self.start);
        to[..count].copy_from_slice(&self.piece[self.start..self.start + count]);
        self.start += count;
        count
    }

    /// Where nothing waits the next piece is read, so that something waits then but at the end.
    fn fill(&mut self) -> Result<(), Failed>
        ensures kept { Keeps (left_of self.old) (left_of self.new) }
        ensures at_end { IfOk result (λ done. self.new.waiting ≡ [] → IsAtEnd self.new.source.left) }
        ensures cause { HasCause self.old.source.faults self.new.source.faults result }
    {
        if self.start < self.end {
            return Ok(());
        }
        self.start = 0;
        self.end = 0;
        self.end = self.source.read(&mut self.piece)?;
        Ok(())
    }
}
