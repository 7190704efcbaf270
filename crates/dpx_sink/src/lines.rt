ghost use Rattle.std.specs.Prelude.{◌≡◌, ◌≤◌, ℕ, List, [], OnOk, OnErr, IfOk, IfErr, length, None, false};
ghost use Rattle.std.specs.Io.KnownBytes.{Appends};
ghost use Rattle.dpx_base.specs.Faults.{HasCause};
ghost use Rattle.dpx_base.specs.Lanes.{lanes_count};
ghost use Rattle.dpx_parse.specs.Stands.{number_of};
ghost use Rattle.dpx_parse.specs.declared.event.Event.{Event};
ghost use Rattle.dpx_sink.specs.Room.{line_room};
ghost use Rattle.dpx_sink.specs.Told.{Under, none, Tally, no_tally, after, tallied, records_of, text_of, frames_in};
ghost use Rattle.dpx_base.specs.Transfer.{AppendsFront};
ghost use Rattle.dpx_sink.specs.Writes.{Calm, PixelsTook, LogTook, OneFailed, sinks};

use crate::Output;
use crate::attributes_line::write_attributes;
use crate::line_store::{LINE_ROOM, LineStore};
use crate::unpack::LanePixels;
use dpx_base::{Failed, LaneBytes, Lanes, Memory, Sink, write_whole};
use dpx_msa::Attributes;
use dpx_parse::Event;
use std::alloc::Global;

/// The attributes in force, the line that is under way, and the counts of whole frames and lines.
#[derive(Drop)]
pub(crate) struct Lines {
    lanes: Lanes,
    attributes: Option<Attributes>,
    live: bool,
    store: LineStore,
    pixels: LanePixels,
    records: Vec<u8>,
    closed: u64,
    current: u64,
    lines: u64,
    ghost room: { length records.items ≡ line_room },
}

impl Lines {
    ghost use Rattle.dpx_sink.specs.Line.{Holds, Fits, IsSized};

    /// Takes all its memory; no attributes are in force.
    pub fn new(alloc: Global, lanes: Lanes) -> Result<Lines, Memory>
        ensures nothing { IfOk result (λ lines. Holds lines none no_tally) }
        ensures lanes { IfOk result (λ lines. lines.lanes ≡ lanes) }
    {
        let mut records = Vec::with_capacity(alloc, LINE_ROOM).map_err(|_| Memory)?;
        records.resize(LINE_ROOM, 0).map_err(|_| Memory)?;
        Ok(Lines {
            lanes,
            attributes: None,
            live: false,
            store: LineStore::new(alloc)?,
            pixels: LanePixels::new(alloc)?,
            records,
            closed: 0,
            current: 0,
            lines: 0,
        })
    }

    /// The whole frames.
    pub fn frames(&self) -> u64
        ensures { (under : Under) (t : Tally) → Holds self.now under t → result ≡ number_of (frames_in under t) }
    {
        match self.attributes {
            Some(a) if self.current == u64::from(a.height) => self.closed.saturating_add(1),
            _ => self.closed,
        }
    }

    /// The whole lines of all frames.
    pub fn lines(&self) -> u64
        ensures { (under : Under) (t : Tally) → Holds self.now under t → result ≡ number_of t.lines }
    {
        self.lines
    }

    fn take_attributes(&mut self, attributes: &Attributes)
        ensures state { (under : Under) (t : Tally) → IsSized attributes.now → Holds self.old under t
            → Holds self.new (after under (Event.Attributes attributes.now))
            (tallied under t (Event.Attributes attributes.now)) }
        ensures lanes { self.new.lanes ≡ self.old.lanes }
    {
        self.closed = self.frames();
        self.current = 0;
        self.live = false;
        self.attributes = Some(*attributes);
    }

    fn begin(&mut self)
        ensures state { (under : Under) (t : Tally) → Holds self.old under t
            → Holds self.new (after under Event.LineStart) (tallied under t Event.LineStart) }
        ensures lanes { self.new.lanes ≡ self.old.lanes }
    {
        if self.attributes.is_some() {
            self.store.clear();
            self.live = true;
        }
    }

    fn take(&mut self, row: &LaneBytes)
        ensures state { (under : Under) (t : Tally) → Holds self.old under t
            → Holds self.new (after under (Event.Valid row.now)) (tallied under t (Event.Valid row.now)) }
        ensures lanes { self.new.lanes ≡ self.old.lanes }
    {
        if self.live {
            self.store.take(*row);
        }
    }

    /// Ends the line that is under way, and writes its pixels.
    fn end<O: Sink>(&mut self, pix: &mut O) -> Result<(), Failed>
        ensures state { (under : Under) (t : Tally) → Holds self.old under t
            → Holds self.new (after under Event.LineEnd) (tallied under t Event.LineEnd) }
        ensures whole { OnOk result ((under : Under) (t : Tally) → Holds self.old under t
            → Appends (O.seen pix.old).taken (O.seen pix.new).taken
            (records_of (lanes_count self.old.lanes) under Event.LineEnd)) }
        ensures front { OnErr result ((under : Under) (t : Tally) → Holds self.old under t
            → AppendsFront (O.seen pix.old).taken (O.seen pix.new).taken
            (records_of (lanes_count self.old.lanes) under Event.LineEnd)) }
        ensures cause { HasCause (O.seen pix.old).faults (O.seen pix.new).faults result }
        ensures lanes { self.new.lanes ≡ self.old.lanes }
    {
        let Some(attributes) = self.attributes else {
            return Ok(());
        };
        if !self.live {
            return Ok(());
        }
        self.live = false;
        self.current = self.current.saturating_add(1);
        self.lines = self.lines.saturating_add(1);
        let width = attributes.width.min(8192);
        self.pixels.unpack_line(
            &self.store,
            self.lanes,
            attributes.depth,
            width,
            self.records.as_mut_slice(),
        );
        write_whole(pix, &self.records.as_slice()[..6 * usize::from(width)])
    }

    /// Takes the next event: a line's pixels are written to `pix` when it ends, and attributes to `log`.
    pub fn hear<O: Sink>(&mut self, event: Event, pix: &mut O, log: &mut O) -> Result<(), Output>
        ensures state { (under : Under) (t : Tally) → Fits event → Holds self.old under t
            → Holds self.new (after under event) (tallied under t event) }
        ensures records { OnOk result ((under : Under) (t : Tally) → Holds self.old under t
            → Appends (O.seen pix.old).taken (O.seen pix.new).taken
            (records_of (lanes_count self.old.lanes) under event)) }
        ensures text { OnOk result (Appends (O.seen log.old).taken (O.seen log.new).taken (text_of event)) }
        ensures records_front { IfErr result (λ failed. (under : Under) (t : Tally) → Holds self.old under t
            → PixelsTook failed (O.seen pix.old).taken (O.seen pix.new).taken
            (records_of (lanes_count self.old.lanes) under event)) }
        ensures text_front { IfErr result (λ failed. LogTook failed (O.seen log.old).taken (O.seen log.new).taken
            (text_of event)) }
        ensures calm { OnOk result (Calm (sinks (O.seen pix.old) (O.seen log.old))
            (sinks (O.seen pix.new) (O.seen log.new))) }
        ensures cause { IfErr result (λ failed. OneFailed failed (sinks (O.seen pix.old) (O.seen log.old))
            (sinks (O.seen pix.new) (O.seen log.new))) }
        ensures lanes { self.new.lanes ≡ self.old.lanes }
    {
        match event {
            Event::Nothing => Ok(()),
            Event::Attributes(attributes) => {
                self.take_attributes(&attributes);
                match write_attributes(log, &attributes) {
                    Ok(()) => Ok(()),
                    Err(_) => Err(Output::Log),
                }
            }
            Event::LineStart => {
                self.begin();
                Ok(())
            }
            Event::Valid(row) => {
                self.take(&row);
                Ok(())
            }
            Event::LineEnd => match self.end(pix) {
                Ok(()) => Ok(()),
                Err(_) => Err(Output::Pixels),
            },
        }
    }
}
