//! What is kept of the sets so far.

ghost use Rattle.std.specs.Prelude.{◌≡◌, ◌≤◌, ◌<◌, ◌+◌, length};
ghost use Rattle.dpx_base.specs.Lanes.{lanes_count};
ghost use Rattle.dpx_base.specs.Symbols.{bytes_of};
ghost use Rattle.dpx_parse.specs.Columns.{dealt};
ghost use Rattle.dpx_parse.specs.Faults.{end_fault, begin_fault, valid_fault, head_fault, id_fault, all_are};
ghost use Rattle.dpx_parse.specs.Bytes.{put};

use crate::columns::deal;
use crate::state::Mark;
use crate::{Event, ParseWhy};
use dpx_base::{LaneSet, Lanes, Sym};
use dpx_msa::{Attributes, MsaBad, read_attributes};
use dpx_timing::symbols;

fn all_are(id: u8, set: &[Sym]) -> bool
    ensures { result ≡ all_are id (bytes_of set.now) }
{
    for symbol in set {
        if symbol.byte != id {
            return false;
        }
    }
    true
}

fn put(bytes: &mut [u8; 36], place: u8, set: &[Sym])
    requires { place + length set.now ≤ 36 }
    ensures { bytes.new ≡ put bytes.old place (bytes_of set.now) }
{
    let mut at = place as usize;
    for symbol in set {
        bytes[at] = symbol.byte;
        at += 1;
    }
}

/// What is kept of the sets so far.
#[derive(Drop)]
pub(crate) struct Counts {
    attributes: Option<Attributes>,
    lines: u32,
    valids: u32,
    live: bool,
    first: Option<u8>,
    bytes: [u8; 36],
    taken: u8,
}

impl Counts {
    ghost use Rattle.std.specs.Prelude.{◌≡◌, ◌≤◌, length};
    ghost use Rattle.dpx_base.specs.Lanes.{lanes_count};
    ghost use Rattle.dpx_base.specs.Symbols.{bytes_of};
    ghost use Rattle.dpx_parse.specs.Counts.{no_counts, after, fault_by, event_by};
    ghost use Rattle.dpx_parse.specs.Counts.{headed, with_row, first_of, kept_ids, read_by};
    ghost use Rattle.dpx_parse.specs.Faults.{end_fault, begin_fault, valid_fault, head_fault, id_fault};

    pub(crate) fn new() -> Counts
        ensures { result ≡ no_counts }
    {
        Counts {
            attributes: None,
            lines: 0,
            valids: 0,
            live: false,
            first: None,
            bytes: [0; 36],
            taken: 0,
        }
    }

    fn read(&self, lanes: Lanes) -> Result<Attributes, MsaBad>
        ensures { result ≡ read_by (lanes_count lanes) self.now }
    {
        read_attributes(&deal(lanes, &self.bytes))
    }

    fn head_fault(&self, lanes: Lanes) -> Option<ParseWhy>
        ensures { result ≡ head_fault (lanes_count lanes) self.now.attributes self.now.live self.now.valids }
    {
        match self.attributes {
            None => None,
            Some(attributes) => {
                let want = symbols(attributes.width, attributes.depth, lanes);
                if self.live && self.valids < want {
                    Some(ParseWhy::LineShort {
                        got: self.valids,
                        want,
                    })
                } else {
                    None
                }
            }
        }
    }

    fn end_fault(&self, lanes: Lanes) -> Option<ParseWhy>
        ensures { result ≡ end_fault self.now.attributes self.now.lines (read_by (lanes_count lanes) self.now) }
    {
        if let Some(attributes) = self.attributes {
            let want = u32::from(attributes.height);
            if self.lines < want {
                return Some(ParseWhy::FrameShort {
                    got: self.lines,
                    want,
                });
            }
        }
        match self.read(lanes) {
            Ok(_) => None,
            Err(bad) => Some(ParseWhy::Msa(bad)),
        }
    }

    fn begin_fault(&self) -> Option<ParseWhy>
        ensures { result ≡ begin_fault self.now.attributes self.now.lines }
    {
        match self.attributes {
            None => None,
            Some(attributes) => {
                if self.lines < u32::from(attributes.height) {
                    None
                } else {
                    Some(ParseWhy::FrameLong)
                }
            }
        }
    }

    fn valid_fault(&self, lanes: Lanes) -> Option<ParseWhy>
        ensures { result ≡ valid_fault (lanes_count lanes) self.now.attributes self.now.valids }
    {
        match self.attributes {
            None => None,
            Some(attributes) => {
                if self.valids < symbols(attributes.width, attributes.depth, lanes) {
                    None
                } else {
                    Some(ParseWhy::LineLong)
                }
            }
        }
    }

    fn id_fault(&self, set: &[Sym]) -> Option<ParseWhy>
        requires { 1 ≤ length set.now }
        ensures { result ≡ id_fault (kept_ids self.now.first (bytes_of set.now)) }
    {
        let first = self.first.unwrap_or(set[0].byte);
        if first / 4 % 2 == 1 {
            return Some(ParseWhy::Interlaced);
        }
        if all_are(first, set) {
            None
        } else {
            Some(ParseWhy::VbIdDiffers)
        }
    }

    /// Why a set with this mark may not stand here.
    pub(crate) fn fault(&self, lanes: Lanes, mark: Mark, set: &[Sym]) -> Option<ParseWhy>
        requires { 1 ≤ length set.now }
        ensures { result ≡ fault_by (lanes_count lanes) self.now mark (bytes_of set.now) }
    {
        match mark {
            Mark::Head => self.head_fault(lanes),
            Mark::Id => self.id_fault(set),
            Mark::AttributesEnd => self.end_fault(lanes),
            Mark::Begins => self.begin_fault(),
            Mark::Valid => self.valid_fault(lanes),
            _ => None,
        }
    }

    /// What a set with this mark tells, where it may stand here.
    pub(crate) fn event(&self, lanes: Lanes, mark: Mark, set: &LaneSet) -> Event
        ensures { result ≡ event_by (lanes_count lanes) self.now mark (bytes_of set.now) }
    {
        match mark {
            Mark::AttributesEnd => match self.read(lanes) {
                Ok(attributes) => Event::Attributes(attributes),
                Err(_) => Event::Nothing,
            },
            Mark::Head => {
                if self.attributes.is_some() && self.live {
                    Event::LineEnd
                } else {
                    Event::Nothing
                }
            }
            Mark::Begins => {
                if self.attributes.is_some() {
                    Event::LineStart
                } else {
                    Event::Nothing
                }
            }
            Mark::Valid => {
                if self.attributes.is_some() {
                    Event::Valid(set.bytes())
                } else {
                    Event::Nothing
                }
            }
            _ => Event::Nothing,
        }
    }

    fn note_head(&mut self)
        ensures { self.new ≡ headed self.old }
    {
        if self.live {
            self.lines = self.lines.saturating_add(1);
        }
        self.live = false;
        self.first = None;
    }

    fn note_row(&mut self, set: &[Sym])
        requires { length set.now ≤ 4 }
        ensures { self.new ≡ with_row self.old (bytes_of set.now) }
    {
        if self.taken as usize + set.len() <= 36 {
            put(&mut self.bytes, self.taken, set);
            self.taken += set.len() as u8;
        }
    }

    /// Takes a set with this mark that may stand here.
    pub(crate) fn note(&mut self, lanes: Lanes, mark: Mark, set: &[Sym])
        requires { (1 ≤ length set.now) × (length set.now ≤ 4) }
        ensures { self.new ≡ after (lanes_count lanes) self.old mark (bytes_of set.now) }
    {
        match mark {
            Mark::Head => self.note_head(),
            Mark::Id => self.first = Some(self.first.unwrap_or(set[0].byte)),
            Mark::Opens => self.taken = 0,
            Mark::Number => self.note_row(set),
            Mark::AttributesEnd => {
                self.attributes = self.read(lanes).ok();
                self.lines = 0;
            }
            Mark::Begins => {
                self.live = true;
                self.valids = 0;
            }
            Mark::Valid => self.valids = self.valids.saturating_add(1),
            Mark::Other => {}
        }
    }
}
