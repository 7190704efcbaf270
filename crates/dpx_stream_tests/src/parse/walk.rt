//! Each list of up to seven sets behind the first header, on one lane.

ghost use Rattle.std.specs.Prelude.{◌<◌, ◌≤◌};

use super::{BE, BF, BS, CP, FE, FS, SE, SR, SS, START, feed, link};
use dpx_base::Lanes;
use dpx_parse::{ParseWhy, Parser};
use std::process::Abort;

/// The next of the sets that are tried, in their order: data, then the nine control symbols.
fn next_set(code: u16) -> Option<u16> {
    match code {
        0 => Some(BS),
        0x1bc => Some(SR),
        0x11c => Some(BE),
        0x1fb => Some(SS),
        0x15c => Some(SE),
        0x1fd => Some(FS),
        0x1fe => Some(FE),
        0x1f7 => Some(BF),
        0x17c => Some(CP),
        _ => None,
    }
}

/// Where a set stands. A block's later sets, and attributes, are more than a list has.
#[derive(Clone, Copy, Debug, PartialEq, Eq)]
enum Place {
    /// Second to fourth in the group that this symbol began.
    Group(u8, u16),
    Block,
    Blank,
    BehindStart,
    Secondary,
    Attributes,
    Active,
    Stuffing,
}

fn behind_group(place: u8, began: u16, code: u16) -> Result<Place, ParseWhy> {
    if place == 4 {
        if code == began {
            Ok(Place::Block)
        } else {
            Err(ParseWhy::BadGroup)
        }
    } else if code == BF {
        Ok(Place::Group(place.saturating_add(1), began))
    } else if code == CP {
        Err(ParseWhy::Protected)
    } else {
        Err(ParseWhy::BadGroup)
    }
}

/// The place of the set behind this one in a list, or why this one may not stand there.
fn place_behind(place: Place, code: u16) -> Result<Place, ParseWhy> {
    let data = code == 0;
    let begins = code == BS || code == SR;
    match place {
        Place::Group(number, began) => behind_group(number, began, code),
        Place::Blank | Place::Active if begins => Ok(Place::Group(2, code)),
        Place::Blank if code == BE => Ok(Place::Active),
        Place::Blank if code == SS => Ok(Place::BehindStart),
        Place::BehindStart if code == SS => Ok(Place::Attributes),
        Place::BehindStart if data => Ok(Place::Secondary),
        Place::Secondary if code == SE => Ok(Place::Blank),
        Place::Active if code == FS => Ok(Place::Stuffing),
        Place::Active | Place::Stuffing if code == FE => Ok(Place::Active),
        Place::Block | Place::Blank | Place::Secondary if data => Ok(place),
        Place::Attributes | Place::Active | Place::Stuffing if data => Ok(place),
        _ => Err(ParseWhy::BadControl),
    }
}

/// The first set of a list that may not stand where it does, counted from the first of the header, and why.
fn first_refused(list: &[u16; 7]) -> Option<(u64, ParseWhy)> {
    let mut place = Place::Blank;
    let mut set = START.len() as u64;
    for code in list {
        match place_behind(place, *code) {
            Ok(next) => place = next,
            Err(why) => return Some((set, why)),
        }
        set = set.saturating_add(1);
    }
    None
}

/// What the parser answers to a list.
fn answered(rt: &impl Abort, list: &[u16; 7]) -> Option<(u64, ParseWhy)> {
    let mut parser = Parser::new(link(Lanes::One, true));
    assert!(rt; feed(&mut parser, START).is_ok());
    feed(&mut parser, list).err().map(|bad| (bad.set, bad.why))
}

/// The next list that differs from this one no later than at this place. Behind that place all are zeros.
fn next_list(list: &mut [u16; 7], last: usize) -> bool {
    for back in 0..7usize {
        let place = 6 - back;
        if place <= last {
            match next_set(list[place]) {
                Some(code) => {
                    list[place] = code;
                    return true;
                }
                None => list[place] = 0,
            }
        }
    }
    false
}

/// Behind a refused set each set is refused, so lists that begin alike up to it are one case.
#[test]
fn each_short_list_is_read_as_the_table_says(rt: HostRuntime) {
    let mut list = [0; 7];
    let mut taken = 0u32;
    for _ in 0..100_000u32 {
        let answer = answered(&rt, &list);
        assert_eq!(rt; answer, first_refused(&list), "{list:?}");
        let last = match answer {
            Some((set, _)) => set.saturating_sub(16) as usize,
            None => 6,
        };
        taken = taken.saturating_add(answer.is_none() as u32);
        if !next_list(&mut list, last) {
            assert_eq!(rt; taken, 1314);
            return;
        }
    }
    assert!(rt; false, "the lists have no end");
}
