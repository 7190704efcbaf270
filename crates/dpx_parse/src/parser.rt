ghost use Rattle.std.specs.Prelude.{◌≡◌};

use crate::machine::Core;
use crate::{Event, ParseBad};
use dpx_base::{LaneSet, Link};

/// Reads the sets of a main link, one by one.
#[derive(Drop)]
pub struct Parser {
    core: Core,
    number: u64,
    refused: Option<ParseBad>,
}

impl Parser {
    ghost use Rattle.std.specs.Prelude.{◌≡◌, ◌∷◌, ◌++◌, [], List, length, Err, IfOk, IfErr, Result};
    ghost use Rattle.dpx_base.specs.Lanes.{lanes_count};
    ghost use Rattle.dpx_base.specs.declared.sym.Sym.{Sym};
    ghost use Rattle.dpx_parse.specs.Parser.{lanes_of, enhanced_of, StandsFor, IsTail};
    ghost use Rattle.dpx_parse.specs.Parser.{HasTaken, HasRefused, Accepts, Refuses};
    ghost use Rattle.dpx_parse.specs.declared.bad.ParseBad.{ParseBad};
    ghost use Rattle.dpx_parse.specs.declared.event.Event.{Event};

    /// A parser that has taken no set.
    pub fn new(link: Link) -> Parser
        ensures lanes { lanes_of result ≡ link.lanes }
        ensures enhanced { enhanced_of result ≡ link.enhanced }
        ensures empty { StandsFor result [] }
    {
        Parser {
            core: Core::new(link.lanes, link.enhanced),
            number: 0,
            refused: None,
        }
    }

    /// Takes the next set, and gives what it tells; or refuses it, and each later one for the same reason.
    #[tactic(auto, using(crate::proofs::Parsers::not_refused))]
    pub fn feed(&mut self, set: &LaneSet) -> Result<Event, ParseBad>
        requires { length set.now ≡ lanes_count (lanes_of self.old) }
        ensures lanes { lanes_of self.new ≡ lanes_of self.old }
        ensures enhanced { enhanced_of self.new ≡ enhanced_of self.old }
        ensures accepted { IfOk result (λ event. (sets : List (List Sym)) → StandsFor self.old sets
            → Accepts (enhanced_of self.old) (lanes_of self.old) sets set.now event self.new) }
        ensures refused { IfErr result (λ bad. (sets : List (List Sym)) → StandsFor self.old sets
            → Refuses (enhanced_of self.old) (lanes_of self.old) sets set.now bad) }
        ensures stays { IfErr result (λ bad. (sets : List (List Sym)) → HasTaken self.old sets
            → HasTaken self.new sets) }
        ensures refuses_on { IfErr result (λ bad. HasRefused self.new bad) }
        ensures again { (bad : ParseBad) → HasRefused self.old bad
            → ◌≡◌ {A = Result Event ParseBad} result (Err bad) }
    {
        if let Some(bad) = self.refused {
            return Err(bad);
        }
        match self.core.take(set) {
            Ok(event) => {
                self.number = self.number.saturating_add(1);
                Ok(event)
            }
            Err(why) => {
                let bad = ParseBad {
                    set: self.number,
                    why,
                };
                self.refused = Some(bad);
                Err(bad)
            }
        }
    }

    /// How many sets an active part that no group has ended yet has so far, its BE included; 0 where there is none.
    /// A set that is refused does not count.
    pub fn tail(&self) -> u64
        ensures { (sets : List (List Sym)) → HasTaken self.now sets
            → IsTail (enhanced_of self.now) (lanes_of self.now) sets result }
    {
        self.core.unended()
    }
}
