//! Many jobs against a plain computation of where their trainings end. In each job one lane is at
//! fault.

use super::{ends, modelled};
use std::alloc::Global;
use std::process::Abort;
use std::test::Fail;
use std::thread::Threads;

const RATES: [&str; 4] = ["RBR", "HBR", "HBR2", "HBR3"];

/// What the lane does at one rate.
#[derive(Clone, Copy, PartialEq)]
enum Fault {
    None,
    NoClock,
    NoEqualisation,
}

/// The place of a rate among the four, and a number of lanes.
#[derive(Clone, Copy)]
struct Configuration {
    rate: usize,
    lanes: usize,
}

#[derive(Clone, Copy)]
struct Sample {
    top: Configuration,
    defers: usize,
    lane: usize,
    /// At each rate.
    faults: [Fault; 4],
}

/// 1, 2 or 4.
fn lanes(place: usize) -> usize {
    [1, 2, 4][place % 3]
}

fn numbered_fault(place: usize) -> Fault {
    [Fault::None, Fault::NoClock, Fault::NoEqualisation][place % 3]
}

/// All links, all lanes, and all faults at the four rates.
const SAMPLES: usize = 3888;

/// Each number below that of the samples is another one. The defers go from 0 to 8 beside them.
fn numbered_sample(number: usize) -> Sample {
    let link = number / 324;
    Sample {
        top: Configuration {
            rate: link % 4,
            lanes: lanes(link / 4),
        },
        defers: (number / 81 + number % 81) % 9,
        lane: number / 81 % 4,
        faults: [
            numbered_fault(number),
            numbered_fault(number / 3),
            numbered_fault(number / 9),
            numbered_fault(number / 27),
        ],
    }
}

impl Sample {
    /// The members of the model.
    fn members(&self, alloc: Global) -> Result<String, Fail> {
        let defers = self.defers;
        let mut text = format!(in alloc; ",\"defers\":{defers},\"channel\":{{")?;
        for (rate, fault) in RATES.iter().zip(&self.faults) {
            let comma = if *rate == "RBR" { "" } else { "," };
            write!(text, "{comma}\"{rate}\":[")?;
            self.push_cells(&mut text, *fault)?;
            text.push_str("]")?;
        }
        text.push_str("}")?;
        Ok(text)
    }

    /// The four lanes at a rate where the lane has this fault.
    fn push_cells(&self, text: &mut String, fault: Fault) -> Result<(), Fail> {
        for lane in 0..4usize {
            let comma = if lane == 0 { "" } else { "," };
            let cell = match fault {
                Fault::NoClock if lane == self.lane => "[0,1,0,0]",
                Fault::NoEqualisation if lane == self.lane => "[1,0,0,0]",
                _ => "[1,1,0,0]",
            };
            write!(text, "{comma}{cell}")?;
        }
        Ok(())
    }

    /// Whether there is a fault above the rate that the job asks for.
    fn has_hidden_fault(&self) -> bool {
        let mut hidden = self.faults.iter().skip(self.top.rate.saturating_add(1));
        hidden.any(|fault| *fault != Fault::None)
    }

    /// How an attempt at this configuration fails, if it does.
    fn fault_at(&self, at: Configuration) -> Fault {
        if self.lane < at.lanes {
            self.faults[at.rate % 4]
        } else {
            Fault::None
        }
    }

    /// Where the training goes on after such a fault.
    fn next(&self, at: Configuration, fault: Fault) -> Option<Configuration> {
        let lower = Configuration {
            rate: at.rate.saturating_sub(1),
            lanes: at.lanes,
        };
        match (fault, at.rate, at.lanes) {
            (_, 0, 1) => None,
            (Fault::NoClock, 0, lanes) => Some(Configuration {
                rate: self.top.rate,
                lanes: lanes / 2,
            }),
            (Fault::NoClock, _, _) | (_, _, 1) => Some(lower),
            (_, rate, lanes) => Some(Configuration {
                rate,
                lanes: lanes / 2,
            }),
        }
    }

    /// The report and the status.
    fn outcome(&self, alloc: Global) -> Result<(String, u8), Fail> {
        if self.defers == 8 {
            let spent = "aux spent at 00000 last defer requests 8\n";
            return Ok((String::from_str(alloc, spent)?, 4));
        }
        // two reads of capabilities, and the power
        let mut transactions = 3usize;
        let mut at = self.top;
        for _attempt in 0..12 {
            let fault = self.fault_at(at);
            transactions = transactions.saturating_add(transactions_with(fault));
            let last = if fault == Fault::NoEqualisation {
                "01"
            } else {
                "00"
            };
            let requests = transactions
                .saturating_add(1)
                .saturating_mul(self.defers % 8 + 1);
            if fault == Fault::None {
                return Ok((trained(alloc, at, requests)?, 0));
            }
            let Some(next) = self.next(at, fault) else {
                let text = format!(in alloc;
                    "not trained requests {requests}\nlast {last} 00 00 00 00 00\n"
                )?;
                return Ok((text, 4));
            };
            at = next;
        }
        Err(Fail::new("more than twelve attempts"))
    }
}

/// In one attempt.
fn transactions_with(fault: Fault) -> usize {
    match fault {
        // three writes, a status, a write, a status
        Fault::None => 6,
        // three writes, five statuses, four writes between them
        Fault::NoClock => 12,
        // the same of equalisation, behind a status and a write
        Fault::NoEqualisation => 14,
    }
}

fn trained(alloc: Global, at: Configuration, requests: usize) -> Result<String, Fail> {
    let rate = RATES[at.rate % 4];
    let lanes = at.lanes;
    let mut text = format!(in alloc; "trained {rate} {lanes} requests {requests}\n")?;
    for lane in 0..lanes {
        write!(text, "lane {lane} swing 0 emphasis 0\n")?;
    }
    text.push_str(match lanes {
        1 => "last 07 00 01 00 00 00\n",
        2 => "last 77 00 01 00 00 00\n",
        _ => "last 77 77 01 00 00 00\n",
    })?;
    Ok(text)
}

/// The training of this sample ends where the computation says.
fn ends_as_computed<R: Abort + Threads + Sync>(
    rt: &R,
    alloc: Global,
    sample: &Sample,
) -> Result<(), Fail> {
    let rate = RATES[sample.top.rate % 4];
    let lanes = (sample.top.lanes % 8) as u8;
    let more = sample.members(alloc)?;
    let job = modelled(alloc, rate, lanes, more.as_str())?;
    let (report, status) = sample.outcome(alloc)?;
    ends(rt, alloc, job.as_str(), (report.as_str(), status))
}

#[test]
fn trainings_end_where_a_plain_computation_says(rt: HostRuntime) -> Result<(), Fail> {
    for number in 0..SAMPLES {
        let sample = numbered_sample(number);
        if !sample.has_hidden_fault() {
            ends_as_computed(&rt, rt.alloc(), &sample)?;
        }
    }
    Ok(())
}
