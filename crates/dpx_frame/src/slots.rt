ghost use Rattle.std.specs.Prelude.{◌≡◌, ◌≤◌};
ghost use Rattle.dpx_base.specs.Plan.{group_length, block_length};
ghost use Rattle.dpx_base.specs.Slots.{stuffing_of, attributes_length};
ghost use Rattle.dpx_frame.specs.Counters.{IsBounded};
ghost use Rattle.dpx_frame.specs.CounterSlots.{is_active_row, is_between_active, slot, slot_in_line, slot_in_header};
ghost use Rattle.dpx_frame.specs.CounterSlots.{slot_in_frame};

use crate::counters::Counters;
use dpx_base::{Lanes, Slot, Stuffing};
use dpx_timing::Plan;

/// The clocks of the group that begins a header.
fn group_length(plan: &Plan) -> u64
    ensures value { result ≡ group_length plan.now.link }
    ensures small { result ≤ 4 }
{
    if plan.link().enhanced { 4 } else { 1 }
}

/// The clocks of a VB-ID block.
fn block_length(plan: &Plan) -> u64
    ensures value { result ≡ block_length plan.now.link }
    ensures small { result ≤ 12 }
{
    match plan.link().lanes {
        Lanes::One => 12,
        Lanes::Two => 6,
        Lanes::Four => 3,
    }
}

/// The clocks of the attributes, with SS SS and SE.
fn attributes_length(plan: &Plan) -> u64
    ensures value { result ≡ attributes_length plan.now }
    ensures small { result ≤ 39 }
{
    match plan.link().lanes {
        Lanes::One => 39,
        Lanes::Two => 21,
        Lanes::Four => 12,
    }
}

/// The row has pixels.
fn is_active_row(plan: &Plan, row: u32) -> bool
    ensures { result ≡ is_active_row plan.now row }
{
    u32::from(plan.mode().vtotal() - plan.mode().height()) <= row
}

impl Counters {
    /// What the clock carries.
    #[tactic(auto, unfolding(crate::specs::CounterSlots::slot))]
    pub(crate) fn slot(self, plan: &Plan) -> Slot
        requires { IsBounded self }
        ensures { result ≡ slot plan.now self }
    {
        let line_end = plan.line_end();
        if self.before > 0 {
            return Slot::Fill;
        }
        if is_active_row(plan, self.row) && self.since <= line_end {
            return self.slot_in_line(plan);
        }
        if line_end < self.since
            && self.since - line_end <= group_length(plan) + block_length(plan)
        {
            return self.slot_in_header(plan, self.since - line_end - 1);
        }
        self.slot_in_frame(plan)
    }

    /// What a clock of an active line carries, from its BE to its last symbol.
    #[tactic(auto, unfolding(crate::specs::CounterSlots::slot_in_line))]
    fn slot_in_line(self, plan: &Plan) -> Slot
        requires { IsBounded self }
        ensures { result ≡ slot_in_line plan.now self }
    {
        if self.since == 0 {
            Slot::Be
        } else if self.units.place < self.units.symbols {
            Slot::Valid
        } else {
            Slot::Stuff(self.stuffing(plan))
        }
    }

    /// What fills the transfer unit up.
    fn stuffing(self, plan: &Plan) -> Stuffing
        requires { IsBounded self }
        ensures { result ≡ stuffing_of plan.now.unit self.units.symbols self.units.place }
    {
        if self.units.place + 1 == u64::from(plan.unit()) {
            Stuffing::Fe
        } else if self.units.place == self.units.symbols {
            Stuffing::Fs
        } else {
            Stuffing::Zero
        }
    }

    /// What a header's group and block carry, clock by clock.
    #[tactic(auto, unfolding(crate::specs::CounterSlots::slot_in_header))]
    fn slot_in_header(self, plan: &Plan, index: u64) -> Slot
        requires bounded { IsBounded self }
        requires index { index ≤ 16 }
        ensures { result ≡ slot_in_header plan.now self index }
    {
        let group = group_length(plan);
        if index < group {
            Slot::Group {
                index: index as u8,
                reset: self.line % 512 == 0,
            }
        } else {
            Slot::VbId {
                index: (index - group) as u8,
                blank: !self.is_between_active(plan),
            }
        }
    }

    /// The header stands between two active lines.
    fn is_between_active(self, plan: &Plan) -> bool
        requires { IsBounded self }
        ensures { result ≡ is_between_active plan.now self.row }
    {
        is_active_row(plan, self.row) && self.row + 1 < u32::from(plan.mode().vtotal())
    }

    /// What is sent behind a frame's first block: its attributes, else nothing.
    #[tactic(auto, unfolding(crate::specs::CounterSlots::slot_in_frame))]
    fn slot_in_frame(self, plan: &Plan) -> Slot
        ensures { result ≡ slot_in_frame plan.now self }
    {
        let first = plan.line_end() + group_length(plan) + block_length(plan) + 1;
        if first <= self.in_frame && self.in_frame < first + attributes_length(plan) {
            Slot::Msa {
                index: (self.in_frame - first) as u8,
            }
        } else {
            Slot::Fill
        }
    }
}
