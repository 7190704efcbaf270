//! What the definitions of reception obey. Each function's contract is the law.

ghost use Rattle.dpx_reception.specs.Laws.{CapturesAreReceived, DueStays, FaultsStay, IsOneLock};
ghost use Rattle.dpx_reception.specs.Laws.{IsOneReception, PartsAreFronts};

/// What is received of bytes is one: no other fault, no other frames and no other tail.
pub fn one_reception()
    ensures { IsOneReception }
{}

/// Bytes without a word fault have one lock, or none.
pub fn one_lock()
    ensures { IsOneLock }
{}

/// From the first fault on, bytes that follow change nothing.
pub fn faults_stay()
    ensures { FaultsStay }
{}

/// What is due of bytes is due of longer ones, and nothing is taken back; nor is what some first sets of them give.
pub fn due_stays()
    ensures stays { DueStays }
    ensures parts { PartsAreFronts }
{}

/// A capture of a plan that fits and of exactly its pixels gives back the frames that were sent, without a fault.
pub fn captures_are_received()
    ensures { CapturesAreReceived }
{}
