//! What the definitions of lanes obey, and what lanes that stand for whole lists say of them.

ghost use Rattle.std.specs.Prelude.{◌≡◌, ◌<◌, ◌-◌, ◌*◌, ◌++◌, ℕ, List, length, map, replicate, take};
ghost use Rattle.dpx_base.specs.Capture.{IsCapture};
ghost use Rattle.dpx_base.specs.Key.{Keyed};
ghost use Rattle.dpx_base.specs.Plan.{PlanFacts};
ghost use Rattle.dpx_base.specs.Words.{fill, LaneSymbols, LaneWords, NoneBad, SentWords};
ghost use Rattle.dpx_base.specs.declared.pixel.Pixel.{Pixel};
ghost use Rattle.dpx_base.specs.declared.sym.Sym.{Sym};
ghost use Rattle.dpx_lane.specs.Codes.{symbol_of};
ghost use Rattle.dpx_lane.specs.Receiving.{ReadsRow};
ghost use Rattle.dpx_lane.specs.Sending.{HasSent, SendsRow, IsSent};
ghost use Rattle.dpx_lane.specs.Team.{LanesDo, TeamSent, TeamRead, joined};
ghost use Rattle.dpx_lane.specs.declared.lane_rx.LaneRx.{LaneRx};
ghost use Rattle.dpx_lane.specs.declared.lane_tx.LaneTx.{LaneTx};

/// A row has one row with the key on it, and scrambling twice from the same start gives the row back.
pub fn the_key_comes_off()
    ensures there { (row : List Sym) → (keyed : List Sym) × Keyed row keyed }
    ensures once { (row one other : List Sym) → Keyed row one → Keyed row other → one ≡ other }
    ensures twice { (row keyed back : List Sym) → Keyed row keyed → Keyed keyed back → back ≡ row }
{}

/// What a lane on the way out left are the first words of its row. With fills behind its symbols, as many as the last
/// lane lags, they are all of them. There is one list of such words.
pub fn lanes_send_their_rows()
    ensures so_far { (lane : LaneTx) (lag : ℕ) (codes words : List ℕ) → HasSent lane lag codes words
        → IsSent lag (map symbol_of codes) words }
    ensures whole { (lanes number : ℕ) (symbols : List Sym) (words : List ℕ) → number < lanes
        → IsSent (2 * number) (symbols ++ replicate (2 * (lanes - 1)) fill) words
        → LaneWords lanes number symbols words }
    ensures once { (lanes : ℕ) (sets : List (List Sym)) (one other : List (List ℕ))
        → SentWords lanes sets one → SentWords lanes sets other → one ≡ other }
{}

/// Of words that a lane sent none is bad, and with the key taken off they say the lane's row so far: fills for its lag,
/// and then its symbols. So a lane on the way in undoes all but the delay.
pub fn what_is_sent_is_read()
    ensures there { (lag : ℕ) (symbols : List Sym) (words : List ℕ) → IsSent lag symbols words
        → LaneSymbols words (take (length symbols) (replicate lag fill ++ symbols)) }
    ensures once { (lag : ℕ) (symbols plain : List Sym) (words : List ℕ) → IsSent lag symbols words
        → LaneSymbols words plain → plain ≡ take (length symbols) (replicate lag fill ++ symbols) }
    ensures none_bad { (lag : ℕ) (symbols : List Sym) (words : List ℕ) → IsSent lag symbols words → NoneBad words }
{}

/// A plan's frames have one capture.
pub fn a_capture_is_one()
    ensures { (p : PlanFacts) (pixels : List Pixel) (one other : List ℕ)
        → IsCapture p pixels one → IsCapture p pixels other → one ≡ other }
{}

/// A team's run leads from lanes that stand for lists to lanes that stand for the longer lists.
pub fn teams_go_on()
    ensures sent { (old new : List LaneTx) (codes words rows outs : List (List ℕ)) → LanesDo SendsRow old rows new outs
        → TeamSent 0 old codes words → TeamSent 0 new (joined codes rows) (joined words outs) }
    ensures read { (old new : List LaneRx) (words left rows outs : List (List ℕ)) → LanesDo ReadsRow old rows new outs
        → TeamRead old words left → TeamRead new (joined words rows) (joined left outs) }
{}
