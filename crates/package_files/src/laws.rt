//! Why a closed log may be cut.
ghost use Rattle.std.specs.Prelude.{◌≡◌, ℕ, List, false, take};
ghost use Rattle.staged.specs.Log.{has_open_gate};

/// Any beginning of a closed log is closed. So whatever a crash leaves of the cut of one, a recovery gives the home file.
pub fn beginnings_of_closed_logs_are_closed()
    ensures { (log : List ℕ) (count : ℕ) → has_open_gate log ≡ false
        → has_open_gate (take count log) ≡ false }
{}
