// The runs of a signal of period P and phase p: in cycles kP + p. What is summed over the signals that run in a cycle (loads,
// commands, the runs themselves) is summed here.
#![tactic(auto)]

ghost use Rattle.std.specs.Prelude.{◌≡◌, ℕ, ◌*◌, ◌≤◌, ◌<◌, length, get_or};
ghost use Rattle.runs.specs.Raised.{Raised};

// Adds a signal's weight to the sums of the cycles in which it runs, stepping from run to run. The sums so far are of at most 63
// signals, so that none wraps.
pub fn add_runs(sums: &mut [u32; 240], period: u8, phase: u8, weight: u16, hypercycle: usize)
    requires { (phase < period) × (hypercycle ≤ 240) × (length sums.old ≡ 240) ×
        ((c : ℕ) → c < hypercycle → get_or sums.old c 0 ≤ 63 * 65535) }
    ensures { Raised (record { period = period; phase = phase }) weight hypercycle
        sums.old sums.new }
{
    let more = weight as u32;
    for c in (phase as usize..hypercycle).step_by(period as usize) {
        sums[c] += more;
    }
}
