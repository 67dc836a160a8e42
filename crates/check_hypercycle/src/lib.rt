// The hypercycle: refusal 9.
#![tactic(auto)]

ghost use Rattle.std.specs.Prelude.{◌≡◌, ◌%◌, ◌≤◌, eqb, length};
ghost use Rattle.model.specs.Rules.Outcome.{yielded_of};
ghost use Rattle.model.specs.Rules.Program.{Program};
ghost use Rattle.model.specs.Rules.Rates.{is_multiple, hypercycle};
ghost use Rattle.text_program.specs.Tables.{PeriodsOf};

use model::{Fault, Refusal};

// Whether a period divides h.
fn divides(period: u8, h: usize) -> bool
    ensures { result ≡ eqb (h % period) 0 }
{
    let d = basics::from_byte(period);
    if d == 0 {
        return h == 0;
    }
    h % d == 0
}

// Whether every period divides h.
fn is_multiple(count: usize, periods: &[u8; 64], h: usize) -> bool
    requires { count ≤ 64 }
    ensures { (p : Program) → length p.signals ≡ count → PeriodsOf p periods.now →
        result ≡ is_multiple p.signals h }
{
    for s in 0..count {
        if !divides(periods[s], h) {
            return false;
        }
    }
    true
}

// The hypercycle: the least number from 1 to 240 that every period divides, else 9. (Signals × hypercycle.)
pub fn check_hypercycle(count: usize, periods: &[u8; 64]) -> Result<usize, Fault>
    requires { count ≤ 64 }
    ensures { (p : Program) → length p.signals ≡ count → PeriodsOf p periods.now →
        yielded_of result ≡ hypercycle p }
{
    for h in 1..=240 {
        if is_multiple(count, periods, h) {
            return Ok(h);
        }
    }
    basics::refuse(Refusal::HypercycleTooLong, 0)
}
