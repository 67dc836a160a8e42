// The links of a join: whether each names an IN of one part and a signal of another, of equal periods, and no IN twice (31).
#![tactic(auto)]

ghost use Rattle.std.specs.Prelude.{List, ◌≡◌, true, ℕ, ◌+◌, ◌*◌, ◌≤◌, ◌<◌, length, get_or};
ghost use Rattle.model.specs.Rules.Join.{is_right, named};
ghost use Rattle.model.specs.Rules.Parts.{Part};
ghost use Rattle.basics.specs.Judgement.{judgement_of};
ghost use Rattle.join_links.specs.ByPart.{period_in, PeriodsBy, FreeInputs, passed};

use model::{Fault, Refusal};

// The period of a signal by part and number, 0 where there is no such signal.
fn period_of(periods: &[u8; 512], part: u8, signal: u8) -> u8
    ensures inside { 0 < result → (part < 8) × (signal < 64) }
    ensures value { (parts : List Part) → PeriodsBy parts periods.now → result ≡ period_in parts part signal }
{
    if 8 <= part {
        return 0;
    }
    if 64 <= signal {
        return 0;
    }
    let at = 64 * basics::from_byte(part) + basics::from_byte(signal);
    periods[at]
}

// Whether the link at `at` names an IN of one part, not linked yet, and a signal of another, of equal periods.
fn is_right(links: &[u8], at: usize, periods: &[u8; 512], inputs: &[bool; 512]) -> bool
    requires { at + 4 ≤ length links.now }
    ensures inside { result ≡ true → (get_or links.now at 0 < 8) × (get_or links.now (at + 1) 0 < 64) }
    ensures value { (parts : List Part) (i : ℕ) → at ≡ 4 * i → PeriodsBy parts periods.now →
        FreeInputs parts links.now i inputs.now → result ≡ is_right parts links.now i }
{
    let second = at + 1;
    let third = at + 2;
    let fourth = at + 3;
    let part = links[at];
    let input = links[second];
    let period = period_of(periods, part, input);
    if period == 0 {
        return false;
    }
    let other = links[third];
    if part == other {
        return false;
    }
    let source = period_of(periods, other, links[fourth]);
    if period != source {
        return false;
    }
    let entry = 64 * basics::from_byte(part) + basics::from_byte(input);
    inputs[entry]
}

// 31 at the lowest wrong link. An IN that is linked is no more to be linked.
pub fn judge_links(links: &[u8], periods: &[u8; 512], inputs: &mut [bool; 512]) -> Result<(), Fault>
    ensures { (parts : List Part) → PeriodsBy parts periods.now →
        FreeInputs parts links.now 0 inputs.old → (result ≡ judgement_of (named parts links.now)) ×
        FreeInputs parts links.now (passed parts links.now) inputs.new }
{
    for i in 0..links.len().div_ceil(4) {
        let at = 4 * i;
        if links.len() - at < 4 {
            return basics::refuse(Refusal::WrongLink, i);
        }
        if !is_right(links, at, periods, inputs) {
            return basics::refuse(Refusal::WrongLink, i);
        }
        let second = at + 1;
        let entry = 64 * basics::from_byte(links[at]) + basics::from_byte(links[second]);
        inputs[entry] = false;
    }
    Ok(())
}
