// The joined checks in order: 4 for signals and chains, 9, 14, 15.
#![tactic(auto)]

ghost use Rattle.std.specs.Prelude.{List, ◌≡◌, ℕ};
ghost use Rattle.model.specs.Rules.Join.{links_of, joined_verdict};
ghost use Rattle.model.specs.Rules.Parts.{Part};
ghost use Rattle.join_whole.specs.Whole.{Joining, WholeAs};

use join_gather::Joint;
use model::{Fault, Refusal};

// 4, 9, 14, 15 of the joined parts. Answers their hypercycle.
pub fn check_joint(links: &[u8], joint: &Joint) -> Result<usize, Fault>
    requires { (parts : List Part) × (size : ℕ) × Joining parts size links.now joint.now }
    ensures { (parts : List Part) (size : ℕ) → Joining parts size links.now joint.now →
        WholeAs (joined_verdict parts (links_of links.now)) result }
{
    if 64 < joint.signals {
        return basics::refuse(Refusal::OverABound, 0);
    }
    if 16 < joint.chains {
        return basics::refuse(Refusal::OverABound, 0);
    }
    let n = joint.signals;
    let hypercycle = check_hypercycle::check_hypercycle(n, &joint.periods)?; // 9
    join_check::links_met(links, joint)?; // 14
    check_load::judge_load(
        n,
        &joint.periods,
        &joint.phases,
        &joint.weights,
        joint.cap,
        hypercycle,
    )?; // 15
    Ok(hypercycle)
}
