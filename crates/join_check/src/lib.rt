// Links by joined numbers, and whether their reads are met: 14.
#![tactic(auto)]

ghost use Rattle.std.specs.Prelude.{List, ◌≡◌, ℕ, ◌+◌, ◌≤◌, ◌<◌, length};
ghost use Rattle.model.specs.Rules.Join.{links_of, links_met};
ghost use Rattle.model.specs.Rules.Parts.{Part};
ghost use Rattle.basics.specs.Judgement.{judgement_of};
ghost use Rattle.model.specs.Rules.Word.{byte_at};
ghost use Rattle.join_check.specs.Met.{number_at, LinkInside, EqualPeriods, link_met_by, JointLinking};

use join_gather::Joint;
use model::{Fault, Index, Kind, Refusal, Sampled};
use read_rule::Timing;

// Where the signal of a part, named by two bytes of a link, is in the join.
pub fn number_of(links: &[u8], at: usize, bases: &[usize; 9]) -> usize
    requires { (at + 1 < length links.now) × (byte_at links.now at < 9) × (number_at links.now at bases.now < 64) }
    ensures { result ≡ number_at links.now at bases.now }
{
    let part = basics::from_byte(links[at]);
    let signal = basics::from_byte(links[at + 1]);
    bases[part] + signal
}

// Whether the read of the link at `at` is met, by the tables of joined numbers.
fn link_met(links: &[u8], at: usize, joint: &Joint) -> bool
    requires { LinkInside links.now at joint.now.bases }
    ensures { EqualPeriods links.now at joint.now.bases joint.now.periods joint.now.phases →
        result ≡ link_met_by links.now at joint.now.bases joint.now.periods joint.now.phases
        joint.now.ranks }
{
    let r = number_of(links, at, &joint.bases);
    let third = at + 2;
    let w = number_of(links, third, &joint.bases);
    let source = Timing {
        period: joint.periods[w],
        phase: joint.phases[w],
    };
    let reader = Timing {
        period: joint.periods[r],
        phase: joint.phases[r],
    };
    let read = Sampled {
        signal: 0,
        factor: 1,
        index: Index::Fixed(0),
    };
    read_rule::is_met(
        Kind::Now,
        read,
        source,
        reader,
        joint.ranks[w] < joint.ranks[r],
    )
}

// 14 at the lowest unmet link.
pub fn links_met(links: &[u8], joint: &Joint) -> Result<(), Fault>
    requires { (parts : List Part) × JointLinking parts links.now joint.now }
    ensures { (parts : List Part) → JointLinking parts links.now joint.now →
        result ≡ judgement_of (links_met parts (links_of links.now)) }
{
    for i in 0..links.len() / 4 {
        if !link_met(links, 4 * i, joint) {
            return basics::refuse(Refusal::ReadUnmet, i);
        }
    }
    Ok(())
}
