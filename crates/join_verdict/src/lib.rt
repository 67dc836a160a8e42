// All checks of a join, in the stated order.
#![tactic(auto)]

ghost use Rattle.std.specs.Prelude.{List, ◌≡◌};
ghost use Rattle.model.specs.Rules.Join.{one_table};
ghost use Rattle.model.specs.Rules.Parts.{Part};
ghost use Rattle.basics.specs.Judgement.{judgement_of};
ghost use Rattle.join_gather.specs.Rows.{TableOf};
ghost use Rattle.join_verdict.specs.Verdict.{VerdictAs};

use join_gather::{Joint, Table};
use model::{Fault, JoinFault, Refusal};

// What is joined of the parts of an accepted join, and its hypercycle.
#[derive(Clone, Copy)]
pub struct Verdict {
    pub joint: Joint,
    pub table: Table,
    pub hypercycle: usize,
}

// 31 for rows in two parts.
fn one_table(table: Table) -> Result<(), Fault>
    ensures { (parts : List Part) → TableOf parts table → result ≡ judgement_of (one_table parts) }
{
    if 1 < table.parts {
        return basics::refuse(Refusal::WrongLink, 0);
    }
    Ok(())
}

// All checks of a join, in the stated order. A refusal inside a part names it.
pub fn check_join(texts: &[u8], numbers: &[usize], links: &[u8]) -> Result<Verdict, JoinFault>
    ensures { VerdictAs texts.now numbers.now links.now result }
{
    join_texts::check_texts(texts, numbers)?; // 1, 4, 27
    let mut periods: [u8; 512] = [0; 512];
    let mut inputs: [bool; 512] = [false; 512];
    let gathered = join_gather::gather(texts, numbers, &mut periods, &mut inputs)?; // each part alone
    join_links::judge_links(links, &periods, &mut inputs)?; // 31 at a link
    one_table(gathered.table)?; // 31 for rows
    let hypercycle = join_whole::check_joint(links, &gathered.joint)?; // 4, 9, 14, 15
    Ok(Verdict {
        joint: gathered.joint,
        table: gathered.table,
        hypercycle,
    })
}
