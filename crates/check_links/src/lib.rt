// The links of the chains: refusal 10.
#![tactic(auto)]

ghost use Rattle.std.specs.Prelude.{◌≡◌, ◌≤◌, ◌<◌};
ghost use Rattle.model.specs.Rules.Program.{Program, signal_at, body_reads};
ghost use Rattle.model.specs.Rules.Rates.{is_linked, linked};
ghost use Rattle.text_program.specs.Tables.{Stands, Standing, Indexes, Indexed, chain_at};
ghost use Rattle.check_links.specs.Links.{one_read};
ghost use Rattle.basics.specs.Judgement.{judgement_of};

use model::{Fault, Refusal};
use text_program::Tables;

// The offset of the one read of `before` in the equation of `signal`, over its reads by their index in the table; nowhere if
// there is none, or more than one. 10 and 16 ask it.
pub fn one_read(
    text: &[u8],
    reads: &[u16],
    firsts: &[u16; 65],
    count: usize,
    before: u8,
    signal: u8,
) -> Option<usize>
    requires { (count ≤ 64) × Indexed text.now reads.now firsts.now count }
    ensures { (p : Program) → Indexes text.now reads.now firsts.now count p →
        result ≡ one_read before (body_reads (signal_at p signal).body) }
{
    let index = basics::from_byte(signal);
    if count <= index {
        return None;
    }
    let first = basics::from_entry(firsts[index]);
    let end = basics::from_entry(firsts[index + 1]);
    let mut many: usize = 0;
    let mut found: usize = 0;
    for i in first..end {
        let at = basics::from_entry(reads[i]);
        if text[at + 1] == before {
            many = many + 1;
            found = at;
        }
    }
    if many != 1 {
        return None;
    }
    Some(found)
}

// Whether the equation of each link of a chain after the first has exactly one read of the link before.
fn is_linked(text: &[u8], reads: &[u16], tables: Tables, chain: usize) -> bool
    requires { Standing text.now reads.now tables × (chain < tables.chains) }
    ensures { (p : Program) → Stands text.now reads.now tables p →
        result ≡ is_linked p (chain_at p chain).links }
{
    let firsts = tables.firsts;
    let starts = tables.starts;
    let lengths = tables.lengths;
    let mut at = basics::from_entry(starts[chain]) + width::in_program(0x12);
    let links = basics::from_byte(lengths[chain]);
    for more in (1..links).rev() {
        let second = at + width::in_program(0x13);
        let before = text[at + 1];
        let signal = text[second + 1];
        let read = one_read(text, reads, &firsts, tables.signals, before, signal);
        let Some(_) = read else {
            return false;
        };
        at = second;
    }
    true
}

// 10 at the lowest LAT whose links are not linked. (Links × the reads of their equations.)
pub fn check_links(text: &[u8], reads: &[u16], tables: Tables) -> Result<(), Fault>
    requires { Standing text.now reads.now tables }
    ensures { (p : Program) → Stands text.now reads.now tables p →
        result ≡ judgement_of (linked p) }
{
    if tables.chains == 0 {
        return Ok(());
    }
    let starts = tables.starts;
    for chain in 0..tables.chains {
        if !is_linked(text, reads, tables, chain) {
            return basics::refuse(Refusal::LinkNotReadOnce, basics::from_entry(starts[chain]));
        }
    }
    Ok(())
}
