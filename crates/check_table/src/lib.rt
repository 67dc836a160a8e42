// The table of a program: if it has a row or a TABLE, every word lies in exactly one row (29, 30).
#![tactic(auto)]

ghost use Rattle.std.specs.Prelude.{List, ◌≡◌, ℕ, ◌+◌, ltb};
ghost use Rattle.model.specs.Rules.Cover.{tabled};
ghost use Rattle.model.specs.Rules.Program.{Program};
ghost use Rattle.basics.specs.Judgement.{judgement_of};
ghost use Rattle.text_program.specs.Tables.{Stands, Standing};

use model::Fault;
use text_program::Tables;

// Whether there is a row or a TABLE.
fn is_some(rows: usize, lookups: usize) -> bool
    ensures { result ≡ ltb 0 (rows + lookups) }
{
    if 0 < rows {
        return true;
    }
    0 < lookups
}

// 29 at the first row that meets an earlier one, then 30. A program with neither rows nor TABLEs passes.
pub fn check_table(text: &[u8], tables: Tables) -> Result<(), Fault>
    requires { (reads : List ℕ) × Standing text.now reads tables }
    ensures { (p : Program) (reads : List ℕ) → Stands text.now reads tables p →
        result ≡ judgement_of (tabled p) }
{
    let count = tables.rows;
    if !is_some(count, tables.lookups) {
        return Ok(());
    }
    let offsets = tables.offsets;
    rows::check_rows(text, &offsets, count)
}
