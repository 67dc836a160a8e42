// The rows of a join: those of the one part that has some, from its own text.
#![tactic(auto)]

ghost use Rattle.std.specs.Prelude.{◌+◌, ◌*◌, ◌≤◌, length};
ghost use Rattle.model.specs.Rules.Writing.{Wrote};
ghost use Rattle.join_rows.specs.Rows.{RowsReady, rows_by};

use join_gather::Table;

// Writes the table of the joined program.
pub fn emit_rows(texts: &[u8], numbers: &[usize], table: &Table, out: &mut [u8], to: usize) -> usize
    requires { RowsReady texts.now numbers.now table.now × (to + 1 + 12 * table.now.rows ≤ length out.old) }
    ensures { Wrote out.old to (rows_by texts.now numbers.now table.now)
        out.new result }
{
    if table.rows == 0 {
        rows::emit_rows(&texts[0..0], &table.offsets, 0, out, to);
        return to + 1;
    }
    let program = join_texts::program_of(texts, numbers, table.part);
    rows::emit_rows(program, &table.offsets, table.rows, out, to);
    to + 1 + 12 * table.rows
}
