// The table of rows: its check (29, 30), its area of an image, written and judged, and its lookup.
#![tactic(auto)]

ghost use Rattle.std.specs.Prelude.{◌≡◌, true, cond, ℕ, ◌+◌, ◌*◌, ◌<◌, ◌≤◌, length, get_or};
ghost use Rattle.std.proofs.Math.IntN.{suc_ℤ};
ghost use Rattle.std.proofs.lemmas.List.Edits.{sets};
ghost use Rattle.std.specs.Int.Signed.{lt_z};
ghost use Rattle.basics.specs.Judgement.{judgement_of};
ghost use Rattle.model.specs.Rules.Cover.{apart, meets_earlier, starting_at, continues, no_gap, covering, chained, area_ok};
ghost use Rattle.model.specs.Rules.Search.{first_below, is_found, found_or, all_below};
ghost use Rattle.model.specs.Rules.Table.{table_word, area_rows, rows_from, row_from, by_low, row_bytes, table_bytes};
ghost use Rattle.model.specs.Says.Rows.{AllUpright, Covers};
ghost use Rattle.rows.specs.Rows.{text_row, text_rows, Placed};

use model::{Fault, Refusal};

// A word in a type that has one more.
fn long(w: i32) -> i64
    ensures { result ≡ w }
{
    w as i64
}

// The number after a word.
fn after(w: i32) -> i64
    ensures { result ≡ suc_ℤ w }
{
    (w as i64) + 1
}

// 1 where a high is below w, else 0: a choice that takes no branch.
fn count_below(high: i32, w: i32) -> usize
    ensures { result ≡ cond (lt_z high w) 1 0 }
{
    if high < w { 1 } else { 0 }
}

// What the table in an area gives for w. The rows cover, by rising low: so many as have a high below w come first, and the next
// one contains it. All highs are compared: where a search may end would be guessed, and often wrong.
pub fn look_up(area: &[u8], w: i32) -> i32
    requires { area_ok area.now 0 ≡ true }
    ensures { result ≡ table_word (area_rows area.now 0) w }
{
    let count = basics::from_byte(area[0]);
    let mut below: usize = 0;
    for i in 0..count {
        let at = 1 + 12 * i;
        let high = word::word_at(area, at + 4);
        below = below + count_below(high, w);
    }
    if below < count {
        let at = 1 + 12 * below;
        return word::word_at(area, at + 8);
    }
    0
}

// Whether the rows from `start` on follow one another over the whole range.
fn chain_ok(image: &[u8], start: usize, count: usize) -> bool
    requires { start + 12 * count ≤ length image.now }
    ensures { result ≡ chained (rows_from image.now start count) }
{
    let mut edge: i64 = -2147483648;
    for i in 0..count {
        let at = start + 12 * i;
        let low = word::word_at(image, at);
        let high = word::word_at(image, at + 4);
        if long(low) != edge {
            return false;
        }
        if high < low {
            return false;
        }
        edge = after(high);
    }
    edge == 2147483648
}

// Whether a table's area stands at `at`.
pub fn area_ok(image: &[u8], at: usize) -> bool
    ensures { result ≡ area_ok image.now at }
{
    if image.len() <= at {
        return false;
    }
    let count = basics::from_byte(image[at]);
    if 32 < count {
        return false;
    }
    let start = at + 1;
    if image.len() - start < 12 * count {
        return false;
    }
    if count == 0 {
        return true;
    }
    chain_ok(image, start, count)
}

// The offset of the command of row n.
fn offset_of(offsets: &[u16; 32], n: usize) -> usize
    requires { n < 32 }
    ensures { result ≡ get_or offsets.now n 0 }
{
    basics::from_entry(offsets[n])
}

fn low_of(text: &[u8], offsets: &[u16; 32], n: usize) -> i32
    requires { (n < 32) × (get_or offsets.now n 0 + 13 ≤ length text.now) }
    ensures { result ≡ (text_row text.now offsets.now n).low }
{
    let from = offset_of(offsets, n) + 1;
    word::word_at(text, from)
}

fn high_of(text: &[u8], offsets: &[u16; 32], n: usize) -> i32
    requires { (n < 32) × (get_or offsets.now n 0 + 13 ≤ length text.now) }
    ensures { result ≡ (text_row text.now offsets.now n).high }
{
    let from = offset_of(offsets, n) + 1;
    word::word_at(text, from + 4)
}

// Whether rows m and n have no word in common.
fn are_apart(text: &[u8], offsets: &[u16; 32], m: usize, n: usize) -> bool
    requires { Placed text.now offsets.now (n + 1) × (m < n) }
    ensures { result ≡ apart (text_row text.now offsets.now m)
        (text_row text.now offsets.now n) }
{
    let a = high_of(text, offsets, m);
    let b = low_of(text, offsets, n);
    if a < b {
        return true;
    }
    let c = high_of(text, offsets, n);
    let d = low_of(text, offsets, m);
    c < d
}

// Whether row n has no word in common with an earlier one.
fn apart_from_earlier(text: &[u8], offsets: &[u16; 32], n: usize) -> bool
    requires { Placed text.now offsets.now (n + 1) }
    ensures { result ≡ all_below n (λ m. apart (text_row text.now offsets.now m)
        (text_row text.now offsets.now n)) }
{
    for m in 0..n {
        if !are_apart(text, offsets, m, n) {
            return false;
        }
    }
    true
}

// The first row that meets an earlier one.
fn first_meeting(text: &[u8], offsets: &[u16; 32], count: usize) -> Option<usize>
    requires { Placed text.now offsets.now count }
    ensures { result ≡ first_below count (meets_earlier (text_rows text.now offsets.now count)) }
{
    for n in 0..count {
        if !apart_from_earlier(text, offsets, n) {
            return Some(n);
        }
    }
    None
}

// The first row that starts at an edge.
fn find_start(text: &[u8], offsets: &[u16; 32], count: usize, edge: i64) -> Option<usize>
    requires { Placed text.now offsets.now count }
    ensures { result ≡ starting_at (text_rows text.now offsets.now count) edge }
{
    for n in 0..count {
        let low = low_of(text, offsets, n);
        if long(low) == edge {
            return Some(n);
        }
    }
    None
}

fn starts(text: &[u8], offsets: &[u16; 32], count: usize, edge: i64) -> bool
    requires { Placed text.now offsets.now count }
    ensures { result ≡ is_found (starting_at (text_rows text.now offsets.now count) edge) }
{
    let found = find_start(text, offsets, count, edge);
    match found {
        Some(n) => true,
        None => false,
    }
}

fn start_index(text: &[u8], offsets: &[u16; 32], count: usize, edge: i64) -> usize
    requires { Placed text.now offsets.now count }
    ensures { result ≡ found_or 0 (starting_at (text_rows text.now offsets.now count) edge) }
{
    let found = find_start(text, offsets, count, edge);
    match found {
        Some(n) => n,
        None => 0,
    }
}

// Whether a row starts at the lowest word, and after each row's high another, up to the highest word.
fn no_gap(text: &[u8], offsets: &[u16; 32], count: usize) -> bool
    requires { Placed text.now offsets.now count }
    ensures { result ≡ no_gap (text_rows text.now offsets.now count) }
{
    if !starts(text, offsets, count, -2147483648) {
        return false;
    }
    for n in 0..count {
        if !continued(text, offsets, count, n) {
            return false;
        }
    }
    true
}

// Whether the range ends where row n does, or another row starts after it.
fn continued(text: &[u8], offsets: &[u16; 32], count: usize, n: usize) -> bool
    requires { Placed text.now offsets.now count × (n < count) }
    ensures { result ≡ continues (text_rows text.now offsets.now count)
        (text_row text.now offsets.now n).high }
{
    let high = high_of(text, offsets, n);
    if high == 2147483647 {
        return true;
    }
    starts(text, offsets, count, after(high))
}

// 29 at the first row that meets an earlier one, 30 where a word lies in no row.
pub fn check_rows(text: &[u8], offsets: &[u16; 32], count: usize) -> Result<(), Fault>
    requires { Placed text.now offsets.now count }
    ensures { result ≡ judgement_of (covering (text_rows text.now offsets.now count)) }
{
    let found = first_meeting(text, offsets, count);
    match found {
        Some(n) => basics::refuse(Refusal::WordInTwoRows, offset_of(offsets, n)),
        None => {
            if no_gap(text, offsets, count) {
                Ok(())
            } else {
                basics::refuse(Refusal::WordInNoRow, 0)
            }
        }
    }
}

// Writes the three words that stand at `from`.
fn put_row(text: &[u8], from: usize, out: &mut [u8], to: usize)
    requires { (from + 12 ≤ length text.now) × (to + 12 ≤ length out.old) }
    ensures { out.new ≡ sets out.old to (row_bytes (row_from text.now 0 from)) }
{
    word::put_word(out, to, word::word_at(text, from));
    word::put_word(out, to + 4, word::word_at(text, from + 4));
    word::put_word(out, to + 8, word::word_at(text, from + 8));
}

// Writes the area of rows that cover, by rising low.
pub fn emit_rows(text: &[u8], offsets: &[u16; 32], count: usize, out: &mut [u8], to: usize)
    requires { Placed text.now offsets.now count × AllUpright (text_rows text.now offsets.now count)
        × (0 < count → Covers (text_rows text.now offsets.now count)) × (to + 1 + 12 * count ≤ length out.old) }
    ensures { out.new ≡ sets out.old to
        (table_bytes (by_low (text_rows text.now offsets.now count))) }
{
    out[to] = (count % 256) as u8;
    let mut edge: i64 = -2147483648;
    for i in 0..count {
        let n = start_index(text, offsets, count, edge);
        put_row(text, offset_of(offsets, n) + 1, out, to + 1 + 12 * i);
        edge = after(high_of(text, offsets, n));
    }
}
