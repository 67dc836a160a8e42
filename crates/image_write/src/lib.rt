// The image of an accepted pair and its tail: their layout, and their parts one after another.
#![tactic(auto)]

ghost use Rattle.std.specs.Prelude.{◌≡◌, List, ◌∷◌, ◌++◌, ℕ, ◌+◌, ◌≤◌, ◌<◌, length, get_or, drop};
ghost use Rattle.std.proofs.lemmas.List.Edits.{sets};
ghost use Rattle.model.specs.Rules.Image.{joined, offsets, records, written_of, tail_entry};
ghost use Rattle.model.specs.Rules.Program.{Program};
ghost use Rattle.model.specs.Rules.Reads.{stored};
ghost use Rattle.model.specs.Rules.Schedule.{Schedule};
ghost use Rattle.model.specs.Rules.Width.{in_program};
ghost use Rattle.model.specs.Rules.Word.{two_bytes, word_at, word_bytes};
ghost use Rattle.text_program.specs.Tables.{rate_at};
ghost use Rattle.text_schedule.specs.Arranged.{Arranged, Arrangement};
ghost use Rattle.image_write.specs.Codes.{declared_by, codes_from, Declared, CodesAt};
ghost use Rattle.image_write.specs.Cursors.{StartsOf, Open, WritesRuns};
ghost use Rattle.image_write.specs.Layout.{LaidOut, LaidOutBy, Fits};
ghost use Rattle.image_write.specs.Lists.{list_by, lists_by, pairs, HasPeriods, Phased, RunsCounted};
ghost use Rattle.image_write.specs.Rows.{table_by, TableStands};
ghost use Rattle.image_write.specs.Tail.{tail_by};
ghost use Rattle.model.specs.Rules.Writing.{Wrote};

use text_schedule::PairTables;

fn from_count(x: u32) -> usize
    ensures { result ≡ x }
{
    x as usize
}

// How many signals run in each of h cycles: a step for each run of each signal.
fn count_runs(
    periods: &[u8; 64],
    order: &[u8; 64],
    phases: &[u8; 64],
    n: usize,
    h: usize,
) -> [u32; 240]
    requires { HasPeriods periods.now order.now n × Phased periods.now order.now phases.now n × (h ≤ 240) }
    ensures { RunsCounted periods.now order.now phases.now n h result }
{
    let mut counts: [u32; 240] = [0; 240];
    for i in 0..n {
        let x = basics::from_byte(order[i]);
        runs::add_runs(&mut counts, periods[x], phases[x], 1, h);
    }
    counts
}

// In how many of h cycles signal x runs: as many elements are stored before cycle h.
fn run_count(periods: &[u8; 64], phases: &[u8; 64], x: u8, h: usize) -> usize
    requires { (x < 64) × (get_or phases.now x 0 < get_or periods.now x 0) × (h ≤ 240) }
    ensures { result ≡ stored (rate_at periods.now phases.now x) h }
{
    let signal = basics::from_byte(x);
    let period = basics::from_byte(periods[signal]);
    let phase = basics::from_byte(phases[signal]);
    (h + period - (phase + 1)) / period
}

// The length of the run lists of h cycles: a step for each of the n signals.
fn lists_length(
    periods: &[u8; 64],
    order: &[u8; 64],
    phases: &[u8; 64],
    n: usize,
    h: usize,
) -> usize
    requires { HasPeriods periods.now order.now n × Phased periods.now order.now phases.now n × (h ≤ 240) }
    ensures { result ≡ length (joined (lists_by periods.now order.now phases.now n h)) }
{
    let mut total: usize = 0;
    for i in 0..n {
        let runs = run_count(periods, phases, order[i], h);
        total = total + runs;
    }
    total
}

// Adds signal x to the list of each cycle in which it runs, stepping from run to run; `nexts` has where each list goes on.
fn emit_runs(
    nexts: &mut [u16; 241],
    x: u8,
    period: u8,
    phase: u8,
    h: usize,
    out: &mut [u8],
    to: usize,
)
    requires { (phase < period) × (h ≤ 240) × (length nexts.old ≡ 241) ×
        Open (record { period = period; phase = phase }) x h to out.old nexts.old }
    ensures { (length nexts.new ≡ 241) ×
        WritesRuns (record { period = period; phase = phase }) x h to out.old nexts.old
        out.new nexts.new }
{
    for c in (basics::from_byte(phase)..h).step_by(basics::from_byte(period)) {
        let at = basics::from_entry(nexts[c]);
        out[to + at] = x;
        nexts[c] = (at + 1) as u16;
    }
}

// Writes the run lists of h cycles, which start where `nexts` says: the signals in PUT order, each at its runs.
pub fn emit_lists(
    periods: &[u8; 64],
    order: &[u8; 64],
    phases: &[u8; 64],
    n: usize,
    h: usize,
    nexts: &mut [u16; 241],
    out: &mut [u8],
    to: usize,
) -> usize
    requires { (HasPeriods periods.now order.now n × Phased periods.now order.now phases.now n × (h ≤ 240)) ×
        StartsOf (list_by periods.now order.now phases.now n) h nexts.old ×
        (to + length (joined (lists_by periods.now order.now phases.now n h)) ≤ length out.old) }
    ensures { Wrote out.old to
        (joined (lists_by periods.now order.now phases.now n h)) out.new result }
{
    for i in 0..n {
        let x = order[i];
        let signal = basics::from_byte(x);
        emit_runs(nexts, x, periods[signal], phases[signal], h, out, to);
    }
    let size = basics::from_entry(nexts[h]);
    to + size
}

// Writes an offset.
fn put_offset(out: &mut [u8], to: usize, offset: usize) -> usize
    requires { to + 2 ≤ length out.old }
    ensures { Wrote out.old to (two_bytes offset) out.new result }
{
    word::put_two(out, to, offset);
    to + 2
}

// Writes where the run lists start, the first at `start`, and last where they end. `starts` gets the same, counted from the first
// list on.
pub fn emit_offsets(
    periods: &[u8; 64],
    order: &[u8; 64],
    phases: &[u8; 64],
    n: usize,
    h: usize,
    start: usize,
    starts: &mut [u16; 241],
    out: &mut [u8],
    to: usize,
) -> usize
    requires { (length starts.old ≡ 241) ×
        (HasPeriods periods.now order.now n × Phased periods.now order.now phases.now n × (h ≤ 240)) ×
        (start + length (joined (lists_by periods.now order.now phases.now n h)) ≤ length out.old) ×
        (to + length (pairs (offsets start (lists_by periods.now order.now phases.now n h))) ≤ length out.old) }
    ensures { StartsOf (list_by periods.now order.now phases.now n) h
        starts.new ×
        Wrote out.old to
        (pairs (offsets start (lists_by periods.now order.now phases.now n h))) out.new
        result }
{
    let counts = count_runs(periods, order, phases, n, h);
    let mut before: usize = 0;
    let mut end = to;
    for c in 0..h {
        starts[c] = before as u16;
        end = put_offset(out, end, start + before);
        let runs = from_count(counts[c]);
        before = before + runs;
    }
    starts[h] = before as u16;
    put_offset(out, end, start + before)
}

// Writes the table of so many rows, whose commands stand at the offsets.
fn emit_table(text: &[u8], offsets: &[u16; 32], count: usize, out: &mut [u8], to: usize) -> usize
    requires { TableStands text.now offsets.now count ×
        (to + length (table_by text.now offsets.now count) ≤ length out.old) }
    ensures { Wrote out.old to
        (table_by text.now offsets.now count) out.new result }
{
    rows::emit_rows(text, offsets, count, out, to);
    to + 1 + 12 * count
}

// Writes the code of n signals.
fn emit_codes(text: &[u8], places: &[u16; 64], n: usize, out: &mut [u8], to: usize) -> usize
    requires { Declared text.now places.now n ×
        (to + length (joined (codes_from 0 (declared_by text.now))) ≤ length out.old) }
    ensures { Wrote out.old to (joined (codes_from 0 (declared_by text.now))) out.new result }
{
    let mut end = to;
    for x in 0..n {
        let signal = basics::to_byte(x);
        let place = basics::from_entry(places[x]);
        end = image_code::emit_signal(text, place, signal, out, end);
    }
    end
}

// Writes the record of the signal declared at `place`, whose code starts at `offset`.
pub fn put_record(text: &[u8], place: usize, offset: usize, out: &mut [u8], to: usize) -> usize
    requires { (place + in_program 0x10 ≤ length text.now) × (to + 6 ≤ length out.old) }
    ensures { Wrote out.old to (word_bytes (word_at text.now (place + 2)) ++
        two_bytes offset) out.new result }
{
    let initial = word::word_at(text, place + 2);
    word::put_word(out, to, initial);
    let after = to + 4;
    put_offset(out, after, offset)
}

// Writes the records of n signals, whose code starts at `codes` after `start`.
fn emit_records(
    text: &[u8],
    places: &[u16; 64],
    n: usize,
    codes: &[u16; 65],
    start: usize,
    out: &mut [u8],
    to: usize,
) -> usize
    requires { Declared text.now places.now n × CodesAt start (declared_by text.now) codes.now ×
        (start + length (joined (codes_from 0 (declared_by text.now))) ≤ length out.old) ×
        (to + length (records (declared_by text.now) (offsets start (codes_from 0 (declared_by text.now)))) ≤ length
        out.old) }
    ensures { Wrote out.old to
        (records (declared_by text.now) (offsets start (codes_from 0 (declared_by text.now))))
        out.new result }
{
    let mut end = to;
    for x in 0..n {
        let code = basics::from_entry(codes[x]);
        let place = basics::from_entry(places[x]);
        end = put_record(text, place, start + code, out, end);
    }
    end
}

// Writes H, N and L.
pub fn put_head(h: usize, n: usize, size: usize, out: &mut [u8]) -> usize
    requires { (h < 256) × (n < 256) × (4 ≤ length out.old) }
    ensures { Wrote out.old 0 (h ∷ n ∷ two_bytes size) out.new result }
{
    out[0] = basics::to_byte(h);
    out[1] = basics::to_byte(n);
    put_offset(out, 2, size)
}

// Where the run lists and the code, after the table, start, where the image ends, L, and where its tail does: L + 4N.
#[derive(Clone, Copy)]
pub struct Layout {
    pub lists: usize,
    pub code: usize,
    pub end: usize,
    pub written: usize,
}

// Lays the image of n signals out, whose code has so many bytes, with so many rows.
pub fn lay_out_code(
    size: usize,
    rows: usize,
    periods: &[u8; 64],
    order: &[u8; 64],
    phases: &[u8; 64],
    n: usize,
    h: usize,
) -> Layout
    requires { HasPeriods periods.now order.now n × Phased periods.now order.now phases.now n × (h ≤ 240) ×
        (size < 65536) × (rows ≤ 32) }
    ensures { LaidOutBy periods.now order.now phases.now n h size rows result }
{
    let lists = image_layout::lists_at(n, h);
    let runs = lists_length(periods, order, phases, n, h);
    let table = 1 + 12 * rows;
    let code = lists + runs + table;
    let end = code + size;
    let written = end + 4 * n;
    Layout {
        lists,
        code,
        end,
        written,
    }
}

// Lays the image out. The text is not read again: the tables have the length of the code.
pub fn lay_out(pair: &PairTables) -> Layout
    requires { (text reads : List ℕ) × Arrangement text reads pair.now }
    ensures { (text reads : List ℕ) (p : Program) (s : Schedule) → Arranged text reads pair.now p s →
        LaidOut p s pair.now.hypercycle result }
{
    let tables = &pair.tables;
    let periods = &tables.periods;
    let order = &pair.slots.order;
    let phases = &pair.slots.phases;
    let n = tables.signals;
    let codes = &tables.codes;
    let size = basics::from_entry(codes[n]);
    let h = pair.hypercycle;
    lay_out_code(size, tables.rows, periods, order, phases, n, h)
}

// Writes the image, laid out as `layout` says, into the first L bytes, and its tail after it.
pub fn emit(text: &[u8], pair: &PairTables, layout: Layout, out: &mut [u8])
    requires { Fits text.now pair.now layout (length out.old) }
    ensures { (reads : List ℕ) (p : Program) (s : Schedule) → Arranged text.now reads pair.now p s →
        out.new ≡ written_of p s pair.now.hypercycle ++ drop layout.written out.old }
{
    let tables = &pair.tables;
    let periods = &tables.periods;
    let order = &pair.slots.order;
    let phases = &pair.slots.phases;
    let places = &tables.places;
    let h = pair.hypercycle;
    let n = tables.signals;
    let records = put_head(h, n, layout.end, out);
    let offsets = emit_records(text, places, n, &tables.codes, layout.code, out, records);
    let mut nexts: [u16; 241] = [0; 241];
    let lists = emit_offsets(
        periods,
        order,
        phases,
        n,
        h,
        layout.lists,
        &mut nexts,
        out,
        offsets,
    );
    let table = emit_lists(periods, order, phases, n, h, &mut nexts, out, lists);
    let codes = emit_table(text, &tables.offsets, tables.rows, out, table);
    emit_codes(text, places, n, out, codes);
    emit_tail(&tables.labels, periods, phases, n, out, layout.end);
}

// Writes the entry of a signal in the tail.
fn put_entry(label: u16, period: u8, phase: u8, out: &mut [u8], to: usize) -> usize
    requires { to + 4 ≤ length out.old }
    ensures { Wrote out.old to (tail_entry label period phase) out.new result }
{
    let number = basics::from_entry(label);
    let at = put_offset(out, to, number);
    out[at] = period;
    out[at + 1] = phase;
    at + 2
}

// Writes the tail of n signals after an image that ends at `to`.
pub fn emit_tail(
    labels: &[u16; 64],
    periods: &[u8; 64],
    phases: &[u8; 64],
    n: usize,
    out: &mut [u8],
    to: usize,
)
    requires { (n ≤ 64) × (to + length (tail_by labels.now periods.now phases.now n) ≤ length out.old) }
    ensures { out.new ≡
        sets out.old to (tail_by labels.now periods.now phases.now n) }
{
    let mut end = to;
    for x in 0..n {
        end = put_entry(labels[x], periods[x], phases[x], out, end);
    }
}
