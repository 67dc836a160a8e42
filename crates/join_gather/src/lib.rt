// The parts of a join, each checked alone, and what is joined of them: by part and number what the links are judged by, and by
// joined number what the image is made of.
#![tactic(auto)]

ghost use Rattle.std.specs.Prelude.{List, [], ◌∷◌, ◌++◌, ◌≡◌, ℕ, ◌+◌, ◌*◌, ◌≤◌, ◌<◌, length, get_or};
ghost use Rattle.model.specs.Rules.Join.{parts_in, texts_at, lent, program_text, part_pair, parts_from};
ghost use Rattle.check_pair.specs.Checked.{CheckedAs};
ghost use Rattle.model.specs.Rules.Outcome.{accepted};
ghost use Rattle.model.specs.Rules.Parts.{Part, smaller};
ghost use Rattle.text_program.specs.Tables.{cap_of, TablesOf};
ghost use Rattle.join_gather.specs.Rates.{RatesOf, RatesBy};
ghost use Rattle.join_gather.specs.Gathering.{GatheredAs};
ghost use Rattle.join_gather.specs.Rows.{NoTable, TableOf};
ghost use Rattle.model.specs.Says.Feasible.{OrderedPart};
ghost use Rattle.join_gather.specs.Joint.{JointSpace, Nothing, AddsSignals, WithSignals, PartTables, CodeWithin, JointOf};

use model::{Fault, JoinFault};
use text_program::Tables;
use text_schedule::PairTables;

// What the image of the joined parts is made of, by joined number; `bases` has where the signals of each part start, and last
// where they end. The tables have the first 64 signals; `signals` and `chains` count all.
#[derive(Clone, Copy)]
pub struct Joint {
    pub parts: usize,
    pub bases: [usize; 9],
    pub signals: usize,
    pub chains: usize,
    pub cap: Option<u32>,
    pub places: [u16; 64],
    pub periods: [u8; 64],
    pub weights: [u16; 64],
    pub labels: [u16; 64],
    pub codes: [u16; 65],
    pub order: [u8; 64],
    pub phases: [u8; 64],
    pub ranks: [u8; 64],
}

impl Joint {
    pub fn new() -> Self
        ensures { Nothing result }
    {
        Self {
            parts: 0,
            bases: [0; 9],
            signals: 0,
            chains: 0,
            cap: None,
            places: [0; 64],
            periods: [0; 64],
            weights: [0; 64],
            labels: [0; 64],
            codes: [0; 65],
            order: [0; 64],
            phases: [0; 64],
            ranks: [0; 64],
        }
    }

    // Adds the signals of a part, which are numbered on.
    fn add_signals(&mut self, pair: &PairTables)
        requires { JointSpace self.old × (self.old.signals + pair.now.tables.signals ≤ 64) }
        ensures { AddsSignals self.old pair.now.tables pair.now.slots self.new }
    {
        let tables = &pair.tables;
        let slots = &pair.slots;
        let base = self.signals;
        let code = basics::from_entry(self.codes[base]);
        for x in 0..tables.signals {
            let at = base + x;
            let upto = code + basics::from_entry(tables.codes[x + 1]);
            let put = base + basics::from_byte(slots.order[x]);
            let rank = base + basics::from_byte(slots.ranks[x]);
            self.places[at] = tables.places[x];
            self.periods[at] = tables.periods[x];
            self.weights[at] = tables.weights[x];
            self.labels[at] = tables.labels[x];
            self.codes[at + 1] = (upto % 65536) as u16;
            self.order[at] = (put % 256) as u8;
            self.phases[at] = slots.phases[x];
            self.ranks[at] = (rank % 256) as u8;
        }
    }

    // The same where there are at most 64 signals then.
    fn with_signals(&mut self, pair: &PairTables)
        requires { JointSpace self.old × (self.old.signals ≤ 1000) × (pair.now.tables.signals ≤ 64) }
        ensures { WithSignals self.old pair.now.tables pair.now.slots self.new }
    {
        if self.signals + pair.tables.signals <= 64 {
            self.add_signals(pair);
        }
    }

    // Adds a part.
    fn add_part(&mut self, pair: &PairTables)
        requires { JointSpace self.old × (self.old.parts < 8) × (self.old.signals ≤ 1000) × (self.old.chains ≤ 1000)
            × (pair.now.tables.signals ≤ 64) × (pair.now.tables.chains ≤ 16) }
        ensures { (parts : List Part) (a : Part) (size more : ℕ) → JointOf parts size self.old →
            PartTables a pair.now.tables pair.now.slots → OrderedPart a → CodeWithin pair.now.tables more →
            size + more < 65536 → JointOf (parts ++ (a ∷ [])) (size + more) self.new }
    {
        let signals = self.signals + pair.tables.signals;
        let chains = self.chains + pair.tables.chains;
        let cap = smaller_limit(self.cap, pair.tables.cap);
        let parts = self.parts + 1;
        self.with_signals(pair);
        self.parts = parts;
        self.bases[parts] = signals;
        self.signals = signals;
        self.chains = chains;
        self.cap = cap;
    }
}

// The smaller of two CAPs, where there are two.
fn smaller_limit(cap: Option<u32>, other: Option<u32>) -> Option<u32>
    ensures { cap_of result ≡ smaller (cap_of cap) (cap_of other) }
{
    match (cap, other) {
        (Some(limit), Some(also)) => Some(limit.min(also)),
        (Some(limit), None) => Some(limit),
        (None, _) => other,
    }
}

// The rows of the parts: how many parts have some, and of the last of these its number and the count and offsets of its rows.
#[derive(Clone, Copy)]
pub struct Table {
    pub parts: usize,
    pub part: usize,
    pub rows: usize,
    pub offsets: [u16; 32],
}

impl Table {
    pub fn new() -> Self
        ensures { NoTable result }
    {
        Self {
            parts: 0,
            part: 0,
            rows: 0,
            offsets: [0; 32],
        }
    }

    // Adds the rows of a part.
    fn add_rows(&mut self, tables: &Tables, part: usize)
        requires { self.old.parts ≤ 1000 }
        ensures { (parts : List Part) (a : Part) → length parts ≡ part → TablesOf a.program tables.now →
            TableOf parts self.old → TableOf (parts ++ (a ∷ [])) self.new }
    {
        if tables.rows == 0 {
            return;
        }
        *self = Table {
            parts: self.parts + 1,
            part,
            rows: tables.rows,
            offsets: tables.offsets,
        };
    }
}

// Keeps for the links the period of each signal of a part, by part and number, and whether it is an IN.
fn add_rates(
    program: &[u8],
    tables: &Tables,
    part: usize,
    periods: &mut [u8; 512],
    inputs: &mut [bool; 512],
)
    requires { (part < 8) × (tables.now.signals ≤ 64)
        × ((x : ℕ) → x < tables.now.signals → get_or tables.now.places x 0 < length program.now) }
    ensures { (parts : List Part) (a : Part) → RatesOf program.now tables.now a → length parts ≡ part →
        RatesBy parts periods.old inputs.old →
        RatesBy (parts ++ (a ∷ [])) periods.new inputs.new }
{
    for x in 0..tables.signals {
        let place = basics::from_entry(tables.places[x]);
        let at = 64 * part + x;
        periods[at] = tables.periods[x];
        inputs[at] = program[place] == 0x10;
    }
}

// Part k, checked alone.
fn check_part(texts: &[u8], numbers: &[usize], k: usize) -> Result<PairTables, Fault>
    requires { (k < parts_in numbers.now) × (lent texts.now numbers.now ≡ accepted tt) }
    ensures { CheckedAs (program_text texts.now (texts_at numbers.now k))
        (part_pair texts.now (texts_at numbers.now k)) result }
{
    check_pair::check_pair(
        join_texts::program_of(texts, numbers, k),
        join_texts::schedule_of(texts, numbers, k),
    )
}

// Its rates, kept for the links.
fn keep_rates(
    texts: &[u8],
    numbers: &[usize],
    k: usize,
    tables: &Tables,
    periods: &mut [u8; 512],
    inputs: &mut [bool; 512],
)
    requires { (k < parts_in numbers.now) × (lent texts.now numbers.now ≡ accepted tt)
        × ((a : Part) × RatesOf (program_text texts.now (texts_at numbers.now k)) tables.now a) }
    ensures { (parts : List Part) (a : Part) →
        RatesOf (program_text texts.now (texts_at numbers.now k)) tables.now a → length parts ≡ k →
        RatesBy parts periods.old inputs.old →
        RatesBy (parts ++ (a ∷ [])) periods.new inputs.new }
{
    add_rates(
        join_texts::program_of(texts, numbers, k),
        tables,
        k,
        periods,
        inputs,
    );
}

// What is joined of the parts: their signals, and the rows.
#[derive(Clone, Copy)]
pub struct Gathered {
    pub joint: Joint,
    pub table: Table,
}

// Checks each part alone, and gathers what is joined. A refusal names its part.
pub fn gather(
    texts: &[u8],
    numbers: &[usize],
    periods: &mut [u8; 512],
    inputs: &mut [bool; 512],
) -> Result<Gathered, JoinFault>
    requires { lent texts.now numbers.now ≡ accepted tt }
    ensures { RatesBy [] periods.old inputs.old →
        GatheredAs texts.now numbers.now
        (parts_from texts.now numbers.now 0 (parts_in numbers.now))
        periods.new inputs.new result }
{
    let mut joint = Joint::new();
    let mut table = Table::new();
    for k in 0..numbers.len() / 4 {
        let pair = check_part(texts, numbers, k).map_err(|fault| JoinFault {
            fault,
            part: Some(k),
        })?;
        keep_rates(texts, numbers, k, &pair.tables, periods, inputs);
        joint.add_part(&pair);
        table.add_rows(&pair.tables, k);
    }
    Ok(Gathered { joint, table })
}
