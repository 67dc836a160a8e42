// Program texts to tables: what stands where, or the first fault.
#![tactic(auto)]

ghost use Rattle.std.specs.Prelude.{Ok, ◌≡◌, [], ℕ, ◌+◌, ◌*◌, ◌≤◌, ◌<◌, length};
ghost use Rattle.model.specs.Rules.Command.{is_signal};
ghost use Rattle.model.specs.Rules.Outcome.{provided};
ghost use Rattle.model.specs.Rules.Refusal.{number_of};
ghost use Rattle.model.specs.Rules.Program.{Program, operator_here, parse_expr, parse_links, declaration_here, parse_with};
ghost use Rattle.model.specs.Rules.Width.{in_program, in_code};
ghost use Rattle.basics.specs.Judgement.{judgement_of};
ghost use Rattle.text_program.specs.Results.{links_of, chain_of, tag_of, end_of};
ghost use Rattle.text_program.specs.Steps.{label_after, Counts, Stepped};
ghost use Rattle.text_program.specs.Tables.{signal_added, chain_added, row_added, EntryFits, with_entry, Unread, filled, ProgramReads};
ghost use Rattle.text_program.specs.Walks.{deep_of, outlines, leaf_of, WalkRoom, LeafRoom, Walks, WalksEquation};

use model::{Declaration, Fault, Operator, Refusal};

// Whether an operator of an expression stands at `at`: 2 and 3 come before its depth and its operands.
fn operator_here(text: &[u8], at: usize) -> Result<(), Fault>
    ensures { result ≡ judgement_of (operator_here text.now at) }
{
    if text.len() <= at {
        return basics::refuse(Refusal::ProgramEndsEarly, text.len());
    }
    let width = width::expression(text[at]);
    match width {
        Some(_) => Ok(()),
        None => basics::refuse(Refusal::NoSuchCommand, at),
    }
}

// Where the reading of an expression stands: the offset in the text, how many reads the program has so far, how many bytes of
// code, and how many TABLEs.
#[derive(Clone, Copy)]
pub struct Walk {
    pub at: usize,
    pub reads: usize,
    pub code: usize,
    pub lookups: usize,
}

// The refusal at `at` where no operator may stand: 2 and 3 come before the depth.
fn too_deep(text: &[u8], at: usize) -> Result<Walk, Fault>
    ensures { result ≡ deep_of at (operator_here text.now at) }
{
    operator_here(text, at)?;
    basics::refuse(Refusal::OverABound, at)
}

// Reads an operator that has no operands: a leaf, or what is refused. Keeps the offset of a read in the table.
fn read_leaf(operator: Operator, size: usize, walk: Walk, reads: &mut [u16]) -> Result<Walk, Fault>
    requires { LeafRoom operator size walk.at walk.reads walk.code walk.lookups (length reads.old) }
    ensures { Walks (leaf_of size walk.at operator) reads.old walk.reads walk.code walk.lookups
        reads.new result }
{
    match operator {
        Operator::EndsEarly => basics::refuse(Refusal::ProgramEndsEarly, size),
        Operator::OutOfRange => basics::refuse(Refusal::OperandOutOfRange, walk.at),
        Operator::Constant(_) => Ok(Walk {
            at: walk.at + width::in_expression(0x20),
            code: walk.code + width::in_code(0x50),
            ..walk
        }),
        Operator::Read(kind, _) => {
            reads[walk.reads] = walk.at as u16;
            Ok(Walk {
                at: walk.at + width::of_read(kind),
                reads: walk.reads + 1,
                code: walk.code + width::in_code(0x51),
                ..walk
            })
        }
        _ => basics::refuse(Refusal::NoSuchCommand, walk.at),
    }
}

// Reads so many expressions from `at` on, one after another, each of which may nest `depth` deep: an operator is followed by
// its operands. Keeps the offset of each of their reads in `reads`, from `count` on, and counts the bytes of their code, from
// `to` on, and their TABLEs, from `looks` on. The text goes by a reference to its slice, which no level of the recursion has to
// copy; where the reading stands goes as numbers, for as one Walk it is slower.
pub fn read_expressions(
    least: u8,
    text: &&[u8],
    number: usize,
    at: usize,
    count: usize,
    to: usize,
    looks: usize,
    depth: usize,
    reads: &mut [u16],
) -> Result<Walk, Fault>
    requires { WalkRoom (length text.now.now) at count to looks (length reads.old) }
    ensures { Walks (outlines (parse_expr least depth text.now.now) number at) reads.old count to looks reads.new result }
{
    let mut walk = Walk {
        at,
        reads: count,
        code: to,
        lookups: looks,
    };
    for _ in 0..number {
        if depth == 0 {
            return too_deep(*text, walk.at);
        }
        let operator = text_command::operator_from(least, *text, walk.at);
        let operands = text_command::operands_of(operator);
        if operands == 0 {
            let leaf = read_leaf(operator, text.len(), walk, reads);
            // `let .. else`, paper 01's form of a reading step that answers as the function does
            let Ok(next) = leaf else {
                return leaf;
            };
            walk = next;
        } else {
            let below = read_expressions(
                least,
                text,
                operands,
                walk.at + width::in_expression(0x30),
                walk.reads,
                walk.code + width::in_code(0x30),
                walk.lookups + text_command::lookups_of(operator),
                depth - 1,
                reads,
            );
            let Ok(next) = below else {
                return below;
            };
            walk = next;
        }
    }
    Ok(walk)
}

// The LINKs of a chain: how many there are, and where they end.
#[derive(Clone, Copy)]
pub struct LinksRead {
    pub count: u8,
    pub next: usize,
}

// Reads the LINKs from `at` on. They end at the first byte that isn't 13, or where the text ends.
pub fn read_links(text: &[u8], at: usize) -> Result<LinksRead, Fault>
    ensures { result ≡ links_of (parse_links 16 text.now at []) }
{
    let mut next = at;
    let mut count: u8 = 0;
    // a `while`: it goes on by the width of a LINK
    while next < text.len() {
        if text[next] != 0x13 {
            return Ok(LinksRead { count, next });
        }
        if 16 <= count {
            return basics::refuse(Refusal::OverABound, next);
        }
        let link = text_command::link_at(text, next);
        let Declaration::Link(_) = link else {
            return basics::refuse(Refusal::ProgramEndsEarly, text.len());
        };
        next += width::in_program(0x13);
        count += 1;
    }
    Ok(LinksRead { count, next })
}

// What a command adds to a program: a signal of a period and a weight, a chain of so many LINKs, a CAP, a label for the signal
// after it, a row.
#[derive(Clone, Copy)]
pub enum Entry {
    Signal(u8, u16),
    Chain(u8),
    Cap(u32),
    Label(u16),
    Row,
}

// What one command of the program text is: an entry with where the reading stands after it, or END.
#[derive(Clone, Copy)]
pub enum Step {
    Adds(Entry, Walk),
    End,
}

// The refusal at `at` unless a condition holds.
fn judge(holds: bool, refusal: Refusal, at: usize) -> Result<(), Fault>
    ensures { result ≡ judgement_of (provided holds (number_of refusal) at) }
{
    if holds {
        Ok(())
    } else {
        basics::refuse(refusal, at)
    }
}

// What stands where in a program text, by signal, by chain and by row; row n stands at `offsets[n]`. The reads of signal x are
// those from `firsts[x]` to `firsts[x + 1]` of the table of reads, its code the bytes from `codes[x]` to `codes[x + 1]` of the
// whole code. Columns and not a row for each signal, since the checks are lent one column; arrays with a count, since nothing
// here uses the heap. Fields go from wide to narrow, without gaps: all is 0 at first, and is cleared in one stretch.
#[derive(Clone, Copy)]
pub struct Tables {
    pub signals: usize,
    pub chains: usize,
    pub rows: usize,
    pub lookups: usize,
    pub cap: Option<u32>,
    pub places: [u16; 64],
    pub weights: [u16; 64],
    pub labels: [u16; 64],
    pub firsts: [u16; 65],
    pub codes: [u16; 65],
    pub starts: [u16; 16],
    pub offsets: [u16; 32],
    pub periods: [u8; 64],
    pub lengths: [u8; 16],
}

impl Tables {
    pub fn new() -> Self
        ensures { Unread result }
    {
        Self {
            signals: 0,
            chains: 0,
            rows: 0,
            lookups: 0,
            cap: None,
            places: [0; 64],
            weights: [0; 64],
            labels: [0; 64],
            firsts: [0; 65],
            codes: [0; 65],
            starts: [0; 16],
            offsets: [0; 32],
            periods: [0; 64],
            lengths: [0; 16],
        }
    }

    fn add_signal(&mut self, at: usize, label: u16, period: u8, weight: u16, walk: Walk)
        requires { (self.old.signals < 64) × (at < 65536) × (walk.reads < 65536) × (walk.code < 65536) }
        ensures { self.new ≡ signal_added self.old at label period weight walk.reads walk.code walk.lookups }
    {
        let x = self.signals;
        self.places[x] = at as u16;
        self.periods[x] = period;
        self.weights[x] = weight;
        self.labels[x] = label;
        self.firsts[x + 1] = walk.reads as u16;
        self.codes[x + 1] = walk.code as u16;
        self.lookups = walk.lookups;
        self.signals += 1;
    }

    fn add_chain(&mut self, at: usize, links: u8)
        requires { (self.old.chains < 16) × (at < 65536) }
        ensures { self.new ≡ chain_added self.old at links }
    {
        let j = self.chains;
        self.starts[j] = at as u16;
        self.lengths[j] = links;
        self.chains += 1;
    }

    fn add_row(&mut self, at: usize)
        requires { (self.old.rows < 32) × (at < 65536) }
        ensures { self.new ≡ row_added self.old at }
    {
        let n = self.rows;
        self.offsets[n] = at as u16;
        self.rows += 1;
    }

    // Adds an entry that stands at `at` behind a label, where the reading goes on at `walk`; answers the label behind which the
    // next command stands.
    fn add(&mut self, entry: Entry, at: usize, label: u16, walk: Walk) -> u16
        requires { (at < 65536) × EntryFits self.old entry walk }
        ensures { (self.new ≡ with_entry self.old at label entry walk) × (result ≡ label_after entry) }
    {
        match entry {
            Entry::Signal(period, weight) => {
                self.add_signal(at, label, period, weight, walk);
                0
            }
            Entry::Chain(links) => {
                self.add_chain(at, links);
                0
            }
            Entry::Cap(limit) => {
                self.cap = Some(limit);
                0
            }
            Entry::Label(given) => given,
            Entry::Row => {
                self.add_row(at);
                0
            }
        }
    }
}

// Whether a declaration may stand at `at` after those of the tables: 2, 3, then counts and second CAP. It goes by the byte, for
// this is judged before the operands are decoded.
fn declaration_here(text: &[u8], at: usize, tables: &Tables) -> Result<(), Fault>
    ensures { (p : Program) → Counts p tables.now → result ≡ judgement_of (declaration_here text.now at p) }
{
    if text.len() <= at {
        return basics::refuse(Refusal::ProgramEndsEarly, text.len());
    }
    let byte = text[at];
    match byte {
        0x00 => Ok(()),
        0x10 => judge(tables.signals < 64, Refusal::OverABound, at),
        0x11 => judge(tables.signals < 64, Refusal::OverABound, at),
        0x12 => judge(tables.chains < 16, Refusal::OverABound, at),
        0x14 => judge(tables.cap.is_none(), Refusal::OperandOutOfRange, at),
        0x15 => Ok(()),
        0x16 => judge(tables.rows < 32, Refusal::OverABound, at),
        _ => basics::refuse(Refusal::NoSuchCommand, at),
    }
}

// The step to an entry that ends at `next` and has no code.
fn adds(entry: Entry, next: usize, walk: Walk) -> Result<Step, Fault>
    ensures { result ≡ Ok (Step.Adds entry
        (record { at = next; reads = walk.reads; code = walk.code; lookups = walk.lookups })) }
{
    Ok(Step::Adds(entry, Walk { at: next, ..walk }))
}

// An IN, whose code is FETCH and STORE.
fn input_step(period: u8, walk: Walk) -> Result<Step, Fault>
    requires { (walk.at ≤ 8192) × (walk.code ≤ 8192) }
    ensures { result ≡ Ok (Step.Adds (Entry.Signal period 0)
        (record {
          at = walk.at + in_program 0x10;
          reads = walk.reads;
          code = walk.code + (in_code 0x52 + in_code 0x5F);
          lookups = walk.lookups;
        })) }
{
    let next = walk.at + width::in_program(0x10);
    let coded = width::in_code(0x52) + width::in_code(0x5F);
    let code = walk.code + coded;
    Ok(Step::Adds(
        Entry::Signal(period, 0),
        Walk {
            at: next,
            code,
            ..walk
        },
    ))
}

// An EQ ends where its expression does; after the expression's code comes a STORE.
fn equation_step(
    least: u8,
    text: &[u8],
    entry: Entry,
    walk: Walk,
    reads: &mut [u16],
) -> Result<Step, Fault>
    requires { (walk.at < length text.now) ×
        WalkRoom (length text.now) walk.at walk.reads walk.code walk.lookups (length reads.old) }
    ensures { WalksEquation (parse_expr least 16 text.now (walk.at + in_program 0x11)) entry reads.old
        walk.reads walk.code walk.lookups reads.new result }
{
    let at = walk.at + width::in_program(0x11);
    let end = read_expressions(
        least,
        &text,
        1,
        at,
        walk.reads,
        walk.code,
        walk.lookups,
        16,
        reads,
    )?;
    let code = end.code + width::in_code(0x5F);
    Ok(Step::Adds(entry, Walk { code, ..end }))
}

// A LAT ends where its LINKs do; a chain has two of them at least.
fn chain_step(text: &[u8], walk: Walk) -> Result<Step, Fault>
    requires { walk.at < length text.now }
    ensures { result ≡ chain_of walk.at walk.reads walk.code walk.lookups
        (parse_links 16 text.now (walk.at + in_program 0x12) []) }
{
    let links = read_links(text, walk.at + width::in_program(0x12))?;
    if links.count < 2 {
        return basics::refuse(Refusal::OperandOutOfRange, walk.at);
    }
    adds(Entry::Chain(links.count), links.next, walk)
}

fn is_signal(byte: u8) -> bool
    ensures { result ≡ is_signal byte }
{
    byte == 0x10 || byte == 0x11
}

// A TAG stands directly before IN or EQ, which takes its label.
fn tag_step(text: &[u8], label: u16, walk: Walk) -> Result<Step, Fault>
    requires { walk.at < length text.now }
    ensures { result ≡ tag_of text.now walk.at label walk.reads walk.code walk.lookups }
{
    let next = walk.at + width::in_program(0x15);
    if text.len() <= next {
        return basics::refuse(Refusal::ProgramEndsEarly, text.len());
    }
    let byte = text[next];
    if !is_signal(byte) {
        return basics::refuse(Refusal::NoSuchCommand, walk.at);
    }
    adds(Entry::Label(label), next, walk)
}

// END is the last byte.
fn end_step(text: &[u8], at: usize) -> Result<Step, Fault>
    requires { at < length text.now }
    ensures { result ≡ end_of text.now at }
{
    let next = at + width::in_program(0x00);
    judge(text.len() <= next, Refusal::BytesAfterEnd, next)?;
    Ok(Step::End)
}

// One declaration of the program text, after those of the tables, where the reading stands at `walk`.
fn read_command(
    least: u8,
    text: &[u8],
    walk: Walk,
    tables: &Tables,
    reads: &mut [u16],
) -> Result<Step, Fault>
    requires { WalkRoom (length text.now) walk.at walk.reads walk.code walk.lookups (length reads.old) }
    ensures { (p : Program) (label : ℕ) → Counts p tables.now →
        Stepped least text.now walk.at label p reads.old walk.reads walk.code walk.lookups
        reads.new result }
{
    let at = walk.at;
    declaration_here(text, at, tables)?;
    let declaration = text_command::declaration_at(text, at);
    match declaration {
        Declaration::EndsEarly => basics::refuse(Refusal::ProgramEndsEarly, text.len()),
        Declaration::Unknown => basics::refuse(Refusal::NoSuchCommand, at),
        Declaration::OutOfRange => basics::refuse(Refusal::OperandOutOfRange, at),
        Declaration::End => end_step(text, at),
        Declaration::Input(period, _) => input_step(period, walk),
        Declaration::Equation(period, _, weight) => {
            equation_step(least, text, Entry::Signal(period, weight), walk, reads)
        }
        Declaration::Latency(_, _) => chain_step(text, walk),
        Declaration::Link(_) => basics::refuse(Refusal::NoSuchCommand, at),
        Declaration::Cap(limit) => adds(Entry::Cap(limit), at + width::in_program(0x14), walk),
        Declaration::Tag(label) => tag_step(text, label, walk),
        Declaration::Row(_, _, _) => adds(Entry::Row, at + width::in_program(0x16), walk),
    }
}

// Reads a program text whose factors go from `least` on to its END: 2 to 6, or fills new tables with those of the program that it
// is. They are lent, for they are too large to be handed out through every `?`. Keeps the offset of each read in `reads`, which has
// an entry for each two bytes of the text.
pub fn read_tables(
    least: u8,
    text: &[u8],
    reads: &mut [u16],
    tables: &mut Tables,
) -> Result<(), Fault>
    requires { (length text.now ≤ 8192) × (length text.now ≤ 2 * length reads.old) × Unread tables.old }
    ensures { ProgramReads (parse_with least text.now) reads.new (filled tables.new result) }
{
    let mut label: u16 = 0;
    let mut walk = Walk {
        at: 0,
        reads: 0,
        code: 0,
        lookups: 0,
    };
    // a `while`: it goes on by what a declaration takes
    while walk.at < text.len() {
        let step = read_command(least, text, walk, tables, reads)?;
        let Step::Adds(entry, next) = step else {
            return Ok(());
        };
        label = tables.add(entry, walk.at, label, next);
        walk = next;
    }
    basics::refuse(Refusal::ProgramEndsEarly, text.len())
}

// The same, the tables handed out.
pub fn read_program(least: u8, text: &[u8], reads: &mut [u16]) -> Result<Tables, Fault>
    requires { (length text.now ≤ 8192) × (length text.now ≤ 2 * length reads.old) }
    ensures { ProgramReads (parse_with least text.now) reads.new result }
{
    let mut tables = Tables::new();
    read_tables(least, text, reads, &mut tables)?;
    Ok(tables)
}
