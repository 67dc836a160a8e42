// The image of joined parts: the code and the records of their signals, part by part, their run lists and rows.
#![tactic(auto)]

ghost use Rattle.std.specs.Prelude.{◌≡◌, ℕ, ◌+◌, ◌≤◌, ◌<◌, length};
ghost use Rattle.std.proofs.lemmas.List.Edits.{sets};
ghost use Rattle.model.specs.Rules.Image.{joined};
ghost use Rattle.model.specs.Rules.Writing.{Wrote};
ghost use Rattle.join_emit.specs.Code.{JoinedHere, EmitsJoined};
ghost use Rattle.join_emit.specs.Image.{joint_lists, joint_runs, joint_records_at, joint_codes, joint_image, JointTimed, JointFits};
ghost use Rattle.join_emit.specs.Sources.{wires_by, WiresInside, SourcesBy};
ghost use Rattle.join_emit.specs.Parts.{part_codes, part_records, PartDeclared, PartsDeclared};

use image_write::Layout;
use join_gather::{Joint, Table};

// Writes the code of a signal: of a linked IN a LOAD of its source and a STORE.
fn emit_joined(
    text: &[u8],
    place: usize,
    base: usize,
    x: usize,
    source: Option<u8>,
    out: &mut [u8],
    to: usize,
) -> usize
    requires { JoinedHere text.now place base x source (length out.old) to }
    ensures { EmitsJoined text.now place base x source out.old to out.new result }
{
    let signal = basics::to_byte(x);
    let Some(source) = source else {
        let end = image_code::emit_signal(text, place, signal, out, to);
        join_code::shift_loads(out, to, end, base);
        return end;
    };
    let load = image_code::put_access(out, to, 0x51, source, place);
    let store = image_code::put_access(out, load.end, 0x5F, signal, place);
    store.end
}

// Writes the code of a part's signals, which have the joined numbers from `base` to `last`.
fn emit_part_codes(
    text: &[u8],
    places: &[u16; 64],
    base: usize,
    last: usize,
    sources: &[Option<u8>; 64],
    out: &mut [u8],
    to: usize,
) -> usize
    requires { PartDeclared text.now places.now base last
        × (to + length (part_codes text.now base last sources.now) ≤ length out.old) }
    ensures { Wrote out.old to (part_codes text.now base last sources.now)
        out.new result }
{
    let mut end = to;
    for x in base..last {
        let place = basics::from_entry(places[x]);
        end = emit_joined(text, place, base, x, sources[x], out, end);
    }
    end
}

// Writes the records of a part's signals. One function for both loops would take the step as a closure, which is no plainer:
// it would capture the tables, and `out` would be passed through it.
fn emit_part_records(
    text: &[u8],
    places: &[u16; 64],
    base: usize,
    last: usize,
    codes: &[u16; 65],
    start: usize,
    out: &mut [u8],
    to: usize,
) -> usize
    requires { PartDeclared text.now places.now base last × (start ≤ length out.old)
        × (to + length (part_records text.now base last codes.now start) ≤ length out.old) }
    ensures { Wrote out.old to (part_records text.now base last codes.now start)
        out.new result }
{
    let mut end = to;
    for x in base..last {
        let code = basics::from_entry(codes[x]);
        let place = basics::from_entry(places[x]);
        end = image_write::put_record(text, place, start + code, out, end);
    }
    end
}

// Writes the code of all parts, as the tables say.
pub fn emit_codes(
    texts: &[u8],
    numbers: &[usize],
    joint: &Joint,
    sources: &[Option<u8>; 64],
    out: &mut [u8],
    to: usize,
) -> usize
    requires { PartsDeclared texts.now numbers.now joint.now.bases joint.now.places joint.now.parts
        × (to + length (joint_codes texts.now numbers.now joint.now sources.now) ≤ length out.old) }
    ensures { Wrote out.old to (joint_codes texts.now numbers.now joint.now sources.now)
        out.new result }
{
    let mut end = to;
    for k in 0..joint.parts {
        let program = join_texts::program_of(texts, numbers, k);
        let base = joint.bases[k];
        let last = joint.bases[k + 1];
        end = emit_part_codes(program, &joint.places, base, last, sources, out, end);
    }
    end
}

// Writes the records of all parts; the code starts at `code`.
pub fn emit_records(
    texts: &[u8],
    numbers: &[usize],
    joint: &Joint,
    code: usize,
    out: &mut [u8],
    to: usize,
) -> usize
    requires { PartsDeclared texts.now numbers.now joint.now.bases joint.now.places joint.now.parts
        × (code ≤ length out.old)
        × (to + length (joint_records_at texts.now numbers.now joint.now code) ≤ length out.old) }
    ensures { Wrote out.old to (joint_records_at texts.now numbers.now joint.now code)
        out.new result }
{
    let mut end = to;
    for k in 0..joint.parts {
        let program = join_texts::program_of(texts, numbers, k);
        let base = joint.bases[k];
        let last = joint.bases[k + 1];
        end = emit_part_records(
            program,
            &joint.places,
            base,
            last,
            &joint.codes,
            code,
            out,
            end,
        );
    }
    end
}

// By joined number the signal that a linked IN reads. The first link counts.
pub fn sources_of(links: &[u8], bases: &[usize; 9]) -> [Option<u8>; 64]
    requires { WiresInside links.now bases.now }
    ensures { SourcesBy (wires_by links.now bases.now) result }
{
    let mut sources: [Option<u8>; 64] = [None; 64];
    for i in (0..links.len() / 4).rev() {
        let at = 4 * i;
        let r = join_check::number_of(links, at, bases);
        let w = join_check::number_of(links, at + 2, bases);
        sources[r] = Some(basics::to_byte(w));
    }
    sources
}

// Writes the offsets of the run lists of h cycles, the first list at `start`, and then the lists.
fn emit_run_lists(joint: &Joint, h: usize, start: usize, out: &mut [u8], to: usize) -> usize
    requires { JointTimed joint.now h × (start + length (joined (joint_lists joint.now h)) ≤ length out.old)
        × (to + length (joint_runs joint.now h start) ≤ length out.old) }
    ensures { Wrote out.old to (joint_runs joint.now h start) out.new result }
{
    let n = joint.signals;
    let mut nexts: [u16; 241] = [0; 241];
    let lists = image_write::emit_offsets(
        &joint.periods,
        &joint.order,
        &joint.phases,
        n,
        h,
        start,
        &mut nexts,
        out,
        to,
    );
    image_write::emit_lists(
        &joint.periods,
        &joint.order,
        &joint.phases,
        n,
        h,
        &mut nexts,
        out,
        lists,
    )
}

// Writes the image of the joined parts, laid out as `layout` says, into the first L bytes.
pub fn emit_image(
    texts: &[u8],
    numbers: &[usize],
    joint: &Joint,
    table: &Table,
    sources: &[Option<u8>; 64],
    h: usize,
    layout: Layout,
    out: &mut [u8],
)
    requires { JointFits texts.now numbers.now joint.now table.now sources.now h layout (length out.old) }
    ensures { out.new ≡ sets out.old 0
        (joint_image texts.now numbers.now joint.now table.now sources.now h) }
{
    let records = image_write::put_head(h, joint.signals, layout.end, out);
    let offsets = emit_records(texts, numbers, joint, layout.code, out, records);
    let rows = emit_run_lists(joint, h, layout.lists, out, offsets);
    let codes = join_rows::emit_rows(texts, numbers, table, out, rows);
    emit_codes(texts, numbers, joint, sources, out, codes);
}
