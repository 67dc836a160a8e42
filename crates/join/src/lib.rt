// Parts that are compiled alone, in one lent buffer, and links between them, joined to one image.
#![tactic(auto)]

ghost use Rattle.std.specs.Prelude.{◌≡◌, ◌≤◌, length};
ghost use Rattle.model.specs.Rules.Join.{joined_of, part_in, join_of, part_named};
ghost use Rattle.model.specs.Rules.Outcome.{yielded_of};
ghost use Rattle.join_emit.specs.Image.{JointTimed};
ghost use Rattle.join.specs.Ready.{JoinReady, LaidOutJoint, LaidOutJoin};

use image_write::Layout;
use join_gather::Joint;
use join_verdict::Verdict;
use model::{Fault, JoinFault, Refusal};

// Lays the joined image out, with so many rows.
fn lay_out(joint: &Joint, rows: usize, h: usize) -> Layout
    requires { JointTimed joint.now h × (rows ≤ 32) }
    ensures { LaidOutJoint joint.now rows h result }
{
    let n = joint.signals;
    let size = basics::from_entry(joint.codes[n]);
    image_write::lay_out_code(
        size,
        rows,
        &joint.periods,
        &joint.order,
        &joint.phases,
        n,
        h,
    )
}

// Writes the image of an accepted join, laid out as `layout` says, and its tail.
fn emit(
    texts: &[u8],
    numbers: &[usize],
    links: &[u8],
    verdict: &Verdict,
    layout: Layout,
    image: &mut [u8],
)
    requires { JoinReady texts.now numbers.now links.now verdict.now × LaidOutJoin verdict.now layout
        × (layout.written ≤ length image.old) }
    ensures { image.new ≡
        (join_of texts.now numbers.now links.now image.old).left }
{
    let joint = &verdict.joint;
    let h = verdict.hypercycle;
    let sources = join_emit::sources_of(links, &joint.bases);
    join_emit::emit_image(
        texts,
        numbers,
        joint,
        &verdict.table,
        &sources,
        h,
        layout,
        &mut image[..],
    );
    image_write::emit_tail(
        &joint.labels,
        &joint.periods,
        &joint.phases,
        joint.signals,
        &mut image[..],
        layout.end,
    );
}

// Writes the image of an accepted join and its tail, and yields how many bytes these are, or 17.
fn write(
    texts: &[u8],
    numbers: &[usize],
    links: &[u8],
    verdict: &Verdict,
    image: &mut [u8],
) -> Result<usize, Fault>
    requires { JoinReady texts.now numbers.now links.now verdict.now }
    ensures answer { yielded_of result ≡
        (join_of texts.now numbers.now links.now image.old).answer }
    ensures left { image.new ≡
        (join_of texts.now numbers.now links.now image.old).left }
{
    let layout = lay_out(&verdict.joint, verdict.table.rows, verdict.hypercycle);
    if image.len() < layout.written {
        return basics::refuse(Refusal::ImageBufferShort, layout.written);
    }
    emit(texts, numbers, links, verdict, layout, &mut image[..]);
    Ok(layout.written)
}

// Joins parts, four numbers each: start and length of its program and of its schedule in the lent texts. Writes the image and its
// tail, and yields how many bytes these are. A refused call changes nothing.
pub fn join(
    texts: &[u8],
    numbers: &[usize],
    links: &[u8],
    image: &mut [u8],
) -> Result<usize, JoinFault>
    ensures answer { joined_of result ≡
        (join_of texts.now numbers.now links.now image.old).answer }
    ensures left { image.new ≡
        (join_of texts.now numbers.now links.now image.old).left }
    ensures part { part_in result ≡ part_named texts.now numbers.now }
{
    let verdict = join_verdict::check_join(texts, numbers, links)?;
    let written = write(texts, numbers, links, &verdict, &mut image[..])?;
    Ok(written)
}
