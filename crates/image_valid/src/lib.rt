// Whether an image is well formed, for any bytes; the image in what is lent, and its tail. Nothing is written or copied.
#![tactic(auto)]

ghost use Rattle.std.specs.Prelude.{◌≡◌, true, ℕ, ◌+◌, ◌<◌, ◌≤◌, ltb, length, take};
ghost use Rattle.model.specs.Rules.Machine.{hyper_of, count_of, stated_length, list_offset, table_offset, row_count, code_offset};
ghost use Rattle.model.specs.Rules.Machine.{head_ok, lists_ok, table_ok, entries_ok, codes_ok, well_formed};
ghost use Rattle.image_valid.specs.Lends.{Lends, tail_of};
ghost use Rattle.image_valid.specs.Walk.{ends_code, past_own, WithTables, CursorOk, Advances};
ghost use Rattle.model.specs.Rules.Outcome.{yielded_of};
ghost use Rattle.model.specs.Rules.Search.{all_below};
ghost use Rattle.model.specs.Rules.Tail.{tail_in, length_of_tail, stretch_in};
ghost use Rattle.model.specs.Rules.Word.{byte_at, two_at};

use model::{Fault, Refusal};

fn offset_at(image: &[u8], at: usize) -> usize
    requires { at + 2 ≤ length image.now }
    ensures { result ≡ two_at image.now at }
{
    word::two_at(image, at) as usize
}

// L, as bytes 2-3 hold it.
pub fn stated_length(image: &[u8]) -> usize
    requires { 4 ≤ length image.now }
    ensures { result ≡ stated_length image.now }
{
    offset_at(image, 2)
}

// Offset c of the run lists in an image of n signals.
pub fn list_offset(image: &[u8], n: usize, c: usize) -> usize
    requires { (head_ok image.now ≡ true) × (n ≡ count_of image.now) × (c ≤ hyper_of image.now) }
    ensures { result ≡ list_offset image.now c }
{
    offset_at(image, image_layout::record_at(n) + 2 * c)
}

// Where the table starts, in an image of n signals and h cycles: where the last list ends.
pub fn table_offset(image: &[u8], n: usize, h: usize) -> usize
    requires { (head_ok image.now ≡ true) × (n ≡ count_of image.now) × (h ≡ hyper_of image.now) }
    ensures { result ≡ table_offset image.now }
{
    list_offset(image, n, h)
}

// Where the code of signal x starts, and that of signal x - 1 ends.
pub fn code_offset(image: &[u8], n: usize, x: usize) -> usize
    requires { (head_ok image.now ≡ true) × (n ≡ count_of image.now) }
    ensures { result ≡ code_offset image.now x }
{
    if x < n {
        offset_at(image, image_layout::record_at(x) + 4)
    } else {
        image.len()
    }
}

// L, H and N, and that the fixed areas are there.
fn head_ok(image: &[u8]) -> bool
    ensures { result ≡ head_ok image.now }
{
    if image.len() < 4 {
        return false;
    }
    if stated_length(image) != image.len() {
        return false;
    }
    let h = basics::from_byte(image[0]);
    let n = basics::from_byte(image[1]);
    if h < 1 {
        return false;
    }
    if 240 < h {
        return false;
    }
    if 64 < n {
        return false;
    }
    image_layout::lists_at(n, h) <= image.len()
}

// Every list starts where the one before ended, the first after the offsets; the last ends within the image.
fn lists_ok(image: &[u8], n: usize, h: usize) -> bool
    requires { (head_ok image.now ≡ true) × (n ≡ count_of image.now) × (h ≡ hyper_of image.now) }
    ensures { result ≡ lists_ok image.now }
{
    let mut last = list_offset(image, n, 0);
    if last != image_layout::lists_at(n, h) {
        return false;
    }
    for c in 0..h {
        let next = list_offset(image, n, c + 1);
        if next < last {
            return false;
        }
        last = next;
    }
    last <= image.len()
}

// The table that starts at `at` is well formed, and the code starts where it ends.
fn table_ok(image: &[u8], n: usize, at: usize) -> bool
    requires { (head_ok image.now ≡ true) × (n ≡ count_of image.now) × (at ≡ table_offset image.now) }
    ensures { result ≡ table_ok image.now }
{
    if !rows::area_ok(image, at) {
        return false;
    }
    let count = basics::from_byte(image[at]);
    let end = at + 1 + 12 * count;
    code_offset(image, n, 0) == end
}

// The greatest byte, 0 where there is none.
fn greatest_byte(list: &[u8]) -> u8
    ensures { (n : ℕ) → 0 < n →
        all_below (length list.now) (λ i. ltb (byte_at list.now i) n) ≡ ltb result n }
{
    let mut most: u8 = 0;
    for x in list {
        most = most.max(*x);
    }
    most
}

// List entries, up to the table at `end`, are below n.
fn entries_ok(image: &[u8], n: u8, h: usize, end: usize) -> bool
    requires { (head_ok image.now ≡ true) × (lists_ok image.now ≡ true) × (n ≡ count_of image.now) ×
        (h ≡ hyper_of image.now) × (end ≡ table_offset image.now) }
    ensures { result ≡ entries_ok image.now }
{
    let count = basics::from_byte(n);
    let start = image_layout::lists_at(count, h);
    if n == 0 {
        return start == end;
    }
    greatest_byte(&image[start..end]) < n
}

// Where a check of codes one after another stands: at a command of signal `own`, and the words on the stack there.
#[derive(Clone, Copy)]
struct Cursor {
    at: usize,
    height: usize,
    own: u8,
}

// Whether the command is the STORE that ends its code, where the next one starts.
fn is_end(image: &[u8], n: u8, cursor: Cursor) -> bool
    requires { (head_ok image.now ≡ true) × (n ≡ count_of image.now) × (cursor.own < n) ×
        (cursor.at + 1 < length image.now) }
    ensures { result ≡ ends_code image.now cursor }
{
    let at = cursor.at;
    let own = cursor.own;
    if !image_valid_code::is_last(image[at], image[at + 1], own, cursor.height) {
        return false;
    }
    at + 2 == code_offset(image, basics::from_byte(n), basics::from_byte(own) + 1)
}

// Past FETCH of the own signal or the code's end, which have no shape. Where it is neither, to the image's end, short of the next
// code.
fn past_own(image: &[u8], n: u8, cursor: Cursor) -> Cursor
    requires { (head_ok image.now ≡ true) × (n ≡ count_of image.now) × (cursor.own < n) ×
        (cursor.at + 1 < length image.now) × (cursor.height ≤ 32) }
    ensures { result ≡ past_own image.now cursor }
{
    let at = cursor.at;
    let height = cursor.height;
    let own = cursor.own;
    let next = at + 2;
    if image_valid_code::is_fetch(image[at], image[at + 1], own, height) {
        let more = height + 1;
        return Cursor {
            at: next,
            height: more,
            own,
        };
    }
    if is_end(image, n, cursor) {
        let other = own + 1;
        return Cursor {
            at: next,
            height: 0,
            own: other,
        };
    }
    let end = image.len();
    Cursor {
        at: end,
        height: 0,
        own,
    }
}

// One command further.
fn advance(image: &[u8], n: u8, shapes: &[u8; 256], ceilings: &[u8; 256], cursor: Cursor) -> Cursor
    requires { WithTables image.now n shapes.now ceilings.now × CursorOk image.now cursor ×
        (cursor.at + 1 < length image.now) }
    ensures { Advances image.now cursor result × (cursor.at < result.at) }
{
    let at = cursor.at;
    let Some(height) = image_valid_code::after(image, at, cursor.height, shapes, ceilings) else {
        return past_own(image, n, cursor);
    };
    let next = at + image_valid_code::command_bytes(image[at]);
    Cursor {
        at: next,
        height,
        own: cursor.own,
    }
}

// From a command up to an offset, or past it. A `while`: how far a step goes is known only when the command is read.
fn advance_to(
    image: &[u8],
    n: u8,
    shapes: &[u8; 256],
    ceilings: &[u8; 256],
    from: Cursor,
    end: usize,
) -> Cursor
    requires { WithTables image.now n shapes.now ceilings.now × CursorOk image.now from × (end < length image.now) }
    ensures { Advances image.now from result × (end ≤ result.at) }
{
    let mut cursor = from;
    while cursor.at < end {
        cursor = advance(image, n, shapes, ceilings, cursor);
    }
    cursor
}

// Every code starts where the one before ended, the last ending at L, and is well formed, in an image with rows or without. Two
// cursors go side by side, one from the first code and one from the middle one: where a command ends is known only when its
// byte is read, and that takes as long as all the rest of a step.
fn codes_ok(image: &[u8], n: u8, rows: bool) -> bool
    requires { (head_ok image.now ≡ true) × (n ≡ count_of image.now) × (rows ≡ ltb 0 (row_count image.now)) }
    ensures { result ≡ codes_ok image.now }
{
    if n == 0 {
        return true;
    }
    let shapes = image_valid_code::shapes(rows);
    let ceilings = image_valid_code::ceilings(n);
    let count = basics::from_byte(n);
    let half = n / 2;
    let start = code_offset(image, count, 0);
    let middle = code_offset(image, count, basics::from_byte(half));
    let end = image.len() - 1;
    if end <= middle {
        return false;
    }
    let mut first = Cursor {
        at: start,
        height: 0,
        own: 0,
    };
    let mut second = Cursor {
        at: middle,
        height: 0,
        own: half,
    };
    while first.at < middle && second.at < end {
        first = advance(image, n, &shapes, &ceilings, first);
        second = advance(image, n, &shapes, &ceilings, second);
    }
    let first = advance_to(image, n, &shapes, &ceilings, first, middle);
    let second = advance_to(image, n, &shapes, &ceilings, second, end);
    if first.own < half {
        return false;
    }
    second.own == n
}

// Whether the image is well formed.
pub fn well_formed(image: &[u8]) -> bool
    ensures { result ≡ well_formed image.now }
{
    if !head_ok(image) {
        return false;
    }
    let h = basics::from_byte(image[0]);
    let n = image[1];
    let count = basics::from_byte(n);
    if !lists_ok(image, count, h) {
        return false;
    }
    let table = table_offset(image, count, h);
    if !table_ok(image, count, table) {
        return false;
    }
    if !entries_ok(image, n, h, table) {
        return false;
    }
    let rows = image[table];
    codes_ok(image, n, 0 < rows)
}

// L, where what is lent has exactly L or exactly L + 4N bytes. Else 0: an empty image is judged like any other, so that an Option
// would be no plainer.
fn image_length(lent: &[u8]) -> usize
    ensures { (result ≤ length lent.now) × Lends lent.now (take result lent.now) }
{
    if lent.len() < 4 {
        return 0;
    }
    let length = stated_length(lent);
    let n = basics::from_byte(lent[1]);
    if lent.len() == length {
        return length;
    }
    if lent.len() == length + 4 * n {
        return length;
    }
    0
}

// The image in what is lent, with its tail or without: its first L bytes. An empty one, which is not well formed, where the
// length is neither.
pub fn image_in(lent: &[u8]) -> &[u8]
    ensures { Lends lent.now result.now }
{
    let length = image_length(lent);
    &lent[..length]
}

// The tail of what is lent: a stretch of it, empty for an image without a tail; or the refusal.
pub fn read_tail<'a>(lent: &'a [u8]) -> Result<&'a [u8], Fault>
    ensures { tail_of result ≡ tail_in lent.now }
{
    let image = image_in(lent);
    if !well_formed(image) {
        return basics::refuse(Refusal::ImageNotWellFormed, 0);
    }
    Ok(&lent[image.len()..])
}

// How long the tail of what is lent is, 0 for an image without one; or the refusal.
pub fn tail_length(lent: &[u8]) -> Result<usize, Fault>
    ensures { yielded_of result ≡ length_of_tail (tail_in lent.now) }
{
    let tail = read_tail(lent)?;
    Ok(tail.len())
}

// The tail of what is lent, empty also where `read_tail` refuses.
pub fn tail<'a>(lent: &'a [u8]) -> &'a [u8]
    ensures { result.now ≡ stretch_in (tail_in lent.now) }
{
    let Ok(tail) = read_tail(lent) else {
        return &lent[lent.len()..];
    };
    tail
}
