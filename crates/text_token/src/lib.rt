// The tokens of a text: where they start and end, and the numbers that they say.
#![tactic(auto)]

ghost use Rattle.std.specs.Prelude.{◌≡◌, ◌≤◌, ◌<◌, length};
ghost use Rattle.model.specs.Rules.TextForm.{other, class_of, number_from, number_of};
ghost use Rattle.model.specs.Rules.Word.{byte_at};
ghost use Rattle.text_token.specs.Scanning.{is_other, starts_token, comment_after, StartsAt, EndsAt, held_number, has_zero};

// Whether a byte is of a token: no space, tab, CR, LF or semicolon.
#[tactic(auto, unfolding(model::specs::Rules::TextForm::class_of))]
fn is_other(b: u8) -> bool
    ensures { result ≡ is_other (class_of b) }
{
    match b {
        10 => false,
        32 => false,
        9 => false,
        13 => false,
        59 => false,
        _ => true,
    }
}

// Whether a byte starts a token.
fn starts_token(comment: bool, b: u8) -> bool
    ensures { result ≡ starts_token comment (class_of b) }
{
    if comment {
        return false;
    }
    is_other(b)
}

// Whether a comment is open after the byte b.
fn comment_after(comment: bool, b: u8) -> bool
    ensures { result ≡ comment_after comment (class_of b) }
{
    if comment {
        return b != 10;
    }
    b == 59
}

// Where the next token starts, or the text's length.
pub fn token_start(text: &[u8], at: usize) -> usize
    requires { at ≤ length text.now }
    ensures { StartsAt text.now at result }
{
    let mut comment = false;
    for i in at..text.len() {
        let b = text[i];
        if starts_token(comment, b) {
            return i;
        }
        comment = comment_after(comment, b);
    }
    text.len()
}

// Where the token that starts at `start` ends.
pub fn token_end(text: &[u8], start: usize) -> usize
    requires { (start < length text.now) × (class_of (byte_at text.now start) ≡ other) }
    ensures { EndsAt text.now start result }
{
    for i in start + 1..text.len() {
        if !is_other(text[i]) {
            return i;
        }
    }
    text.len()
}

// What a number is held at: it is in no operand's range.
const HELD: usize = 4294967296;

// The number that digits say, held at 2^32.
fn digits_value(token: &[u8]) -> Option<usize>
    ensures { result ≡ held_number (number_from 0 token.now) }
{
    let mut v: usize = 0;
    for byte in token {
        let d = basics::from_byte(*byte);
        if d < 48 {
            return None;
        }
        if 57 < d {
            return None;
        }
        v = (10 * v + (d - 48)).min(HELD);
    }
    Some(v)
}

// Whether a 0 stands before other digits.
fn has_zero(token: &[u8]) -> bool
    ensures { result ≡ has_zero token.now }
{
    if token.len() < 2 {
        return false;
    }
    token[0] == 48
}

// The number that a token says, held at 2^32.
pub fn number_of(token: &[u8]) -> Option<usize>
    ensures { result ≡ held_number (number_of token.now) }
{
    if token.len() == 0 {
        return None;
    }
    if has_zero(token) {
        return None;
    }
    digits_value(token)
}
