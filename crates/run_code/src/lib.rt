// Runs the code of one signal. The code is known to be well formed, so nothing is checked again here.
#![tactic(auto)]

ghost use Rattle.std.specs.Prelude.{◌≡◌, true, ◌<◌, ◌≤◌, ltb, length};
ghost use Rattle.model.specs.Rules.Cover.{area_ok};
ghost use Rattle.model.specs.Rules.Table.{area_rows};
ghost use Rattle.model.specs.Rules.Machine.{code_at, code_ok, run_code, count_code};
ghost use Rattle.model.specs.Rules.Word.{byte_at};
ghost use Rattle.run_code.specs.Leaf.{leaf_word, leaf_ok, leaf_length};

use run_stack::Stack;

// The word that the leaf at `at` pushes: its operand, a signal's word or a sample. These two are both read, and one is chosen:
// which of them it is would be guessed.
fn leaf_word(code: &[u8], at: usize, state: &[i32], samples: &[i32]) -> i32
    requires { (0x50 ≤ byte_at code.now at) × (byte_at code.now at ≤ 0x52) ×
        (leaf_ok state.now samples.now (code_at code.now at) ≡ true) }
    ensures { result ≡ leaf_word state.now samples.now (code_at code.now at) }
{
    let byte = code[at];
    if byte == 0x50 {
        return word::word_at(code, at + 1);
    }
    let x = basics::from_byte(code[at + 1]);
    let loaded = state[x + 1];
    let fetched = samples[x];
    if byte == 0x51 { loaded } else { fetched }
}

// LOAD and FETCH are one line of the list.
fn leaf_length(byte: u8) -> usize
    ensures { result ≡ leaf_length byte }
{
    if byte == 0x50 {
        width::in_code(0x50)
    } else {
        width::in_code(0x51)
    }
}

// What a run of a code yields: the word that it stores, and how many commands it ran.
#[derive(Clone, Copy)]
pub struct Run {
    pub word: i32,
    pub count: u32,
}

// Runs the code of signal `own`, in an image of n signals with this table. A leaf and the operator or STORE that follows it are
// run in one turn, which counts 2: its word is not pushed. All operators are as wide as ADD. A `while`: how far a turn goes is known
// only when the command is read.
pub fn run_code(code: &[u8], table: &[u8], n: u8, own: u8, state: &[i32], samples: &[i32]) -> Run
    requires { (code_ok (ltb 0 (byte_at table.now 0)) code.now n own ≡ true) × (n < length state.now) ×
        (n ≤ length samples.now) × (own < n) × (length code.now ≤ 65535) × (area_ok table.now 0 ≡ true) }
    ensures { (result.word ≡ run_code (area_rows table.now 0) code.now state.now
        samples.now) × (result.count ≡ count_code code.now) }
{
    let operator_width = width::in_code(0x30);
    let mut at: usize = 0;
    let mut count: u32 = 0;
    let mut stack = Stack::new();
    while at < code.len() {
        let here = at;
        let byte = code[here];
        at = here + operator_width;
        count = count + 1;
        match byte {
            0x50..=0x52 => {
                let word = leaf_word(code, here, state, samples);
                at = here + leaf_length(byte);
                let next = code[at];
                if next == 0x5F {
                    let count = count + 1;
                    return Run { word, count };
                }
                if next < 0x37 {
                    stack = stack.binary_with(word::binary_of(next), word);
                    at = at + operator_width;
                    count = count + 1;
                } else if stack.height < run_stack::NEAR {
                    stack = stack.push(word);
                } else {
                    stack = stack.push_far(word);
                }
            }
            0x5F => {
                let popped = stack.pop();
                let word = popped.word;
                return Run { word, count };
            }
            0x38 => stack = stack.negate(),
            0x3A => stack = stack.choose(),
            0x3B => stack = stack.look_up(table),
            _ => stack = stack.binary(word::binary_of(byte)),
        }
    }
    Run { word: 0, count: 0 }
}
