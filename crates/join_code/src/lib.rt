// The code of a part in a join: the base of its signals added to the operand of each LOAD.
#![tactic(auto)]

ghost use Rattle.std.specs.Prelude.{◌≡◌, ◌+◌, ◌≤◌, ◌<◌, length, get_or};
ghost use Rattle.join_code.specs.Shift.{shift_at, Coded, shifted};

// Adds the base to the operand of the command at `at`, if it is a LOAD.
fn shift_load(out: &mut [u8], at: usize, base: usize)
    requires { (at < length out.old) × (base ≤ 64) × (get_or out.old at 0 ≡ 0x51 → at + 1 < length out.old) }
    ensures { out.new ≡ shift_at base at out.old }
{
    if out[at] == 0x51 {
        let next = at + 1;
        let signal = basics::from_byte(out[next]) + base;
        out[next] = (signal % 256) as u8;
    }
}

// The same for each command of the code from `from` up to `to`.
pub fn shift_loads(out: &mut [u8], from: usize, to: usize, base: usize)
    requires { Coded out.old from to × (base ≤ 64) }
    ensures { (r : Coded out.old from to) → out.new ≡ shifted base r }
{
    let mut at = from;
    // how far a command reaches is known when it is read
    while at < to {
        let byte = out[at];
        shift_load(out, at, base);
        at = at + width::in_code(byte);
    }
}
