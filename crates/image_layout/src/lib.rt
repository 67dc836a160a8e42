// Where the areas of an image start: head, records, offsets of the run lists, lists, code.
#![tactic(auto)]

ghost use Rattle.std.specs.Prelude.{◌≡◌, ◌≤◌};
ghost use Rattle.model.specs.Rules.Image.{record_at, lists_at};

// Where the record of signal x stands. The offsets of the lists start where a further record would.
pub fn record_at(x: usize) -> usize
    requires { x ≤ 64 }
    ensures { result ≡ record_at x }
{
    4 + 6 * x
}

// Where the lists start, in an image of n signals and h cycles.
pub fn lists_at(n: usize, h: usize) -> usize
    requires { (n ≤ 64) × (h ≤ 240) }
    ensures { result ≡ lists_at n h }
{
    record_at(n) + 2 * (h + 1)
}
