// Operations on lists of bits. A slice stays where it is while its bits are written, so the loops over it are short.
ghost use Rattle.std.specs.Prelude.{◌≡◌, ◌≤◌, ◌<◌, ℕ, true, false, length};
ghost use Rattle.space_planes.specs.Planes.{bit, set_in_both, set_in_either, set_in_first_only, IsCountedUp};

// What the first has and the second lacks.
pub fn and_not(left: &[bool], right: &[bool], out: &mut [bool])
    requires right { length right.now ≡ length left.now }
    requires out { length out.old ≡ length left.now }
    ensures { out.new ≡ set_in_first_only left.now right.now }
{
    for i in 0..left.len() {
        out[i] = left[i] & !right[i];
    }
}

// What both have.
pub fn and(left: &[bool], right: &[bool], out: &mut [bool])
    requires right { length right.now ≡ length left.now }
    requires out { length out.old ≡ length left.now }
    ensures { out.new ≡ set_in_both left.now right.now }
{
    for i in 0..left.len() {
        out[i] = left[i] & right[i];
    }
}

// What one of them has.
pub fn or(left: &[bool], right: &[bool], out: &mut [bool])
    requires right { length right.now ≡ length left.now }
    requires out { length out.old ≡ length left.now }
    ensures { out.new ≡ set_in_either left.now right.now }
{
    for i in 0..left.len() {
        out[i] = left[i] | right[i];
    }
}

// Counts up by one, to 3 at most, in each place where the first has a bit that the second lacks. The bits of a count are in `low` and `high`.
pub fn count_up(counted: &[bool], skipped: &[bool], low: &mut [bool], high: &mut [bool])
    requires skipped { length skipped.now ≡ length counted.now }
    requires low { length low.old ≡ length counted.now }
    requires high { length high.old ≡ length counted.now }
    ensures { IsCountedUp counted.now skipped.now low.old high.old low.new high.new }
{
    'places: for i in 0..counted.len() {
        let counts = counted[i] & !skipped[i];
        let was_low = low[i];
        let was_high = high[i];
        low[i] = counts & (!was_low | was_high) | !counts & was_low;
        high[i] = counts & was_low | was_high;
    }
}

// Whether it is known that all bits of these places are 0. It reads each of them, so that several are read at once.
fn is_clear(bits: &[bool], from: usize, to: usize) -> bool
    requires { to ≤ length bits.now }
    ensures { result ≡ true → (k : ℕ) → from ≤ k → k < to → bit bits.now k ≡ false }
{
    let mut clear = true;
    'places: for i in from..to {
        clear = clear & !bits[i];
    }
    clear
}

// A place from this one on, up to which all bits from there are 0: whole blocks of 64 bits are passed over.
pub fn pass_clear(bits: &[bool], from: usize) -> usize
    requires { from ≤ length bits.now }
    ensures from { from ≤ result }
    ensures within { result ≤ length bits.now }
    ensures clear { (k : ℕ) → from ≤ k → k < result → bit bits.now k ≡ false }
{
    let mut at = from;
    'blocks: while bits.len() - at >= 64 {
        if !is_clear(bits, at, at + 64) {
            return at;
        }
        at += 64;
    }
    at
}
