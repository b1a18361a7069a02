// Reading a run of the bits of a number, 32 at a time and downward: each limb is read once.
ghost use Rattle.std.specs.Prelude.{◌≡◌, ℕ, ◌+◌, ◌-◌, ◌*◌, ◌/◌, ◌%◌, ◌^◌, ◌<◌, ◌≤◌, length, pos, ◌-ℤ◌, ◌<ℤ◌, slice_index};
ghost use Rattle.exact.specs.Limbs.{limbs_value};
ghost use Rattle.limbs.specs.Bits.{bits_at_weight};

use crate::bits::limb;
use crate::magnitude::{bits_from, bits_of_pair};

// The run begins `shift` bits above the last limb before `end`, and ends within the limbs.
fn bits_within(limbs: &[u32], end: usize, shift: usize, run: &mut [u32])
    requires inside { end ≤ length limbs.now }
    requires short { shift < 32 }
    requires few { length run.old ≤ end }
    ensures many { length run.new ≡ length run.old }
    ensures each { (j : ℕ) → j < length run.old → slice_index run.new j ≡ limbs_value limbs.now / 2 ^ (32 * (end - 1 - j) + shift) % 2 ^ 32 }
{
    let mut high = limb(limbs, end);
    for (j, bits) in run.iter_mut().enumerate() {
        let low = limbs[end - 1 - j];
        *bits = bits_of_pair(high, low, shift);
        high = low;
    }
}

// The run begins below the lowest bit: only its first 32 bits can be more than 0.
fn bits_below(limbs: &[u32], from: i64, run: &mut [u32])
    requires { from <ℤ pos 0 }
    ensures many { length run.new ≡ length run.old }
    ensures each { (j : ℕ) → j < length run.old → slice_index run.new j ≡ bits_at_weight (limbs_value limbs.now) (from -ℤ pos (32 * j)) }
{
    run.fill(0);
    if !run.is_empty() {
        run[0] = bits_from(&limbs, from);
    }
}

// The run begins `shift` bits above the last limb before `end`.
fn bits_before(limbs: &[u32], end: usize, shift: usize, run: &mut [u32])
    requires inside { end ≤ length limbs.now }
    requires short { shift < 32 }
    ensures many { length run.new ≡ length run.old }
    ensures each { (j : ℕ) → j < length run.old → slice_index run.new j ≡ bits_at_weight (limbs_value limbs.now) (pos (32 * end + shift) -ℤ pos (32 * (j + 1))) }
{
    let (within, below) = run.split_at_mut(run.len().min(end));
    bits_within(limbs, end, shift, within);
    bits_below(limbs, shift as i64 - 32, below);
}

// The 32 bits from the bit `from` on, and those below them, 32 for each place of the slice.
pub fn bits_down(limbs: &[u32], from: i64, run: &mut [u32])
    ensures many { length run.new ≡ length run.old }
    ensures each { (j : ℕ) → j < length run.old → slice_index run.new j ≡ bits_at_weight (limbs_value limbs.now) (from -ℤ pos (32 * j)) }
{
    if from < 0 {
        bits_below(limbs, from, run);
        return;
    }
    let (end, shift) = (from as usize / 32 + 1, from as usize % 32);
    let inside = end.min(limbs.len());
    let (above, rest) = run.split_at_mut(run.len().min(end - inside));
    above.fill(0);
    bits_before(limbs, inside, shift, rest);
}
