// Numbers that are read 32 bits at a time, whatever they are kept in.
ghost use Rattle.std.specs.Prelude.{◌≡◌, ℕ, ◌+◌, ◌*◌, ◌/◌, ◌%◌, ◌^◌, ◌<◌};
ghost use Rattle.limbs.specs.Bits.{bits_at_weight};

// One more than the greatest limb.
pub const LIMB: u64 = 0x1_0000_0000;

pub trait Magnitude {
    ghost value: { Self → ℕ };

    // The 32 bits from the bit `at` on.
    fn bits_at(&self, at: usize) -> u32
        ensures { result ≡ value self.now / 2 ^ at % 2 ^ 32 };
}

impl Magnitude for u64 {
    ghost value = { λ n. n };

    fn bits_at(&self, at: usize) -> u32 {
        let n = *self;
        if at >= 64 {
            return 0;
        }
        ((n >> at) % LIMB) as u32
    }
}

// 32 bits of two limbs, from a bit of the lower one on.
pub fn bits_of_pair(high: u32, low: u32, from: usize) -> u32
    requires { from < 32 }
    ensures { result ≡ (high * 2 ^ 32 + low) / 2 ^ from % 2 ^ 32 }
{
    let pair = ((high as u64) << 32) + low as u64;
    ((pair >> from) % LIMB) as u32
}

// The 32 bits of the number times 2 ^ up, from the bit `down` on.
pub fn moved_bits<M: Magnitude>(m: &M, up: usize, down: usize) -> u32
    ensures { result ≡ M.value m.now * 2 ^ up / 2 ^ down % 2 ^ 32 }
{
    if up <= down {
        return m.bits_at(down - up);
    }
    if up - down >= 32 {
        return 0;
    }
    m.bits_at(0) << (up - down)
}

// The 32 bits from the bit `from` on, which may lie below the lowest: the number is moved up then.
pub fn bits_from<M: Magnitude>(m: &M, from: i64) -> u32
    ensures { result ≡ bits_at_weight (M.value m.now) from }
{
    if from >= 0 {
        moved_bits(m, 0, from as usize)
    } else {
        moved_bits(m, from.unsigned_abs() as usize, 0)
    }
}
