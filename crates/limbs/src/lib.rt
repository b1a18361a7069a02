// Numbers in limbs of 32 bits, the least significant first: reading their bits, and writing their first bits at the top of other limbs.
#![tactic(auto)]

mod bits;
mod bounded;
mod magnitude;
mod run;
mod top;

pub use bits::{any_below, bit_at, bit_length};
pub use bounded::BoundedLimbs;
pub use magnitude::{LIMB, Magnitude, bits_from};
pub use run::bits_down;
pub use top::{write_power, write_rounded};
