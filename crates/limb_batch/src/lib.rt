// Limb batches: terms given as records over a shared pool of 32-bit limbs, both lent.
#![tactic(auto)]

mod check;
mod opened;
mod record;
mod regular;

pub use opened::LimbBatch;
pub use record::LimbRecord;
