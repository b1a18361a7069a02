// One case: a mode, a width, and terms as a limb batch has them.
use limb_batch::LimbRecord;

#[derive(Drop)]
pub struct Case {
    // as it was read: the ask refuses what is no mode
    pub mode: u32,
    pub width: u32,
    pub records: Vec<LimbRecord>,
    pub pool: Vec<u32>,
}
