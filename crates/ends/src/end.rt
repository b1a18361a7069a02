// An end of a sum, as it is rounded.

// `whole` units of 2 ^ (32 * column), negative or not, and with a part of one more unit left over or not.
#[derive(Clone, Copy)]
pub struct End<'a> {
    pub negative: bool,
    pub whole: &'a [u32],
    pub column: i32,
    pub partial: bool,
}
