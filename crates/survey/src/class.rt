// The class of a sum, which its special terms decide.

#[derive(Clone, Copy, PartialEq, Eq, Debug)]
pub enum SumClass {
    NotANumber,
    // is it negative?
    Infinite(bool),
    // an exact sum, which is then to be rounded
    Number,
}
