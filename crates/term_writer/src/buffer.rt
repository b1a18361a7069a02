// The buffer of a line.
ghost use Rattle.std.specs.Prelude.{◌≡◌};
ghost use Rattle.term_writer.specs.Outcome.{buffer_too_short};

// How many bytes it must have, whatever the term.
pub const LEAST_BUFFER: usize = 1280;

// A buffer has fewer.
#[derive(Clone, Copy, PartialEq, Eq, Debug)]
pub struct BufferTooShort;

impl BufferTooShort {
    // The published number of the refusal.
    pub fn number(self) -> u32
        ensures { result ≡ buffer_too_short }
    {
        23
    }
}
