// The text of `tally --help`, and what asks for it.
ghost use Rattle.std.specs.Prelude.{◌≡◌, ◌↔◌, IsTrue, codes};

pub const HELP: &str = "\
tally: sums terms of any precision exactly, and rounds each sum once.
It reads a text from standard input, one form a line, and writes the answers.

  terms, at most 1024, before all else:
    (term S E P (L L))   S 0.LL.. times 2^E: P bits, limbs L of 32 bits in
                         hexadecimal, the least significant first
    (zero S)  (inf S)  (nan)
  marks of a sheet; place 0 is that of the first term:
    (mark I M)           M is o (out), i (in) or t (turned: other sign)
    (back)               takes the latest mark back
    (set)  (reopen)      an ask comes on a set sheet, marks on an open one
  asks, at most 32:
    (ask W F R)          to W bits, none below 2^F; F is free for no floor
    (ask NAME R)         NAME: binary16 bfloat16 binary32 binary64
                         extended80 binary128 binary256
                         R: N nearest, D down, U up, Z to zero, A away

  It answers each ask by one line:
    (sum S E P (L L) D C)   D: -1 the answer is below the exact sum, 0 it is
                            the sum, 1 above; C: columns of 32 bits, from
                            the top, that it took to know
    (zero S D C)  (inf S)  (nan)
  and stops at the first line that it refuses:
    (no N L B)           refusal N, at line L, byte B

S is + or -. One space parts fields; each line ends with a newline.
A text has at most 49152 bytes. See tally(1) and tally(5).
";

// Whether an argument asks for it.
pub fn asks_for_help(argument: &str) -> bool
    ensures { IsTrue result ↔ (argument.now ≡ codes "--help") }
{
    argument == "--help"
}
