// The fields of a line.
use crate::bytes::put;
use crate::list::{Spelled, write_list};
use itoa::Buffer;

#[derive(Clone, Copy)]
pub enum Field<'a> {
    Word(&'a [u8]),
    // Is it -?
    Sign(bool),
    Signed(i32),
    Number(u64),
    Limbs(&'a [u32]),
}

impl Spelled for Field<'_> {
    ghost use Rattle.line_writer.specs.Fields.{field_text};

    ghost text = { field_text };

    fn write(&self, out: &mut [u8], at: usize) -> usize {
        match *self {
            Field::Word(word) => put(word, out, at),
            Field::Sign(negative) => put(if negative { b"-" } else { b"+" }, out, at),
            Field::Signed(number) => put(Buffer::new().format(number).as_bytes(), out, at),
            Field::Number(number) => put(Buffer::new().format(number).as_bytes(), out, at),
            Field::Limbs(limbs) => write_list(limbs, out, at),
        }
    }
}
