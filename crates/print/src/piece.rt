// The pieces that a line is made of.

#[derive(Clone, Copy)]
pub(crate) enum Piece<'a> {
    // A number in decimal.
    Number(u64),
    // A number in decimal, with a minus sign where it is negative.
    Signed(i32),
    // Bytes as they are.
    Text(&'a [u8]),
}
