// A place in a lent space. (Not `std::io::Cursor`: its errors would say less than where the space ends.)
ghost use Rattle.std.specs.Prelude.{◌≤◌, length};

#[derive(Drop)]
pub(crate) struct Cursor<'a> {
    pub(crate) space: &'a mut [u8],
    // the place of the next byte
    pub(crate) at: usize,
    ghost within: { at ≤ length space.now },
}
