// What is written into a space.
use wire::fault::WriteFault;

// Whether so many bytes are told as are written, and the rest of the space is left.
pub fn is_written<F: FnOnce(&mut [u8]) -> Result<usize, WriteFault>>(write: F, bytes: &[u8]) -> bool
    requires { F.IsAlwaysCallable write }
{
    let mut space = [238u8; 160];
    write(&mut space).is_ok_and(|count| {
        space.get(..count) == Some(bytes) && space.get(count) == Some(&238)
    })
}
