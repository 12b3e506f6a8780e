// Decimal numbers, digit by digit. They are written by hand: `Display` tells its exact text only through a String, which
// needs a heap, and the project takes no crate beside std.
ghost use Rattle.std.specs.Prelude.{◌≡◌, ◌+◌, ◌-◌, ◌%◌, ◌≤◌, length, decimal};
ghost use Rattle.std.specs.Fmt.{signed_decimal};
ghost use Rattle.print.specs.Places.{laid};
ghost use Rattle.print.specs.Sinks.{Takes};

use crate::sink::Sink;
use wire::fault::WriteFault;

// The last digit of a number.
fn last_digit(n: u64) -> u8
    ensures { result ≡ 48 + n % 10 }
{
    b'0' + (n % 10) as u8
}

// How many digits a number has, counted two at a time. It is not inlined, so that the loop over the pieces of a line stays
// small enough to be unrolled.
#[inline(never)]
pub(crate) fn number_width(n: u64) -> usize
    ensures { result ≡ length (decimal n) }
{
    if n < 10 {
        1
    } else if n < 100 {
        2
    } else {
        number_width(n / 100) + 2
    }
}

// Lays a number's digits up to `end`, the last first.
pub(crate) fn lay_number(n: u64, space: &mut [u8], end: usize)
    requires room { length (decimal n) ≤ end }
    requires within { end ≤ length space.old }
    ensures { space.new ≡ laid (end - length (decimal n)) (decimal n) space.old }
{
    let last = end - 1;
    space[last] = last_digit(n);
    if n >= 10 {
        lay_number(n / 10, space, last);
    }
}

// Gives a number's digits to a sink, behind a minus sign where it is negative.
pub(crate) fn print_signed<S: Sink>(z: i32, sink: &mut S) -> Result<(), WriteFault>
    ensures { Takes S.room S.took (signed_decimal z) sink.old sink.new result }
{
    if z < 0 {
        sink.take(b"-")?;
    }
    sink.take_number(z.unsigned_abs() as u64)
}
