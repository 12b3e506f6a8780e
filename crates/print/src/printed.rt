// What can be printed: its bytes are counted first, then laid in a lent space.
ghost use Rattle.std.specs.Prelude.{ℕ, ◌+◌, List, ◌++◌, length, sum_by};
ghost use Rattle.print.specs.Lengths.{AtMost};
ghost use Rattle.print.specs.Pieces.{spelled};
ghost use Rattle.print.specs.Sinks.{Takes};
ghost use Rattle.print.specs.Texts.{texts};
ghost use Rattle.wire.specs.Writes.{Writes};

use crate::cursor::Cursor;
use crate::number::print_signed;
use crate::piece::Piece;
use crate::sink::{Room, Sink};
use wire::fault::WriteFault;

pub(crate) trait Printed: Sized {
    // The bytes that are printed.
    ghost text: { Self → List ℕ };

    // The most bytes that they can be.
    ghost most: { Self → ℕ };

    // Gives the text to a sink, if there is room for it. Giving ends where the room does, so that the bound is told where
    // there is room for it.
    fn print<S: Sink>(&self, sink: &mut S) -> Result<(), WriteFault>
        ensures printed { Takes S.room S.took (text self.now) sink.old sink.new result }
        ensures bound { AtMost (most self.now) (S.room sink.old) (text self.now) };
}

// Writes the text at the front of the space and tells its count. The bytes are counted first, so that a space that is too
// short is left as it was; where they fit, laying them cannot fail.
pub(crate) fn write<T: Printed>(item: &T, space: &mut [u8]) -> Result<usize, WriteFault>
    ensures written { Writes (T.Printed.text item.now) space.old space.new result }
    ensures bound { AtMost (T.Printed.most item.now) (length space.old) (T.Printed.text item.now) }
{
    item.print(&mut Room(space.len()))?;
    let mut cursor = Cursor { space, at: 0 };
    item.print(&mut cursor)?;
    Ok(cursor.at)
}

impl<'a> Printed for Piece<'a> {
    ghost text = { spelled };

    ghost most = { λ p. length (spelled p) };

    fn print<S: Sink>(&self, sink: &mut S) -> Result<(), WriteFault> {
        match self {
            Piece::Number(n) => sink.take_number(*n),
            Piece::Signed(z) => print_signed(*z, sink),
            Piece::Text(text) => sink.take(text),
        }
    }
}

// The items of a slice, one after another.
#[derive(Drop)]
pub(crate) struct Each<'a, T>(pub &'a [T]);

impl<'a, T: Printed> Printed for Each<'a, T> {
    ghost text = { λ e. texts T.Printed.text e.0.now };

    ghost most = { λ e. sum_by T.Printed.most e.0.now };

    fn print<S: Sink>(&self, sink: &mut S) -> Result<(), WriteFault> {
        for item in self.0 {
            item.print(sink)?;
        }
        Ok(())
    }
}

// One thing after another.
#[derive(Drop)]
pub(crate) struct Then<A, B>(pub A, pub B);

impl<A: Printed, B: Printed> Printed for Then<A, B> {
    ghost text = { λ t. A.Printed.text t.0 ++ B.Printed.text t.1 };

    ghost most = { λ t. A.Printed.most t.0 + B.Printed.most t.1 };

    fn print<S: Sink>(&self, sink: &mut S) -> Result<(), WriteFault> {
        self.0.print(sink)?;
        self.1.print(sink)
    }
}
