// What takes the bytes of a print: a room, in which they are counted, or a cursor, at which they are laid.
ghost use Rattle.std.specs.Prelude.{◌≡◌, ℕ, ◌-◌, List, length, decimal};
ghost use Rattle.print.specs.Laying.{cursor_laws};
ghost use Rattle.print.specs.Places.{Lays};
ghost use Rattle.print.specs.Sinks.{Takes, SinkLaws};

use crate::cursor::Cursor;
use crate::number::{lay_number, number_width};
use wire::fault::WriteFault;

pub(crate) trait Sink {
    // How many bytes it has room for.
    ghost room: { Self → ℕ };

    // What it is after a text that it takes, by what it was before.
    ghost took: { List ℕ → Self → Self → Type 0 };

    // Takes bytes, if there is room for them.
    fn take(&mut self, bytes: &[u8]) -> Result<(), WriteFault>
        ensures { Takes room took bytes.now self.old self.new result };

    // Takes a number's digits, if there is room for them.
    fn take_number(&mut self, n: u64) -> Result<(), WriteFault>
        ensures { Takes room took (decimal n) self.old self.new result };

    ghost laws: { SinkLaws took };
}

// The room that is left, in bytes.
#[derive(Drop)]
pub(crate) struct Room(pub usize);

impl Room {
    // Takes so many bytes from the room, whatever they say.
    fn lessen(&mut self, count: usize) -> Result<(), WriteFault>
        ensures { (text : List ℕ) → length text ≡ count → Takes (λ r. r.0) (λ t before after. Unit {0}) text self.old self.new result }
    {
        let left = self.0.checked_sub(count);
        self.0 = left.ok_or(WriteFault::SpaceTooShort)?;
        Ok(())
    }
}

impl Sink for Room {
    ghost room = { λ r. r.0 };

    // The room says all.
    ghost took = { λ text before after. Unit {0} };

    ghost laws = { record { none = λ s. tt; both = λ t u a b c l m. tt } };

    fn take(&mut self, bytes: &[u8]) -> Result<(), WriteFault> {
        self.lessen(bytes.len())
    }

    fn take_number(&mut self, n: u64) -> Result<(), WriteFault> {
        self.lessen(number_width(n))
    }
}

impl<'a> Sink for Cursor<'a> {
    ghost room = { λ c. length c.space.now - c.at };

    ghost took = { Lays };

    ghost laws = { cursor_laws };

    fn take(&mut self, bytes: &[u8]) -> Result<(), WriteFault> {
        if self.space.len() - self.at < bytes.len() {
            return Err(WriteFault::SpaceTooShort);
        }
        let end = self.at + bytes.len();
        self.space[self.at..end].copy_from_slice(bytes);
        self.at = end;
        Ok(())
    }

    // (Not inlined, like `number_width`.)
    #[inline(never)]
    fn take_number(&mut self, n: u64) -> Result<(), WriteFault> {
        let width = number_width(n);
        if self.space.len() - self.at < width {
            return Err(WriteFault::SpaceTooShort);
        }
        let end = self.at + width;
        lay_number(n, self.space, end);
        self.at = end;
        Ok(())
    }
}
