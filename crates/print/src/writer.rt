// The cabinet's lines at the front of a lent space. Each call tells the count of the bytes that it wrote and leaves the
// rest of the space; a space that is too short is left as it was.
ghost use Rattle.std.specs.Prelude.{length};
ghost use Rattle.print.specs.Lengths.{Enough};
ghost use Rattle.print.specs.Lines.{refusal_line, act_text, no_act_line, print_text};
ghost use Rattle.wire.specs.Writes.{Writes};

use crate::act::Act;
use crate::head::Head;
use crate::lines::no_act_line;
use crate::printed::{Each, Then, write};
use crate::refusal::Refusal;
use crate::row::ActRow;
use wire::fault::WriteFault;

// Writes the line of a refusal.
pub fn write_refusal(refusal: &Refusal, space: &mut [u8]) -> Result<usize, WriteFault>
    ensures { Writes (refusal_line refusal.now) space.old space.new result }
{
    write(refusal, space)
}

// Writes an act: its head, and a line for each row.
pub fn write_act(head: &Head<'_>, rows: &[ActRow], space: &mut [u8]) -> Result<usize, WriteFault>
    ensures { Writes (act_text head.now rows.now) space.old space.new result }
{
    write(&Then(*head, Each(rows)), space)
}

// Writes the line for a book without an act.
pub fn write_no_act(space: &mut [u8]) -> Result<usize, WriteFault>
    ensures { Writes no_act_line space.old space.new result }
{
    write(&no_act_line(), space)
}

// Writes a whole print: a line for each refusal, then the act or that there is none. A space of the size that
// `most_print_bytes` states is never too short.
pub fn write_print(
    refusals: &[Refusal],
    ending: Option<Act<'_>>,
    space: &mut [u8],
) -> Result<usize, WriteFault>
    ensures written { Writes (print_text refusals.now ending.entry) space.old space.new result }
    ensures enough { Enough (length space.old) refusals.now ending.entry }
{
    write(&Then(Each(refusals), ending), space)
}
