// The parts of a print: refusals, the head and the rows of an act, and the ending.
ghost use Rattle.print.specs.Lengths.{most_refusal_bytes, most_head_bytes, most_row_bytes, most_ending_bytes};
ghost use Rattle.print.specs.Lines.{refusal_line, head_line, row_line, ending_text};

use crate::act::Act;
use crate::head::Head;
use crate::lines::{cut_line, no_act_line, refusal_line, row_line, void_line};
use crate::printed::{Each, Printed, Then};
use crate::refusal::Refusal;
use crate::row::ActRow;
use crate::sink::Sink;
use wire::fault::WriteFault;

impl Printed for Refusal {
    ghost text = { refusal_line };

    ghost most = { most_refusal_bytes };

    fn print<S: Sink>(&self, sink: &mut S) -> Result<(), WriteFault> {
        Each(&refusal_line(self)).print(sink)
    }
}

impl<'a> Printed for Head<'a> {
    ghost text = { head_line };

    ghost most = { most_head_bytes };

    fn print<S: Sink>(&self, sink: &mut S) -> Result<(), WriteFault> {
        match self.award {
            None => Each(&void_line(self)).print(sink),
            Some(award) => Each(&cut_line(self, award)).print(sink),
        }
    }
}

impl Printed for ActRow {
    ghost text = { row_line };

    ghost most = { most_row_bytes };

    fn print<S: Sink>(&self, sink: &mut S) -> Result<(), WriteFault> {
        Each(&row_line(self)).print(sink)
    }
}

// The ending: the act, or that there is none.
impl<'a> Printed for Option<Act<'a>> {
    ghost text = { ending_text };

    ghost most = { most_ending_bytes };

    fn print<S: Sink>(&self, sink: &mut S) -> Result<(), WriteFault> {
        match *self {
            Some(Act { head, rows }) => Then(head, Each(rows)).print(sink),
            None => no_act_line().print(sink),
        }
    }
}
