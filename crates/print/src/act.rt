// An act: its head, and its rows.
use crate::head::Head;
use crate::row::ActRow;

#[derive(Clone, Copy)]
pub struct Act<'a> {
    pub head: Head<'a>,
    pub rows: &'a [ActRow],
}
