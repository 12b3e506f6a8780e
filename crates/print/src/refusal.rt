// A refusal as it is printed.

#[derive(Clone, Copy)]
pub struct Refusal {
    // the ordinal of the message that was refused
    pub ordinal: usize,
    // the number of the ground against it (a number: the enum of the faults of all layers lies above this crate)
    pub number: u8,
    // the place of the byte that the refusal is about
    pub place: usize,
}
