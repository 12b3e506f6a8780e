// The head of an act.

// What the award came to where something is placed.
#[derive(Clone, Copy)]
pub struct Cut {
    // the cut-off
    pub cut: i32,
    // the lots placed
    pub placed: u64,
    // the lots offered
    pub offer: u32,
}

#[derive(Clone, Copy)]
pub struct Head<'a> {
    // the series code
    pub series: [u8; 8],
    // the word of the kind of quote
    pub word: &'a [u8],
    // the cut, or nothing where nothing is placed
    pub award: Option<Cut>,
}
