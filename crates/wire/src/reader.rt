// A reader over borrowed bytes: it keeps its place in them, and counts the messages that it has passed.
ghost use Rattle.std.specs.Prelude.{◌≡◌, ◌≤◌, length};

mod calls;

// (Borrowed input with its place is a rule of the project: no memory is taken, and a refusal tells the place.)
#[derive(Drop)]
pub struct Reader<'a> {
    bytes: &'a [u8],
    // The first byte of the next message.
    place: usize,
    // How many messages stand before it.
    passed: usize,
    ghost within: { place ≤ length bytes.now },
    ghost few: { passed ≤ place },
}

impl<'a> Reader<'a> {
    // A reader at the first byte.
    pub fn new(bytes: &'a [u8]) -> Reader<'a>
        ensures bytes { result.bytes.now ≡ bytes.now }
        ensures place { result.place ≡ 0 }
        ensures passed { result.passed ≡ 0 }
    {
        Reader {
            bytes,
            place: 0,
            passed: 0,
        }
    }

    // The place of the next message, from 0 at the first byte.
    pub fn place(&self) -> usize
        ensures { result ≡ self.now.place }
    {
        self.place
    }

    // How many messages were passed: the ordinal of the next one, from 0.
    pub fn passed(&self) -> usize
        ensures { result ≡ self.now.passed }
    {
        self.passed
    }
}
