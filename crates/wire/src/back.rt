// What comes back of a message that was written.
use crate::fault::ReadFault;
use crate::message::Message;

// The reader's answer, and its place afterwards.
#[derive(Clone, Copy)]
pub struct Back {
    pub read: Result<Option<Message>, ReadFault>,
    pub place: usize,
}
