// The two calls that read a message.
#[derive(Clone, Copy, PartialEq, Eq, Debug)]
pub enum Call {
    // Takes the notice, kind 0.
    Opening,
    // Takes the events of a session, kinds 1 to 5.
    Session,
}
