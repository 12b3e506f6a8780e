// Inputs made of messages, and their prints.
use cabinet::whole::print;
use std::alloc::{AllocError, Global};
use std::process::Abort;
use std::test::Fail;
use wire::message::Message;
use wire::writer::write;

// A notice of SERIED03 with these codes, for the seconds 30,600 to 46,800.
pub fn notice(
    quote_code: u8,
    sharing_code: u8,
    offer: u32,
    minimum: u32,
    placement: u32,
    least: u8,
) -> Message {
    Message::Notice {
        quote_code,
        sharing_code,
        s0: b'S',
        s1: b'E',
        s2: b'R',
        s3: b'I',
        s4: b'E',
        s5: b'D',
        s6: b'0',
        s7: b'3',
        offer,
        minimum,
        placement,
        least,
        opening: 30_600,
        closing: 46_800,
    }
}

// An entry for SERIED03.
pub fn entry(house: u32, second: u32, quote: i32, lots: u32) -> Message {
    Message::Entry {
        s0: b'S',
        s1: b'E',
        s2: b'R',
        s3: b'I',
        s4: b'E',
        s5: b'D',
        s6: b'0',
        s7: b'3',
        house,
        second,
        quote,
        lots,
    }
}

pub fn change(number: u32, house: u32, quote: i32, lots: u32) -> Message {
    Message::Change {
        number,
        house,
        second: 30_600,
        quote,
        lots,
    }
}

pub fn close() -> Message {
    Message::Close { second: 46_800 }
}

pub fn limit(quote: i32) -> Message {
    Message::Limit { quote }
}

// Adds the bytes of a message to an input.
pub fn send(input: &mut Vec<u8>, message: &Message) -> Result<(), AllocError> {
    let mut space = [0u8; 35];
    if let Ok(count) = write(message, &mut space) {
        input.extend_from_slice(&space[..count])?;
    }
    Ok(())
}

// The input of these messages.
pub fn input(heap: Global, messages: &[Message]) -> Result<Vec<u8>, AllocError> {
    let mut bytes = Vec::new(heap);
    for message in messages {
        send(&mut bytes, message)?;
    }
    Ok(bytes)
}

// Bytes are printed as expected.
pub fn prints_bytes(
    rt: &impl Abort,
    heap: Global,
    bytes: &[u8],
    expected: &[u8],
) -> Result<(), Fail> {
    let mut space = vec![in heap; 7u8; 4_096]?;
    // (A match: behind `map_err` and `?` the check does not find that the count is within the space.)
    match print(bytes, space.as_mut_slice()) {
        Ok(count) => {
            assert!(rt; &space[0..count] == expected);
            Ok(())
        },
        Err(_) => Err(Fail::new("the space is too short")),
    }
}

// Messages are printed as expected.
pub fn prints(
    rt: &impl Abort,
    heap: Global,
    messages: &[Message],
    expected: &[u8],
) -> Result<(), Fail> {
    let bytes = input(heap, messages)?;
    prints_bytes(rt, heap, bytes.as_slice(), expected)
}
