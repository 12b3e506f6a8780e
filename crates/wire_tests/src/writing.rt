// The writer, and the way back, for each kind of message.
use wire::back::Back;
use wire::message::Message;
use wire::trip::there_and_back;
use wire::writer::write;

// Whether the message is written as the bytes, and the rest of the space left.
fn is_written(message: &Message, bytes: &[u8]) -> bool {
    let mut space = [238u8; 40];
    write(message, &mut space).is_ok_and(|count| {
        count == bytes.len() && count < 40 && &space[..count] == bytes && space[39] == 238
    })
}

// Whether a space of a length is too short for the message, and is then left.
fn is_refused(message: &Message, length: usize) -> bool {
    let mut space = [238u8; 40];
    if length == 0 || 40 < length {
        return false;
    }
    write(message, &mut space[..length]).is_err_and(|fault| fault.number() == 19
        && space[0] == 238
        && space[length - 1] == 238)
}

// Whether what comes back of the message is written as the bytes too.
fn comes_back(message: &Message, bytes: &[u8]) -> bool {
    let mut space = [238u8; 40];
    let Ok(
        Back {
            read: Ok(Some(read)),
            place,
        },
    ) = there_and_back(message, &mut space)
    else {
        return false;
    };
    place == bytes.len() && is_written(&read, bytes)
}

#[test]
fn each_kind_is_written_byte_by_byte_and_comes_back(rt: HostRuntime) {
    let cases: [(Message, &[u8]); 7] = [
        (
            Message::Notice {
                quote_code: 1,
                sharing_code: 2,
                s0: 83,
                s1: 69,
                s2: 82,
                s3: 73,
                s4: 69,
                s5: 68,
                s6: 48,
                s7: 51,
                offer: 100,
                minimum: 10,
                placement: 50,
                least: 2,
                opening: 30600,
                closing: 46800,
            },
            b"\x00\x21\x01\x00\x01\x02SERIED03\x00\x00\x00\x64\x00\x00\x00\x0a\x00\x00\x00\x32\x02\x00\x00\x77\x88\x00\x00\xb6\xd0",
        ),
        (
            Message::Entry {
                s0: 83,
                s1: 69,
                s2: 82,
                s3: 73,
                s4: 69,
                s5: 68,
                s6: 48,
                s7: 51,
                house: 10,
                second: 30600,
                quote: 620,
                lots: 40,
            },
            b"\x00\x1a\x01\x01SERIED03\x00\x00\x00\x0a\x00\x00\x77\x88\x00\x00\x02\x6c\x00\x00\x00\x28",
        ),
        (
            Message::Change {
                number: 1,
                house: 10,
                second: 30600,
                quote: -620,
                lots: 4000000000,
            },
            b"\x00\x16\x01\x02\x00\x00\x00\x01\x00\x00\x00\x0a\x00\x00\x77\x88\xff\xff\xfd\x94\xee\x6b\x28\x00",
        ),
        (
            Message::Withdrawal {
                number: 16909060,
                house: 9999,
                second: 86399,
            },
            b"\x00\x0e\x01\x03\x01\x02\x03\x04\x00\x00\x27\x0f\x00\x01\x51\x7f",
        ),
        (
            Message::Close { second: 46800 },
            b"\x00\x06\x01\x04\x00\x00\xb6\xd0",
        ),
        (
            Message::Limit { quote: 650 },
            b"\x00\x06\x01\x05\x00\x00\x02\x8a",
        ),
        (
            Message::Limit { quote: -2147483648 },
            b"\x00\x06\x01\x05\x80\x00\x00\x00",
        ),
    ];
    for (message, bytes) in cases {
        assert!(rt; is_written(&message, bytes));
        assert!(rt; is_refused(&message, bytes.len() - 1));
        assert!(rt; !is_refused(&message, bytes.len()));
        assert!(rt; comes_back(&message, bytes));
    }
}
