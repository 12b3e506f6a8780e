// The reader on bytes of every sort.
use wire::call::Call;
use wire::fault::ReadFault;
use wire::message::Message;
use wire::reader::Reader;

// Whether there was a message, or the number of the refusal.
type Told = Result<bool, u8>;

fn told(answer: Result<Option<Message>, ReadFault>) -> Told {
    answer
        .map(|message| message.is_some())
        .map_err(|fault| fault.number())
}

// What a call makes of the bytes, with the reader's place and count afterwards.
fn read(bytes: &[u8], call: Call) -> (Told, usize, usize) {
    let mut reader = Reader::new(bytes);
    let answer = match call {
        Call::Opening => reader.notice(),
        Call::Session => reader.event(),
    };
    (told(answer), reader.place(), reader.passed())
}

#[test]
fn a_refused_event_leaves_place_and_count(rt: HostRuntime) {
    let cases: [(&[u8], Told); 21] = [
        (b"", Ok(false)),
        (b"\x00", Err(1)),
        (b"\xff", Err(1)),
        (b"\x00\x01", Err(1)),
        (b"\xff\xff\x01\x04\x00\x00\x00\x00", Err(1)),
        (b"\x00\x06\x01\x04\x00\x00\x00", Err(1)),
        (b"\x00\x00", Err(2)),
        (b"\x00\x00\x01\x04\x00\x00\x00\x00", Err(2)),
        (b"\x00\x01\x01", Err(2)),
        (b"\x00\x06\x00\x04\x00\x00\x00\x00", Err(3)),
        (b"\x00\x06\x02\x04\x00\x00\x00\x00", Err(3)),
        (b"\x00\x06\xff\x04\x00\x00\x00\x00", Err(3)),
        (b"\x00\x06\x01\x00\x00\x00\x00\x00", Err(4)),
        (b"\x00\x06\x01\x06\x00\x00\x00\x00", Err(4)),
        (b"\x00\x06\x01\xff\x00\x00\x00\x00", Err(4)),
        (b"\x00\x02\x01\x04", Err(5)),
        (b"\x00\x05\x01\x04\x00\x00\x00", Err(5)),
        (b"\x00\x07\x01\x04\x00\x00\x00\x00\x00", Err(5)),
        (b"\x06\x00\x01\x04\x00\x00\x00\x00", Err(1)),
        (
            b"\x00\x0e\x01\x02\x00\x00\x00\x01\x00\x00\x00\x0a\x00\x00\x77\x88",
            Err(5),
        ),
        (b"\x00\x06\x01\x03\x00\x00\x00\x01", Err(5)),
    ];
    for (bytes, answer) in cases {
        let (told, place, passed) = read(bytes, Call::Session);
        assert!(rt; told == answer && place == 0 && passed == 0);
    }
}

#[test]
fn of_several_grounds_the_smallest_number_wins(rt: HostRuntime) {
    let cases: [(&[u8], Told); 4] = [
        (b"\x00\x09\x02\x09", Err(1)),
        (b"\x00\x01\x02\x09", Err(2)),
        (b"\x00\x03\x02\x09\x00", Err(3)),
        (b"\x00\x03\x01\x09\x00", Err(4)),
    ];
    for (bytes, answer) in cases {
        let (in_session, _, _) = read(bytes, Call::Session);
        let (at_opening, _, _) = read(bytes, Call::Opening);
        assert!(rt; in_session == answer && at_opening == answer);
    }
}

#[test]
fn a_message_is_passed_whole_whatever_follows_it(rt: HostRuntime) {
    let cases: [(&[u8], usize); 7] = [
        (
            b"\x00\x1a\x01\x01SERIED03\x00\x00\x00\x0a\x00\x00\x77\x88\x00\x00\x02\x6c\x00\x00\x00\x28",
            28,
        ),
        (
            b"\x00\x16\x01\x02\x00\x00\x00\x01\x00\x00\x00\x0a\x00\x00\x77\x88\xff\xff\xfd\x94\x00\x00\x00\x28",
            24,
        ),
        (
            b"\x00\x0e\x01\x03\x00\x00\x00\x01\x00\x00\x00\x0a\x00\x00\x77\x88",
            16,
        ),
        (b"\x00\x06\x01\x04\x00\x00\xb6\xd0", 8),
        (b"\x00\x06\x01\x05\x00\x00\x02\x8a", 8),
        (b"\x00\x06\x01\x05\xff\xff\xff\xff\x00", 8),
        (b"\x00\x06\x01\x04\xff\xff\xff\xff\x00\x06\x01", 8),
    ];
    for (bytes, end) in cases {
        let (told, place, passed) = read(bytes, Call::Session);
        assert!(rt; told == Ok(true) && place == end && passed == 1);
    }
}

#[test]
fn the_notice_call_takes_a_notice_only(rt: HostRuntime) {
    let whole =
        b"\x00\x21\x01\x00\x01\x01SERIED03\x00\x00\x00\x64\x00\x00\x00\x0a\x00\x00\x00\x32\x02\x00\x00\x77\x88\x00\x00\xb6\xd0\x00";
    let cases: [(&[u8], Told, usize); 8] = [
        (b"", Ok(false), 0),
        (whole, Ok(true), 35),
        (&whole[0..34], Err(1), 0),
        (b"\x00\x06\x01\x00\x00\x00\x00\x00", Err(5), 0),
        (b"\x00\x06\x01\x01\x00\x00\x00\x00", Err(4), 0),
        (b"\x00\x06\x01\x05\x00\x00\x02\x8a", Err(4), 0),
        (b"\x00\x06\x01\x06\x00\x00\x00\x00", Err(4), 0),
        (b"\x00\x06\x01\xff\x00\x00\x00\x00", Err(4), 0),
    ];
    for (bytes, answer, end) in cases {
        let (told, place, _) = read(bytes, Call::Opening);
        assert!(rt; told == answer && place == end);
    }
}

#[test]
fn each_refusal_has_its_number_and_its_byte(rt: HostRuntime) {
    let cases = [
        (ReadFault::Truncated, 1, 0),
        (ReadFault::LengthBelowTwo, 2, 0),
        (ReadFault::WrongVersion, 3, 2),
        (ReadFault::WrongKind, 4, 3),
        (ReadFault::WrongLength, 5, 0),
    ];
    for (fault, number, offset) in cases {
        assert!(rt; fault.number() == number && fault.offset() == offset);
    }
}

#[test]
fn one_reader_goes_through_notice_and_session(rt: HostRuntime) {
    let bytes =
        b"\x00\x21\x01\x00\x01\x01SERIED03\x00\x00\x00\x64\x00\x00\x00\x0a\x00\x00\x00\x32\x02\x00\x00\x77\x88\x00\x00\xb6\xd0\x00\x06\x01\x04\x00\x00\xb6\xd0\x00\x06\x01\x05\x00\x00\x02\x8a\x00\x06\x01\x00";
    let cases: [(Told, usize, usize); 4] = [
        (Ok(true), 43, 2),
        (Ok(true), 51, 3),
        (Err(1), 51, 3),
        (Err(1), 51, 3),
    ];
    let mut reader = Reader::new(bytes);
    assert!(rt; told(reader.event()) == Err(4));
    assert!(rt; told(reader.notice()) == Ok(true));
    assert!(rt; reader.place() == 35 && reader.passed() == 1);
    for (answer, place, passed) in cases {
        assert!(rt; told(reader.event()) == answer);
        assert!(rt; reader.place() == place && reader.passed() == passed);
    }
}
