use super::*;
use service::{Answer, Call, Refusal, Service};
use std::process::Abort;
use std::test::Fail;
use store::{Store, Table, Version};

// Tool 2 begins, and reads item 7.
const BEGIN: [u8; 8] = [0x54, 0, 1, 2, 0x43, 0, 1, 1];

const READ: [u8; 13] = [0x54, 0, 1, 2, 0x43, 0, 1, 2, 0x49, 0, 2, 0, 7];

// Where the fields of a request begin; a write has all four.
const HEADS: [usize; 4] = [0, 4, 8, 13];

// The fault of a frame with one bit of one byte turned, and None where that makes a good frame; the bit is turned back.
fn damaged(frame: &mut [u8], at: usize) -> Option<Fault> {
    if at >= frame.len() {
        return None;
    }
    frame[at] ^= 1;
    let found = read_request(frame).err();
    frame[at] ^= 1;
    found
}

// Every way to damage a good frame.
fn damages(rt: &impl Abort, frame: &mut [u8], fields: usize) {
    for length in 0..frame.len() {
        assert_eq!(rt; read_request(&frame[..length]).err(), Some(Fault::Cut));
    }
    for head in HEADS.iter().take(fields) {
        assert_eq!(rt; damaged(frame, *head), Some(Fault::Tag));
        assert_eq!(rt; damaged(frame, *head + 1), Some(Fault::Length));
        assert_eq!(rt; damaged(frame, *head + 2), Some(Fault::Length));
    }
}

// The request's frame, read and written again, and damaged.
fn good(rt: &impl Abort, request: Request, fields: usize, length: usize) -> Result<(), Fail> {
    let mut bytes = [0xEE; 22];
    assert_eq!(rt; write_request(request, &mut bytes), Ok(length));
    assert!(rt; length <= 20);
    assert_eq!(rt; bytes[length], 0xEE);
    assert_eq!(rt;
        read_request(&bytes[..length + 1]).err(),
        Some(Fault::Trailing)
    );
    let mut again = [0; 20];
    let call = read_request(&bytes[0..length])?;
    assert_eq!(rt; write_request(Request::from(call), &mut again), Ok(length));
    assert_eq!(rt; &again[0..length], &bytes[0..length]);
    if length > 0 {
        assert_eq!(rt;
            write_request(request, &mut again[0..length - 1]),
            Err(Fault::Room)
        );
    }
    damages(rt, &mut bytes[0..length], fields);
    Ok(())
}

// Each call with the number of its fields and the length of its frame.
const SHAPES: [(u8, usize, usize); 8] = [
    (1, 2, 8),
    (2, 3, 13),
    (3, 4, 20),
    (4, 3, 19),
    (5, 3, 13),
    (6, 2, 8),
    (7, 2, 8),
    (8, 3, 13),
];

#[test]
fn good_and_damaged_frames(rt: HostRuntime) -> Result<(), Fail> {
    for (call, fields, length) in SHAPES {
        good(
            &rt,
            Request {
                tool: 0xA1,
                call,
                item: 0xB1B2,
                value: 0xC1C2C3C4,
                tick: 0xD1D2D3D4D5D6D7D8,
            },
            fields,
            length,
        )?;
    }
    for call in [0, 9, 255] {
        let request = Request {
            tool: 1,
            call,
            item: 0,
            value: 0,
            tick: 0,
        };
        assert_eq!(rt; write_request(request, &mut []), Err(Fault::Unknown));
        assert_eq!(rt;
            read_request(&[0x54, 0, 1, 1, 0x43, 0, 1, call, 0]),
            Err(Fault::Unknown)
        );
    }
    Ok(())
}

// The bytes of the longest request, one by one.
#[test]
fn bytes_of_a_write(rt: HostRuntime) {
    let mut bytes = [0xEE; 22];
    let request = Request {
        tool: 2,
        call: 3,
        item: 0x0102,
        value: 0x01020304,
        tick: 5,
    };
    assert_eq!(rt; write_request(request, &mut bytes), Ok(20));
    assert_eq!(rt;
        &bytes[0..22],
        [
            0x54, 0, 1, 2, 0x43, 0, 1, 3, 0x49, 0, 2, 1, 2, 0x56, 0, 4, 1, 2, 3, 4, 0xEE, 0xEE,
        ]
        .as_slice()
    );
}

fn worked<S: Store + Drop>(rt: &impl Abort, store: S) {
    let mut service = Service::start(store);
    let mut reply = [0xEE; 16];
    assert_eq!(rt; serve(&mut service, &READ, &mut reply), Ok(4));
    assert_eq!(rt; &reply[0..5], [0x41, 0, 1, 2, 0xEE].as_slice());
    assert_eq!(rt; serve(&mut service, &BEGIN, &mut reply), Ok(4));
    assert_eq!(rt; &reply[0..5], [0x41, 0, 1, 0, 0xEE].as_slice());
    // a fault reaches neither service nor buffer
    assert_eq!(rt;
        serve(&mut service, &READ[0..12], &mut reply[0..14]),
        Err(Fault::Cut)
    );
    assert_eq!(rt;
        serve(&mut service, &READ, &mut reply[0..14]),
        Err(Fault::Room)
    );
    assert_eq!(rt; &reply[0..5], [0x41, 0, 1, 0, 0xEE].as_slice());
    assert_eq!(rt; serve(&mut service, &READ, &mut reply), Ok(11));
    assert_eq!(rt;
        &reply[0..12],
        [0x41, 0, 1, 0, 0x56, 0, 4, 0, 0, 1, 0x2C, 0xEE].as_slice()
    );
    let read = Call::Read { tool: 2, item: 7 };
    assert_eq!(rt; read_reply(read, &reply[0..11]), Ok(Ok(Answer::Value(300))));
    assert_eq!(rt; read_reply(read, &reply[0..4]), Err(Fault::Cut));
    assert_eq!(rt;
        read_reply(Call::Begin { tool: 2 }, &reply[0..11]),
        Err(Fault::Trailing)
    );
    // no such tool is a refusal of the service, and no fault
    assert_eq!(rt;
        serve(&mut service, &[0x54, 0, 1, 16, 0x43, 0, 1, 1], &mut reply),
        Ok(4)
    );
    assert_eq!(rt;
        read_reply(read, &reply[0..4]),
        Ok(Err(Refusal::UnknownTool))
    );
    assert_eq!(rt; &reply[0..5], [0x41, 0, 1, 1, 0x56].as_slice());
}

#[test]
fn worked_frame(rt: HostRuntime) {
    let mut bytes = [0; 160];
    let mut table = Table::open(&mut bytes, 8);
    table.put(
        7,
        Version {
            value: 300,
            twrite: 0,
            tread: 0,
        },
    );
    worked(&rt, table);
}

#[test]
fn replies(rt: HostRuntime) {
    let mut bytes = [0xEE; 16];
    let close = Call::Close { tool: 3, tick: 9 };
    let stamp = Ok(Answer::Stamp(0x0102030405060708));
    assert_eq!(rt; write_reply(stamp, &mut bytes[0..14]), Err(Fault::Room));
    assert_eq!(rt; &bytes[0..16], [0xEE; 16].as_slice());
    assert_eq!(rt; write_reply(stamp, &mut bytes), Ok(15));
    assert_eq!(rt;
        &bytes[0..16],
        [0x41, 0, 1, 0, 0x53, 0, 8, 1, 2, 3, 4, 5, 6, 7, 8, 0xEE].as_slice()
    );
    assert_eq!(rt; read_reply(close, &bytes[0..15]), Ok(stamp));
    for length in 0..15 {
        assert_eq!(rt; read_reply(close, &bytes[0..length]), Err(Fault::Cut));
    }
    assert_eq!(rt;
        read_reply(close, &[0x41, 0, 1, 15]),
        Ok(Err(Refusal::NoToken))
    );
    assert_eq!(rt; read_reply(close, &[0x41, 0, 1, 16]), Err(Fault::Unknown));
}

#[test]
fn fault_numbers(rt: HostRuntime) {
    assert_eq!(rt; u8::from(Fault::Cut), 20);
    assert_eq!(rt; u8::from(Fault::Tag), 21);
    assert_eq!(rt; u8::from(Fault::Length), 22);
    assert_eq!(rt; u8::from(Fault::Unknown), 23);
    assert_eq!(rt; u8::from(Fault::Trailing), 24);
    assert_eq!(rt; u8::from(Fault::Room), 25);
}
