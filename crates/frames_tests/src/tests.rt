use crate::plain::Plain;
use frames::{Frame, Header, Kind, Message, read, write};
use model::Operation;
use rows::{Matrix, Row, entry};
use std::test::Fail;

// Gate 5, 1,200 mm, day 366, minute 1,439, number 1 as a gate order is packed.
const ORDER: u64 = 0x454B_0B75_9F00_0001;

fn refused(bytes: &[u8], number: u8, place: u16) -> bool {
    read::<Plain>(bytes).is_err_and(|e| e.reason.number() == number && e.place == place)
}

// Whether the message is written as these bytes, and nothing behind them.
fn writes(sender: u8, faults: u8, message: &Message, expected: &[u8]) -> bool {
    let mut to = [0xAA; 200];
    match write(sender, faults, message, &mut to) {
        Ok(len) => len < 200 && to[..len] == expected[..] && to[len] == 0xAA,
        Err(_) => false,
    }
}

fn has(header: Header, sender: u8, faults: u8, sequence: u8) -> bool {
    header.sender == sender && header.faults == faults && header.sequence == sequence
}

fn four(a: u8, b: u8, c: u8, d: u8) -> Row {
    let mut row = Row::zero(4);
    row.set(0, a);
    row.set(1, b);
    row.set(2, c);
    row.set(3, d);
    row
}

// The rows 1 0 2 0, 0 63 0 0, 5 6 7 8 and 0 0 0 9.
fn square() -> Matrix {
    let mut matrix = Matrix::zero(4);
    matrix.put(0, &four(1, 0, 2, 0));
    matrix.put(1, &four(0, 63, 0, 0));
    matrix.put(2, &four(5, 6, 7, 8));
    matrix.put(3, &four(0, 0, 0, 9));
    matrix
}

// Requests for f 1 and f 5, read and written.
#[test]
fn requests(rt: HostRuntime) -> Result<(), Fail> {
    let small = Message::Request {
        sequence: 1,
        packed: ORDER,
    };
    assert!(rt; writes(2, 1, &small, b"\x24\x41\x45\x4b\x0b\x75\x9f\x00\x00\x01"));
    let large = Message::Request {
        sequence: 63,
        packed: ORDER,
    };
    assert!(rt; writes(15, 5, &large, b"\x3f\x7f\x45\x4b\x0b\x75\x9f\x00\x00\x01"));
    match read::<Plain>(b"\x3f\x7f\x45\x4b\x0b\x75\x9f\x00\x00\x01") {
        Ok(Frame::Request { header, packed }) => {
            assert!(rt; has(header, 15, 5, 63) && packed == ORDER);
            Ok(())
        },
        _ => {
            assert!(rt; false);
            Ok(())
        },
    }
}

// Acks for f 1 and f 5, read and written.
#[test]
fn acks(rt: HostRuntime) -> Result<(), Fail> {
    let small = Message::Ack {
        sequence: 1,
        origin: 2,
        packed: ORDER,
    };
    assert!(rt;
        writes(
            0,
            1,
            &small,
            b"\x40\x41\x20\x45\x4b\x0b\x75\x9f\x00\x00\x01",
        )
    );
    let large = Message::Ack {
        sequence: 63,
        origin: 15,
        packed: ORDER,
    };
    assert!(rt;
        writes(
            14,
            5,
            &large,
            b"\x5d\x7f\xf0\x45\x4b\x0b\x75\x9f\x00\x00\x01",
        )
    );
    match read::<Plain>(b"\x5d\x7f\xf0\x45\x4b\x0b\x75\x9f\x00\x00\x01") {
        Ok(
            Frame::Ack {
                header,
                origin,
                packed,
            },
        ) => {
            assert!(rt; has(header, 14, 5, 63) && origin == 15 && packed == ORDER);
            Ok(())
        },
        _ => {
            assert!(rt; false);
            Ok(())
        },
    }
}

// Summaries for f 1 and f 5, read and written.
#[test]
fn summaries(rt: HostRuntime) -> Result<(), Fail> {
    assert!(rt;
        writes(
            3,
            1,
            &Message::Summary {
                row: four(1, 0, 2, 0),
            },
            b"\x66\x40\x04\x00\x80",
        )
    );
    match read::<Plain>(b"\x7f\x40\xc3\x1c\xb3\xd3\x5d\xb7\xe3\x9e\xbb\xf3\xdf\xbf") {
        Ok(Frame::Summary { header, row }) => {
            assert!(rt;
                has(header, 15, 5, 0)
                    && entry(row, 0) == 48
                    && entry(row, 1) == 49
                    && entry(row, 15) == 63
            );
            assert!(rt;
                writes(
                    15,
                    5,
                    &Message::Summary {
                        row: Row::unpack(16, row),
                    },
                    b"\x7f\x40\xc3\x1c\xb3\xd3\x5d\xb7\xe3\x9e\xbb\xf3\xdf\xbf",
                )
            );
            Ok(())
        }
        _ => {
            assert!(rt; false);
            Ok(())
        },
    }
}

// A matrix for f 1 in each of its three kinds, written and read.
#[test]
fn matrices(rt: HostRuntime) -> Result<(), Fail> {
    let matrix = square();
    assert!(rt;
        writes(
            1,
            1,
            &Message::Proposal {
                sequence: 7,
                matrix,
            },
            b"\x82\x47\x04\x00\x80\x03\xf0\x00\x14\x61\xc8\x00\x00\x09",
        )
    );
    assert!(rt;
        writes(
            1,
            1,
            &Message::Prepare {
                sequence: 7,
                matrix,
            },
            b"\xa2\x47\x04\x00\x80\x03\xf0\x00\x14\x61\xc8\x00\x00\x09",
        )
    );
    assert!(rt;
        writes(
            1,
            1,
            &Message::Commit {
                sequence: 7,
                matrix,
            },
            b"\xc2\x47\x04\x00\x80\x03\xf0\x00\x14\x61\xc8\x00\x00\x09",
        )
    );
    match read::<Plain>(b"\xc2\x47\x04\x00\x80\x03\xf0\x00\x14\x61\xc8\x00\x00\x09") {
        Ok(Frame::Commit { header, matrix }) => {
            let owned = Matrix::unpack(4, matrix);
            assert!(rt;
                has(header, 1, 1, 7)
                    && owned.get(1, 1) == 63
                    && owned.get(2, 3) == 8
                    && owned.get(3, 3) == 9
                    && owned.get(0, 4) == 0
            );
            Ok(())
        }
        _ => {
            assert!(rt; false);
            Ok(())
        },
    }
}

// The longest frame has 194 bytes: a matrix for f 5, here of entries 63 but for a last entry of 1.
#[test]
fn longest(rt: HostRuntime) -> Result<(), Fail> {
    let mut matrix = Matrix::unpack(16, &[0xFF; 192]);
    assert!(rt; matrix.set(15, 15, 1));
    let mut to = [0xAA; 196];
    let len = write(
        0,
        5,
        &Message::Prepare {
            sequence: 1,
            matrix,
        },
        &mut to,
    )
    .ok()
    .unwrap_or(0);
    assert!(rt;
        len == 194
            && to[0] == 0xA1
            && to[1] == 0x41
            && to[2] == 0xFF
            && to[192] == 0xFF
            && to[193] == 0xC1
            && to[194] == 0xAA
    );
    match read::<Plain>(&to[0..194]) {
        Ok(Frame::Prepare { header, matrix }) => {
            assert!(rt;
                has(header, 0, 5, 1) && entry(matrix, 254) == 63 && entry(matrix, 255) == 1
            );
            Ok(())
        },
        _ => {
            assert!(rt; false);
            Ok(())
        },
    }
}

// Of all lengths from 0 to 195 a proposal for f 5 has one.
#[test]
fn lengths(rt: HostRuntime) {
    let mut bytes = [0; 195];
    bytes[0] = 0x81;
    bytes[1] = 0x41;
    for n in 0..196 {
        let number = match read::<Plain>(&bytes[0..n]) {
            Ok(_) => 0,
            Err(e) => e.reason.number(),
        };
        let expected = match n {
            194 => 0,
            0..=1 => 11,
            _ => 16,
        };
        assert!(rt; number == expected);
    }
}

// 11: fewer than two bytes.
#[test]
fn short_frames(rt: HostRuntime) {
    assert!(rt; refused(b"", 11, 0));
    assert!(rt; refused(b"\x24", 11, 0));
    assert!(rt; refused(b"\xff", 11, 0));
}

// 12: the kind is 0 or 7; before f, sender and sequence are looked at.
#[test]
fn unknown_kinds(rt: HostRuntime) {
    assert!(rt; refused(b"\x04\x41\x45\x4b\x0b\x75\x9f\x00\x00\x01", 12, 0));
    assert!(rt; refused(b"\xe4\x41\x45\x4b\x0b\x75\x9f\x00\x00\x01", 12, 0));
    assert!(rt; refused(b"\x00\x00", 12, 0));
    assert!(rt; refused(b"\xff\xff", 12, 0));
}

// 13: f is outside 1 to 5.
#[test]
fn fault_bounds(rt: HostRuntime) {
    assert!(rt; refused(b"\x24\x01\x45\x4b\x0b\x75\x9f\x00\x00\x01", 13, 7));
    assert!(rt; refused(b"\x25\x81\x45\x4b\x0b\x75\x9f\x00\x00\x01", 13, 7));
    assert!(rt; refused(b"\x7f\xc1", 13, 7));
}

// 14: the sender is not below the number of stations.
#[test]
fn senders(rt: HostRuntime) {
    assert!(rt; refused(b"\x28\x41\x45\x4b\x0b\x75\x9f\x00\x00\x01", 14, 3));
    assert!(rt; refused(b"\x3e\x41\x45\x4b\x0b\x75\x9f\x00\x00\x01", 14, 3));
    assert!(rt; refused(b"\x7b\x01", 14, 3));
    assert!(rt; refused(b"\x8e\x80", 14, 3));
}

// 15: the sequence is 0 outside a summary, or not 0 in one.
#[test]
fn sequences(rt: HostRuntime) {
    assert!(rt; refused(b"\x24\x40\x45\x4b\x0b\x75\x9f\x00\x00\x01", 15, 10));
    assert!(rt; refused(b"\x66\x41\x04\x00\x80", 15, 10));
    assert!(rt; refused(b"\x66\x7f\x04\x00\x80", 15, 10));
    assert!(rt; refused(b"\x80\x40", 15, 10));
}

// 16: the length is not what kind and f give.
#[test]
fn wrong_lengths(rt: HostRuntime) {
    assert!(rt; refused(b"\x24\x41\x45\x4b\x0b\x75\x9f\x00\x00", 16, 0));
    assert!(rt; refused(b"\x24\x41\x45\x4b\x0b\x75\x9f\x00\x00\x01\x00", 16, 0));
    assert!(rt; refused(b"\x40\x41\xff\xff\xff\xff\xff\xff\xff\xff", 16, 0));
    assert!(rt; refused(b"\x66\x40\x04\x00", 16, 0));
    assert!(rt; refused(b"\x66\x80\x04\x00\x80", 16, 0));
    assert!(rt;
        refused(
            b"\x80\x41\x00\x00\x00\x00\x00\x00\x00\x00\x00\x00\x00",
            16,
            0,
        )
    );
}

// 17: an ack's origin is not below the number of stations; before its zero bits are looked at.
#[test]
fn origins(rt: HostRuntime) {
    assert!(rt; refused(b"\x40\x41\x40\x45\x4b\x0b\x75\x9f\x00\x00\x01", 17, 16));
    assert!(rt; refused(b"\x40\x41\xff\x00\x00\x00\x00\x00\x00\x00\x00", 17, 16));
    assert!(rt; refused(b"\x41\x01\xd0\x45\x4b\x0b\x75\x9f\x00\x00\x01", 17, 16));
}

// 18: a bit that has to be zero is set.
#[test]
fn filling_bits(rt: HostRuntime) {
    assert!(rt; refused(b"\x40\x41\x21\x45\x4b\x0b\x75\x9f\x00\x00\x01", 18, 20));
    assert!(rt; refused(b"\x40\x41\x28\x00\x00\x00\x00\x00\x00\x00\x00", 18, 20));
    assert!(rt; refused(b"\x60\x80\x04\x10\x41\x04\x10\x41", 18, 58));
    assert!(rt; refused(b"\x60\x80\x04\x10\x41\x04\x10\x60", 18, 58));
    assert!(rt; refused(b"\x60\xc0\x04\x10\x41\x04\x10\x41\x04\x18", 18, 76));
    assert!(rt; refused(b"\x61\x00\x04\x10\x41\x04\x10\x41\x04\x10\x41\x05", 18, 94));
}

// 18: the two bits after the last of 49 entries.
#[test]
fn filling_of_a_matrix(rt: HostRuntime) {
    let mut bytes = [0; 39];
    bytes[0] = 0x80;
    bytes[1] = 0x81;
    assert!(rt; !refused(&bytes, 18, 310));
    bytes[38] = 2;
    assert!(rt; refused(&bytes, 18, 310));
    bytes[38] = 1;
    assert!(rt; refused(&bytes, 18, 310));
}

// 19: the operation's tag is another type's.
#[test]
fn tags(rt: HostRuntime) {
    assert!(rt; refused(b"\x24\x41\x05\x4b\x0b\x75\x9f\x00\x00\x01", 19, 16));
    assert!(rt; refused(b"\x24\x41\x85\x4b\x0b\x75\x9f\x00\x00\x01", 19, 16));
    assert!(rt; refused(b"\x24\x41\xc5\x4b\x0b\x75\x9f\x00\x00\x01", 19, 16));
    assert!(rt; refused(b"\x40\x41\x20\x05\x4b\x0b\x75\x9f\x00\x00\x01", 19, 24));
}

// 20: a field of the operation is outside its range.
#[test]
fn ranges(rt: HostRuntime) {
    assert!(rt; refused(b"\x24\x41\x68\x4b\x0b\x75\x9f\x00\x00\x01", 20, 18));
    assert!(rt; refused(b"\x24\x41\x7f\x4b\x0b\x75\x9f\x00\x00\x01", 20, 18));
    assert!(rt; refused(b"\x40\x41\x20\x68\x4b\x0b\x75\x9f\x00\x00\x01", 20, 26));
}

// Writing refuses what reading would, and a buffer that is too short, and changes nothing.
#[test]
fn refused_writes(rt: HostRuntime) {
    let order = Message::Request {
        sequence: 1,
        packed: ORDER,
    };
    assert!(rt; unwritten(2, 0, &order, &mut [0xAA; 200], 13, 7));
    assert!(rt; unwritten(4, 1, &order, &mut [0xAA; 200], 14, 3));
    assert!(rt;
        unwritten(
            2,
            1,
            &Message::Request {
                sequence: 64,
                packed: ORDER,
            },
            &mut [0xAA; 200],
            15,
            10,
        )
    );
    assert!(rt;
        unwritten(
            2,
            2,
            &Message::Summary {
                row: four(1, 0, 2, 0),
            },
            &mut [0xAA; 200],
            16,
            0,
        )
    );
    assert!(rt;
        unwritten(
            2,
            1,
            &Message::Ack {
                sequence: 1,
                origin: 4,
                packed: ORDER,
            },
            &mut [0xAA; 200],
            17,
            16,
        )
    );
    assert!(rt; unwritten(2, 1, &order, &mut [0xAA; 9], 28, 0));
    assert!(rt; !unwritten(2, 1, &order, &mut [0xAA; 10], 28, 0));
}

fn untouched(bytes: &[u8]) -> bool {
    bytes.iter().all(|x| *x == 0xAA)
}

// Whether writing into this buffer of bytes AA is refused with this fault, and leaves it.
fn unwritten(
    sender: u8,
    faults: u8,
    message: &Message,
    to: &mut [u8],
    number: u8,
    place: u16,
) -> bool {
    write(sender, faults, message, to).is_err_and(|e| e.reason.number() == number
        && e.place == place
        && untouched(to))
}

// Each kind has its number, and no other number has a kind.
#[test]
fn kinds(rt: HostRuntime) {
    assert!(rt;
        Kind::Request.number() == 1 && Kind::Ack.number() == 2 && Kind::Summary.number() == 3
    );
    assert!(rt;
        Kind::Proposal.number() == 4 && Kind::Prepare.number() == 5 && Kind::Commit.number() == 6
    );
    assert!(rt; Kind::try_from(6).is_ok_and(|kind| kind == Kind::Commit));
    assert!(rt; Kind::try_from(7).is_err_and(|e| e.reason.number() == 12 && e.place == 0));
}

// A header for f 5 is one of 16 stations.
#[test]
fn stations(rt: HostRuntime) {
    let header = Header {
        sender: 15,
        faults: 5,
        sequence: 63,
    };
    assert!(rt; header.stations() == 16);
}
