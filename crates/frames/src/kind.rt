use rows::{Matrix, Row};

// The kinds of frames. The values are the numbers in the header.
#[derive(Clone, Copy, PartialEq, Eq, Debug)]
pub enum Kind {
    Request = 1,
    Ack = 2,
    Summary = 3,
    Proposal = 4,
    Prepare = 5,
    Commit = 6,
}

// Who sends a frame, how many faulty stations are borne, and the frame's sequence.
#[derive(Clone, Copy)]
pub struct Header {
    pub sender: u8,
    pub faults: u8,
    pub sequence: u8,
}

// A frame that was read. An operation is given by its 64 packed bits; a packed row or matrix is a part of what was read.
#[derive(Clone, Copy)]
pub enum Frame<'a> {
    Request {
        header: Header,
        packed: u64,
    },
    Ack {
        header: Header,
        origin: u8,
        packed: u64,
    },
    Summary {
        header: Header,
        row: &'a [u8],
    },
    Proposal {
        header: Header,
        matrix: &'a [u8],
    },
    Prepare {
        header: Header,
        matrix: &'a [u8],
    },
    Commit {
        header: Header,
        matrix: &'a [u8],
    },
}

// What a station has to say in a frame.
#[derive(Clone, Copy)]
pub enum Message {
    Request {
        sequence: u8,
        packed: u64,
    },
    Ack {
        sequence: u8,
        origin: u8,
        packed: u64,
    },
    Summary {
        row: Row,
    },
    Proposal {
        sequence: u8,
        matrix: Matrix,
    },
    Prepare {
        sequence: u8,
        matrix: Matrix,
    },
    Commit {
        sequence: u8,
        matrix: Matrix,
    },
}
