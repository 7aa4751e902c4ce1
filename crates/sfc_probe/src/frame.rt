// The frames: an opcode, a small number (one byte each), and two 32-bit numbers a and b, little-endian; after some of them bytes
// of data. A number that is out of range asks for as much as there is, and a frame of another opcode for nothing.
use crate::hand_out::Lent;
use crate::input;
use sfc::{BlockNumber, ColumnCount};
use std::io;

// A part of the file, the length bytes from start on: b bytes at a.
#[derive(Clone, Copy)]
pub(crate) struct Part {
    pub(crate) start: usize,
    pub(crate) length: usize,
}

// What a frame asks for. Opcode 0 asks for an end.
#[derive(Clone, Copy)]
pub(crate) enum Frame {
    // Print a bytes of data as a line.
    Say {
        count: usize,
    },
    Edit(Edit),
    Header(OnHeader),
    Chunk(Part, OnChunk),
    Note(OnNote),
    // The file's listing is asked for, with an output of a bytes. The piece of lent memory that the small number names has b
    // parts in place of the right number; or the file has b bytes, of zeros after its end, and may be a byte longer than else.
    // Memory and output have a pattern before the call; printed are what became of them, and the text.
    Listing {
        room: usize,
        resized: Option<Resized>,
    },
    Session(OnSession),
}

// Frames that change the file.
#[derive(Clone, Copy)]
pub(crate) enum Edit {
    // The file becomes the a bytes of data, and is kept.
    Load { count: usize },
    // The file is kept as it is; the file becomes what was kept.
    Keep,
    Restore,
    // The file is cut to its first a bytes.
    Cut { length: usize },
    // The file gets a bytes of the small number after its end.
    Grow { count: usize, value: u8 },
    // The file gets the b bytes at a after its end as well.
    Repeat(Part),
    // Byte a becomes the small number; the two or four bytes from a on become the number b.
    SetByte { at: usize, value: u8 },
    Set16 { at: usize, value: u16 },
    Set32 { at: usize, value: u32 },
    // The right hash is put into the file's trailer; into the trailer of the chunk at a.
    SealHeader,
    SealChunk { at: usize },
    // A file is written from the inputs that stand in the file, into an output of a bytes that have a pattern, and becomes the
    // file if it is written: S and M (4 bytes each), UUID (16), time (8), format, flags, name length and P (2 each), the fields'
    // length (4); then the name, P indices of 4 bytes, the fields, and all else as content.
    Write { room: usize },
}

// How a sweep changes each byte that it comes to: by exclusive or with a mask; the hash over it is put right after the change, or
// left.
#[derive(Clone, Copy)]
pub(crate) struct Damage {
    pub(crate) mask: u8,
    pub(crate) sealed: bool,
}

// Frames that read the file's header.
#[derive(Clone, Copy)]
pub(crate) enum OnHeader {
    // The file's header is read, and an accepted one kept for the chunks.
    Read,
    // The same for each place from a up to b, with that byte changed; the same for each length from a up to b.
    Bytes {
        from: usize,
        to: usize,
        damage: Damage,
    },
    Lengths {
        from: usize,
        to: usize,
    },
    // The extension field with tag a is looked up.
    FindField {
        tag: u16,
    },
    // A number of the kept head becomes another.
    SetHead(HeadNumber),
    // The header of a longer file is read, which has a bytes of the small number before its last 64, and is sealed.
    Long {
        count: usize,
        value: u8,
    },
}

// The number of a head that the small number names: the size (a + 2^32·b), N, M or S (a), the erasure or the compression
// identifier (a), or byte a of the UUID (b).
#[derive(Clone, Copy)]
pub(crate) enum HeadNumber {
    Size(u64),
    N(u32),
    M(u32),
    S(u32),
    Erasure(u8),
    Compression(u8),
    UuidByte { at: usize, value: u8 },
}

// Frames that take the b bytes at a as a chunk.
#[derive(Clone, Copy)]
pub(crate) enum OnChunk {
    // They are checked.
    Check,
    // The same for each place in them, with that byte changed; the same for each shorter length. Where the chunk broke is "here"
    // if it is the changed place, or the length.
    Bytes(Damage),
    Lengths,
    // How long the chunk is that begins them.
    Measure,
}

// Frames that read the file as a note.
#[derive(Clone, Copy)]
pub(crate) enum OnNote {
    // With an output of a numbers that have a pattern; all of the output is printed.
    Read { room: usize },
    // The same with byte a at each of its values; the same for each shorter length.
    Values { at: usize },
    Lengths,
}

// The pieces of memory that a listing is lent, and its file.
#[derive(Clone, Copy, PartialEq, Eq)]
pub(crate) enum Piece {
    Store,
    Marks,
    Scratch,
    Numbers,
    Content,
    Bounds,
    File,
}

#[derive(Clone, Copy)]
pub(crate) struct Resized {
    pub(crate) piece: Piece,
    pub(crate) length: usize,
}

// Frames on the session.
#[derive(Clone, Copy)]
pub(crate) enum OnSession {
    // A session begins with a store of a zeros and b marks of 0, but for the first, which is the small number. Its scratch is as
    // many zeros as the kept head wants, M·S, and no column is finished.
    Begin {
        store: usize,
        marks: usize,
        first_mark: u8,
    },
    // A session begins with the first b bytes of the file as its marks and the a bytes after them as its store. Scratch and
    // finished columns are as at another beginning with the small number 0, else as they stand: so memory may change between
    // turns.
    Lend {
        store: usize,
        marks: usize,
        is_blank: bool,
    },
    // A tally becomes b.
    SetTally(Tally, u32),
    // Later hand-outs and block requests get a scratch of their own of a bytes, and they and later turns b numbers. The turns of
    // a hand-out have the small number as their budget; with 0 there is one, for all columns.
    Scratch(Lent),
    // The b bytes at a are offered.
    Offer(Part),
    // Each chunk of the b bytes at a is offered, as they stand one after the other; what there is of the session is then shown.
    OfferChunks(Part),
    // Marks, store, tallies, scratch and finished columns are shown.
    Show,
    Known(Known),
    Give(Wish),
    Rebuild(Rebuild),
}

// Tally a: fresh, repeat, then the refusals from 30 on.
#[derive(Clone, Copy)]
pub(crate) enum Tally {
    Fresh,
    Repeat,
    Refused(usize),
}

// What is known of a session. Each but the last has an output of a bytes or numbers that have a pattern; all of the output is
// printed.
#[derive(Clone, Copy)]
pub(crate) enum Known {
    Prefix { room: usize },
    WriteNote { room: usize },
    // The missing list, index by index or as ranges.
    Missing { room: usize },
    Ranges { room: usize },
    // How many are held and barred.
    CountMarks,
}

// What a session gives. Output and scratch have a pattern before; printed are the output, or its hash where it is long, what
// became of the scratch, and how many turns did anything.
#[derive(Clone, Copy)]
pub(crate) enum Wish {
    // The content, with an output of a bytes: turns from column 0 on until one is refused or nothing is left, and a release,
    // whatever they came to.
    Content { room: usize },
    // Block a, with an output of b bytes.
    Block { number: BlockNumber, room: usize },
    // The same for each of many sets of marks. The output has a bytes; that of block a has one more than the block.
    ContentOfSets { room: usize, sets: Sets },
    BlockOfSets { number: BlockNumber, sets: Sets },
}

// The first b sets of marks: the digits of the set's number, the lowest first, to the base that is the small number. Blocks that
// are not held have other bytes. Printed are how many sets were given what they asked for, and a digest of all answers and
// outputs.
#[derive(Clone, Copy)]
pub(crate) struct Sets {
    pub(crate) count: usize,
    pub(crate) base: u8,
}

// Frames on what a session rebuilds.
#[derive(Clone, Copy)]
pub(crate) enum Rebuild {
    // The session's scratch becomes a bytes of the small number, and b columns are finished; the same with the first a bytes of
    // the file.
    Fill {
        count: usize,
        value: u8,
        finished: ColumnCount,
    },
    Load {
        count: usize,
        finished: ColumnCount,
    },
    // Byte a of the session's scratch is changed by exclusive or with the small number; a columns are finished.
    Spoil {
        at: usize,
        mask: u8,
    },
    Finished(ColumnCount),
    // A turn on the session's scratch with a budget of a columns, and numbers that have a pattern. Printed are the answer, the
    // scratch, the finished columns, and what became of the numbers.
    Turn {
        budget: u32,
    },
    // The content is released, with an output of a bytes that have a pattern. Printed are the answer, the output, or its hash
    // where it is long, the scratch and the finished columns.
    Release {
        room: usize,
    },
}

// A frame as it stands in the input.
#[derive(Clone, Copy)]
pub(crate) struct RawFrame {
    opcode: u8,
    small: u8,
    a: u32,
    b: u32,
}

// An opcode that asks for nothing.
#[derive(Clone, Copy, Debug, PartialEq, Eq)]
pub(crate) struct UnknownOpcode(pub(crate) u8);

impl RawFrame {
    // b bytes at a.
    fn part(self) -> Part {
        Part {
            start: self.a as usize,
            length: self.b as usize,
        }
    }

    fn damage(self, sealed: bool) -> Damage {
        Damage {
            mask: self.small,
            sealed,
        }
    }

    fn sets(self) -> Sets {
        Sets {
            count: self.b as usize,
            base: self.small,
        }
    }

    fn resized(self) -> Option<Resized> {
        let piece = match self.small {
            1 => Piece::Store,
            2 => Piece::Marks,
            3 => Piece::Scratch,
            4 => Piece::Numbers,
            5 => Piece::Content,
            6 => Piece::Bounds,
            7 => Piece::File,
            _ => return None,
        };
        Some(Resized {
            piece,
            length: self.b as usize,
        })
    }
}

impl From<RawFrame> for HeadNumber {
    fn from(frame: RawFrame) -> HeadNumber {
        match frame.small {
            0 => HeadNumber::Size(u64::from(frame.b) << 32 | u64::from(frame.a)),
            1 => HeadNumber::N(frame.a),
            2 => HeadNumber::M(frame.a),
            3 => HeadNumber::S(frame.a),
            4 => HeadNumber::Erasure((frame.a & 0xFF) as u8),
            5 => HeadNumber::Compression((frame.a & 0xFF) as u8),
            _ => HeadNumber::UuidByte {
                at: frame.a as usize,
                value: (frame.b & 0xFF) as u8,
            },
        }
    }
}

impl From<u32> for Tally {
    fn from(which: u32) -> Tally {
        match which {
            0 => Tally::Fresh,
            1 => Tally::Repeat,
            _ => Tally::Refused(which as usize - 2),
        }
    }
}

impl TryFrom<RawFrame> for Edit {
    type Error = UnknownOpcode;

    fn try_from(frame: RawFrame) -> Result<Edit, UnknownOpcode> {
        let a = frame.a as usize;
        match frame.opcode {
            10 => Ok(Edit::Load { count: a }),
            11 => Ok(Edit::Keep),
            12 => Ok(Edit::Restore),
            13 => Ok(Edit::Cut { length: a }),
            14 => Ok(Edit::Grow {
                count: a,
                value: frame.small,
            }),
            15 => Ok(Edit::Repeat(frame.part())),
            20 => Ok(Edit::SetByte {
                at: a,
                value: frame.small,
            }),
            21 => Ok(Edit::Set16 {
                at: a,
                value: (frame.b & 0xFFFF) as u16,
            }),
            22 => Ok(Edit::Set32 {
                at: a,
                value: frame.b,
            }),
            23 => Ok(Edit::SealHeader),
            24 => Ok(Edit::SealChunk { at: a }),
            72 => Ok(Edit::Write { room: a }),
            opcode => Err(UnknownOpcode(opcode)),
        }
    }
}

impl TryFrom<RawFrame> for OnHeader {
    type Error = UnknownOpcode;

    fn try_from(frame: RawFrame) -> Result<OnHeader, UnknownOpcode> {
        let from = frame.a as usize;
        let to = frame.b as usize;
        match frame.opcode {
            30 => Ok(OnHeader::Read),
            31 | 32 => Ok(OnHeader::Bytes {
                from,
                to,
                damage: frame.damage(frame.opcode == 32),
            }),
            33 => Ok(OnHeader::Lengths { from, to }),
            34 => Ok(OnHeader::FindField {
                tag: (frame.a & 0xFFFF) as u16,
            }),
            35 => Ok(OnHeader::SetHead(HeadNumber::from(frame))),
            36 => Ok(OnHeader::Long {
                count: frame.a as usize,
                value: frame.small,
            }),
            opcode => Err(UnknownOpcode(opcode)),
        }
    }
}

impl TryFrom<RawFrame> for OnChunk {
    type Error = UnknownOpcode;

    fn try_from(frame: RawFrame) -> Result<OnChunk, UnknownOpcode> {
        match frame.opcode {
            40 => Ok(OnChunk::Check),
            41 => Ok(OnChunk::Bytes(frame.damage(false))),
            42 => Ok(OnChunk::Bytes(frame.damage(true))),
            43 => Ok(OnChunk::Lengths),
            44 => Ok(OnChunk::Measure),
            opcode => Err(UnknownOpcode(opcode)),
        }
    }
}

impl TryFrom<RawFrame> for OnNote {
    type Error = UnknownOpcode;

    fn try_from(frame: RawFrame) -> Result<OnNote, UnknownOpcode> {
        match frame.opcode {
            63 => Ok(OnNote::Read {
                room: frame.a as usize,
            }),
            64 => Ok(OnNote::Values {
                at: frame.a as usize,
            }),
            65 => Ok(OnNote::Lengths),
            opcode => Err(UnknownOpcode(opcode)),
        }
    }
}

impl TryFrom<RawFrame> for Known {
    type Error = UnknownOpcode;

    fn try_from(frame: RawFrame) -> Result<Known, UnknownOpcode> {
        let room = frame.a as usize;
        match frame.opcode {
            60 => Ok(Known::Prefix { room }),
            61 => Ok(Known::Missing { room }),
            62 => Ok(Known::WriteNote { room }),
            66 => Ok(Known::Ranges { room }),
            67 => Ok(Known::CountMarks),
            opcode => Err(UnknownOpcode(opcode)),
        }
    }
}

impl TryFrom<RawFrame> for Wish {
    type Error = UnknownOpcode;

    fn try_from(frame: RawFrame) -> Result<Wish, UnknownOpcode> {
        let number = BlockNumber(frame.a);
        match frame.opcode {
            70 => Ok(Wish::Content {
                room: frame.a as usize,
            }),
            71 => Ok(Wish::Block {
                number,
                room: frame.b as usize,
            }),
            73 => Ok(Wish::ContentOfSets {
                room: frame.a as usize,
                sets: frame.sets(),
            }),
            74 => Ok(Wish::BlockOfSets {
                number,
                sets: frame.sets(),
            }),
            opcode => Err(UnknownOpcode(opcode)),
        }
    }
}

impl TryFrom<RawFrame> for Rebuild {
    type Error = UnknownOpcode;

    fn try_from(frame: RawFrame) -> Result<Rebuild, UnknownOpcode> {
        let a = frame.a as usize;
        let finished = ColumnCount(frame.b);
        match frame.opcode {
            80 => Ok(Rebuild::Fill {
                count: a,
                value: frame.small,
                finished,
            }),
            81 => Ok(Rebuild::Load { count: a, finished }),
            82 => Ok(Rebuild::Spoil {
                at: a,
                mask: frame.small,
            }),
            83 => Ok(Rebuild::Finished(ColumnCount(frame.a))),
            84 => Ok(Rebuild::Turn { budget: frame.a }),
            85 => Ok(Rebuild::Release { room: a }),
            opcode => Err(UnknownOpcode(opcode)),
        }
    }
}

impl TryFrom<RawFrame> for OnSession {
    type Error = UnknownOpcode;

    fn try_from(frame: RawFrame) -> Result<OnSession, UnknownOpcode> {
        let store = frame.a as usize;
        let marks = frame.b as usize;
        match frame.opcode {
            50 => Ok(OnSession::Begin {
                store,
                marks,
                first_mark: frame.small,
            }),
            51 => Ok(OnSession::SetTally(Tally::from(frame.a), frame.b)),
            52 => Ok(OnSession::Offer(frame.part())),
            53 => Ok(OnSession::Show),
            54 => Ok(OnSession::Lend {
                store,
                marks,
                is_blank: frame.small == 0,
            }),
            55 => Ok(OnSession::Scratch(Lent {
                bytes: frame.a as usize,
                numbers: frame.b as usize,
                budget: (frame.small != 0).then_some(u32::from(frame.small)),
            })),
            56 => Ok(OnSession::OfferChunks(frame.part())),
            60..=69 => Known::try_from(frame).map(OnSession::Known),
            70..=79 => Wish::try_from(frame).map(OnSession::Give),
            _ => Rebuild::try_from(frame).map(OnSession::Rebuild),
        }
    }
}

impl TryFrom<RawFrame> for Frame {
    type Error = UnknownOpcode;

    fn try_from(frame: RawFrame) -> Result<Frame, UnknownOpcode> {
        match frame.opcode {
            1 => Ok(Frame::Say {
                count: frame.a as usize,
            }),
            10..=29 | 72 => Edit::try_from(frame).map(Frame::Edit),
            30..=39 => OnHeader::try_from(frame).map(Frame::Header),
            40..=49 => OnChunk::try_from(frame).map(|ask| Frame::Chunk(frame.part(), ask)),
            63..=65 => OnNote::try_from(frame).map(Frame::Note),
            75 => Ok(Frame::Listing {
                room: frame.a as usize,
                resized: frame.resized(),
            }),
            _ => OnSession::try_from(frame).map(Frame::Session),
        }
    }
}

// The next frame of the input. Opcode 0 is the end, and so is a frame that is not all there.
pub(crate) fn next(rt: &impl Input) -> io::Result<Option<RawFrame>> {
    let mut bytes = [0u8; 10];
    let got = input::read_full(rt, &mut bytes)?;
    let opcode = bytes[0];
    if got < bytes.len() || opcode == 0 {
        return Ok(None);
    }
    Ok(Some(RawFrame {
        opcode,
        small: bytes[1],
        a: little::read32(&bytes, 2),
        b: little::read32(&bytes, 6),
    }))
}
