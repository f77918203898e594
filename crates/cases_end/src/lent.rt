use end::{Kept, Params};
use numbers::PollNo;
use std::alloc::{AllocError, Global};

/// How long each of the lent areas is.
#[derive(Clone, Copy)]
pub struct Sizes {
    pub entries: usize,
    pub kept_bytes: usize,
    pub marks: usize,
    pub lengths: usize,
    pub received_bytes: usize,
    pub output: usize,
}

impl Sizes {
    /// Just long enough for these parameters, with room for any PDU that they allow.
    pub fn of(p: Params) -> Sizes {
        Sizes {
            entries: p.keep as usize,
            kept_bytes: p.keep as usize * p.longest as usize,
            marks: p.credit as usize,
            lengths: p.credit as usize,
            received_bytes: p.credit as usize * p.longest as usize,
            output: p.longest as usize + 16,
        }
    }

    /// Each area of an end is longer by this.
    pub fn longer(self, by: usize) -> Sizes {
        Sizes {
            entries: self.entries.saturating_add(by),
            kept_bytes: self.kept_bytes.saturating_add(by),
            marks: self.marks.saturating_add(by),
            lengths: self.lengths.saturating_add(by),
            received_bytes: self.received_bytes.saturating_add(by),
            output: self.output,
        }
    }
}

/// Memory to lend to an end.
#[derive(Drop)]
pub struct Lent {
    pub entries: Vec<Kept>,
    pub kept_bytes: Vec<u8>,
    pub marks: Vec<u8>,
    pub lengths: Vec<u32>,
    pub received_bytes: Vec<u8>,
}

// Each area has a filling of its own, which no case writes, so that each write shows.
const DIRTY: Kept = Kept {
    length: 4_000_000_001,
    stamp: PollNo(4_000_000_002),
    waiting: 4_000_000_003,
};

const DIRTY_KEPT_BYTE: u8 = 0xE1;

const DIRTY_MARK: u8 = 0xE2;

const DIRTY_LENGTH: u32 = 4_000_000_004;

const DIRTY_RECEIVED_BYTE: u8 = 0xE3;

impl Lent {
    pub fn new(alloc: Global, sizes: Sizes) -> Result<Lent, AllocError> {
        Ok(Lent {
            entries: vec![in alloc; DIRTY; sizes.entries]?,
            kept_bytes: vec![in alloc; DIRTY_KEPT_BYTE; sizes.kept_bytes]?,
            marks: vec![in alloc; DIRTY_MARK; sizes.marks]?,
            lengths: vec![in alloc; DIRTY_LENGTH; sizes.lengths]?,
            received_bytes: vec![in alloc; DIRTY_RECEIVED_BYTE; sizes.received_bytes]?,
        })
    }
}
