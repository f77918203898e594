ghost use Rattle.std.specs.Prelude.{◌≡◌, ℕ, ◌+◌, ◌<◌, ◌==◌, not, List, [], ◌∷◌, ◌++◌, length, All, OnOk};
ghost use Rattle.std.specs.Option.{option_map, option_to_list};
ghost use Rattle.listing.specs.Records.{Splits, record_len, record_of, rest_of};

use std::alloc::{AllocError, Global};
use std::marker::Model;

/// Reads the records of a version 1 file, which stand behind its version byte, a byte at a time. After an `Err` it says nothing more of them.
#[derive(Drop)]
pub struct RecordReader {
    // The record that is being read, or that the last byte completed, behind its length.
    bytes: Vec<u8>,
}

impl Model for RecordReader {
    ghost Value = { List ℕ };

    ghost view = { λ r. r.bytes.items };

    ghost invariant = { λ r. All (λ b. b < 256) r.bytes.items };
}

impl RecordReader {
    /// The version of the files that it reads, their first byte.
    pub const VERSION: u8 = 1;

    /// A reader that has read nothing.
    pub fn new(alloc: Global) -> RecordReader
        ensures { result ≡ [] }
    {
        RecordReader {
            bytes: Vec::new(alloc),
        }
    }

    // The last byte completed a record.
    fn is_whole(&self) -> bool
        ensures { result ≡ (length self.now == 2 + record_len self.now) }
    {
        match self.bytes.as_slice() {
            [high, low, pdu @ ..] => pdu.len() == usize::from(*high) * 256 + usize::from(*low),
            _ => false,
        }
    }

    /// The PDU bytes of the record that the last byte completed.
    pub fn record(&self) -> Option<&[u8]>
        ensures { option_map (λ r. r.now) result ≡ record_of self.now }
    {
        if self.is_whole() {
            Some(&self.bytes[2..])
        } else {
            None
        }
    }

    /// A record or its length is cut short, if no byte follows.
    pub fn is_cut(&self) -> bool
        ensures { result ≡ not (length (rest_of self.now) == 0) }
    {
        !self.bytes.is_empty() && !self.is_whole()
    }

    /// Reads the next byte.
    pub fn push(&mut self, byte: u8) -> Result<(), AllocError>
        // Whatever has been read, with this byte its records are those and the one that is whole now.
        ensures { OnOk result ((bytes : List ℕ) (records : List (List ℕ)) → Splits bytes records (rest_of self.old)
            → Splits (bytes ++ byte ∷ []) (records ++ option_to_list (record_of self.new)) (rest_of self.new)) }
    {
        if self.is_whole() {
            self.bytes.clear();
        }
        self.bytes.push(byte)?;
        Ok(())
    }
}
