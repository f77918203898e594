ghost use Rattle.std.specs.Prelude.{◌≡◌, ℕ, List, [], ◌∷◌, ◌++◌, OnOk, string_bytes};

use crate::RecordReader;
use crate::line::{push_line, push_words};
use std::alloc::{AllocError, Global};

/// Lists a file, whose bytes come in any pieces. After an `Err` it says nothing more of the file.
#[derive(Drop)]
pub struct Listing {
    version: Option<u8>,
    reader: RecordReader,
    count: u64,
}

impl Listing {
    ghost use Rattle.listing.specs.Listing.{HasLines, HasListed, IsListing};

    /// The listing of a file of which nothing has come.
    pub fn new(alloc: Global) -> Listing
        ensures { HasListed [] result [] }
    {
        Listing {
            version: None,
            reader: RecordReader::new(alloc),
            count: 0,
        }
    }

    // Adds the line of the record that this byte completes. Out of memory, or of the numbers that count records.
    fn push_byte(&mut self, byte: u8, text: &mut String) -> Result<(), AllocError>
        ensures version { self.new.version ≡ self.old.version }
        ensures lines { OnOk result ((bytes printed : List ℕ) → HasLines bytes self.old (printed ++ string_bytes text.old)
            → HasLines (bytes ++ byte ∷ []) self.new (printed ++ string_bytes text.new)) }
    {
        self.reader.push(byte)?;
        if let Some(pdu) = self.reader.record() {
            push_line(text, pdu)?;
            self.count = self.count.checked_add(1).ok_or(AllocError)?;
        }
        Ok(())
    }

    // The same for any byte of a file.
    fn push(&mut self, byte: u8, text: &mut String) -> Result<(), AllocError>
        ensures { OnOk result ((bytes printed : List ℕ) → HasListed bytes self.old (printed ++ string_bytes text.old)
            → HasListed (bytes ++ byte ∷ []) self.new (printed ++ string_bytes text.new)) }
    {
        match self.version {
            None => {
                self.version = Some(byte);
                Ok(())
            }
            Some(RecordReader::VERSION) => self.push_byte(byte, text),
            Some(_) => Ok(()),
        }
    }

    /// Reads the next piece of the file, and adds the lines of the records that are whole now.
    pub fn feed(&mut self, piece: &[u8], text: &mut String) -> Result<(), AllocError>
        // Whatever has been fed and printed: with this piece, that of the file so far is listed, however it was cut into pieces.
        ensures { OnOk result ((bytes printed : List ℕ) → HasListed bytes self.old (printed ++ string_bytes text.old)
            → HasListed (bytes ++ piece.now) self.new (printed ++ string_bytes text.new)) }
    {
        for &byte in piece {
            self.push(byte, text)?;
        }
        Ok(())
    }

    /// Adds the last lines, since the file ends here.
    pub fn finish(&self, text: &mut String) -> Result<(), AllocError>
        ensures { OnOk result ((file printed : List ℕ) → HasListed file self.now (printed ++ string_bytes text.old)
            → IsListing file (printed ++ string_bytes text.new)) }
    {
        if self.version != Some(RecordReader::VERSION) {
            return push_words(text, "VERSION", &[]);
        }
        if self.reader.is_cut() {
            push_words(text, "CUT", &[])?;
        }
        push_words(text, "END", &[self.count])
    }
}
