ghost use Rattle.std.specs.Prelude.{◌<◌, length, vec_len, IfOk, OnOk, IfSome};
ghost use Rattle.listing.specs.Run.{WritesListing};

use crate::Listing;
use std::alloc::{AllocError, Global};
use std::io::{self, ErrorKind, Read, Write};

// How much is read at once, at most.
const PIECE: usize = 65_536;

// Zeros, at least one.
fn zeros(alloc: Global, n: usize) -> Result<Vec<u8>, AllocError>
    requires { 0 < n }
    ensures { IfOk result (λ v. 0 < vec_len v) }
{
    vec![in alloc; 0; n]
}

// As `list`, with this memory for what is read at once.
fn list_by<R: Read, W: Write>(
    alloc: Global,
    input: &mut R,
    output: &mut W,
    piece: &mut [u8],
) -> io::Result<()>
    requires { 0 < length piece.old }
    ensures { OnOk result (IfSome (R.remaining input.old) (λ file. WritesListing file (W.contents output.old) (W.contents output.new))) }
{
    let mut listing = Listing::new(alloc);
    let mut text = String::new(alloc);
    for _ in 0..u64::MAX {
        match input.read(piece) {
            Ok(0) => {
                listing.finish(&mut text)?;
                return output.write_all(text.as_bytes());
            }
            Ok(n) => {
                listing.feed(&piece[..n], &mut text)?;
                output.write_all(text.as_bytes())?;
                text.clear();
            }
            Err(e) if e.kind() == ErrorKind::Interrupted => {}
            Err(e) => return Err(e),
        }
    }
    // 2^64 reads, and no end.
    Err(io::Error::from(ErrorKind::FileTooLarge))
}

/// Reads a file to its end and writes its listing. On an `Err` a front of it may have been written.
pub fn list<R: Read, W: Write>(alloc: Global, input: &mut R, output: &mut W) -> io::Result<()>
    // Whatever sizes the reads come in.
    ensures { OnOk result (IfSome (R.remaining input.old) (λ file. WritesListing file (W.contents output.old) (W.contents output.new))) }
{
    let mut piece = zeros(alloc, PIECE)?;
    list_by(alloc, input, output, &mut piece)
}
