// The one place where bytes have an order: a word is four bytes, the most significant first, and a number is the last three of them.
ghost use Rattle.std.specs.Prelude.{◌≡◌, ◌+◌, ◌<◌, ◌≤◌, ◌^◌, length};
ghost use Rattle.pdu.specs.Layout.{number_at, word, write_at};

// The number in the word that begins at byte `at`.
pub(crate) fn number(bytes: &[u8], at: usize) -> u32
    requires { at + 4 ≤ length bytes.now }
    ensures { result ≡ number_at bytes.now at }
{
    u32::from_be_bytes([0, bytes[at + 1], bytes[at + 2], bytes[at + 3]])
}

// Writes the word with this first byte and this number to the bytes from `at`.
pub(crate) fn put(out: &mut [u8], at: usize, first: u8, number: u32)
    requires room { at + 4 ≤ length out.old }
    requires fits { number < 2 ^ 24 }
    ensures { out.new ≡ write_at at (word first number) out.old }
{
    let [_, high, middle, low] = number.to_be_bytes();
    out[at..at + 4].copy_from_slice(&[first, high, middle, low]);
}
