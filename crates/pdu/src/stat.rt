ghost use Rattle.std.specs.Prelude.{◌≡◌, ◌≤◌, ◌+◌, ◌*◌, ◌↔◌, length, drop, ◌++◌, [], ◌∷◌, IsTrue, slice_get};
ghost use Rattle.std.specs.Option.{option_map};
ghost use Rattle.numbers.specs.Numbers.{seq_no};
ghost use Rattle.std.specs.List.{flat_map};
ghost use Rattle.pdu.specs.Layout.{word, stat_bytes};
ghost use Rattle.pdu.specs.Decoding.{read_stat, elements_of};
ghost use Rattle.pdu.specs.Encoding.{all_below, refused_numbers, encoded, written};

use crate::Refusal;
use crate::bytes::{number, put};
use numbers::{Counted, PollNo, SeqNo};

/// STAT: N(PS), N(MR), N(R), and how many list elements stand in its bytes.
#[derive(Clone, Copy, Debug)]
pub struct Stat {
    pub ps: PollNo,
    pub mr: SeqNo,
    pub r: SeqNo,
    pub count: usize,
}

impl Stat {
    pub const HEAD: usize = 12;

    pub const TYPE: u8 = 11;

    // What STAT's bytes say, but for the list.
    pub(crate) fn read(bytes: &[u8]) -> Stat
        requires { 12 ≤ length bytes.now }
        ensures { result ≡ read_stat bytes.now }
    {
        let head = bytes.len() - Stat::HEAD;
        Stat {
            ps: PollNo::from_word(number(bytes, head)),
            mr: SeqNo::from_word(number(bytes, head + 4)),
            r: SeqNo::from_word(number(bytes, head + 8)),
            count: head / 4,
        }
    }

    /// List element i of a STAT with these bytes, if it has one. (Of bytes that are no STAT it says what the words there would.)
    #[tactic(auto, using(crate::proofs::Elements::elements))]
    pub fn element(bytes: &[u8], i: usize) -> Option<SeqNo>
        ensures { result ≡ option_map seq_no (slice_get (elements_of bytes.now) i) }
    {
        if i < bytes.len().saturating_sub(Stat::HEAD) / 4 {
            Some(SeqNo::from_word(number(bytes, 4 * i)))
        } else {
            None
        }
    }
}

fn all_in_range(elements: &[u32]) -> bool
    ensures { result ≡ all_below elements.now }
{
    elements.iter().all(|&n| SeqNo::from_word(n).in_range())
}

// Writes the list elements to the start of the output.
#[tactic(auto, using(crate::proofs::Lists::list_more))]
fn put_list(out: &mut [u8], elements: &[u32])
    requires room { 4 * length elements.now ≤ length out.old }
    requires in_range { IsTrue (all_below elements.now) }
    ensures { out.new ≡ flat_map (word 0) elements.now ++ drop (4 * length elements.now) out.old }
{
    for (i, &element) in elements.iter().enumerate() {
        put(out, 4 * i, 0, element);
    }
}

// Writes the STAT to the start of the output.
#[tactic(auto, using(crate::proofs::Lists::write_head))]
fn put_stat(out: &mut [u8], ps: u32, mr: u32, r: u32, elements: &[u32])
    requires room { 4 * length elements.now + 12 ≤ length out.old }
    requires in_range { IsTrue (all_below (ps ∷ mr ∷ r ∷ elements.now)) }
    ensures { out.new ≡ stat_bytes ps mr r elements.now ++ drop (4 * length elements.now + 12) out.old }
{
    let head = 4 * elements.len();
    put_list(out, elements);
    put(out, head, 0, ps);
    put(out, head + 4, 0, mr);
    put(out, head + 8, Stat::TYPE, r);
}

// Whether a STAT with these elements fits.
fn has_room(out: &[u8], elements: &[u32]) -> bool
    ensures { IsTrue result ↔ (4 * length elements.now + 12 ≤ length out.now) }
{
    out.len() >= Stat::HEAD && elements.len() <= (out.len() - Stat::HEAD) / 4
}

/// Writes a STAT with these list elements and gives the count of its bytes. Refusals, in this order: 19, 8.
#[tactic(auto, using(crate::proofs::Lists::length_stat))]
pub fn encode_stat(
    ps: PollNo,
    mr: SeqNo,
    r: SeqNo,
    elements: &[u32],
    out: &mut [u8],
) -> Result<usize, Refusal>
    ensures answer { result ≡ encoded (refused_numbers (ps.0 ∷ mr.0 ∷ r.0 ∷ elements.now)) (stat_bytes ps.0 mr.0 r.0 elements.now) out.old }
    ensures output { out.new ≡ written result (stat_bytes ps.0 mr.0 r.0 elements.now) out.old }
{
    if !ps.in_range() || !mr.in_range() || !r.in_range() || !all_in_range(elements) {
        return Err(Refusal::NumberTooLarge);
    }
    if !has_room(out, elements) {
        return Err(Refusal::NoRoom);
    }
    put_stat(out, ps.word(), mr.word(), r.word(), elements);
    Ok(4 * elements.len() + Stat::HEAD)
}
