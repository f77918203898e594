ghost use Rattle.std.specs.Prelude.{◌≡◌, ◌++◌, length, OnOk, string_bytes, codes};
ghost use Rattle.std.specs.List.{flat_map};
ghost use Rattle.listing.specs.Line.{item, line, pdu_line, line_of};
ghost use Rattle.pdu.specs.Decoding.{elements_of};

use numbers::Counted;
use pdu::{Pdu, Stat, decode};
use std::alloc::AllocError;

// The longest message.
const K: u32 = 4_096;

// Adds these numbers, a space before each.
fn push_items(text: &mut String, numbers: &[u64]) -> Result<(), AllocError>
    ensures { OnOk result (string_bytes text.new ≡ string_bytes text.old ++ flat_map item numbers.now) }
{
    for n in numbers {
        write!(text, " {n}")?;
    }
    Ok(())
}

// Adds a line: a word and these numbers.
pub(crate) fn push_words(text: &mut String, word: &str, numbers: &[u64]) -> Result<(), AllocError>
    ensures { OnOk result (string_bytes text.new ≡ string_bytes text.old ++ line word.now numbers.now) }
{
    text.push_str(word)?;
    push_items(text, numbers)?;
    text.push('\n')
}

// Adds the list elements of a STAT with these bytes, which has that many.
fn push_elements(text: &mut String, bytes: &[u8], count: usize) -> Result<(), AllocError>
    requires { count ≡ length (elements_of bytes.now) }
    ensures { OnOk result (string_bytes text.new ≡ string_bytes text.old ++ flat_map item (elements_of bytes.now)) }
{
    for i in 0..count {
        if let Some(element) = Stat::element(bytes, i) {
            push_items(text, &[u64::from(element.word())])?;
        }
    }
    Ok(())
}

// Adds the line of this STAT, which has these bytes.
fn push_stat(text: &mut String, stat: Stat, bytes: &[u8]) -> Result<(), AllocError>
    requires { stat.count ≡ length (elements_of bytes.now) }
    ensures { OnOk result (string_bytes text.new ≡ string_bytes text.old ++ pdu_line (Pdu.Stat stat) bytes.now) }
{
    let ps = u64::from(stat.ps.word());
    let mr = u64::from(stat.mr.word());
    let r = u64::from(stat.r.word());
    text.push_str("STAT")?;
    push_items(text, &[ps, mr, r, stat.count as u64])?;
    push_elements(text, bytes, stat.count)?;
    text.push('\n')
}

/// Adds the line of a record with these bytes. On an `Err` the text may have got a front of it.
#[tactic(auto, unfolding(pdu::specs::Decoding::decode_of))]
pub fn push_line(text: &mut String, bytes: &[u8]) -> Result<(), AllocError>
    ensures { OnOk result (string_bytes text.new ≡ string_bytes text.old ++ line_of bytes.now) }
{
    match decode(K, bytes) {
        Pdu::Sd(sd) => push_words(text, "SD", &[u64::from(sd.s.word()), sd.length as u64]),
        Pdu::Poll(poll) => push_words(
            text,
            "POLL",
            &[u64::from(poll.ps.word()), u64::from(poll.s.word())],
        ),
        Pdu::Stat(stat) => push_stat(text, stat, bytes),
        Pdu::Ustat(ustat) => push_words(
            text,
            "USTAT",
            &[
                u64::from(ustat.mr.word()),
                u64::from(ustat.r.word()),
                u64::from(ustat.first.word()),
                u64::from(ustat.second.word()),
            ],
        ),
        Pdu::Refused(refusal) => push_words(text, "BAD", &[u64::from(refusal.number())]),
    }
}
