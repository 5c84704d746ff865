// The text of a condition that refuses an operation.
ghost use Rattle.std.specs.Prelude.{◌≡◌, [], ◌∷◌, ◌++◌, OnOk, decimal};
ghost use Rattle.std.specs.List.{join_with_byte};
ghost use Rattle.pf_say.specs.Conditions.{condition_text};

use itoa::Buffer;
use pf_model::Cond;
use std::alloc::AllocError;

/// Puts the text of a condition.
pub(crate) fn put_condition(text: &mut Vec<u8>, cond: Cond) -> Result<(), AllocError>
    ensures { OnOk result (text.new.items ≡ text.old.items ++ condition_text cond) }
{
    match cond {
        Cond::NoEdge => text.extend_from_slice(b"no-edge"),
        Cond::Foreign => text.extend_from_slice(b"foreign"),
        Cond::OnBoundary => text.extend_from_slice(b"on-boundary"),
        Cond::NotConvex => text.extend_from_slice(b"not-convex"),
        Cond::NotShorter => text.extend_from_slice(b"not-shorter"),
        Cond::EdgeThere { c, d } => put_names(text, b"edge-there", c, d),
        Cond::TooShort { a, b } => put_names(text, b"too-short", a, b),
        Cond::NotLongest { a, b } => put_names(text, b"not-longest", a, b),
        Cond::OddMidpoint => text.extend_from_slice(b"odd-middle"),
        Cond::TooWide => text.extend_from_slice(b"too-wide"),
        Cond::Pinched => text.extend_from_slice(b"pinched"),
        Cond::Corner => text.extend_from_slice(b"corner"),
        Cond::OffBoundary => text.extend_from_slice(b"off-boundary"),
        Cond::LinkNode { x } => put_name(text, b"link-node", x),
        Cond::Inverts { x, y } => put_names(text, b"inverts", x, y),
        Cond::TooLong { a, b } => put_names(text, b"too-long", a, b),
    }
}

// Puts a word, and a name behind it.
fn put_name(text: &mut Vec<u8>, word: &[u8], a: u32) -> Result<(), AllocError>
    ensures { OnOk result (text.new.items ≡ text.old.items ++ join_with_byte 32 (word.now ∷ decimal a ∷ [])) }
{
    text.extend_from_slice(word)?;
    text.push(b' ')?;
    text.extend_from_slice(Buffer::new().format(a).as_bytes())?;
    Ok(())
}

/// Puts a word, and two names behind it.
pub(crate) fn put_names(text: &mut Vec<u8>, word: &[u8], a: u32, b: u32) -> Result<(), AllocError>
    ensures { OnOk result (text.new.items ≡ text.old.items ++ join_with_byte 32 (word.now ∷ decimal a ∷ decimal b ∷ [])) }
{
    put_name(text, word, a)?;
    text.push(b' ')?;
    text.extend_from_slice(Buffer::new().format(b).as_bytes())?;
    Ok(())
}
