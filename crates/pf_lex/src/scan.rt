//! Runs of bytes at the front of a text.
ghost use Rattle.std.specs.Prelude.{◌≡◌, ◌<◌, ◌≤◌, ◌↔◌, IsTrue, length};
ghost use Rattle.std.specs.List.{prefix_len, position_or_len, before_first, after_first};
ghost use Rattle.pf_lex.specs.Text.{is_gap, is_newline, is_word_byte};

use memchr::memchr;

fn is_gap(byte: u8) -> bool
    ensures { result ≡ is_gap byte }
{
    byte == b' ' || byte == b'\t' || byte == b'\r'
}

fn is_word_byte(byte: u8) -> bool
    ensures { result ≡ is_word_byte byte }
{
    !is_gap(byte) && byte != b'#'
}

// How many gaps stand in front.
pub(crate) fn gap_len(bytes: &[u8]) -> usize
    ensures in_range { result ≤ length bytes.now }
    ensures run { result ≡ prefix_len is_gap bytes.now }
{
    for (n, byte) in bytes.iter().enumerate() {
        if !is_gap(*byte) {
            return n;
        }
    }
    bytes.len()
}

// How many bytes of a word stand in front.
pub(crate) fn word_len(bytes: &[u8]) -> usize
    ensures in_range { result ≤ length bytes.now }
    ensures run { result ≡ prefix_len is_word_byte bytes.now }
{
    for (n, byte) in bytes.iter().enumerate() {
        if !is_word_byte(*byte) {
            return n;
        }
    }
    bytes.len()
}

// Whether a byte of a word stands in front.
pub(crate) fn starts_word(bytes: &[u8]) -> bool
    ensures { IsTrue result ↔ (0 < prefix_len is_word_byte bytes.now) }
{
    match bytes.first() {
        Some(byte) => is_word_byte(*byte),
        None => false,
    }
}

// How many bytes stand before the first newline. Out of line, since the search is large.
#[inline(never)]
fn line_len(bytes: &[u8]) -> usize
    ensures in_range { result ≤ length bytes.now }
    ensures run { result ≡ position_or_len is_newline bytes.now }
{
    memchr(b'\n', bytes).unwrap_or(bytes.len())
}

// The first line, and what follows its newline.
pub(crate) fn split_line(bytes: &[u8]) -> (&[u8], &[u8])
    ensures line { result.0.now ≡ before_first is_newline bytes.now }
    ensures rest { result.1.now ≡ after_first is_newline bytes.now }
    ensures line_len { length result.0.now ≤ length bytes.now }
    ensures rest_len { 0 < length bytes.now → length result.1.now < length bytes.now }
{
    let n = line_len(bytes);
    if n < bytes.len() {
        (&bytes[..n], &bytes[n + 1..])
    } else {
        (bytes, &bytes[n..])
    }
}
