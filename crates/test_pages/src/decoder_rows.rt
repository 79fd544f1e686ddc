//! Bytes in two pieces and their text, by the decoder.
use crate::checks::{holds, passes};
use crate::decoded_text;
use html2text::{ParseFault, Utf8LossyDecoder};
use std::alloc::{AllocError, Global};
use std::process::Abort;

// Bytes in two pieces and their text: the rows of the Unicode Standard's Tables 3-8 to 3-11 among them.
static ROWS: [(&[u8], &[u8], &str); 15] = [
    (b"", b"", ""),
    (b"\xF0\x9F\x98", b"", "\u{FFFD}"),
    (b"\xF0\x9F", b"\x98\x80!", "\u{1F600}!"),
    (b"\xF0\x9F\x98", b"A", "\u{FFFD}A"),
    (b"\xE0", b"\x80", "\u{FFFD}\u{FFFD}"),
    (b"\xF0", b"\x80", "\u{FFFD}\u{FFFD}"),
    (b"\xF4", b"\x90", "\u{FFFD}\u{FFFD}"),
    (b"\xED\xA0", b"\x80", "\u{FFFD}\u{FFFD}\u{FFFD}"),
    (b"caf\xC3", b"\xA9", "caf\u{E9}"),
    (b"a\xFF", b"b", "a\u{FFFD}b"),
    (
        b"\xC0\xAF\xE0\x80\xBF",
        b"\xF0\x81\x82A",
        "\u{FFFD}\u{FFFD}\u{FFFD}\u{FFFD}\u{FFFD}\u{FFFD}\u{FFFD}\u{FFFD}A",
    ),
    (
        b"\xED\xA0\x80\xED\xBF\xBF\xED",
        b"\xAFA",
        "\u{FFFD}\u{FFFD}\u{FFFD}\u{FFFD}\u{FFFD}\u{FFFD}\u{FFFD}\u{FFFD}A",
    ),
    (
        b"\xF4\x91\x92\x93\xFFA\x80",
        b"\xBFB",
        "\u{FFFD}\u{FFFD}\u{FFFD}\u{FFFD}\u{FFFD}A\u{FFFD}\u{FFFD}B",
    ),
    (
        b"\xE1\x80\xE2\xF0\x91",
        b"\x92\xF1\xBFA",
        "\u{FFFD}\u{FFFD}\u{FFFD}\u{FFFD}A",
    ),
    (
        b"a\xF1\x80\x80\xE1\x80\xC2b\x80c\x80",
        b"\xBFd",
        "a\u{FFFD}\u{FFFD}\u{FFFD}b\u{FFFD}c\u{FFFD}\u{FFFD}d",
    ),
];

fn in_two(alloc: Global, first: &[u8], second: &[u8]) -> Result<Vec<Vec<u8>>, AllocError> {
    Ok(vec![in alloc; first.to_vec(alloc)?, second.to_vec(alloc)?]?)
}

fn is_replaced(
    alloc: Global,
    first: &[u8],
    second: &[u8],
    wanted: &str,
) -> Result<bool, ParseFault> {
    let pieces = in_two(alloc, first, second)?;
    Ok(decoded_text(alloc, &pieces)?.as_str() == wanted)
}

#[test]
fn replaces_in_two_pieces(rt: HostRuntime) {
    for (first, second, wanted) in &ROWS {
        passes(&rt, is_replaced(rt.alloc(), first, second, wanted), wanted);
    }
}

// The text of the bytes pushed one by one; after a refusal the decoder answers no more.
fn text_of_single_bytes(
    rt: &(impl AllocGlobal + Abort),
    bytes: &[u8],
) -> Result<String, ParseFault> {
    let mut decoder = Utf8LossyDecoder::new();
    let mut text = String::new(rt.alloc());
    for byte in bytes {
        match decoder.push(rt.alloc(), &[*byte]) {
            Ok(part) => text.push_str(part.as_str())?,
            Err(fault) => {
                let later = decoder.push(rt.alloc(), b"A");
                holds(rt, later.err() == Some(ParseFault::Failed), "a later piece");
                let last = decoder.finish(rt.alloc());
                holds(rt, last.err() == Some(ParseFault::Failed), "the end");
                return Err(fault);
            }
        }
    }
    text.push_str(decoder.finish(rt.alloc())?.as_str())?;
    Ok(text)
}

// It holds where memory is refused, too, as under `rt try --test --fail-alloc`.
#[test]
fn replaces_in_single_bytes_or_refuses(rt: HostRuntime) {
    for (first, second, wanted) in &ROWS {
        let Ok(bytes) = [*first, *second].concat(rt.alloc()) else {
            continue;
        };
        match text_of_single_bytes(&rt, &bytes) {
            Ok(text) => holds(&rt, text.as_str() == *wanted, wanted),
            Err(fault) => holds(&rt, fault == ParseFault::Memory, wanted),
        }
    }
}
