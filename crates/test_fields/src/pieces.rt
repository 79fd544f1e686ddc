//! Texts in pieces.
ghost use Rattle.std.specs.Prelude.{◌≡◌, ◌∷◌, [], chars, drop, map, string_bytes, take, IfOk};

use std::alloc::{AllocError, Global};

/// A text as one piece. The error is allocation failure.
pub fn whole(alloc: Global, text: &str) -> Result<Vec<String>, AllocError>
    ensures { IfOk result (λ pieces. map (λ piece. chars (string_bytes piece)) pieces.items ≡ chars text.now ∷ []) }
{
    let text = String::from_str(alloc, text)?;
    Ok(vec![in alloc; text]?)
}

/// A piece for each character of a text. The error is allocation failure.
pub fn characters(alloc: Global, text: &str) -> Result<Vec<String>, AllocError>
    ensures { IfOk result (λ pieces. map (λ piece. chars (string_bytes piece)) pieces.items
        ≡ map (λ c. c ∷ []) (chars text.now)) }
{
    let mut pieces = Vec::new(alloc);
    for c in text.chars() {
        pieces.push(piece_of(alloc, c)?)?;
    }
    Ok(pieces)
}

fn piece_of(alloc: Global, c: char) -> Result<String, AllocError>
    ensures { IfOk result (λ piece. chars (string_bytes piece) ≡ c ∷ []) }
{
    let mut piece = String::new(alloc);
    piece.push(c)?;
    Ok(piece)
}

/// Two pieces of a text: the first characters, so many, and the others. The error is allocation failure.
pub fn halves(alloc: Global, text: &str, count: usize) -> Result<Vec<String>, AllocError>
    ensures { IfOk result (λ pieces. map (λ piece. chars (string_bytes piece)) pieces.items
        ≡ take count (chars text.now) ∷ drop count (chars text.now) ∷ []) }
{
    let mut front = String::new(alloc);
    let mut back = String::new(alloc);
    let mut left = count;
    for c in text.chars() {
        if left > 0 {
            left -= 1;
            front.push(c)?;
        } else {
            back.push(c)?;
        }
    }
    Ok(vec![in alloc; front, back]?)
}
