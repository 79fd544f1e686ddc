// Runs of a text without a character of a set, and how many characters a text has, both found by its bytes.
ghost use Rattle.std.specs.Prelude.{◌≡◌, ◌<◌, ◌≤◌, ℕ, length, replicate, slice_index, IsTrue, chars, true, false};
ghost use Rattle.std.specs.List.{count_by};
ghost use Rattle.html_lexemes.specs.QueueParts.{IsRunOutside, Marks, is_marked, begins_character};

/// The longest beginning of a text without a character of a set.
pub(crate) fn run_outside<'t>(text: &'t str, set: &[char]) -> &'t str
    ensures { IsRunOutside set.now text.now result.now }
{
    let mut marks = [false; 256];
    let length = if mark_all(set, &mut marks) {
        length_before(text.as_bytes(), &marks)
    } else {
        text.find(set).unwrap_or(text.len())
    };
    let (run, _) = text.split_at(length);
    run
}

// Marks the bytes that are characters of a set, where all of the set are ASCII; whether they are.
fn mark_all(set: &[char], marks: &mut [bool; 256]) -> bool
    requires { marks.old ≡ replicate 256 false }
    ensures { IsTrue result → Marks set.now marks.new }
{
    'characters: for c in set {
        if !c.is_ascii() {
            return false;
        }
        marks[*c as usize] = true;
    }
    true
}

// how many bytes stand before the first that is marked
fn length_before(bytes: &[u8], marks: &[bool; 256]) -> usize
    ensures within { result ≤ length bytes.now }
    ensures free { (k : ℕ) → k < result → is_marked marks.now (slice_index bytes.now k) ≡ false }
    ensures stop { result < length bytes.now → is_marked marks.now (slice_index bytes.now result) ≡ true }
{
    let mut at = 0;
    while at < bytes.len() && !marks[bytes[at] as usize] {
        at += 1;
    }
    at
}

/// How many characters a text has.
pub(crate) fn count_of(text: &str) -> usize
    ensures { result ≡ length (chars text.now) }
{
    let mut rest = text.as_bytes();
    let mut count = 0;
    while !rest.is_empty() {
        let (part, trailing) = rest.split_at(rest.len().min(255));
        count += usize::from(count_of_part(part));
        rest = trailing;
    }
    count
}

// How many of a few bytes begin a character. A sum that fits a byte is made of many bytes at a time.
fn count_of_part(bytes: &[u8]) -> u8
    requires { length bytes.now ≤ 255 }
    ensures { result ≡ count_by begins_character bytes.now }
{
    let mut count = 0;
    'bytes: for byte in bytes {
        count += u8::from(begins_character(*byte));
    }
    count
}

// Each character has one byte that continues no other.
fn begins_character(byte: u8) -> bool
    ensures { result ≡ begins_character byte }
{
    byte < 0x80 || byte >= 0xC0
}
