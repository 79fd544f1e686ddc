ghost use Rattle.std.specs.Prelude.{◌≡◌, ℕ, ◌≤◌, Option, Some, IfSome};
ghost use Rattle.text_lines.specs.Columns.{IsOfOneColumn, columns_of, columns_of-at_most_two, columns_of-one};
ghost use Rattle.text_lines.specs.Columns.{is_border};

use unicode_width::UnicodeWidthChar;

/// How many columns a character takes on a terminal.
pub trait Columns {
    ghost count: { ℕ → Option ℕ };

    /// The columns of a character, `None` where it has no width.
    fn columns(c: char) -> Option<usize>
        ensures { result ≡ count c };

    ghost at_most_two: { (c : ℕ) → IfSome (count c) (λ n. n ≤ 2) };

    ghost one: { (c : ℕ) → IsOfOneColumn c → count c ≡ Some 1 };
}

/// The columns of `unicode_width` (Unicode Standard Annex #11), at most two. The characters that borders
/// are made of have one.
#[derive(Clone, Copy)]
pub struct UnicodeColumns;

impl Columns for UnicodeColumns {
    ghost count = { columns_of };

    ghost at_most_two = { columns_of-at_most_two };

    ghost one = { columns_of-one };

    #[tactic(auto, unfolding(crate::specs::Columns::columns_of))]
    fn columns(c: char) -> Option<usize> {
        match c {
            // printable ASCII, the common case
            ' '..='~' => Some(1),
            _ if is_border(c) => Some(1),
            _ => c.width().map(|n| n.min(2)),
        }
    }
}

fn is_border(c: char) -> bool
    ensures { result ≡ is_border c }
{
    matches!(
        c,
        '─' | '┬' | '┴' | '┼' | '│' | '┤' | '├' | '┌' | '┐' | '└' | '┘' | '/'
    )
}
