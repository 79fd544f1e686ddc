//! Texts of spaces.
ghost use Rattle.std.specs.Prelude.{◌≡◌, ◌≤◌, replicate};

/// The most spaces that one text has.
pub(crate) const MOST_SPACES: usize = 64;

const SPACES: &str = "                                                                ";

/// A text of so many spaces.
pub(crate) fn spaces(count: usize) -> &'static str
    requires { count ≤ 64 }
    ensures { result.now ≡ replicate count 0x20 }
{
    let (spaces, _) = SPACES.split_at(count);
    spaces
}
