ghost use Rattle.std.specs.Prelude.{◌≡◌, ℕ, ◌∷◌, List, IsTrue, MatchOption};
ghost use Rattle.std.specs.Char.{IsScalar};
ghost use Rattle.token_grammar.specs.PageText.{page_text};
ghost use Rattle.html_tokenizer.specs.declared.line_ends.LineEnds.TheVariants.{Within as WithinText};

/// How the characters of a page become those of its text: a first U+FEFF may be dropped, and each CR LF, CR and LF is
/// one LF (WHATWG HTML, 13.2.3.5), also where a CR LF is cut in two.
#[derive(Clone, Copy)]
pub(crate) enum LineEnds {
    /// Before the first character, where a U+FEFF is dropped.
    AtMark,
    /// After a CR, which was given as a LF.
    AfterReturn,
    /// Anywhere else.
    Within,
}

impl LineEnds {
    ghost use Rattle.html_tokenizer.specs.PageRest.{page_rest, rest_after};

    /// Before the first character.
    pub(crate) fn new(discard_mark: bool) -> LineEnds
        ensures { (rest : List ℕ) → page_rest result rest ≡ page_text discard_mark rest }
    {
        if discard_mark {
            LineEnds::AtMark
        } else {
            LineEnds::Within
        }
    }

    /// After a character.
    pub(crate) fn trailing(c: char) -> LineEnds
        ensures { (rest : List ℕ) → page_rest result rest ≡ rest_after c rest }
    {
        if c == '\r' {
            LineEnds::AfterReturn
        } else {
            LineEnds::Within
        }
    }

    /// Whether each character but CR is in the text as it is.
    #[inline(always)]
    pub(crate) fn is_within(self) -> bool
        ensures { IsTrue result → self ≡ WithinText }
    {
        matches!(self, LineEnds::Within)
    }

    /// What a further character of the page is in its text. `None` is nothing: a first U+FEFF, or the LF of a CR LF.
    pub(crate) fn ended(self, c: char) -> Option<char>
        requires { IsScalar c }
        ensures { MatchOption result ((rest : List ℕ) → page_rest self (c ∷ rest) ≡ rest_after c rest)
            (λ d. IsScalar d × ((rest : List ℕ) → page_rest self (c ∷ rest) ≡ d ∷ rest_after c rest)) }
    {
        match (self, c) {
            (LineEnds::AtMark, '\u{feff}') | (LineEnds::AfterReturn, '\n') => None,
            (_, '\r') => Some('\n'),
            _ => Some(c),
        }
    }
}
