ghost use Rattle.std.specs.Prelude.{◌≡◌};
ghost use Rattle.text_pieces.specs.Modes.{is_preserved, is_wrapped};

/// How a text's white space is laid out (CSS Text, `white-space`).
#[derive(Clone, Copy, Debug, Default, PartialEq, Eq)]
pub enum WhiteSpace {
    /// White space collapses to one space, and lines break at it (`normal`).
    #[default]
    Normal,
    /// White space stays, and lines break at line ends alone, or where they are full (`pre`).
    Pre,
    /// White space stays, and lines break at it too (`pre-wrap`).
    PreWrap,
}

impl WhiteSpace {
    /// Whether white space stays as it is.
    pub fn preserve_whitespace(&self) -> bool
        ensures { result ≡ is_preserved self.now }
    {
        match self {
            WhiteSpace::Normal => false,
            WhiteSpace::Pre | WhiteSpace::PreWrap => true,
        }
    }

    /// Whether lines break at white space.
    pub fn do_wrap(&self) -> bool
        ensures { result ≡ is_wrapped self.now }
    {
        match self {
            WhiteSpace::Normal | WhiteSpace::PreWrap => true,
            WhiteSpace::Pre => false,
        }
    }
}
