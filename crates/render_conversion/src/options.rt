//! Which parts of a page have values, beside what rules of style say.

ghost use Rattle.std.specs.Prelude.{◌≡◌};
ghost use Rattle.render_conversion.specs.Options.{pages_of};

/// Which rows the table of conversion has.
#[derive(Clone, Copy, Debug, PartialEq, Eq)]
pub enum Pages {
    /// Its own alone.
    Plain,
    /// Before these the rows for elements that are left out, joined or shown as they are written without them.
    Complete,
}

impl Pages {
    /// Complete pages or not.
    pub fn of(complete: bool) -> Pages
        ensures { result ≡ pages_of complete }
    {
        if complete {
            return Pages::Complete;
        }
        Pages::Plain
    }
}

/// Which parts of a page have values, beside what rules of style say.
#[derive(Clone, Copy, Debug, PartialEq, Eq)]
pub struct ConversionOptions {
    /// Which rows the table of conversion has.
    pub pages: Pages,
    /// Whether elements that hide themselves have none: by an attribute `hidden` whose value isn't `until-found`, or by
    /// a declaration `display: none` in their attribute `style`. The elements `html` and `body` never hide themselves.
    pub skip_hidden: bool,
}

impl Default for ConversionOptions {
    ghost use Rattle.render_conversion.specs.Options.{default_conversion};

    ghost is_default = { λ options. options ≡ default_conversion };

    /// The table's own rows, and elements that hide themselves are as others.
    fn default() -> ConversionOptions {
        ConversionOptions {
            pages: Pages::Plain,
            skip_hidden: false,
        }
    }
}
