//! Groups of tags, by their names.
ghost use Rattle.std.specs.Prelude.{◌≡◌, ℕ, List, true};
ghost use Rattle.tree_names.specs.Sets.{is_one_of};
ghost use Rattle.tree_names.specs.TagSets.{formatting};
ghost use Rattle.tree_names.specs.Groups.{is_formatting, tag_group};

use crate::names::GROUPS;
use html_lexemes::LocalName;

/// Tags whose names every insertion mode treats alike, both as start tags and as end tags.
#[derive(Clone, Copy, Debug, PartialEq, Eq)]
pub enum TagGroup {
    /// `a`.
    Anchor,
    /// `base`.
    Base,
    /// Blocks but `p`: from `address` to `ul`.
    Block,
    /// `body`.
    Body,
    /// `button`.
    Button,
    /// `caption`.
    Caption,
    /// `td` and `th`.
    Cell,
    /// `col`.
    Column,
    /// `colgroup`.
    ColumnGroup,
    /// `dd` and `dt`.
    Definition,
    /// `form`.
    Form,
    /// Elements with formatting but `a` and `nobr`: from `b` to `u`.
    Formatting,
    /// `frame`.
    Frame,
    /// `frameset`.
    Frameset,
    /// `head`.
    Head,
    /// `h1` to `h6`.
    Heading,
    /// `hr`.
    HorizontalRule,
    /// `html`.
    Html,
    /// `iframe`.
    Iframe,
    /// `image`.
    Image,
    /// `input`.
    Input,
    /// `br`.
    LineBreak,
    /// `basefont`, `bgsound` and `link`.
    Link,
    /// `li`.
    ListItem,
    /// `applet`, `marquee` and `object`.
    Marked,
    /// `math`.
    Math,
    /// `meta`.
    Meta,
    /// `nobr`.
    NoBreak,
    /// `noembed`.
    Noembed,
    /// `noframes`.
    Noframes,
    /// `noscript`.
    Noscript,
    /// `option`.
    OptionItem,
    /// `optgroup`.
    OptionGroup,
    /// `p`.
    Paragraph,
    /// `plaintext`.
    Plaintext,
    /// `pre` and `listing`.
    Preformatted,
    /// `tr`.
    Row,
    /// `rb` and `rtc`.
    RubyBase,
    /// `rp` and `rt`.
    RubyText,
    /// `script`.
    Script,
    /// `tbody`, `tfoot` and `thead`.
    Section,
    /// `select`.
    Select,
    /// `style`.
    Style,
    /// `svg`.
    Svg,
    /// `table`.
    Table,
    /// `template`.
    Template,
    /// `textarea`.
    Textarea,
    /// `title`.
    Title,
    /// `area`, `embed`, `img`, `keygen` and `wbr`.
    VoidPhrase,
    /// `param`, `source` and `track`.
    VoidSource,
    /// `xmp`.
    Xmp,
    /// Any other name.
    Other,
}

impl TagGroup {
    /// The group of a tag's name.
    pub fn of(name: &LocalName) -> TagGroup
        ensures { result ≡ tag_group name.now }
    {
        match name.known() {
            Some(known) => GROUPS[known as usize],
            None => TagGroup::Other,
        }
    }
}

/// Tags of these groups are those of elements with formatting.
pub fn formatting_groups_are_formatting()
    ensures { (name : List ℕ) → is_formatting (tag_group name) ≡ true →
        is_one_of formatting name ≡ true }
{}
