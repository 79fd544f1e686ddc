//! The known names and their texts.
ghost use Rattle.std.specs.Prelude.{◌≡◌, chars, map};
ghost use Rattle.lex_base.specs.Known.{all_known, known_text};
ghost use Rattle.lex_base.specs.Words.{words_of};

/// A name that is known without a text.
#[derive(Clone, Copy, PartialEq, Eq)]
pub enum KnownName {
    /// `a`.
    A,
    /// `action`.
    Action,
    /// `address`.
    Address,
    /// `alt`.
    Alt,
    /// `annotation-xml`.
    AnnotationXml,
    /// `applet`.
    Applet,
    /// `area`.
    Area,
    /// `article`.
    Article,
    /// `aside`.
    Aside,
    /// `b`.
    B,
    /// `base`.
    Base,
    /// `basefont`.
    Basefont,
    /// `bgsound`.
    Bgsound,
    /// `big`.
    Big,
    /// `blockquote`.
    Blockquote,
    /// `body`.
    Body,
    /// `br`.
    Br,
    /// `button`.
    Button,
    /// `caption`.
    Caption,
    /// `center`.
    Center,
    /// `charset`.
    Charset,
    /// `class`.
    Class,
    /// `code`.
    Code,
    /// `col`.
    Col,
    /// `colgroup`.
    Colgroup,
    /// `colspan`.
    Colspan,
    /// `content`.
    Content,
    /// `dd`.
    Dd,
    /// `desc`.
    Desc,
    /// `details`.
    Details,
    /// `dialog`.
    Dialog,
    /// `dir`.
    Dir,
    /// `div`.
    Div,
    /// `dl`.
    Dl,
    /// `dt`.
    Dt,
    /// `em`.
    Em,
    /// `embed`.
    Embed,
    /// `fieldset`.
    Fieldset,
    /// `figcaption`.
    Figcaption,
    /// `figure`.
    Figure,
    /// `font`.
    Font,
    /// `footer`.
    Footer,
    /// `foreignobject`.
    Foreignobject,
    /// `form`.
    Form,
    /// `frame`.
    Frame,
    /// `frameset`.
    Frameset,
    /// `h1`.
    H1,
    /// `h2`.
    H2,
    /// `h3`.
    H3,
    /// `h4`.
    H4,
    /// `h5`.
    H5,
    /// `h6`.
    H6,
    /// `head`.
    Head,
    /// `header`.
    Header,
    /// `height`.
    Height,
    /// `hgroup`.
    Hgroup,
    /// `hr`.
    Hr,
    /// `href`.
    Href,
    /// `html`.
    Html,
    /// `i`.
    I,
    /// `id`.
    Id,
    /// `iframe`.
    Iframe,
    /// `image`.
    Image,
    /// `img`.
    Img,
    /// `input`.
    Input,
    /// `keygen`.
    Keygen,
    /// `lang`.
    Lang,
    /// `li`.
    Li,
    /// `link`.
    Link,
    /// `listing`.
    Listing,
    /// `main`.
    Main,
    /// `malignmark`.
    Malignmark,
    /// `marquee`.
    Marquee,
    /// `math`.
    Math,
    /// `menu`.
    Menu,
    /// `meta`.
    Meta,
    /// `method`.
    Method,
    /// `mglyph`.
    Mglyph,
    /// `mi`.
    Mi,
    /// `mn`.
    Mn,
    /// `mo`.
    Mo,
    /// `ms`.
    Ms,
    /// `mtext`.
    Mtext,
    /// `name`.
    Name,
    /// `nav`.
    Nav,
    /// `nobr`.
    Nobr,
    /// `noembed`.
    Noembed,
    /// `noframes`.
    Noframes,
    /// `noscript`.
    Noscript,
    /// `object`.
    Object,
    /// `ol`.
    Ol,
    /// `optgroup`.
    Optgroup,
    /// `option`.
    Option,
    /// `p`.
    P,
    /// `param`.
    Param,
    /// `plaintext`.
    Plaintext,
    /// `pre`.
    Pre,
    /// `rb`.
    Rb,
    /// `rel`.
    Rel,
    /// `role`.
    Role,
    /// `rowspan`.
    Rowspan,
    /// `rp`.
    Rp,
    /// `rt`.
    Rt,
    /// `rtc`.
    Rtc,
    /// `ruby`.
    Ruby,
    /// `s`.
    S,
    /// `script`.
    Script,
    /// `search`.
    Search,
    /// `section`.
    Section,
    /// `select`.
    Select,
    /// `small`.
    Small,
    /// `source`.
    Source,
    /// `span`.
    Span,
    /// `src`.
    Src,
    /// `strike`.
    Strike,
    /// `strong`.
    Strong,
    /// `style`.
    Style,
    /// `sub`.
    Sub,
    /// `summary`.
    Summary,
    /// `sup`.
    Sup,
    /// `svg`.
    Svg,
    /// `table`.
    Table,
    /// `target`.
    Target,
    /// `tbody`.
    Tbody,
    /// `td`.
    Td,
    /// `template`.
    Template,
    /// `textarea`.
    Textarea,
    /// `tfoot`.
    Tfoot,
    /// `th`.
    Th,
    /// `thead`.
    Thead,
    /// `title`.
    Title,
    /// `tr`.
    Tr,
    /// `track`.
    Track,
    /// `tt`.
    Tt,
    /// `type`.
    Type,
    /// `u`.
    U,
    /// `ul`.
    Ul,
    /// `value`.
    Value,
    /// `var`.
    Var,
    /// `wbr`.
    Wbr,
    /// `width`.
    Width,
    /// `xmp`.
    Xmp,
}

impl KnownName {
    /// The name, lent.
    pub fn as_str(self) -> &'static str
        ensures bytes { result.now ≡ known_text self }
        ensures characters { chars result.now ≡ known_text self }
    {
        text_in(&TEXTS, self)
    }
}

// the text of a name, in a table of all
fn text_in(texts: &[&'static str; 142], known: KnownName) -> &'static str
    requires { words_of texts.now ≡ map known_text all_known }
    ensures { result.now ≡ known_text known }
{
    texts[known as usize]
}

static TEXTS: [&str; 142] = [
    "a",
    "action",
    "address",
    "alt",
    "annotation-xml",
    "applet",
    "area",
    "article",
    "aside",
    "b",
    "base",
    "basefont",
    "bgsound",
    "big",
    "blockquote",
    "body",
    "br",
    "button",
    "caption",
    "center",
    "charset",
    "class",
    "code",
    "col",
    "colgroup",
    "colspan",
    "content",
    "dd",
    "desc",
    "details",
    "dialog",
    "dir",
    "div",
    "dl",
    "dt",
    "em",
    "embed",
    "fieldset",
    "figcaption",
    "figure",
    "font",
    "footer",
    "foreignobject",
    "form",
    "frame",
    "frameset",
    "h1",
    "h2",
    "h3",
    "h4",
    "h5",
    "h6",
    "head",
    "header",
    "height",
    "hgroup",
    "hr",
    "href",
    "html",
    "i",
    "id",
    "iframe",
    "image",
    "img",
    "input",
    "keygen",
    "lang",
    "li",
    "link",
    "listing",
    "main",
    "malignmark",
    "marquee",
    "math",
    "menu",
    "meta",
    "method",
    "mglyph",
    "mi",
    "mn",
    "mo",
    "ms",
    "mtext",
    "name",
    "nav",
    "nobr",
    "noembed",
    "noframes",
    "noscript",
    "object",
    "ol",
    "optgroup",
    "option",
    "p",
    "param",
    "plaintext",
    "pre",
    "rb",
    "rel",
    "role",
    "rowspan",
    "rp",
    "rt",
    "rtc",
    "ruby",
    "s",
    "script",
    "search",
    "section",
    "select",
    "small",
    "source",
    "span",
    "src",
    "strike",
    "strong",
    "style",
    "sub",
    "summary",
    "sup",
    "svg",
    "table",
    "target",
    "tbody",
    "td",
    "template",
    "textarea",
    "tfoot",
    "th",
    "thead",
    "title",
    "tr",
    "track",
    "tt",
    "type",
    "u",
    "ul",
    "value",
    "var",
    "wbr",
    "width",
    "xmp",
];
