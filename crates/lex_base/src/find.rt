//! A text is looked up among the known names: by three of its bytes, which no two of them have in common.
ghost use Rattle.std.specs.Prelude.{◌≡◌, ◌<◌, chars, map, slice_get, slice_index_or, Some};
ghost use Rattle.lex_base.specs.Known.{all_known, known_at, known_text, place_of};

use crate::known::KnownName;

/// The known name that a text is.
pub fn known_of(name: &str) -> Option<KnownName>
    ensures { result ≡ known_at (chars name.now) }
{
    match candidate(name.as_bytes(), &NUMBERS, &ALL) {
        Some(known) => {
            if known.as_str() == name {
                Some(known)
            } else {
                None
            }
        }
        None => None,
    }
}

// the one known name that a text may be, found by the number at its place
fn candidate(name: &[u8], numbers: &[u8; 1024], all: &[KnownName; 142]) -> Option<KnownName>
    requires { map (λ known. slice_get all.now (slice_index_or numbers.now (place_of (known_text known)) 0)) all_known
        ≡ map (λ known. Some known) all_known }
    ensures { (known : KnownName) → name.now ≡ known_text known → result ≡ Some known }
{
    let number = numbers[place_of(name)];
    match all.get(usize::from(number)) {
        Some(known) => Some(*known),
        None => None,
    }
}

// where a text's number stands
fn place_of(name: &[u8]) -> usize
    ensures place { result ≡ place_of name.now }
    ensures within { result < 1024 }
{
    let first = usize::from(byte_at(name, 0));
    let third = usize::from(byte_at(name, 2));
    let last = usize::from(byte_at(name, name.len().saturating_sub(1)));
    (first + third * 105 + last * 18) % 1024
}

// a byte of a text, 0 after its end
fn byte_at(name: &[u8], at: usize) -> u8
    ensures { result ≡ slice_index_or name.now at 0 }
{
    match name.get(at) {
        Some(byte) => *byte,
        None => 0,
    }
}

// the number of the known name that has this place, 142 where none has it
static NUMBERS: [u8; 1024] = [
    142, 142, 142, 103, 113, 142, 142, 90, 142, 77, 142, 142, 142, 136, 29, 35, 49, 89, 142, 142,
    142, 142, 142, 142, 142, 142, 142, 142, 142, 3, 142, 142, 142, 142, 50, 142, 142, 142, 142,
    142, 142, 79, 142, 142, 142, 142, 142, 142, 142, 142, 142, 142, 51, 53, 142, 142, 142, 142,
    142, 80, 142, 83, 142, 71, 142, 142, 21, 125, 142, 142, 142, 23, 142, 142, 142, 142, 142, 142,
    142, 142, 93, 142, 101, 142, 20, 142, 98, 45, 142, 142, 142, 142, 142, 142, 142, 142, 142, 95,
    142, 142, 142, 142, 16, 142, 142, 142, 142, 25, 56, 142, 142, 142, 142, 142, 142, 142, 142,
    142, 142, 142, 131, 142, 142, 142, 142, 142, 126, 142, 142, 22, 142, 81, 142, 142, 142, 142,
    142, 105, 142, 142, 34, 142, 142, 24, 142, 142, 142, 142, 142, 142, 142, 142, 142, 142, 102,
    142, 133, 142, 142, 142, 6, 142, 142, 142, 85, 142, 142, 142, 142, 142, 142, 142, 142, 142,
    142, 135, 142, 142, 142, 142, 142, 58, 142, 142, 142, 142, 142, 142, 142, 142, 142, 142, 142,
    142, 142, 142, 142, 142, 142, 142, 66, 142, 108, 140, 142, 142, 142, 142, 142, 142, 142, 142,
    142, 142, 142, 142, 142, 142, 142, 142, 142, 142, 142, 142, 142, 142, 142, 86, 142, 142, 142,
    109, 142, 129, 142, 142, 142, 142, 142, 142, 142, 142, 142, 142, 142, 142, 142, 96, 142, 142,
    142, 142, 142, 100, 142, 142, 142, 57, 142, 14, 142, 142, 142, 142, 142, 142, 142, 142, 142,
    142, 142, 142, 68, 142, 142, 142, 142, 142, 32, 4, 142, 142, 142, 142, 142, 142, 142, 142, 84,
    142, 142, 142, 142, 142, 104, 142, 142, 142, 142, 142, 142, 142, 116, 142, 142, 142, 142, 142,
    142, 142, 142, 142, 142, 142, 142, 142, 142, 142, 142, 142, 142, 142, 142, 142, 142, 142, 142,
    142, 142, 142, 142, 142, 142, 142, 142, 142, 142, 142, 142, 142, 142, 142, 142, 142, 142, 142,
    142, 142, 142, 142, 142, 142, 142, 142, 142, 142, 142, 142, 142, 142, 142, 142, 142, 142, 142,
    142, 142, 142, 142, 142, 142, 142, 142, 142, 142, 142, 142, 142, 142, 2, 142, 142, 134, 142,
    142, 142, 142, 142, 142, 19, 142, 142, 142, 142, 142, 142, 142, 142, 142, 142, 142, 142, 142,
    142, 142, 142, 142, 142, 142, 142, 142, 142, 142, 142, 142, 142, 142, 142, 142, 142, 142, 142,
    142, 142, 142, 26, 118, 142, 40, 142, 142, 142, 142, 142, 142, 142, 142, 142, 142, 142, 142,
    142, 142, 142, 142, 142, 142, 39, 142, 142, 142, 142, 142, 74, 142, 142, 65, 142, 142, 142,
    142, 142, 142, 142, 142, 142, 142, 142, 142, 142, 142, 142, 142, 142, 142, 142, 142, 142, 142,
    13, 142, 142, 142, 142, 142, 142, 63, 142, 15, 142, 142, 142, 142, 142, 142, 142, 120, 41, 142,
    142, 142, 142, 142, 142, 142, 142, 142, 37, 142, 142, 142, 142, 142, 142, 82, 142, 142, 142,
    142, 142, 142, 142, 142, 142, 142, 142, 142, 18, 142, 142, 142, 142, 142, 142, 142, 142, 142,
    142, 142, 142, 142, 142, 142, 142, 142, 142, 142, 127, 142, 142, 142, 142, 142, 142, 142, 142,
    142, 142, 142, 142, 142, 142, 142, 142, 142, 142, 142, 142, 142, 142, 142, 142, 142, 142, 142,
    142, 142, 142, 142, 119, 142, 61, 142, 142, 141, 72, 142, 142, 142, 142, 142, 114, 142, 142,
    142, 142, 142, 142, 142, 142, 142, 142, 87, 142, 142, 142, 142, 142, 142, 38, 142, 142, 142,
    142, 142, 142, 142, 142, 142, 142, 142, 142, 142, 142, 142, 142, 142, 115, 142, 142, 142, 142,
    142, 5, 142, 142, 142, 123, 142, 142, 142, 64, 142, 142, 142, 28, 142, 142, 142, 142, 142, 142,
    8, 142, 142, 142, 142, 142, 142, 142, 142, 12, 142, 142, 142, 142, 142, 142, 142, 142, 142,
    142, 142, 142, 142, 142, 142, 142, 142, 10, 142, 142, 142, 142, 142, 142, 142, 142, 142, 142,
    142, 142, 142, 142, 142, 142, 142, 142, 142, 142, 142, 142, 142, 142, 142, 142, 142, 142, 142,
    142, 142, 142, 142, 142, 142, 142, 142, 142, 142, 142, 142, 142, 43, 75, 142, 69, 142, 142,
    142, 142, 142, 142, 94, 142, 142, 142, 142, 142, 142, 142, 142, 142, 142, 142, 142, 142, 142,
    142, 142, 142, 142, 142, 142, 142, 142, 142, 142, 142, 142, 142, 142, 142, 142, 142, 142, 142,
    142, 142, 142, 142, 142, 142, 142, 142, 142, 142, 142, 76, 55, 142, 142, 142, 142, 7, 142, 142,
    142, 142, 142, 142, 142, 142, 142, 142, 142, 142, 142, 142, 142, 142, 142, 142, 130, 142, 142,
    142, 142, 142, 142, 142, 31, 142, 142, 142, 142, 142, 142, 142, 142, 0, 142, 142, 142, 142,
    142, 52, 70, 142, 138, 139, 142, 142, 142, 142, 142, 142, 142, 142, 9, 142, 142, 44, 142, 142,
    62, 142, 142, 142, 42, 73, 142, 142, 142, 142, 97, 142, 142, 142, 142, 142, 142, 106, 122, 142,
    142, 142, 142, 142, 142, 142, 142, 142, 142, 142, 142, 30, 27, 142, 142, 142, 142, 60, 142,
    142, 142, 142, 142, 142, 142, 142, 142, 142, 124, 142, 142, 142, 142, 142, 142, 142, 142, 142,
    142, 142, 142, 117, 111, 142, 107, 142, 142, 142, 142, 142, 142, 142, 142, 142, 142, 142, 142,
    142, 142, 142, 142, 142, 142, 36, 142, 54, 142, 142, 142, 142, 142, 142, 142, 142, 142, 142,
    142, 142, 142, 142, 142, 1, 17, 142, 142, 11, 142, 142, 142, 142, 142, 142, 142, 142, 142, 92,
    121, 88, 142, 132, 128, 142, 142, 142, 142, 142, 142, 59, 142, 142, 67, 78, 142, 142, 142, 142,
    110, 142, 142, 142, 99, 142, 46, 142, 137, 142, 142, 142, 142, 142, 142, 91, 142, 142, 142,
    142, 142, 142, 142, 142, 47, 142, 142, 142, 142, 142, 142, 142, 142, 142, 142, 142, 112, 142,
    142, 142, 33, 142, 48, 142,
];

// the known names by their numbers
static ALL: [KnownName; 142] = [
    KnownName::A,
    KnownName::Action,
    KnownName::Address,
    KnownName::Alt,
    KnownName::AnnotationXml,
    KnownName::Applet,
    KnownName::Area,
    KnownName::Article,
    KnownName::Aside,
    KnownName::B,
    KnownName::Base,
    KnownName::Basefont,
    KnownName::Bgsound,
    KnownName::Big,
    KnownName::Blockquote,
    KnownName::Body,
    KnownName::Br,
    KnownName::Button,
    KnownName::Caption,
    KnownName::Center,
    KnownName::Charset,
    KnownName::Class,
    KnownName::Code,
    KnownName::Col,
    KnownName::Colgroup,
    KnownName::Colspan,
    KnownName::Content,
    KnownName::Dd,
    KnownName::Desc,
    KnownName::Details,
    KnownName::Dialog,
    KnownName::Dir,
    KnownName::Div,
    KnownName::Dl,
    KnownName::Dt,
    KnownName::Em,
    KnownName::Embed,
    KnownName::Fieldset,
    KnownName::Figcaption,
    KnownName::Figure,
    KnownName::Font,
    KnownName::Footer,
    KnownName::Foreignobject,
    KnownName::Form,
    KnownName::Frame,
    KnownName::Frameset,
    KnownName::H1,
    KnownName::H2,
    KnownName::H3,
    KnownName::H4,
    KnownName::H5,
    KnownName::H6,
    KnownName::Head,
    KnownName::Header,
    KnownName::Height,
    KnownName::Hgroup,
    KnownName::Hr,
    KnownName::Href,
    KnownName::Html,
    KnownName::I,
    KnownName::Id,
    KnownName::Iframe,
    KnownName::Image,
    KnownName::Img,
    KnownName::Input,
    KnownName::Keygen,
    KnownName::Lang,
    KnownName::Li,
    KnownName::Link,
    KnownName::Listing,
    KnownName::Main,
    KnownName::Malignmark,
    KnownName::Marquee,
    KnownName::Math,
    KnownName::Menu,
    KnownName::Meta,
    KnownName::Method,
    KnownName::Mglyph,
    KnownName::Mi,
    KnownName::Mn,
    KnownName::Mo,
    KnownName::Ms,
    KnownName::Mtext,
    KnownName::Name,
    KnownName::Nav,
    KnownName::Nobr,
    KnownName::Noembed,
    KnownName::Noframes,
    KnownName::Noscript,
    KnownName::Object,
    KnownName::Ol,
    KnownName::Optgroup,
    KnownName::Option,
    KnownName::P,
    KnownName::Param,
    KnownName::Plaintext,
    KnownName::Pre,
    KnownName::Rb,
    KnownName::Rel,
    KnownName::Role,
    KnownName::Rowspan,
    KnownName::Rp,
    KnownName::Rt,
    KnownName::Rtc,
    KnownName::Ruby,
    KnownName::S,
    KnownName::Script,
    KnownName::Search,
    KnownName::Section,
    KnownName::Select,
    KnownName::Small,
    KnownName::Source,
    KnownName::Span,
    KnownName::Src,
    KnownName::Strike,
    KnownName::Strong,
    KnownName::Style,
    KnownName::Sub,
    KnownName::Summary,
    KnownName::Sup,
    KnownName::Svg,
    KnownName::Table,
    KnownName::Target,
    KnownName::Tbody,
    KnownName::Td,
    KnownName::Template,
    KnownName::Textarea,
    KnownName::Tfoot,
    KnownName::Th,
    KnownName::Thead,
    KnownName::Title,
    KnownName::Tr,
    KnownName::Track,
    KnownName::Tt,
    KnownName::Type,
    KnownName::U,
    KnownName::Ul,
    KnownName::Value,
    KnownName::Var,
    KnownName::Wbr,
    KnownName::Width,
    KnownName::Xmp,
];
