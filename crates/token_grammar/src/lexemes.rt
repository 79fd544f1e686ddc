ghost use Rattle.std.specs.Prelude.{◌≡◌, ◌∷◌, [], if◌then◌else◌, ◌&&◌, ◌==◌, IfOk, IfSome, None, Some, chars, codes};
ghost use Rattle.std.specs.Prelude.{drop, map, option_map};
ghost use Rattle.std.specs.Str.{IsUtf8};
ghost use Rattle.token_grammar.specs.Characters.{is_letter, shown};
ghost use Rattle.token_grammar.specs.Doctypes.{doctype_at};
ghost use Rattle.token_grammar.specs.Items.{characters, item_of};
ghost use Rattle.token_grammar.specs.Lexemes.{after_slash, begins_tag, cdata_lexeme, comment_lexeme, declaration};
ghost use Rattle.token_grammar.specs.Lexemes.{doctype_lexeme, emitted, ends_raw_text, has_end_tags, has_references};
ghost use Rattle.token_grammar.specs.Lexemes.{is_last, kind_after, lexeme, markup, named_end_tag, ordinary_item};
ghost use Rattle.token_grammar.specs.Lexemes.{ordinary_lexeme, raw_lexeme, reference_lexeme, tag_lexeme};
ghost use Rattle.token_grammar.specs.PlainRead.{items_of, lexeme_of};
ghost use Rattle.token_grammar.specs.Slices.{after, begins, cut, cut_or_all, first_passes, front_while, rest_while};
ghost use Rattle.token_grammar.specs.Tags.{ends_tag_name, tag_at};
ghost use Rattle.token_grammar.specs.Read.{cut_of};
ghost use Rattle.token_grammar.specs.References.{reference};
ghost use Rattle.token_grammar.specs.Emitted.{HasRest};
ghost use Rattle.token_grammar.specs.declared.modes.Mode.{Mode as SeenMode};

use crate::characters::shown_character;
use crate::comments::{bogus_comment_slice, comment_slice, shown};
use crate::doctypes::doctype_at;
use crate::modes::{Mode, TextKind};
use crate::references::{Found, reference};
use crate::slices::{
    CharacterClass, cut_at, first_and_rest, rest_after_word, split_while, trailing,
};
use crate::tags::{name_of, tag_at};
use html_lexemes::states::{RawKind, ScriptEscapeKind};
use html_lexemes::{ErrorMessage, LocalName, ReferenceTable, Tag, TagKind, Text, Token};
use std::alloc::{AllocError, Global};

/// What stands first in a text.
#[derive(Drop)]
pub enum Lexeme<'t> {
    /// Nothing: the end, also in a tag.
    Nothing,
    /// Some tokens, the kind of the text after them, and that text.
    Emitted(Vec<Token>, TextKind, &'t str),
    /// A tag, and the text after it.
    Tagged(Tag, &'t str),
}

/// What stands first in a text that is read in a mode (WHATWG HTML, 13.2.5); `foreign` says that the adjusted current
/// node is foreign. The error is allocation failure alone.
pub fn lexeme_at<'t>(
    alloc: Global,
    table: &ReferenceTable,
    foreign: bool,
    mode: &Mode,
    text: &'t str,
) -> Result<Lexeme<'t>, AllocError>
    ensures value { IfOk result (λ l. lexeme_of mode.now l ≡ lexeme table.now foreign mode.now (chars text.now)) }
    ensures utf8 { IfOk result HasRest }
{
    let Some((c, rest)) = first_and_rest(text) else {
        return Ok(Lexeme::Nothing);
    };
    match mode.text {
        TextKind::Ordinary => ordinary(alloc, table, foreign, mode, c, rest),
        TextKind::Plain => one_character(alloc, TextKind::Plain, shown_character(c), rest),
        TextKind::Raw(kind) => raw(alloc, table, kind, mode, c, text, rest),
    }
}

// one token, and what follows it
fn emitted_one(
    alloc: Global,
    token: Token,
    text: TextKind,
    rest: &str,
) -> Result<Lexeme<'_>, AllocError>
    ensures value { IfOk result (λ l. (mode : SeenMode) → lexeme_of mode l
        ≡ emitted (item_of token ∷ []) (record mode { text = text }) (chars rest.now)) }
    ensures utf8 { IfOk result HasRest }
{
    let mut tokens = Vec::new(alloc);
    tokens.push(token)?;
    Ok(Lexeme::Emitted(tokens, text, rest))
}

// one character of text, and what follows it
fn one_character(
    alloc: Global,
    text: TextKind,
    c: char,
    rest: &str,
) -> Result<Lexeme<'_>, AllocError>
    ensures value { IfOk result (λ l. (mode : SeenMode) → lexeme_of mode l
        ≡ emitted (characters (c ∷ []) ∷ []) (record mode { text = text }) (chars rest.now)) }
    ensures utf8 { IfOk result HasRest }
{
    emitted_one(
        alloc,
        Token::CharacterTokens(text_of(alloc, c)?),
        text,
        rest,
    )
}

fn text_of(alloc: Global, c: char) -> Result<Text, AllocError>
    ensures { IfOk result (λ text. text ≡ c ∷ []) }
{
    let mut characters = String::new(alloc);
    characters.push(c)?;
    Ok(Text::from(characters))
}

// what stands first in ordinary text (WHATWG HTML, 13.2.5.1), at its first character
fn ordinary<'t>(
    alloc: Global,
    table: &ReferenceTable,
    foreign: bool,
    mode: &Mode,
    c: char,
    rest: &'t str,
) -> Result<Lexeme<'t>, AllocError>
    ensures value { IfOk result (λ l. lexeme_of mode.now l
        ≡ ordinary_lexeme table.now foreign mode.now c (chars rest.now)) }
    ensures utf8 { IfOk result HasRest }
{
    match c {
        '<' => markup(alloc, table, foreign, mode, rest),
        '&' => reference_or_sign(alloc, table, mode, rest),
        '\0' => emitted_one(alloc, Token::NullCharacterToken, mode.text, rest),
        _ => one_character(alloc, mode.text, c, rest),
    }
}

/// What a `&` begins, from after it on (WHATWG HTML, 13.2.5.72). The error is allocation failure alone.
pub fn reference_or_sign<'t>(
    alloc: Global,
    table: &ReferenceTable,
    mode: &Mode,
    rest: &'t str,
) -> Result<Lexeme<'t>, AllocError>
    ensures value { IfOk result (λ l. lexeme_of mode.now l ≡ reference_lexeme mode.now (chars rest.now)
        (reference table.now (chars rest.now))) }
    ensures utf8 { IfOk result HasRest }
{
    let Some(found) = reference(alloc, table, rest)? else {
        return one_character(alloc, mode.text, '&', rest);
    };
    let message = without_semicolon(rest);
    let Found {
        characters,
        closed,
        rest,
    } = found;
    let mut tokens = Vec::new(alloc);
    if !closed {
        tokens.push(Token::ParseError(message))?;
    }
    tokens.push(Token::CharacterTokens(characters))?;
    Ok(Lexeme::Emitted(tokens, mode.text, rest))
}

// what is said of a reference without its semicolon, from after its `&` on
fn without_semicolon(reference: &str) -> ErrorMessage {
    ErrorMessage::Fixed(if reference.starts_with('#') {
        "Semicolon missing after numeric character reference"
    } else {
        "Character reference does not end with semicolon"
    })
}

/// What a `<` begins in ordinary text, from after it on (WHATWG HTML, 13.2.5.6). The error is allocation failure
/// alone.
pub fn markup<'t>(
    alloc: Global,
    table: &ReferenceTable,
    foreign: bool,
    mode: &Mode,
    rest: &'t str,
) -> Result<Lexeme<'t>, AllocError>
    ensures value { IfOk result (λ l. lexeme_of mode.now l ≡ markup table.now foreign mode.now (chars rest.now)) }
    ensures utf8 { IfOk result HasRest }
{
    let Some((c, after_c)) = first_and_rest(rest) else {
        return one_character(alloc, mode.text, '<', rest);
    };
    if c.is_ascii_alphabetic() {
        return tag_or_nothing(alloc, table, TagKind::StartTag, rest);
    }
    match c {
        '/' => end_tag(alloc, table, mode, after_c),
        '!' => declaration(alloc, foreign, mode, after_c),
        '?' => comment(alloc, mode, bogus_comment_slice(rest)),
        _ => one_character(alloc, mode.text, '<', rest),
    }
}

/// The tag whose name begins here, or nothing where the end cuts it off. The error is allocation failure alone.
pub fn tag_or_nothing<'t>(
    alloc: Global,
    table: &ReferenceTable,
    kind: TagKind,
    text: &'t str,
) -> Result<Lexeme<'t>, AllocError>
    ensures value { IfOk result (λ l. (mode : SeenMode) →
        lexeme_of mode l ≡ tag_lexeme (tag_at table.now kind (chars text.now))) }
    ensures utf8 { IfOk result HasRest }
{
    match tag_at(alloc, table, kind, text)? {
        Some((tag, rest)) => Ok(Lexeme::Tagged(tag, rest)),
        None => Ok(Lexeme::Nothing),
    }
}

/// What a `</` begins in ordinary text, from after it on (WHATWG HTML, 13.2.5.7). The error is allocation failure
/// alone.
pub fn end_tag<'t>(
    alloc: Global,
    table: &ReferenceTable,
    mode: &Mode,
    rest: &'t str,
) -> Result<Lexeme<'t>, AllocError>
    ensures value { IfOk result (λ l. lexeme_of mode.now l ≡ after_slash table.now mode.now (chars rest.now)) }
    ensures utf8 { IfOk result HasRest }
{
    let Some((c, after_c)) = first_and_rest(rest) else {
        return one_character(alloc, mode.text, '<', "/");
    };
    if c.is_ascii_alphabetic() {
        return tag_or_nothing(alloc, table, TagKind::EndTag, rest);
    }
    if c == '>' {
        let message = ErrorMessage::Fixed("Bad character");
        return emitted_one(alloc, Token::ParseError(message), mode.text, after_c);
    }
    comment(alloc, mode, bogus_comment_slice(rest))
}

/// A comment of a slice, and what follows it. The error is allocation failure alone.
pub fn comment<'t>(
    alloc: Global,
    mode: &Mode,
    cut: (&'t str, &'t str),
) -> Result<Lexeme<'t>, AllocError>
    requires slice { IsUtf8 cut.0.now }
    requires rest { IsUtf8 cut.1.now }
    ensures value { IfOk result (λ l. lexeme_of mode.now l ≡ comment_lexeme mode.now (cut_of cut.entry)) }
    ensures utf8 { IfOk result HasRest }
{
    let (slice, rest) = cut;
    let text = shown(alloc, slice)?;
    emitted_one(alloc, Token::CommentToken(text), mode.text, rest)
}

/// What a `<!` begins, from after it on (WHATWG HTML, 13.2.5.42). The error is allocation failure alone.
pub fn declaration<'t>(
    alloc: Global,
    foreign: bool,
    mode: &Mode,
    text: &'t str,
) -> Result<Lexeme<'t>, AllocError>
    ensures value { IfOk result (λ l. lexeme_of mode.now l ≡ declaration foreign mode.now (chars text.now)) }
    ensures utf8 { IfOk result HasRest }
{
    if let Some(rest) = trailing(text, "--") {
        return comment(alloc, mode, comment_slice(rest));
    }
    if let Some(rest) = rest_after_word(text, "doctype") {
        return doctype(alloc, mode, rest);
    }
    match section_text(foreign, text) {
        Some(rest) => section(alloc, mode, rest),
        None => comment(alloc, mode, bogus_comment_slice(text)),
    }
}

/// What a `<!doctype` begins, from after it on (WHATWG HTML, 13.2.5.53). The error is allocation failure alone.
pub fn doctype<'t>(alloc: Global, mode: &Mode, text: &'t str) -> Result<Lexeme<'t>, AllocError>
    ensures value { IfOk result (λ l. lexeme_of mode.now l ≡ doctype_lexeme mode.now (doctype_at (chars text.now))) }
    ensures utf8 { IfOk result HasRest }
{
    let (doctype, rest) = doctype_at(alloc, text)?;
    emitted_one(alloc, Token::DoctypeToken(doctype), mode.text, rest)
}

// what follows the opening of a CDATA section, where one may stand
fn section_text(foreign: bool, text: &str) -> Option<&str>
    ensures value { option_map (λ rest. chars rest.now) result
        ≡ (if foreign && begins (codes "[CDATA[") (chars text.now) then Some (drop 7 (chars text.now)) else None) }
    ensures utf8 { IfSome result (λ rest. IsUtf8 rest.now) }
{
    if !foreign {
        return None;
    }
    trailing(text, "[CDATA[")
}

/// The text of a CDATA section, from after its opening, and what follows it (WHATWG HTML, 13.2.5.69). The error is
/// allocation failure alone.
pub fn section<'t>(alloc: Global, mode: &Mode, text: &'t str) -> Result<Lexeme<'t>, AllocError>
    ensures value { IfOk result (λ l. lexeme_of mode.now l
        ≡ cdata_lexeme mode.now (cut_or_all (cut (after (codes "]]>")) (chars text.now)) (chars text.now))) }
    ensures utf8 { IfOk result HasRest }
{
    let (slice, rest) = cut_at(text, "]]>").unwrap_or((text, ""));
    Ok(Lexeme::Emitted(tokens_of(alloc, slice)?, mode.text, rest))
}

// a token for each character
fn tokens_of(alloc: Global, text: &str) -> Result<Vec<Token>, AllocError>
    ensures { IfOk result (λ tokens. items_of tokens.items ≡ map ordinary_item (chars text.now)) }
{
    let mut tokens = Vec::new(alloc);
    let mut rest = text;
    'characters: while let Some((c, after_c)) = first_and_rest(rest) {
        tokens.push(ordinary_token(alloc, c)?)?;
        rest = after_c;
    }
    Ok(tokens)
}

fn ordinary_token(alloc: Global, c: char) -> Result<Token, AllocError>
    ensures { IfOk result (λ token. item_of token ≡ ordinary_item c) }
{
    if c == '\0' {
        return Ok(Token::NullCharacterToken);
    }
    Ok(Token::CharacterTokens(text_of(alloc, c)?))
}

/// What stands first in the text of an element, at its first character (WHATWG HTML, 13.2.5.2 to 13.2.5.4). The error
/// is allocation failure alone.
pub fn raw<'t>(
    alloc: Global,
    table: &ReferenceTable,
    kind: RawKind,
    mode: &Mode,
    c: char,
    text: &'t str,
    rest: &'t str,
) -> Result<Lexeme<'t>, AllocError>
    requires { chars text.now ≡ c ∷ chars rest.now }
    ensures value { IfOk result (λ l. lexeme_of mode.now l ≡ raw_lexeme table.now kind mode.now c (chars rest.now)) }
    ensures utf8 { IfOk result HasRest }
{
    if let Some(name) = end_tag_name(alloc, kind, mode, c, rest)? {
        return tag_or_nothing(alloc, table, TagKind::EndTag, name);
    }
    if may_be_reference(kind, c) {
        return reference_or_sign(alloc, table, mode, rest);
    }
    one_character(
        alloc,
        TextKind::Raw(kind_after(kind, text)),
        shown_character(c),
        rest,
    )
}

// from the name on, the end tag that ends the text of an element here
fn end_tag_name<'t>(
    alloc: Global,
    kind: RawKind,
    mode: &Mode,
    c: char,
    rest: &'t str,
) -> Result<Option<&'t str>, AllocError>
    ensures value { IfOk result (λ name. option_map (λ text. chars text.now) name
        ≡ (if c == 60 && has_end_tags kind && ends_raw_text mode.now.last_start_tag (chars rest.now) then
        Some (drop 1 (chars rest.now)) else None)) }
    ensures utf8 { IfOk result (λ name. IfSome name (λ text. IsUtf8 text.now)) }
{
    if c != '<' || !has_end_tags(kind) {
        return Ok(None);
    }
    let Some(name) = trailing(rest, "/") else {
        return Ok(None);
    };
    if begins_with_last(alloc, &mode.last_start_tag, name)? {
        return Ok(Some(name));
    }
    Ok(None)
}

/// Whether a character in the text of an element begins a reference: `&` in RCDATA (WHATWG HTML, 13.2.5.2).
pub fn may_be_reference(kind: RawKind, c: char) -> bool
    ensures { result ≡ (c == 38 && has_references kind) }
{
    c == '&' && matches!(kind, RawKind::Rcdata)
}

fn has_end_tags(kind: RawKind) -> bool
    ensures { result ≡ has_end_tags kind }
{
    !matches!(
        kind,
        RawKind::ScriptDataEscaped(ScriptEscapeKind::DoubleEscaped)
    )
}

// whether letters that are the last start tag's name stand here, and the name ends there
fn begins_with_last(alloc: Global, last: &Option<LocalName>, text: &str) -> Result<bool, AllocError>
    ensures { IfOk result (λ b. b ≡ named_end_tag last.now (front_while is_letter (chars text.now))
        (rest_while is_letter (chars text.now))) }
{
    let (letters, rest) = split_while(text, CharacterClass::Letter);
    if first_and_rest(letters).is_none() || !ends_name(rest) {
        return Ok(false);
    }
    let name = LocalName::from(name_of(alloc, letters)?);
    Ok(is_last(last, &name))
}

fn is_last(last: &Option<LocalName>, name: &LocalName) -> bool
    ensures { result ≡ is_last last.now name.now }
{
    match last {
        Some(last) => last == name,
        None => false,
    }
}

// whether a tag's name ends here
fn ends_name(text: &str) -> bool
    ensures { result ≡ first_passes ends_tag_name (chars text.now) }
{
    match first_and_rest(text) {
        Some((c, _)) => !CharacterClass::TagName.has(c),
        None => false,
    }
}

// the kind of the text after a first character of script data (WHATWG HTML, 13.2.5.18 to 13.2.5.31)
fn kind_after(kind: RawKind, text: &str) -> RawKind
    ensures { result ≡ kind_after kind (chars text.now) }
{
    match kind {
        RawKind::Rcdata | RawKind::Rawtext => kind,
        RawKind::ScriptData => {
            if begins(text, "<!--") {
                RawKind::ScriptDataEscaped(ScriptEscapeKind::Escaped)
            } else {
                RawKind::ScriptData
            }
        }
        RawKind::ScriptDataEscaped(escape) => escaped_kind_after(escape, text),
    }
}

// the same in an escaped part
fn escaped_kind_after(escape: ScriptEscapeKind, text: &str) -> RawKind
    ensures { result ≡ kind_after (RawKind.ScriptDataEscaped escape) (chars text.now) }
{
    if begins(text, "-->") {
        return RawKind::ScriptData;
    }
    match escape {
        ScriptEscapeKind::Escaped => {
            if begins_tag(text, "<script") {
                RawKind::ScriptDataEscaped(ScriptEscapeKind::DoubleEscaped)
            } else {
                RawKind::ScriptDataEscaped(escape)
            }
        }
        ScriptEscapeKind::DoubleEscaped => {
            if begins_tag(text, "</script") {
                RawKind::ScriptDataEscaped(ScriptEscapeKind::Escaped)
            } else {
                RawKind::ScriptDataEscaped(escape)
            }
        }
    }
}

fn begins(text: &str, mark: &str) -> bool
    ensures { result ≡ begins (chars mark.now) (chars text.now) }
{
    trailing(text, mark).is_some()
}

// whether a text begins with a word, ASCII case aside, and a tag's name ends after it
fn begins_tag(text: &str, word: &str) -> bool
    ensures { result ≡ begins_tag (chars word.now) (chars text.now) }
{
    match rest_after_word(text, word) {
        Some(rest) => ends_name(rest),
        None => false,
    }
}
