ghost use Rattle.std.specs.Prelude.{◌≡◌, ◌∷◌, ◌++◌, IfErr, IfOk, OnOk, chars, fold, if◌then◌else◌, string_bytes};
ghost use Rattle.html_lexemes.specs.LineEnds.{begins_with_line_feed, lines_ended, without_mark};
ghost use Rattle.html_lexemes.specs.declared.fault.ParseFault.TheVariants.{Memory};
ghost use Rattle.token_grammar.specs.FirstMode.{first_mode};
ghost use Rattle.token_grammar.specs.Items.{Item, end_of_file, tag as tag_item};
ghost use Rattle.token_grammar.specs.Kinds.{AreWelcome, IsReadyFor};
ghost use Rattle.token_grammar.specs.Modes.{last_after, next_mode, text_after, text_of_state};
ghost use Rattle.token_grammar.specs.PageText.{page_text};
ghost use Rattle.token_grammar.specs.PlainRead.{items_of};
ghost use Rattle.token_grammar.specs.Reading.{IsClosed, Reading};
ghost use Rattle.token_grammar.specs.declared.modes.TextKind.TheVariants.{Plain};

use crate::lexemes::{Lexeme, lexeme_at};
use crate::modes::{Mode, TextKind};
use crate::sink::{TokenSink, TokenizerOpts};
use crate::slices::first_and_rest;
use html_lexemes::states::State;
use html_lexemes::{LocalName, ParseFault, ReferenceTable, Tag, TagKind, Token, TokenSinkResult};
use std::alloc::{AllocError, Global};

/// Emits a whole page to a sink, as the grammar reads it, and that it ends. It is slow and plain: what a tokenizer is
/// compared with, and no tokenizer. Pauses that the sink asks for are passed over, each token stands at
/// line 1, and errors that change nothing aren't emitted.
///
/// The error is allocation failure; then nothing is known of the sink.
pub fn read_plainly<S: TokenSink>(
    alloc: Global,
    sink: &mut S,
    opts: TokenizerOpts,
    table: &ReferenceTable,
    text: &str,
) -> Result<(), ParseFault>
    requires { IsReadyFor S.ready S.welcomes (text_of_state opts.initial_state) (S.state sink.old) }
    ensures memory { IfErr result (λ e. e ≡ Memory) }
    ensures emitted { OnOk result (IsClosed S.close
        (Reading table.now S.means (first_mode opts) (S.state sink.old) (page_text opts.discard_bom (chars text.now)))
        (S.state sink.new)) }
{
    let TokenizerOpts {
        exact_errors: _,
        discard_bom,
        initial_state,
        last_start_tag_name,
    } = opts;
    let page = page_text(alloc, discard_bom, text)?;
    let mode = Mode {
        text: text_of_state(initial_state),
        last_start_tag: last_start_tag_name,
    };
    emit_lexemes(alloc, sink, table, mode, page.as_str(), 1)?;
    sink.process_token(Token::EOFToken, 1)?;
    sink.end()
}

/// The kind of text that a state is of: ordinary for a state within markup.
pub fn text_of_state(state: Option<State>) -> TextKind
    ensures { result ≡ text_of_state state }
{
    match state {
        Some(State::Plaintext) => TextKind::Plain,
        Some(State::RawData(kind)) => TextKind::Raw(kind),
        _ => TextKind::Ordinary,
    }
}

/// Emits what stands in a text before its end, each token at a line, and passes over pauses that the sink asks for. The
/// error is allocation failure; then nothing is known of the sink.
pub fn emit_lexemes<S: TokenSink>(
    alloc: Global,
    sink: &mut S,
    table: &ReferenceTable,
    mut mode: Mode,
    text: &str,
    line: u64,
) -> Result<(), ParseFault>
    requires { IsReadyFor S.ready S.welcomes mode.text (S.state sink.old) }
    ensures memory { IfErr result (λ e. e ≡ Memory) }
    ensures ready { OnOk result (IsReadyFor S.ready S.welcomes Plain (S.state sink.new)) }
    ensures emitted { OnOk result
        (Reading table.now S.means mode (S.state sink.old) (chars text.now)
        (S.means.step (S.state sink.new) end_of_file)) }
{
    let mut rest = text;
    'lexemes: loop {
        let foreign = sink.adjusted_current_node_present_but_not_in_html_namespace();
        match lexeme_at(alloc, table, foreign, &mode, rest)? {
            Lexeme::Nothing => return Ok(()),
            Lexeme::Emitted(tokens, text, trailing) => {
                emit_tokens(sink, tokens, line)?;
                mode.text = text;
                rest = trailing;
            }
            Lexeme::Tagged(tag, trailing) => {
                mode = emit_tag(sink, mode, tag, line)?;
                rest = trailing;
            }
        }
    }
}

/// Emits some tokens that the sink welcomes, none of which is a tag, at a line. The error is allocation failure.
pub fn emit_tokens<S: TokenSink>(
    sink: &mut S,
    tokens: Vec<Token>,
    line: u64,
) -> Result<(), ParseFault>
    requires ready { S.ready (S.state sink.old) }
    requires welcome { AreWelcome S.welcomes (S.state sink.old) (items_of tokens.items) }
    ensures memory { IfErr result (λ e. e ≡ Memory) }
    ensures ready { OnOk result (S.ready (S.state sink.new)) }
    ensures hears { OnOk result ((item : Item) → S.welcomes (S.state sink.old) item →
        S.welcomes (S.state sink.new) item) }
    ensures emitted { OnOk result (S.state sink.new ≡ fold S.means.step (S.state sink.old) (items_of tokens.items)) }
{
    'tokens: for token in tokens {
        sink.process_token(token, line)?;
    }
    Ok(())
}

// emits a tag, and gives the mode after it
fn emit_tag<S: TokenSink>(sink: &mut S, mode: Mode, tag: Tag, line: u64) -> Result<Mode, ParseFault>
    requires ready { S.ready (S.state sink.old) }
    requires welcome { S.welcomes (S.state sink.old) (tag_item tag) }
    ensures memory { IfErr result (λ e. e ≡ Memory) }
    ensures ready { IfOk result (λ trailing. IsReadyFor S.ready S.welcomes trailing.text (S.state sink.new)) }
    ensures emitted { OnOk result (S.state sink.new ≡ S.means.step (S.state sink.old) (tag_item tag)) }
    ensures mode { IfOk result
        (λ trailing. trailing ≡ next_mode mode tag (S.means.reply (S.state sink.old) (tag_item tag))) }
{
    let last_start_tag = last_after(mode.last_start_tag, &tag)?;
    let answer = sink.process_token(Token::TagToken(tag), line)?;
    Ok(Mode {
        text: text_after(&answer),
        last_start_tag,
    })
}

/// The name of the last start tag after a tag. The error is allocation failure alone.
pub fn last_after(last: Option<LocalName>, tag: &Tag) -> Result<Option<LocalName>, AllocError>
    ensures { IfOk result (λ name. name ≡ last_after tag.now.kind tag.now.name last) }
{
    match tag.kind {
        TagKind::StartTag => Ok(Some(tag.name.try_clone()?)),
        TagKind::EndTag => Ok(last),
    }
}

/// The kind of text that a sink asks for.
pub fn text_after<H>(answer: &TokenSinkResult<H>) -> TextKind
    ensures { result ≡ text_after answer.now }
{
    match answer {
        TokenSinkResult::Plaintext => TextKind::Plain,
        TokenSinkResult::RawData(kind) => TextKind::Raw(*kind),
        _ => TextKind::Ordinary,
    }
}

// the text of a page: without a first U+FEFF where it is to be dropped, and with each line end as one LF
fn page_text(alloc: Global, discard_mark: bool, text: &str) -> Result<String, AllocError>
    ensures { IfOk result (λ page. chars (string_bytes page) ≡ page_text discard_mark (chars text.now)) }
{
    let mut page = String::new(alloc);
    let mut rest = without_mark_if(discard_mark, text);
    'characters: while let Some((c, after_c)) = first_and_rest(rest) {
        rest = after_c;
        push_ended(&mut page, c, rest)?;
    }
    Ok(page)
}

// adds a character of a text, from which what follows it is taken: a CR before a LF goes, and another is a LF
fn push_ended(page: &mut String, c: char, rest: &str) -> Result<(), AllocError>
    ensures { OnOk result (chars (string_bytes page.new) ++ lines_ended (chars rest.now)
        ≡ chars (string_bytes page.old) ++ lines_ended (c ∷ chars rest.now)) }
{
    if c != '\r' {
        return page.push(c);
    }
    if begins_with_line_feed(rest) {
        return Ok(());
    }
    page.push('\n')
}

fn without_mark_if(discard_mark: bool, text: &str) -> &str
    ensures { chars result.now ≡ (if discard_mark then without_mark (chars text.now) else chars text.now) }
{
    if !discard_mark {
        return text;
    }
    match first_and_rest(text) {
        Some(('\u{feff}', rest)) => rest,
        _ => text,
    }
}

fn begins_with_line_feed(text: &str) -> bool
    ensures { result ≡ begins_with_line_feed (chars text.now) }
{
    match first_and_rest(text) {
        Some((c, _)) => c == '\n',
        None => false,
    }
}
