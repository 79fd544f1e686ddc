//! What the items of a page do to a tree that is being built: each is the step of the rule table (WHATWG HTML, 13.2.6).
ghost use Rattle.std.specs.Prelude.{◌≡◌, IfErr, IfOk, OnOk};
ghost use Rattle.token_grammar.specs.Items.{characters, comment as comment_item, doctype as doctype_item, end_of_file};
ghost use Rattle.token_grammar.specs.Items.{error, item_of, null_character, tag as tag_item};
ghost use Rattle.html_lexemes.specs.declared.fault.ParseFault.TheVariants.{Memory};
ghost use Rattle.rules_actions.specs.Parsed.{state_of};
ghost use Rattle.rules_table.specs.Settling.{Ready, reply, step};

use html_lexemes::{Doctype, ErrorMessage, ParseFault, Tag, Text, Token, TokenSinkResult};
use rules_actions::Parse;
use rules_steps::{take_comment, take_doctype, take_null, take_page_end, take_tag, take_text};
use token_grammar::slices::first_and_rest;
use tree_forest::TreeSink;

/// Characters of text. Without any nothing changes; a line feed right after some start tags is left out.
pub(crate) fn emit_characters<S: TreeSink>(
    page: &mut Parse<S>,
    text: Text,
) -> Result<(), ParseFault>
    requires ready { Ready (state_of S.view page.old) }
    ensures seen { OnOk result (state_of S.view page.new ≡ step (state_of S.view page.old) (characters text)) }
    ensures memory { IfErr result (λ e. e ≡ Memory) }
{
    let Some((first, rest)) = first_and_rest(text.as_str()) else {
        return Ok(());
    };
    let is_left_out = page.kept.skip_lf && first == '\n';
    page.kept.skip_lf = false;
    if is_left_out {
        let alloc = *page.kept.template_modes.allocator();
        let rest = Text::from_str(alloc, rest)?;
        return take_text(page, rest);
    }
    take_text(page, text)
}

/// NUL.
pub(crate) fn emit_null<S: TreeSink>(page: &mut Parse<S>) -> Result<(), ParseFault>
    requires ready { Ready (state_of S.view page.old) }
    ensures seen { OnOk result (state_of S.view page.new ≡ step (state_of S.view page.old) null_character) }
    ensures memory { IfErr result (λ e. e ≡ Memory) }
{
    page.kept.skip_lf = false;
    take_null(page)?;
    Ok(())
}

/// A comment.
pub(crate) fn emit_comment<S: TreeSink>(page: &mut Parse<S>, text: Text) -> Result<(), ParseFault>
    requires ready { Ready (state_of S.view page.old) }
    ensures seen { OnOk result (state_of S.view page.new ≡ step (state_of S.view page.old) (comment_item text)) }
    ensures memory { IfErr result (λ e. e ≡ Memory) }
{
    page.kept.skip_lf = false;
    take_comment(page, &text)?;
    Ok(())
}

/// A doctype.
pub(crate) fn emit_doctype<S: TreeSink>(
    page: &mut Parse<S>,
    doctype: Doctype,
) -> Result<(), ParseFault>
    requires ready { Ready (state_of S.view page.old) }
    ensures seen { OnOk result (state_of S.view page.new ≡ step (state_of S.view page.old) (doctype_item doctype)) }
    ensures memory { IfErr result (λ e. e ≡ Memory) }
{
    page.kept.skip_lf = false;
    take_doctype(page, &doctype)?;
    Ok(())
}

/// A parse error: it ends the rule of the line feed.
pub(crate) fn emit_error<S: TreeSink>(
    page: &mut Parse<S>,
    message: ErrorMessage,
) -> Result<(), ParseFault>
    requires ready { Ready (state_of S.view page.old) }
    ensures seen { OnOk result (state_of S.view page.new ≡ step (state_of S.view page.old) error) }
    ensures memory { IfErr result (λ e. e ≡ Memory) }
{
    page.kept.skip_lf = false;
    page.tree.sink.parse_error(message)?;
    Ok(())
}

/// The end of the page.
pub(crate) fn emit_end<S: TreeSink>(page: &mut Parse<S>) -> Result<(), ParseFault>
    requires ready { Ready (state_of S.view page.old) }
    ensures seen { OnOk result (state_of S.view page.new ≡ step (state_of S.view page.old) end_of_file) }
    ensures memory { IfErr result (λ e. e ≡ Memory) }
{
    page.kept.skip_lf = false;
    take_page_end(page)?;
    page.kept.is_over = true;
    Ok(())
}

/// A tag, with the answer to it. Its attributes are shared, since the tree gets copies of them.
pub(crate) fn emit_tag<S: TreeSink>(
    page: &mut Parse<S>,
    mut tag: Tag,
) -> Result<TokenSinkResult<S::Handle>, ParseFault>
    requires ready { Ready (state_of S.view page.old) }
    ensures seen { OnOk result (state_of S.view page.new ≡ step (state_of S.view page.old) (tag_item tag)) }
    ensures reply { IfOk result (λ answer. answer ≡ reply S.view.handle (state_of S.view page.old) (tag_item tag)) }
    ensures memory { IfErr result (λ e. e ≡ Memory) }
{
    tag.attrs.share()?;
    answer_tag(page, &tag)
}

// a tag, with the answer to it
fn answer_tag<S: TreeSink>(
    page: &mut Parse<S>,
    tag: &Tag,
) -> Result<TokenSinkResult<S::Handle>, ParseFault>
    requires ready { Ready (state_of S.view page.old) }
    ensures seen { OnOk result (state_of S.view page.new ≡ step (state_of S.view page.old) (tag_item tag.now)) }
    ensures reply { IfOk result (λ answer. answer ≡ reply S.view.handle (state_of S.view page.old) (tag_item tag.now)) }
    ensures memory { IfErr result (λ e. e ≡ Memory) }
{
    page.kept.skip_lf = false;
    take_tag(page, tag)
}

/// An item of a page, with the answer to it; and the line in which it stands.
pub(crate) fn emit<S: TreeSink>(
    page: &mut Parse<S>,
    token: Token,
    line: u64,
) -> Result<TokenSinkResult<S::Handle>, ParseFault>
    requires ready { Ready (state_of S.view page.old) }
    ensures seen { OnOk result (state_of S.view page.new ≡ step (state_of S.view page.old) (item_of token)) }
    ensures reply { IfOk result (λ answer. answer ≡ reply S.view.handle (state_of S.view page.old) (item_of token)) }
    ensures memory { IfErr result (λ e. e ≡ Memory) }
{
    page.tree.sink.set_current_line(line)?;
    match token {
        Token::CharacterTokens(text) => emit_characters(page, text)?,
        Token::NullCharacterToken => emit_null(page)?,
        Token::TagToken(tag) => return emit_tag(page, tag),
        Token::CommentToken(text) => emit_comment(page, text)?,
        Token::DoctypeToken(doctype) => emit_doctype(page, doctype)?,
        Token::ParseError(message) => emit_error(page, message)?,
        Token::EOFToken => emit_end(page)?,
    }
    Ok(TokenSinkResult::Continue)
}
