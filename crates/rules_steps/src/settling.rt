//! What a mark comes to: rules take it in turn, until one does not hand it on (WHATWG HTML, 13.2.6, "reprocess the
//! token").
ghost use Rattle.std.specs.Prelude.{◌≡◌, IfErr, IfOk, OnOk};
ghost use Rattle.html_lexemes.specs.declared.fault.ParseFault.TheVariants.{Memory};
ghost use Rattle.rules_actions.specs.Outcomes.{finished};
ghost use Rattle.rules_actions.specs.Parsed.{state_of};
ghost use Rattle.rules_table.specs.Settling.{Ready, mark_by, taken};
ghost use Rattle.rules_table.specs.State.{comment, doctype as doctype_mark, end_of_file, null};
ghost use Rattle.rules_steps.specs.Steps.{settled_as};

use crate::rules::{comment_rule, doctype_rule, null_rule, page_end_rule, tag_rule};
use html_lexemes::{Doctype, ParseFault, Tag, Text, TokenSinkResult};
use rules_actions::{Flow, Parse};
use rules_table_laws::{a_mark_comes_to_what_its_rule_gives, the_rank_falls};
use tree_forest::TreeSink;
use tree_names::TagGroup;

/// A tag.
pub fn take_tag<S: TreeSink>(
    page: &mut Parse<S>,
    tag: &Tag,
) -> Result<TokenSinkResult<S::Handle>, ParseFault>
    requires ready { Ready (state_of S.view page.old) }
    ensures came { IfOk result (λ answer. finished answer (state_of S.view page.new) ≡ settled_as S.view.handle
        (taken (mark_by tag.now.kind tag.now) (state_of S.view page.old))) }
    ensures ready { OnOk result (Ready (state_of S.view page.new)) }
    ensures memory { IfErr result (λ e. e ≡ Memory) }
{
    the_rank_falls();
    a_mark_comes_to_what_its_rule_gives();
    let group = TagGroup::of(&tag.name);
    'rules: loop {
        match tag_rule(page, group, tag)? {
            Flow::Done => return Ok(TokenSinkResult::Continue),
            Flow::Asks(answer) => return Ok(answer),
            Flow::Again => {}
        }
    }
}

/// A comment.
pub fn take_comment<S: TreeSink>(
    page: &mut Parse<S>,
    text: &Text,
) -> Result<TokenSinkResult<S::Handle>, ParseFault>
    requires ready { Ready (state_of S.view page.old) }
    ensures came { IfOk result (λ answer. finished answer (state_of S.view page.new) ≡ settled_as S.view.handle
        (taken (comment text.now) (state_of S.view page.old))) }
    ensures ready { OnOk result (Ready (state_of S.view page.new)) }
    ensures memory { IfErr result (λ e. e ≡ Memory) }
{
    the_rank_falls();
    a_mark_comes_to_what_its_rule_gives();
    'rules: loop {
        match comment_rule(page, text)? {
            Flow::Done => return Ok(TokenSinkResult::Continue),
            Flow::Asks(answer) => return Ok(answer),
            Flow::Again => {}
        }
    }
}

/// A doctype.
pub fn take_doctype<S: TreeSink>(
    page: &mut Parse<S>,
    doctype: &Doctype,
) -> Result<TokenSinkResult<S::Handle>, ParseFault>
    requires ready { Ready (state_of S.view page.old) }
    ensures came { IfOk result (λ answer. finished answer (state_of S.view page.new) ≡ settled_as S.view.handle
        (taken (doctype_mark doctype.now) (state_of S.view page.old))) }
    ensures ready { OnOk result (Ready (state_of S.view page.new)) }
    ensures memory { IfErr result (λ e. e ≡ Memory) }
{
    the_rank_falls();
    a_mark_comes_to_what_its_rule_gives();
    'rules: loop {
        match doctype_rule(page, doctype)? {
            Flow::Done => return Ok(TokenSinkResult::Continue),
            Flow::Asks(answer) => return Ok(answer),
            Flow::Again => {}
        }
    }
}

/// NUL.
pub fn take_null<S: TreeSink>(page: &mut Parse<S>) -> Result<TokenSinkResult<S::Handle>, ParseFault>
    requires ready { Ready (state_of S.view page.old) }
    ensures came { IfOk result (λ answer. finished answer (state_of S.view page.new) ≡ settled_as S.view.handle
        (taken null (state_of S.view page.old))) }
    ensures ready { OnOk result (Ready (state_of S.view page.new)) }
    ensures memory { IfErr result (λ e. e ≡ Memory) }
{
    the_rank_falls();
    a_mark_comes_to_what_its_rule_gives();
    'rules: loop {
        match null_rule(page)? {
            Flow::Done => return Ok(TokenSinkResult::Continue),
            Flow::Asks(answer) => return Ok(answer),
            Flow::Again => {}
        }
    }
}

/// The end of the page.
pub fn take_page_end<S: TreeSink>(
    page: &mut Parse<S>,
) -> Result<TokenSinkResult<S::Handle>, ParseFault>
    requires ready { Ready (state_of S.view page.old) }
    ensures came { IfOk result (λ answer. finished answer (state_of S.view page.new) ≡ settled_as S.view.handle
        (taken end_of_file (state_of S.view page.old))) }
    ensures ready { OnOk result (Ready (state_of S.view page.new)) }
    ensures memory { IfErr result (λ e. e ≡ Memory) }
{
    the_rank_falls();
    a_mark_comes_to_what_its_rule_gives();
    'rules: loop {
        match page_end_rule(page)? {
            Flow::Done => return Ok(TokenSinkResult::Continue),
            Flow::Asks(answer) => return Ok(answer),
            Flow::Again => {}
        }
    }
}
