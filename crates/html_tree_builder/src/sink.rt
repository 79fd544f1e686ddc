//! A tree builder as a sink of tokens.
ghost use Rattle.std.specs.Prelude.{◌≡◌, ℕ, Err, IfErr, IfOk, OnErr, OnOk, false, is_err, true};
ghost use Rattle.tree_forest.specs.Forest.{IsElement};
ghost use Rattle.tree_forest.specs.Orders.{IsIn};
ghost use Rattle.token_grammar.specs.Items.{item_of};
ghost use Rattle.token_grammar.specs.Kinds.{IsOf};
ghost use Rattle.token_grammar.specs.declared.modes.TextKind.TheVariants.{Plain};
ghost use Rattle.html_lexemes.specs.declared.fault.ParseFault.TheVariants.{Failed, Memory};
ghost use Rattle.html_tree_state.specs.Building.{stack_of};
ghost use Rattle.rules_actions.specs.Parsed.{state_of};
ghost use Rattle.rules_table.specs.Actions.{is_text};
ghost use Rattle.rules_table.specs.Settling.{Ready, reply, step};
ghost use Rattle.rules_table.specs.Welcome.{IsFit, IsHeard, IsReady, IsWelcome};

use crate::builder::TreeBuilder;
use crate::items::emit;
use html_lexemes::{ParseFault, TagKind, Token, TokenSinkResult};
use rules_actions::Parse;
use token_grammar::TokenSink;
use tree_forest::TreeSink;
use tree_predicates::{InsertionMode, is_of_html};

impl<S: TreeSink> TokenSink for TreeBuilder<S> {
    type Handle = S::Handle;

    ghost use Rattle.rules_actions.specs.Parsed.{state_of};
    ghost use Rattle.rules_table_laws.specs.Hearing.{meaning-hearing};
    ghost use Rattle.rules_table_laws.specs.Lawful.{meaning-lawful};
    ghost use Rattle.rules_table.specs.Settling.{meaning};
    ghost use Rattle.rules_table.specs.State.{State};
    ghost use Rattle.rules_table.specs.Welcome.{IsReady, IsWelcome};

    ghost Abstract = { State };

    ghost state = { λ b. state_of S.view b.page };

    ghost means = { meaning S.view.handle };

    ghost ready = { IsReady };

    ghost welcomes = { IsWelcome };

    ghost close = { λ s. s };

    ghost lawful = { meaning-lawful S.view.handle };

    ghost hearing = { meaning-hearing S.view.handle };

    /// Takes a token by the rules of tree construction. What isn't text, an error, an end tag or the end is refused as
    /// `Failed` while an element's text is read, and so is every token after the end; else the error is allocation
    /// failure . After a refused call every token is refused as `Failed`.
    fn process_token(
        &mut self,
        token: Token,
        line: u64,
    ) -> Result<TokenSinkResult<S::Handle>, ParseFault>
        requires { IsFit (state_of S.view self.old.page) }
        ensures fit { IsFit (state_of S.view self.new.page) }
        ensures state { IfOk result (λ _. state_of S.view self.new.page ≡ step (state_of S.view self.old.page)
            (item_of token)) }
        ensures reply { IfOk result (λ answer. answer ≡ reply S.view.handle (state_of S.view self.old.page)
            (item_of token)) }
        ensures refused { IsWelcome (state_of S.view self.old.page) (item_of token) → IfErr result (λ e. e ≡ Memory) }
        ensures failed { self.old.page.kept.has_failed ≡ true → result ≡ Err Failed }
        ensures ended { self.old.page.kept.is_over ≡ true → result ≡ Err Failed }
        ensures misplaced { ¬ (IsHeard (is_text self.old.page.kept.mode) (item_of token)) → result ≡ Err Failed }
        ensures over { OnErr result (self.new.page.kept.is_over ≡ true) }
        ensures works { self.new.page.kept.has_failed ≡ is_err result }
    {
        if self.page.kept.has_failed || self.page.kept.is_over {
            return self.refuse(ParseFault::Failed);
        }
        if is_out_of_place(self.page.kept.mode, &token) {
            return self.refuse(ParseFault::Failed);
        }
        match emit(&mut self.page, token, line) {
            Ok(answer) => Ok(answer),
            Err(fault) => self.refuse(fault),
        }
    }

    /// Emits the sink of trees that the open elements are so no longer, from the current node on. After a refused call
    /// it is refused as `Failed`; else the error is allocation failure.
    fn end(&mut self) -> Result<(), ParseFault>
        requires { IsFit (state_of S.view self.old.page) }
        ensures fit { IsFit (state_of S.view self.new.page) }
        ensures closed { IfOk result (λ _. state_of S.view self.new.page ≡ state_of S.view self.old.page) }
        ensures refused { self.old.page.kept.has_failed ≡ false → IfErr result (λ e. e ≡ Memory) }
        ensures failed { self.old.page.kept.has_failed ≡ true → result ≡ Err Failed }
        ensures works { self.new.page.kept.has_failed ≡ is_err result }
    {
        if self.page.kept.has_failed {
            return Err(ParseFault::Failed);
        }
        match emit_closed(&mut self.page) {
            Ok(()) => Ok(()),
            Err(fault) => {
                // a refused call leaves it so
                self.page.kept.has_failed = true;
                Err(fault)
            }
        }
    }

    fn adjusted_current_node_present_but_not_in_html_namespace(&self) -> bool {
        match self.page.adjusted_current_node() {
            Some(node) => !is_of_html(&self.page.tree.sink.elem_name(node).ns),
            None => false,
        }
    }
}

impl<S: TreeSink> TreeBuilder<S> {
    // a refused call leaves it so
    fn refuse(&mut self, fault: ParseFault) -> Result<TokenSinkResult<S::Handle>, ParseFault>
        ensures result { result ≡ Err fault }
        ensures failed { self.new.page.kept.has_failed ≡ true }
        ensures over { self.new.page.kept.is_over ≡ true }
    {
        self.page.kept.has_failed = true;
        self.page.kept.is_over = true;
        Err(fault)
    }
}

// whether a token may not be emitted in a mode: in "text" what is emitted in an element's text alone
fn is_out_of_place(mode: InsertionMode, token: &Token) -> bool
    ensures out { result ≡ true → IsHeard (is_text mode) (item_of token.now) → ⊥ }
    ensures fits { result ≡ false → IsHeard (is_text mode) (item_of token.now) }
{
    match mode {
        InsertionMode::Text => is_markup(token),
        _ => false,
    }
}

// in an element's text text, errors, an end tag and the end are emitted
fn is_markup(token: &Token) -> bool
    ensures out { result ≡ true → IsOf Plain (item_of token.now) → ⊥ }
    ensures fits { result ≡ false → IsOf Plain (item_of token.now) }
{
    match token {
        Token::CharacterTokens(_) | Token::ParseError(_) | Token::EOFToken => false,
        Token::TagToken(tag) => match tag.kind {
            TagKind::StartTag => true,
            TagKind::EndTag => false,
        },
        Token::NullCharacterToken | Token::CommentToken(_) | Token::DoctypeToken(_) => true,
    }
}

// the open elements are shown, the current node first
fn emit_closed<S: TreeSink>(page: &mut Parse<S>) -> Result<(), ParseFault>
    requires ready { Ready (state_of S.view page.old) }
    ensures seen { OnOk result (state_of S.view page.new ≡ state_of S.view page.old) }
    ensures memory { IfErr result (λ e. e ≡ Memory) }
{
    emit_popped(page.tree.held.open_elements(), &mut page.tree.sink)
}

// elements are shown, the last first
fn emit_popped<S: TreeSink>(elements: &[S::Handle], sink: &mut S) -> Result<(), ParseFault>
    requires { (n : ℕ) → IsIn n (stack_of S.view.number elements.now) → IsElement n (S.view.forest sink.old) }
    ensures forest { S.view.forest sink.new ≡ S.view.forest sink.old }
    ensures quirks { S.view.quirks sink.new ≡ S.view.quirks sink.old }
    ensures memory { IfErr result (λ e. e ≡ Memory) }
{
    let mut rest = elements;
    'elements: while let Some((element, lower)) = rest.split_last() {
        sink.pop(*element)?;
        rest = lower;
    }
    Ok(())
}
