//! The "in table text" insertion mode (WHATWG HTML, 13.2.6.4.10): the text of a table, and what ends it.
ghost use Rattle.std.specs.Prelude.{◌≡◌, [], ◌∷◌, IfErr, OnOk, chars};
ghost use Rattle.html_lexemes.specs.declared.fault.ParseFault.TheVariants.{Memory};
ghost use Rattle.rules_actions.specs.Follows.{Follows};
ghost use Rattle.rules_actions.specs.Parsed.{state_of};
ghost use Rattle.rules_table.specs.Settling.{Ready};
ghost use Rattle.rules_table.specs.Actions.{act, act_all, forget_pending, go_to, hold_mode};
ghost use Rattle.rules_table.specs.Asking.{all_are};
ghost use Rattle.rules_table.specs.InTable.{in_table_text_other, pending_said};
ghost use Rattle.rules_table.specs.Rows.{again, is_white_space};
ghost use Rattle.tree_predicates.specs.declared.modes.InsertionMode.TheVariants.{InTableText};

use html_lexemes::{ParseFault, Text};
use rules_actions::{Flow, Parse};
use rules_table::actions_keep_what_is_ready;
use tree_forest::TreeSink;
use tree_predicates::InsertionMode;

/// Text of a table: its characters are collected.
pub fn collect_text<S: TreeSink>(page: &mut Parse<S>) -> Result<Flow<S::Handle>, ParseFault>
    requires ready { Ready (state_of S.view page.old) }
    ensures { Follows S.view (again (forget_pending ∷ hold_mode ∷ go_to InTableText ∷ [])) page.old page.new result }
{
    page.forget_pending();
    page.hold_mode();
    page.go_to(InsertionMode::InTableText);
    Ok(Flow::Again)
}

/// Anything but a character: the pending characters are inserted, and the mode that stood takes the token.
pub fn in_table_text_other<S: TreeSink>(page: &mut Parse<S>) -> Result<Flow<S::Handle>, ParseFault>
    requires ready { Ready (state_of S.view page.old) }
    ensures { Follows S.view (in_table_text_other (state_of S.view page.old)) page.old page.new result }
{
    let text = take_pending(page);
    say_pending(page, text)?;
    page.go_back();
    Ok(Flow::Again)
}

// The pending characters. None are left.
#[tactic(auto, unfolding(rules_table::specs::Actions::act))]
fn take_pending<S: TreeSink>(page: &mut Parse<S>) -> Text
    requires ready { Ready (state_of S.view page.old) }
    ensures text { result ≡ (state_of S.view page.old).pending }
    ensures seen { state_of S.view page.new ≡ act forget_pending (state_of S.view page.old) }
    ensures ready { Ready (state_of S.view page.new) }
{
    actions_keep_what_is_ready();
    let none = Text::from(String::new(*page.kept.template_modes.allocator()));
    std::mem::replace(&mut page.kept.pending, none)
}

// White space alone is inserted; other text as in a body, with foster parenting.
fn say_pending<S: TreeSink>(page: &mut Parse<S>, text: Text) -> Result<(), ParseFault>
    requires ready { Ready (state_of S.view page.old) }
    ensures seen { OnOk result (state_of S.view page.new ≡ act_all (pending_said text) (state_of S.view page.old)) }
    ensures ready { OnOk result (Ready (state_of S.view page.new)) }
    ensures memory { IfErr result (λ e. e ≡ Memory) }
{
    if is_all_white_space(text.as_str()) {
        page.say(text)?;
        return Ok(());
    }
    page.set_fostering(true);
    page.reconstruct()?;
    page.say(text)?;
    page.refuse_frameset();
    page.set_fostering(false);
    Ok(())
}

// whether a text is nothing but TAB, LF, FF, CR and SPACE
fn is_all_white_space(text: &str) -> bool
    ensures { result ≡ all_are is_white_space (chars text.now) }
{
    text.chars().all(|c| is_white_space(c))
}

// TAB, LF, FF, CR and SPACE
fn is_white_space(c: char) -> bool
    ensures { result ≡ is_white_space c }
{
    matches!(c, '\t' | '\n' | '\x0c' | '\r' | ' ')
}
