//! Text, in runs that a mode treats alike (WHATWG HTML, 13.2.6.1 and 13.2.6.4).
ghost use Rattle.std.specs.Prelude.{◌≡◌, false, ℕ, ◌<◌, ◌∷◌, List, [], IfErr, IfOk, OnOk, chars, true, length};
ghost use Rattle.std.specs.Str.{IsUtf8};
ghost use Rattle.html_lexemes.specs.declared.fault.ParseFault.TheVariants.{Memory};
ghost use Rattle.token_grammar.specs.Slices.{first_passes};
ghost use Rattle.rules_actions.specs.Parsed.{state_of};
ghost use Rattle.rules_table.specs.Rows.{is_white_space};
ghost use Rattle.rules_table.specs.Settling.{Ready};
ghost use Rattle.rules_table.specs.Table.{text_row};
ghost use Rattle.rules_steps.specs.Runs.{is_alike};
ghost use Rattle.rules_table_laws.specs.TextClasses.{AreByMode, AreOfClass, IsHandedOn, IsSettled};
ghost use Rattle.rules_table_laws.specs.TextRuns.{IsCalm, IsPassedOn, emitted, took};
ghost use Rattle.rules_table_laws.specs.declared.text_class.TextClass.TheVariants.{HandedOn};

use crate::runs::{are_white_space, first_is_white_space, is_without_characters, split_alike};
use crate::text_classes::{is_handed_on_class, is_same_class, text_class};
use crate::text_rules::hand_text_on;
use html_lexemes::{ParseFault, Text};
use rules_actions::Parse;
use rules_rest::takes_text_here;
use rules_table_laws::{TextClass, runs_of_text};
use tree_forest::TreeSink;

/// Characters of text, where no line feed is left out. Where the mode treats all of them alike they become a node's
/// text, or a part of one, as they are.
pub fn take_text<S: TreeSink>(page: &mut Parse<S>, text: Text) -> Result<(), ParseFault>
    requires calm { IsCalm (state_of S.view page.old) }
    ensures seen { OnOk result (state_of S.view page.new ≡ took text (state_of S.view page.old)) }
    ensures calm { OnOk result (IsCalm (state_of S.view page.new)) }
    ensures memory { IfErr result (λ e. e ≡ Memory) }
{
    if is_without_characters(text.as_str()) {
        return Ok(());
    }
    let is_space = first_is_white_space(text.as_str());
    hand_on(page, is_space)?;
    take_settled(page, text, is_space)?;
    Ok(())
}

// Characters of text, at least one, where the mode takes the first.
fn take_settled<S: TreeSink>(
    page: &mut Parse<S>,
    text: Text,
    is_space: bool,
) -> Result<(), ParseFault>
    requires calm { IsCalm (state_of S.view page.old) }
    requires settled { IsSettled is_space (state_of S.view page.old) }
    requires first { first_passes (is_alike is_space) text ≡ true }
    ensures seen { OnOk result (state_of S.view page.new ≡ took text (state_of S.view page.old)) }
    ensures calm { OnOk result (IsCalm (state_of S.view page.new)) }
    ensures memory { IfErr result (λ e. e ≡ Memory) }
{
    runs_of_text();
    if !takes_text_here(page) {
        say_emitted(page, text)?;
        return Ok(());
    }
    let class = text_class(page, is_space);
    if is_same_class(text_class(page, !is_space), class) {
        say_as(page, class, text)?;
        return Ok(());
    }
    take_runs(page, text.as_str())?;
    Ok(())
}

// characters of text, run by run
fn take_runs<S: TreeSink>(page: &mut Parse<S>, text: &str) -> Result<(), ParseFault>
    requires calm { IsCalm (state_of S.view page.old) }
    ensures seen { OnOk result (state_of S.view page.new ≡ took (chars text.now) (state_of S.view page.old)) }
    ensures calm { OnOk result (IsCalm (state_of S.view page.new)) }
    ensures memory { IfErr result (λ e. e ≡ Memory) }
{
    let mut rest = text;
    'runs: while !is_without_characters(rest) {
        rest = take_run(page, rest)?;
    }
    Ok(())
}

// The longest run in front that the mode which takes the first character treats alike; the answer is what is left.
fn take_run<'a, S: TreeSink>(page: &mut Parse<S>, text: &'a str) -> Result<&'a str, ParseFault>
    requires calm { IsCalm (state_of S.view page.old) }
    requires some { chars text.now ≡ [] → ⊥ }
    ensures seen { IfOk result (λ left. took (chars left.now) (state_of S.view page.new) ≡ took (chars text.now)
        (state_of S.view page.old)) }
    ensures less { IfOk result (λ left. length (chars left.now) < length (chars text.now)) }
    ensures utf8 { IfOk result (λ left. IsUtf8 left.now) }
    ensures calm { OnOk result (IsCalm (state_of S.view page.new)) }
    ensures memory { IfErr result (λ e. e ≡ Memory) }
{
    let is_space = first_is_white_space(text);
    hand_on(page, is_space)?;
    let left = take_front(page, text, is_space)?;
    Ok(left)
}

// the longest run in front that the mode treats alike, which takes the first character
fn take_front<'a, S: TreeSink>(
    page: &mut Parse<S>,
    text: &'a str,
    is_space: bool,
) -> Result<&'a str, ParseFault>
    requires calm { IsCalm (state_of S.view page.old) }
    requires settled { IsSettled is_space (state_of S.view page.old) }
    requires first { first_passes (is_alike is_space) (chars text.now) ≡ true }
    ensures seen { IfOk result (λ left. took (chars left.now) (state_of S.view page.new) ≡ took (chars text.now)
        (state_of S.view page.old)) }
    ensures less { IfOk result (λ left. length (chars left.now) < length (chars text.now)) }
    ensures utf8 { IfOk result (λ left. IsUtf8 left.now) }
    ensures calm { OnOk result (IsCalm (state_of S.view page.new)) }
    ensures memory { IfErr result (λ e. e ≡ Memory) }
{
    runs_of_text();
    let alloc = *page.kept.template_modes.allocator();
    if !takes_text_here(page) {
        say_emitted(page, Text::from_str(alloc, text)?)?;
        return Ok("");
    }
    let class = text_class(page, is_space);
    if is_same_class(text_class(page, !is_space), class) {
        say_as(page, class, Text::from_str(alloc, text)?)?;
        return Ok("");
    }
    let (run, trailing) = split_alike(text, is_space);
    say_as(page, class, Text::from_str(alloc, run)?)?;
    Ok(trailing)
}

// text goes from mode to mode, up to one that takes it
fn hand_on<S: TreeSink>(page: &mut Parse<S>, is_space: bool) -> Result<(), ParseFault>
    requires calm { IsCalm (state_of S.view page.old) }
    ensures same { OnOk result ((c : ℕ) (cs : List ℕ) → is_white_space c ≡ is_space → took (c ∷ cs)
        (state_of S.view page.new) ≡ took (c ∷ cs) (state_of S.view page.old)) }
    ensures settled { OnOk result (IsSettled is_space (state_of S.view page.new)) }
    ensures calm { OnOk result (IsCalm (state_of S.view page.new)) }
    ensures memory { IfErr result (λ e. e ≡ Memory) }
{
    'rules: while is_handed_on(page, is_space) {
        pass_on(page, is_space)?;
    }
    Ok(())
}

// the mode hands text on once
fn pass_on<S: TreeSink>(page: &mut Parse<S>, is_space: bool) -> Result<(), ParseFault>
    requires calm { IsCalm (state_of S.view page.old) }
    requires mode { AreByMode (state_of S.view page.old) }
    requires handed { IsHandedOn (text_row (state_of S.view page.old).mode is_space (state_of S.view page.old)) }
    ensures passed { OnOk result (IsPassedOn is_space (state_of S.view page.old) (state_of S.view page.new)) }
    ensures ready { OnOk result (Ready (state_of S.view page.new)) }
    ensures memory { IfErr result (λ e. e ≡ Memory) }
{
    runs_of_text();
    hand_text_on(page, is_space)?;
    Ok(())
}

// whether the mode hands text on
fn is_handed_on<S: TreeSink>(page: &Parse<S>, is_space: bool) -> bool
    requires ready { Ready (state_of S.view page.now) }
    ensures yes { result ≡ true → AreByMode (state_of S.view page.now) × IsHandedOn
        (text_row (state_of S.view page.now).mode is_space (state_of S.view page.now)) }
    ensures no { result ≡ false → IsSettled is_space (state_of S.view page.now) }
{
    if !takes_text_here(page) {
        return false;
    }
    is_handed_on_class(text_class(page, is_space))
}

// characters are inserted; others than white space refuse framesets
fn say_emitted<S: TreeSink>(page: &mut Parse<S>, run: Text) -> Result<(), ParseFault>
    requires ready { Ready (state_of S.view page.old) }
    ensures seen { OnOk result (state_of S.view page.new ≡ emitted run (state_of S.view page.old)) }
    ensures ready { OnOk result (Ready (state_of S.view page.new)) }
    ensures memory { IfErr result (λ e. e ≡ Memory) }
{
    let is_space = are_white_space(run.as_str());
    page.say(run)?;
    if is_space {
        return Ok(());
    }
    page.refuse_frameset();
    Ok(())
}

// a run by the mode
fn say_as<S: TreeSink>(page: &mut Parse<S>, class: TextClass, run: Text) -> Result<(), ParseFault>
    requires calm { IsCalm (state_of S.view page.old) }
    requires mode { AreByMode (state_of S.view page.old) }
    requires all { AreOfClass class run (state_of S.view page.old) }
    requires some { run ≡ [] → ⊥ }
    requires apart { class ≡ HandedOn → ⊥ }
    ensures seen { OnOk result (state_of S.view page.new ≡ took run (state_of S.view page.old)) }
    ensures calm { OnOk result (IsCalm (state_of S.view page.new)) }
    ensures memory { IfErr result (λ e. e ≡ Memory) }
{
    runs_of_text();
    match class {
        TextClass::Dropped => {
            return Ok(());
        }
        TextClass::HandedOn => {
            return Ok(());
        }
        TextClass::Inserted => {
            page.say(run)?;
            return Ok(());
        }
        TextClass::InBody => {
            page.reconstruct()?;
            say_emitted(page, run)?;
            return Ok(());
        }
        TextClass::Kept => {
            page.keep_pending(run.as_str())?;
            return Ok(());
        }
    }
}
