//! How a mode takes text (WHATWG HTML, 13.2.6.4).
ghost use Rattle.std.specs.Prelude.{◌≡◌, Bool, false, true};
ghost use Rattle.rules_actions.specs.Parsed.{state_of};
ghost use Rattle.rules_table.specs.InColumnGroup.{in_column_group_text};
ghost use Rattle.rules_table.specs.InTable.{in_table_text_row};
ghost use Rattle.rules_table.specs.Settling.{Ready};
ghost use Rattle.rules_table.specs.Table.{text_row};
ghost use Rattle.rules_table_laws.specs.TextClasses.{IsOfClass};
ghost use Rattle.rules_table_laws.specs.declared.text_class.TextClass.TheVariants.{HandedOn};

use rules_actions::Parse;
use rules_table_laws::TextClass;
use tree_forest::TreeSink;
use tree_names::ElementSet;
use tree_predicates::InsertionMode;

/// How the mode takes characters, all white space or none, by the rules for HTML.
pub fn text_class<S: TreeSink>(page: &Parse<S>, is_space: bool) -> TextClass
    requires ready { Ready (state_of S.view page.now) }
    ensures { IsOfClass result is_space (text_row (state_of S.view page.now).mode is_space (state_of S.view page.now)) }
{
    match page.kept.mode {
        InsertionMode::Initial | InsertionMode::BeforeHtml | InsertionMode::BeforeHead => {
            if is_space {
                TextClass::Dropped
            } else {
                TextClass::HandedOn
            }
        }
        InsertionMode::InHead | InsertionMode::InHeadNoscript | InsertionMode::AfterHead => {
            if is_space {
                TextClass::Inserted
            } else {
                TextClass::HandedOn
            }
        }
        InsertionMode::InBody
        | InsertionMode::InCaption
        | InsertionMode::InCell
        | InsertionMode::InTemplate => TextClass::InBody,
        InsertionMode::Text => TextClass::Inserted,
        InsertionMode::InTable | InsertionMode::InTableBody | InsertionMode::InRow =>
            class_in_table(page),
        InsertionMode::InTableText => TextClass::Kept,
        InsertionMode::InColumnGroup => class_in_column_group(page, is_space),
        InsertionMode::AfterBody | InsertionMode::AfterAfterBody => {
            if is_space {
                TextClass::InBody
            } else {
                TextClass::HandedOn
            }
        }
        InsertionMode::InFrameset | InsertionMode::AfterFrameset => {
            if is_space {
                TextClass::Inserted
            } else {
                TextClass::Dropped
            }
        }
        InsertionMode::AfterAfterFrameset => {
            if is_space {
                TextClass::InBody
            } else {
                TextClass::Dropped
            }
        }
    }
}

// in a table text is collected where the current node is a part of it
fn class_in_table<S: TreeSink>(page: &Parse<S>) -> TextClass
    requires ready { Ready (state_of S.view page.now) }
    ensures { (is_space : Bool) → IsOfClass result is_space (in_table_text_row is_space (state_of S.view page.now)) }
{
    if page.collects_text() {
        return TextClass::HandedOn;
    }
    TextClass::InBody
}

// in a group of columns white space is inserted
fn class_in_column_group<S: TreeSink>(page: &Parse<S>, is_space: bool) -> TextClass
    requires ready { Ready (state_of S.view page.now) }
    ensures { IsOfClass result is_space (in_column_group_text is_space (state_of S.view page.now)) }
{
    if is_space {
        return TextClass::Inserted;
    }
    if page.current_is(ElementSet::ColumnGroup) {
        return TextClass::HandedOn;
    }
    TextClass::Dropped
}

/// Whether a class is that of text which another mode takes.
pub(crate) fn is_handed_on_class(class: TextClass) -> bool
    ensures yes { result ≡ true → class ≡ HandedOn }
    ensures no { result ≡ false → class ≡ HandedOn → ⊥ }
{
    match class {
        TextClass::HandedOn => true,
        TextClass::Dropped => false,
        TextClass::Inserted => false,
        TextClass::InBody => false,
        TextClass::Kept => false,
    }
}

/// Whether two classes are the same.
pub(crate) fn is_same_class(one: TextClass, other: TextClass) -> bool
    ensures { result ≡ true → one ≡ other }
{
    one == other
}
