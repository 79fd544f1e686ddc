//! Elements that are inserted, and the forms that they belong to (WHATWG HTML, 13.2.6.1).
ghost use Rattle.std.specs.Prelude.{◌≡◌, IfErr, OnOk, option_map};
ghost use Rattle.html_lexemes.specs.declared.fault.ParseFault.TheVariants.{Memory};
ghost use Rattle.html_tree_state.specs.Insertions.{here, inserted_by};
ghost use Rattle.rules_actions.specs.Forms.{form_owner, is_listed, names_form, takes_form};
ghost use Rattle.rules_actions.specs.Parsed.{state_of};
ghost use Rattle.rules_table.specs.Actions.{with_tree};
ghost use Rattle.rules_table.specs.Settling.{Ready};

use crate::parse::Parse;
use html_lexemes::{Attributes, ParseFault, QualName};
use html_tree_state::{InsertionPoint, PushFlag};
use tree_forest::TreeSink;
use tree_names::is_html;
use tree_predicates::value_of;

impl<S: TreeSink> Parse<S> {
    /// An element of HTML is inserted at the appropriate place. The sink of trees is notified which form it belongs to.
    pub(crate) fn insert_html(
        &mut self,
        push: PushFlag,
        name: QualName,
        attrs: Attributes,
    ) -> Result<(), ParseFault>
        requires ready { Ready (state_of S.view self.old) }
        ensures seen { OnOk result (state_of S.view self.new ≡ with_tree (λ b. inserted_by push (here b) name attrs b)
            (state_of S.view self.old)) }
        ensures memory { IfErr result (λ e. e ≡ Memory) }
    {
        let Some(form) = self.form_owner(&name, &attrs) else {
            self.tree.insert_element(push, name, attrs)?;
            return Ok(());
        };
        let point = self.tree.insertion_point();
        let element = self.tree.insert_element(push, name, attrs)?;
        self.associate(element, form, point)?;
        Ok(())
    }

    // the form that an element of a name and attributes belongs to
    fn form_owner(&self, name: &QualName, attrs: &Attributes) -> Option<S::Handle>
        requires { Ready (state_of S.view self.now) }
        ensures { option_map S.view.number result ≡ form_owner name.now attrs.now (state_of S.view self.now) }
    {
        if self.has_form() && takes_form(name, attrs) {
            self.kept.form
        } else {
            None
        }
    }

    // the sink of trees is notified of a form, and of the place that an element has: no node changes
    fn associate(
        &mut self,
        element: S::Handle,
        form: S::Handle,
        point: InsertionPoint<S::Handle>,
    ) -> Result<(), ParseFault>
        ensures seen { state_of S.view self.new ≡ state_of S.view self.old }
        ensures memory { IfErr result (λ e. e ≡ Memory) }
    {
        let (place, above) = match point {
            InsertionPoint::LastChild(parent) => (parent, None),
            InsertionPoint::TableFosterParenting {
                element,
                prev_element,
            } => (element, Some(prev_element)),
        };
        self.tree
            .sink
            .associate_with_form(element, form, place, above)
    }
}

// whether an element of a name and attributes belongs to the form that is open
fn takes_form(name: &QualName, attrs: &Attributes) -> bool
    ensures { result ≡ takes_form name.now attrs.now }
{
    if is_html(name, "img") {
        return true;
    }
    is_listed(name) && !names_form(attrs)
}

// a listed element (WHATWG HTML, 4.10.2)
fn is_listed(name: &QualName) -> bool
    ensures { result ≡ is_listed name.now }
{
    is_html(name, "button")
        || is_html(name, "fieldset")
        || is_html(name, "input")
        || is_html(name, "object")
        || is_html(name, "output")
        || is_html(name, "select")
        || is_html(name, "textarea")
}

// a form is named by the element itself
fn names_form(attrs: &Attributes) -> bool
    ensures { result ≡ names_form attrs.now }
{
    match value_of(attrs, "form") {
        Some(_) => true,
        None => false,
    }
}
