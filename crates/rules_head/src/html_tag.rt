//! The start tag "html" (WHATWG HTML, 13.2.6.4.7), which nearly all modes take alike.
ghost use Rattle.rules_actions.specs.Follows.{Follows};
ghost use Rattle.rules_actions.specs.Parsed.{state_of};
ghost use Rattle.rules_table.specs.Settling.{Ready};
ghost use Rattle.rules_table.specs.HtmlTag.{html_start};

use html_lexemes::{ParseFault, Tag};
use rules_actions::{Flow, Parse};
use tree_forest::TreeSink;

/// The root takes the attributes that it lacks, where no template is open.
pub fn html_start<S: TreeSink>(
    page: &mut Parse<S>,
    tag: &Tag,
) -> Result<Flow<S::Handle>, ParseFault>
    requires ready { Ready (state_of S.view page.old) }
    ensures { Follows S.view (html_start tag.now (state_of S.view page.old)) page.old page.new result }
{
    if page.has_template() {
        return Ok(Flow::Done);
    }
    let Some(root) = page.root() else {
        return Ok(Flow::Done);
    };
    page.add_attributes(root, &tag.attrs)?;
    Ok(Flow::Done)
}
