ghost use Rattle.std.specs.Prelude.{◌≡◌, chars, string_bytes, IfOk, OnOk};
ghost use Rattle.example_link_counting.specs.Linked.{linked, after_link};

use std::alloc::{AllocError, Global};
use text_decorators::TextDecorator;

/// A link's label between the texts that mark a link to `url`.
pub fn link<D: TextDecorator>(
    alloc: Global,
    decorator: &mut D,
    url: &str,
    label: &str,
) -> Result<String, AllocError>
    ensures text { IfOk result (λ s. chars (string_bytes s) ≡ linked D.view.text D.view.after
        (D.view.held decorator.old) (chars url.now) (chars label.now)) }
    ensures after { OnOk result (D.view.held decorator.new ≡ after_link D.view.after (D.view.held decorator.old)
        (chars url.now)) }
{
    let (mut text, _) = decorator.decorate_link_start(alloc, url)?;
    text.push_str(label)?;
    let end = decorator.decorate_link_end(alloc)?;
    text.push_str(end.as_str())?;
    Ok(text)
}

/// Two links to `url`, one after the other, with the same label: how the second differs is what the decorator holds
/// after the first.
pub fn two_links<D: TextDecorator>(
    alloc: Global,
    decorator: &mut D,
    url: &str,
    label: &str,
) -> Result<(String, String), AllocError>
    ensures first { IfOk result (λ r. chars (string_bytes r.0) ≡ linked D.view.text D.view.after
        (D.view.held decorator.old) (chars url.now) (chars label.now)) }
    ensures second { IfOk result (λ r. chars (string_bytes r.1) ≡ linked D.view.text D.view.after
        (after_link D.view.after (D.view.held decorator.old) (chars url.now)) (chars url.now) (chars label.now)) }
    ensures after { OnOk result (D.view.held decorator.new ≡ after_link D.view.after (after_link D.view.after
        (D.view.held decorator.old) (chars url.now)) (chars url.now)) }
{
    let first = link(alloc, decorator, url, label)?;
    let second = link(alloc, decorator, url, label)?;
    Ok((first, second))
}
