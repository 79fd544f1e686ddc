//! Names and their groups, computed: first and last names of long groups, names that one letter
//! distinguishes, and strangers.
ghost use Rattle.std.specs.Prelude.{◌≡◌, true, false, codes};
ghost use Rattle.tree_names.specs.Groups.{is_formatting, tag_group};
ghost use Rattle.tree_names.specs.declared.group.TagGroup.TheVariants as groups;

#[tactic(auto, unfolding(crate::specs::Groups::tag_group))]
fn groups_of_rows()
    ensures address { tag_group (codes "address") ≡ groups.Block }
    ensures ul { tag_group (codes "ul") ≡ groups.Block }
    ensures p { tag_group (codes "p") ≡ groups.Paragraph }
    ensures h6 { tag_group (codes "h6") ≡ groups.Heading }
    ensures listing { tag_group (codes "listing") ≡ groups.Preformatted }
    ensures th { tag_group (codes "th") ≡ groups.Cell }
    ensures tfoot { tag_group (codes "tfoot") ≡ groups.Section }
    ensures wbr { tag_group (codes "wbr") ≡ groups.VoidPhrase }
    ensures br { tag_group (codes "br") ≡ groups.LineBreak }
    ensures nobr { tag_group (codes "nobr") ≡ groups.NoBreak }
    ensures u { tag_group (codes "u") ≡ groups.Formatting }
    ensures bgsound { tag_group (codes "bgsound") ≡ groups.Link }
    ensures rtc { tag_group (codes "rtc") ≡ groups.RubyBase }
    ensures xmp { tag_group (codes "xmp") ≡ groups.Xmp }
{}

#[tactic(auto, unfolding(crate::specs::Groups::tag_group))]
fn strangers_of_rows()
    ensures span { tag_group (codes "span") ≡ groups.Other }
    ensures h7 { tag_group (codes "h7") ≡ groups.Other }
    ensures table_and_more { tag_group (codes "tablex") ≡ groups.Other }
    ensures table_but_its_end { tag_group (codes "tabl") ≡ groups.Other }
    ensures in_capitals { tag_group (codes "TABLE") ≡ groups.Other }
    ensures nothing { tag_group (codes "") ≡ groups.Other }
{}

fn formatting_of_rows()
    ensures anchor { is_formatting groups.Anchor ≡ true }
    ensures no_break { is_formatting groups.NoBreak ≡ true }
    ensures formatting { is_formatting groups.Formatting ≡ true }
    ensures paragraph { is_formatting groups.Paragraph ≡ false }
    ensures other { is_formatting groups.Other ≡ false }
{}
