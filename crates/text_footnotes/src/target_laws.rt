//! Laws of the targets of links: each is the contract of a function that does nothing.
ghost use Rattle.std.specs.Prelude.{◌≡◌, ◌==◌, ℕ, ◌-◌, List, [], ◌∷◌, ◌++◌, Some, encode_utf8_all, false, slice_get};
ghost use Rattle.std.specs.Prelude.{true};
ghost use Rattle.std.specs.Prelude.{if◌then◌else◌};
ghost use Rattle.std.specs.List.{count_by, list_any};
ghost use Rattle.percent_encoding.specs.Percent.{percent_decode, percent_sign};
ghost use Rattle.text_pieces.specs.Sources.{is_filled};
ghost use Rattle.text_footnotes.specs.Printable.{is_unprintable, printable};
ghost use Rattle.text_footnotes.specs.Targets.{distinct, has_text, is_same_text, last_number, number_among};

/// Where links to equal targets share a footnote, each target has just one (`once`), the number after a link is that
/// of its target's footnote (`number`), and it stays so whatever links follow (`stays`); there are footnotes where
/// there are links (`some`).
pub fn links_share_footnotes()
    ensures once { (targets : List (List ℕ)) (target : List ℕ)
        → count_by (is_same_text target) (distinct targets) ≡ (if has_text targets target then 1 else 0) }
    ensures number { (targets : List (List ℕ)) (target : List ℕ)
        → slice_get (distinct (targets ++ target ∷ [])) (last_number true (targets ++ target ∷ []) - 1)
        ≡ Some target }
    ensures stays { (targets more : List (List ℕ)) (target : List ℕ) → has_text targets target ≡ true
        → number_among (distinct (targets ++ more)) (Some target) ≡ number_among (distinct targets) (Some target) }
    ensures some { (targets : List (List ℕ)) → is_filled (distinct targets) ≡ is_filled targets }
{}

/// A printable target has no unprintable character (`none`), and is the target itself where that has none (`same`).
/// Of a target without `%` it loses nothing: percent-decoded (URL Standard, 1.3) it is the target (`decoded`), so two
/// such targets that differ do so printed (`injective`).
pub fn printable_targets_lose_nothing()
    ensures none { (target : List ℕ) → list_any is_unprintable (printable target) ≡ false }
    ensures same { (target : List ℕ) → list_any is_unprintable target ≡ false → printable target ≡ target }
    ensures decoded { (target : List ℕ) → list_any (λ c. c == percent_sign) target ≡ false
        → percent_decode (encode_utf8_all (printable target)) ≡ encode_utf8_all target }
    ensures injective { (one other : List ℕ) → list_any (λ c. c == percent_sign) one ≡ false
        → list_any (λ c. c == percent_sign) other ≡ false → printable one ≡ printable other → one ≡ other }
{}
