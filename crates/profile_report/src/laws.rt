ghost use Rattle.std.specs.Prelude.{◌≡◌, ℕ, List, false};
ghost use Rattle.std.specs.List.{list_any};
ghost use Rattle.profile_report.specs.Escaped.{html_text, is_markup};

/// No text adds markup to a page, whatever characters it has, and wherever it is cut.
#[tactic(auto, using(crate::proofs::Plain::text_is_plain))]
pub fn texts_are_no_markup()
    ensures { (room : ℕ) (text : List ℕ) → list_any is_markup (html_text room text) ≡ false }
{}
