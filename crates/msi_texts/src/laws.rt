//! Laws of the definitions, each the contract of a function.
ghost use Rattle.std.specs.Prelude.{◌≡◌, List, ℕ, Bool, false, IsTrue};
ghost use Rattle.msi_texts.specs.Page.{decoded, encoded, fits};
ghost use Rattle.msi_texts.specs.declared.codepage.CodePage.{CodePage};
ghost use Rattle.msi_texts.specs.StreamName.{spelled, spelled_name, is_marked, name_of, is_plain_name};

/// A name without the characters that stand for letters is read back as it was written, as a table's or
/// another; two such names are spelled alike only where they are one.
pub fn names_are_read_back()
    ensures name { (table : Bool) (name : List ℕ) → IsTrue (is_plain_name name)
        → (table ≡ false → is_marked name ≡ false) → name_of (spelled_name table name) ≡ name }
    ensures table { (table : Bool) (name : List ℕ) → IsTrue (is_plain_name name)
        → (table ≡ false → is_marked name ≡ false) → is_marked (spelled_name table name) ≡ table }
    ensures apart { (one other : List ℕ) → IsTrue (is_plain_name one) → IsTrue (is_plain_name other)
        → spelled one ≡ spelled other → one ≡ other }
{}

/// A text that gives back the bytes that it was read from fits its page.
#[tactic(auto, using(crate::proofs::PageBytes::text_given_back_fits))]
pub fn texts_that_give_back_fit()
    ensures { (page : CodePage) (bytes : List ℕ) → encoded page (decoded page bytes) ≡ bytes
        → IsTrue (fits page (decoded page bytes)) }
{}
