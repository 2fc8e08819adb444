//! Which texts of a package fit their code pages.
ghost use Rattle.cfb_medium.specs.declared.error.Error.TheVariants.{Memory};
ghost use Rattle.msi.specs.Changing.{PackageCanBeWritten};
ghost use Rattle.msi.specs.Fitting.{unfit_text, unfit_texts, unfit_values};
ghost use Rattle.msi.specs.Opened.{PackageHasContent, pool_in, summary_in};
ghost use Rattle.msi_spec.specs.Package.{PackageContent};
ghost use Rattle.msi_props.specs.Held.{pair_in, property_in};
ghost use Rattle.std.specs.Option.{option_to_list};
ghost use Rattle.std.specs.Prelude.{◌≡◌, ◌↔◌, ◌≤◌, ◌-◌, ◌++◌, IfErr, IfOk, IsTrue, OnOk, length, map, option_map, string_bytes, take};

use crate::package::Package;
use cfb_medium::{Error, ReadMedium};
use msi_props::PropertyValue;
use msi_texts::CodePage;
use std::alloc::Global;

impl<F: ReadMedium> Package<F> {
    /// Whether pool and summary are read as they are, once they are written: each text fits its page, and none is too long. A commit
    /// then publishes bytes that hold the package; else a character that its page lacks is written `?`. It takes no memory, and time
    /// for each character of the two.
    pub fn texts_fit(&self) -> bool
        ensures { (P : PackageContent) → PackageHasContent self.now P → IsTrue result
            ↔ PackageCanBeWritten P }
    {
        self.pool.is_writable() && self.summary.is_writable()
    }

    /// The texts that don't fit their pages: those of the pool that are in use, in the order of their places, then those of the summary
    /// by the numbers of their properties; and of these the first `most`. The one error is `Memory`.
    pub fn unfit_texts(&self, alloc: Global, most: usize) -> Result<Vec<String>, Error>
        ensures texts { IfOk result (λ texts. map string_bytes texts.items
            ≡ take most (unfit_texts (pool_in self.now).pool (summary_in self.now).props)) }
        ensures errors { IfErr result (λ e. e ≡ Memory) }
    {
        let texts = self.pool.unfit_texts(alloc, most)?;
        let codepage = self.summary.codepage();
        with_unfit_values(alloc, texts, codepage, self.summary.properties(), most)
    }
}

// The texts, with those of these values behind them that don't fit the page, as long as there are fewer than the most.
fn with_unfit_values(
    alloc: Global,
    mut texts: Vec<String>,
    codepage: CodePage,
    values: &[(u32, PropertyValue)],
    most: usize,
) -> Result<Vec<String>, Error>
    requires { length texts.items ≤ most }
    ensures texts { IfOk result (λ all. map string_bytes all.items
        ≡ map string_bytes texts.items
        ++ take (most - length texts.items) (unfit_values codepage (map pair_in values.now))) }
    ensures errors { IfErr result (λ e. e ≡ Memory) }
{
    for value in values {
        if texts.len() == most {
            return Ok(texts);
        }
        push_text(alloc, &mut texts, unfit_text(codepage, &value.1))?;
    }
    Ok(texts)
}

// Appends a copy of the text, where there is one.
fn push_text(alloc: Global, texts: &mut Vec<String>, text: Option<&str>) -> Result<(), Error>
    ensures pushed { OnOk result (map string_bytes texts.new.items
        ≡ map string_bytes texts.old.items
        ++ option_to_list (option_map (λ t. t.now) text.entry)) }
    ensures errors { IfErr result (λ e. e ≡ Memory) }
{
    if let Some(text) = text {
        texts.push(String::from_str(alloc, text)?)?;
    }
    Ok(())
}

// The text of a value, where it doesn't fit the page.
fn unfit_text(codepage: CodePage, value: &PropertyValue) -> Option<&str>
    ensures { option_map (λ t. t.now) result ≡ unfit_text codepage (property_in value.now) }
{
    match value {
        PropertyValue::LpStr(text) if !codepage.fits(text) => Some(text.as_str()),
        _ => None,
    }
}
