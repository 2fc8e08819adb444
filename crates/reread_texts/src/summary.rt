//! The summary in UTF-8, of texts in a page of one's choice.
ghost use Rattle.std.specs.Prelude.{◌≡◌, ◌++◌, map, option_map, List, Ok, OnOk, IfErr, ℕ};
ghost use Rattle.cfb_medium.specs.declared.error.Error.TheVariants.{Memory};
ghost use Rattle.msi_props.specs.Props.{properties_at, Property};
ghost use Rattle.msi_texts.specs.Results.{ReturnsOrOutOfMemory};
ghost use Rattle.msi_texts.specs.declared.codepage.CodePage.{CodePage as SetPage};
ghost use Rattle.reread_texts.specs.Sets.{given, lacking_at, lacking_values, set_reread, values_by, values_under, RiseFrom};

use crate::page::TextPage;
use crate::section::{read_section, section_of, text_at_offset};
use cfb_medium::Error;
use msi_props::{PropertySet, PropertyValue};
use msi_texts::CodePage;
use std::alloc::Global;

// The number of the property that tells the page.
const CODEPAGE: u32 = 1;

/// A property set in UTF-8.
#[derive(Debug, Drop)]
pub struct RereadSummary {
    /// The set, of one section.
    pub bytes: Vec<u8>,
    /// The numbers of the properties, rising, of which bytes have no character: U+FFFD stands there.
    pub lacking: Vec<u32>,
    /// How many sections it had, of which the first was read.
    pub sections: u32,
}

/// A property set in UTF-8, of one whose texts this page reads, whatever page it names. Its values stay but for the texts, and property 1,
/// which tells UTF-8. What can't be read as a set is refused as `PropertySet::read` refuses it: `InvalidData` or `UnexpectedEof`.
/// `InvalidInput` where it would take 4294967295 bytes or more. The other error is `Memory`.
pub fn reread_summary(alloc: Global, page: TextPage, bytes: &[u8]) -> Result<RereadSummary, Error>
    ensures { ReturnsOrOutOfMemory (λ it. (it.bytes.items, it.lacking.items, it.sections)) result
        (set_reread page bytes.now) }
{
    let mut set = PropertySet::read(alloc, bytes)?;
    let section = section_of(bytes);
    let pairs = read_section(alloc, section)?;
    set.remove(CODEPAGE);
    let mut lacking = Vec::new(alloc);
    give_texts(alloc, page, section, &pairs, &mut set, &mut lacking)?;
    let sections = set.num_sections();
    set.set_codepage(CodePage::Utf8)?;
    let mut written = Vec::new(alloc);
    set.write(&mut written)?;
    Ok(RereadSummary {
        bytes: written,
        lacking,
        sections,
    })
}

// Gives each property of a section that is a text the one that the page reads, but property 1. The one error is `Memory`.
fn give_texts(
    alloc: Global,
    page: TextPage,
    section: &[u8],
    pairs: &[(u32, u32)],
    set: &mut PropertySet,
    lacking: &mut Vec<u32>,
) -> Result<(), Error>
    requires { RiseFrom 0 pairs.now }
    ensures values { (version : ℕ) (values : List (ℕ × Property)) (q : SetPage)
        → properties_at version section.now pairs.now ≡ Ok values
        → set.old.props.values ≡ values_under q values
        → OnOk result (set.new.props
        ≡ record set.old.props { values = values_by page values }) }
    ensures lacking { (version : ℕ) (values : List (ℕ × Property)) (q : SetPage)
        → properties_at version section.now pairs.now ≡ Ok values
        → set.old.props.values ≡ values_under q values
        → OnOk result (lacking.new.items
        ≡ lacking.old.items ++ lacking_values page values) }
    ensures errors { IfErr result (λ e. e ≡ Memory) }
{
    for (number, offset) in pairs {
        let text = text_at_offset(section, *offset);
        give_text(alloc, page, *number, text, set, lacking)?;
    }
    Ok(())
}

// Gives a property that is a text the one that the page reads. The one error is `Memory`.
fn give_text(
    alloc: Global,
    page: TextPage,
    number: u32,
    bytes: Option<&[u8]>,
    set: &mut PropertySet,
    lacking: &mut Vec<u32>,
) -> Result<(), Error>
    ensures given { OnOk result (set.new.props
        ≡ given page number (option_map (λ t. t.now) bytes.entry) set.old.props) }
    ensures lacking { OnOk result (lacking.new.items
        ≡ lacking.old.items ++ lacking_at page number (option_map (λ t. t.now) bytes.entry)) }
    ensures errors { IfErr result (λ e. e ≡ Memory) }
{
    let Some(bytes) = bytes else {
        return Ok(());
    };
    if number == CODEPAGE {
        return Ok(());
    }
    let (text, is_whole) = page.read(alloc, bytes)?;
    set.set(number, PropertyValue::LpStr(text))?;
    if !is_whole {
        lacking.push(number)?;
    }
    Ok(())
}
