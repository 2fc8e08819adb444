//! Texts of codes, versions, languages and names of cabinets.
ghost use Rattle.std.specs.Prelude.{◌≡◌, ◌^◌, ◌==◌, IfOk, map};
ghost use Rattle.std.specs.List.{slice_split};
ghost use Rattle.std.specs.Option.{option_copied};
ghost use Rattle.msi_texts.specs.Category.{is_guid, reads_unsigned};
ghost use Rattle.product_rules.specs.Texts.{are_versions, is_version, languages_in, packed_name};

use msi_texts::Category;
use std::alloc::{AllocError, Global};

/// Whether a text is a GUID in braces, without a lower case letter.
pub(crate) fn is_guid(text: &str) -> bool
    ensures { result ≡ is_guid text.now }
{
    Category::Guid.validate(text)
}

fn reads_u8(text: &str) -> bool
    ensures { result ≡ reads_unsigned (2 ^ 8) text.now }
{
    text.parse::<u8>().is_ok()
}

/// Whether a text is a number of 16 bits.
pub(crate) fn reads_u16(text: &str) -> bool
    ensures { result ≡ reads_unsigned (2 ^ 16) text.now }
{
    text.parse::<u16>().is_ok()
}

/// Whether a text is the version of a product. The one error is want of memory.
pub(crate) fn is_version(alloc: Global, text: &str) -> Result<bool, AllocError>
    ensures { IfOk result (λ is_so. is_so ≡ is_version text.now) }
{
    let parts = fields_of(alloc, text)?;
    Ok(are_versions(&parts))
}

// The parts of a text between dots.
fn fields_of(alloc: Global, text: &str) -> Result<Vec<&str>, AllocError>
    ensures { IfOk result (λ parts. map (λ p. p.now) parts.items
        ≡ slice_split (λ b. b == 46) text.now) }
{
    text.split('.').collect(alloc)
}

fn are_versions(parts: &[&str]) -> bool
    ensures { result ≡ are_versions (map (λ p. p.now) parts.now) }
{
    match parts {
        [major] => reads_u8(major),
        [major, minor] => reads_u8(major) && reads_u8(minor),
        [major, minor, build] | [major, minor, build, _] => {
            reads_u8(major) && reads_u8(minor) && reads_u16(build)
        }
        _ => false,
    }
}

/// The stream that a cabinet's name means: what stands behind `#`.
pub(crate) fn packed_name(cabinet: &str) -> Option<&str>
    ensures { option_copied result ≡ packed_name cabinet.now }
{
    cabinet.strip_prefix('#')
}

/// The languages in the template of a summary: what stands behind its first `;`.
pub(crate) fn languages_in(template: &str) -> Option<&str>
    ensures { option_copied result ≡ languages_in template.now }
{
    match template.split_once(';') {
        Some((_, languages)) => Some(languages),
        None => None,
    }
}
