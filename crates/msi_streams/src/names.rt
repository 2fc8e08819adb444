//! Names of streams, as calls take them.
ghost use Rattle.std.specs.Prelude.{◌≡◌, chars, encode_utf8_all, IfErr, MatchResult, Ok, Err};
ghost use Rattle.std.specs.List.{list_any};
ghost use Rattle.cfb_medium.specs.declared.error.Error.TheVariants.{InvalidInput};
ghost use Rattle.cfb_tree.specs.CaseTableViews.{case_table_of};
ghost use Rattle.cfb_tree.specs.Objects.{is_same_name};
ghost use Rattle.msi_spec.specs.Streams.{is_separator, is_special, may_name, plain_stream_name};
ghost use Rattle.msi_texts.specs.EncodedName.{encoded_text};

use cfb_medium::Error;
use cfb_tree::{CaseMapper, compare_names};
use msi_texts::{
    DIGITAL_SIGNATURE_STREAM_NAME, DOCUMENT_SUMMARY_INFO_STREAM_NAME, EncodedName,
    MSI_DIGITAL_SIGNATURE_EX_STREAM_NAME, SUMMARY_INFO_STREAM_NAME,
};

/// A stream's name as the container has it. `InvalidInput` where no stream can have the name: it is empty or too long, or named as
/// a table's; it has a `/`, `\`, `:` or `!`; or it is that of a summary or signature by its key. It takes no memory.
pub fn encoded_stream_name(letters: &CaseMapper, name: &str) -> Result<EncodedName, Error>
    ensures answer { MatchResult result (λ encoded.
        (may_name (case_table_of letters.now) name.now ≡ Ok tt)
        × (encoded_text encoded ≡ encode_utf8_all (plain_stream_name name.now)))
        (λ e. may_name (case_table_of letters.now) name.now ≡ Err e) }
    ensures errors { IfErr result (λ e. e ≡ InvalidInput) }
{
    if has_separator(name) {
        return Err(Error::InvalidInput);
    }
    let Some(encoded) = EncodedName::new(name, false) else {
        return Err(Error::InvalidInput);
    };
    if is_special(letters, encoded.as_str()) {
        return Err(Error::InvalidInput);
    }
    Ok(encoded)
}

// Whether a `/`, `\`, `:` or `!` stands in the name.
fn has_separator(name: &str) -> bool
    ensures { result ≡ list_any is_separator name.now }
{
    name.as_bytes().iter().any(|byte| is_separator(*byte))
}

// Whether a byte is one of them.
fn is_separator(byte: u8) -> bool
    ensures { result ≡ is_separator byte }
{
    byte == b'/' || byte == b'\\' || byte == b':' || byte == b'!'
}

/// Whether a name in the container has the key of one of the two summaries' or the two signature streams' names. It takes no memory.
pub fn is_special(letters: &CaseMapper, name: &str) -> bool
    ensures { result ≡ is_special (case_table_of letters.now) (chars name.now) }
{
    if is_same_name(letters, name, DOCUMENT_SUMMARY_INFO_STREAM_NAME) {
        return true;
    }
    if is_same_name(letters, name, SUMMARY_INFO_STREAM_NAME) {
        return true;
    }
    if is_same_name(letters, name, DIGITAL_SIGNATURE_STREAM_NAME) {
        return true;
    }
    is_same_name(letters, name, MSI_DIGITAL_SIGNATURE_EX_STREAM_NAME)
}

/// Whether two names are one in the container: they have one key. It takes no memory.
pub fn is_same_name(letters: &CaseMapper, one: &str, other: &str) -> bool
    ensures { result ≡ is_same_name (case_table_of letters.now) (chars one.now) (chars other.now) }
{
    compare_names(letters, one, other).is_eq()
}
