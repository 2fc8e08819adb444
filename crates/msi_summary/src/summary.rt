//! The summary of a package: its texts, moments and numbers.
ghost use Rattle.std.specs.Prelude.{◌≡◌, ◌↔◌, ◌⊎◌, ◌++◌, false, true, IfErr, IfOk, IsTrue, None, OnErr, OnOk, Some, map, option_map, string_bytes};
ghost use Rattle.cfb_medium.specs.Times.{units_of};
ghost use Rattle.cfb_medium.specs.declared.error.Error.TheVariants.{InvalidInput, Memory};
ghost use Rattle.msi_texts.specs.Results.{ReturnsOrOutOfMemory};
ghost use Rattle.uuid.specs.Text.{braced_text, upper};
ghost use Rattle.msi_props.specs.Held.{pair_in, property_in};
ghost use Rattle.msi_props.specs.Kept.{SetIsWritable};
ghost use Rattle.msi_summary.specs.Edits.{EditsOrOutOfMemory, edited_state};
ghost use Rattle.msi_props.specs.Props as property;
ghost use Rattle.msi_props.specs.Props.{is_in_size, props_bytes, property_named, texts_give_back};
ghost use Rattle.msi_summary.specs.Summary.{arch_of, keywords_of, languages_of, set_arch, set_keywords, set_languages, some_text, uuid_of, as_number, as_text, as_time, new_summary, number_field, set_number, set_or_cleared, set_page, set_text, set_time, summary_format, summary_read, text_field, time_field};

use crate::parts::{
    before_semicolon, behind_semicolon, joined_parts, languages_in, parts_in, push_languages,
    without_braces,
};
use cfb_medium::{Error, Timestamp};
use msi_props::{OperatingSystem, PropertySet, PropertyValue};
use msi_texts::{CodePage, LanguageId};
use std::alloc::Global;
use std::marker::Model;
use uuid::Uuid;

// What a summary's properties stand for, by its identifier.
const FORMAT: [u8; 16] = [
    0xE0, 0x85, 0x9F, 0xF2, 0xF9, 0x4F, 0x68, 0x10, 0xAB, 0x91, 0x08, 0x00, 0x2B, 0x27, 0xB3, 0xD9,
];

// The numbers of its properties.
const KEYWORDS: u32 = 5;

const TEMPLATE: u32 = 7;

const UUID: u32 = 9;

const TITLE: u32 = 2;

const SUBJECT: u32 = 3;

const AUTHOR: u32 = 4;

const COMMENTS: u32 = 6;

const LAST_SAVED_BY: u32 = 8;

const CREATING_APPLICATION: u32 = 18;

const PAGE_COUNT: u32 = 14;

const WORD_COUNT: u32 = 15;

const CHARACTER_COUNT: u32 = 16;

const DOC_SECURITY: u32 = 19;

const CREATION_TIME: u32 = 12;

const LAST_PRINTED: u32 = 11;

const LAST_SAVED_TIME: u32 = 13;

/// The summary of a package, a property set. Texts are cut and joined as installers do; a value of another kind than its
/// property asks for counts as none.
#[derive(Drop)]
pub struct SummaryInfo {
    alloc: Global,
    properties: PropertySet,
}

impl Model for SummaryInfo {
    ghost use Rattle.msi_props.specs.Held.{SetState};

    ghost Value = { SetState };

    ghost view = { λ s. s.properties };
}

// Parts of all getters and setters.
impl SummaryInfo {
    // The text of a property.
    fn text(&self, number: u32) -> Option<&str>
        ensures { option_map (λ t. t.now) result ≡ text_field number self.now.props }
    {
        match self.properties.get(number) {
            Some(PropertyValue::LpStr(text)) => Some(text.as_str()),
            _ => None,
        }
    }

    // The number of a property.
    fn number(&self, number: u32) -> Option<i32>
        ensures { result ≡ number_field number self.now.props }
    {
        match self.properties.get(number) {
            Some(PropertyValue::I4(value)) => Some(*value),
            _ => None,
        }
    }

    // The moment of a property.
    fn time(&self, number: u32) -> Option<Timestamp>
        ensures { option_map units_of result ≡ time_field number self.now.props }
    {
        match self.properties.get(number) {
            Some(PropertyValue::FileTime(moment)) => Some(*moment),
            _ => None,
        }
    }

    // Sets the value of a property that isn't the page.
    fn put(&mut self, number: u32, value: PropertyValue) -> Result<(), Error>
        requires { (number ≡ 1) → ⊥ }
        ensures ok { OnOk result (self.new
            ≡ record self.old {
              props = set_or_cleared number (Some (property_in value))
                  self.old.props;
            }) }
        ensures errors { IfErr result (λ e. (e ≡ Memory) × (self.new ≡ self.old)) }
    {
        self.properties.set(number, value)
    }

    // Sets a text.
    fn put_text(&mut self, number: u32, text: &str) -> Result<(), Error>
        requires { (number ≡ 1) → ⊥ }
        ensures { EditsOrOutOfMemory (set_text number (Some text.now)) self.old self.new result }
    {
        let text = String::from_str(self.alloc, text)?;
        self.put(number, PropertyValue::LpStr(text))
    }
}

impl SummaryInfo {
    /// A summary that has its page alone, UTF-8.
    pub fn new(alloc: Global) -> Result<SummaryInfo, Error>
        ensures ok { IfOk result (λ summary. summary
            ≡ record { props = new_summary; whole = true }) }
        ensures errors { IfErr result (λ e. e ≡ Memory) }
    {
        let mut properties = PropertySet::new(alloc, OperatingSystem::Win32, 10, FORMAT);
        properties.set_codepage(CodePage::Utf8)?;
        Ok(SummaryInfo { alloc, properties })
    }

    /// Reads a summary: a property set, refused as such, and then InvalidData where its identifier is another.
    pub fn read(alloc: Global, bytes: &[u8]) -> Result<SummaryInfo, Error>
        ensures read { ReturnsOrOutOfMemory (λ summary. summary.props) result
            (summary_read bytes.now) }
        ensures whole { IfOk result (λ summary. summary.whole ≡ texts_give_back bytes.now) }
    {
        let properties = PropertySet::read(alloc, bytes)?;
        if properties.format_identifier().as_slice() != FORMAT.as_slice() {
            return Err(Error::InvalidData);
        }
        Ok(SummaryInfo { alloc, properties })
    }

    /// Appends the summary. InvalidInput where it would take 2^32 - 1 bytes or more. After an error, which may also be Memory,
    /// nothing is appended.
    pub fn write(&self, writer: &mut Vec<u8>) -> Result<(), Error>
        ensures ok { OnOk result (IsTrue (is_in_size self.now.props)
            × (writer.new.items ≡ writer.old.items ++ props_bytes self.now.props)) }
        ensures after_error { IfErr result (λ e. (writer.new.items ≡ writer.old.items)
            × ((e ≡ Memory) ⊎ ((e ≡ InvalidInput) × (is_in_size self.now.props ≡ false)))) }
    {
        self.properties.write(writer)
    }

    /// Whether it is read as it is, once it is written: its numbers rise, each text fits the page, which property 1 tells, it takes fewer
    /// than 2^32 - 1 bytes, and its identifier is a summary's. It takes no memory, and time for each character.
    pub fn is_writable(&self) -> bool
        ensures { IsTrue result
            ↔ (SetIsWritable self.now.props × (self.now.props.format ≡ summary_format)) }
    {
        self.properties.format_identifier().as_slice() == FORMAT.as_slice()
            && self.properties.is_writable()
    }

    /// The values with their numbers, which rise.
    pub fn properties(&self) -> &[(u32, PropertyValue)]
        ensures { map pair_in result.now ≡ self.now.props.values }
    {
        self.properties.properties()
    }

    /// How many sections the file has that it was read from.
    pub fn num_sections(&self) -> u32
        ensures { result ≡ self.now.props.sections }
    {
        self.properties.num_sections()
    }

    /// Whether each of its texts, as it was read, is written as the bytes that it was read from. True of a new one.
    pub fn texts_give_back(&self) -> bool
        ensures { result ≡ self.now.whole }
    {
        self.properties.texts_give_back()
    }

    /// The code page of its texts.
    pub fn codepage(&self) -> CodePage
        ensures { result ≡ self.now.props.page }
    {
        self.properties.codepage()
    }

    /// Sets the code page. Texts stay as they are. After Memory nothing changed.
    pub fn set_codepage(&mut self, codepage: CodePage) -> Result<(), Error>
        ensures { EditsOrOutOfMemory (set_page codepage) self.old self.new result }
    {
        self.properties.set_codepage(codepage)
    }

    /// The title.
    pub fn title(&self) -> Option<&str>
        ensures { option_map (λ t. t.now) result ≡ text_field 2 self.now.props }
    {
        self.text(TITLE)
    }

    /// Sets the title. After Memory nothing changed.
    pub fn set_title(&mut self, title: &str) -> Result<(), Error>
        ensures { EditsOrOutOfMemory (set_text 2 (Some title.now)) self.old self.new result }
    {
        self.put_text(TITLE, title)
    }

    /// Takes the title away.
    pub fn clear_title(&mut self)
        ensures { self.new ≡ edited_state (set_text 2 None) self.old }
    {
        self.properties.remove(TITLE);
    }

    /// The subject: for a package its name.
    pub fn subject(&self) -> Option<&str>
        ensures { option_map (λ t. t.now) result ≡ text_field 3 self.now.props }
    {
        self.text(SUBJECT)
    }

    /// Sets the subject. After Memory nothing changed.
    pub fn set_subject(&mut self, subject: &str) -> Result<(), Error>
        ensures { EditsOrOutOfMemory (set_text 3 (Some subject.now)) self.old self.new result }
    {
        self.put_text(SUBJECT, subject)
    }

    /// Takes the subject away.
    pub fn clear_subject(&mut self)
        ensures { self.new ≡ edited_state (set_text 3 None) self.old }
    {
        self.properties.remove(SUBJECT);
    }

    /// The author.
    pub fn author(&self) -> Option<&str>
        ensures { option_map (λ t. t.now) result ≡ text_field 4 self.now.props }
    {
        self.text(AUTHOR)
    }

    /// Sets the author. After Memory nothing changed.
    pub fn set_author(&mut self, author: &str) -> Result<(), Error>
        ensures { EditsOrOutOfMemory (set_text 4 (Some author.now)) self.old self.new result }
    {
        self.put_text(AUTHOR, author)
    }

    /// Takes the author away.
    pub fn clear_author(&mut self)
        ensures { self.new ≡ edited_state (set_text 4 None) self.old }
    {
        self.properties.remove(AUTHOR);
    }

    /// The comments.
    pub fn comments(&self) -> Option<&str>
        ensures { option_map (λ t. t.now) result ≡ text_field 6 self.now.props }
    {
        self.text(COMMENTS)
    }

    /// Sets the comments. After Memory nothing changed.
    pub fn set_comments(&mut self, comments: &str) -> Result<(), Error>
        ensures { EditsOrOutOfMemory (set_text 6 (Some comments.now)) self.old self.new result }
    {
        self.put_text(COMMENTS, comments)
    }

    /// Takes the comments away.
    pub fn clear_comments(&mut self)
        ensures { self.new ≡ edited_state (set_text 6 None) self.old }
    {
        self.properties.remove(COMMENTS);
    }

    /// Who saved it last.
    pub fn last_saved_by(&self) -> Option<&str>
        ensures { option_map (λ t. t.now) result ≡ text_field 8 self.now.props }
    {
        self.text(LAST_SAVED_BY)
    }

    /// Sets the last saver. After Memory nothing changed.
    pub fn set_last_saved_by(&mut self, last_saved_by: &str) -> Result<(), Error>
        ensures { EditsOrOutOfMemory
            (set_text 8 (Some last_saved_by.now)) self.old self.new result }
    {
        self.put_text(LAST_SAVED_BY, last_saved_by)
    }

    /// Takes the last saver away.
    pub fn clear_last_saved_by(&mut self)
        ensures { self.new ≡ edited_state (set_text 8 None) self.old }
    {
        self.properties.remove(LAST_SAVED_BY);
    }

    /// The program that made it.
    pub fn creating_application(&self) -> Option<&str>
        ensures { option_map (λ t. t.now) result ≡ text_field 18 self.now.props }
    {
        self.text(CREATING_APPLICATION)
    }

    /// Sets the program. After Memory nothing changed.
    pub fn set_creating_application(&mut self, creating_application: &str) -> Result<(), Error>
        ensures { EditsOrOutOfMemory
            (set_text 18 (Some creating_application.now)) self.old self.new result }
    {
        self.put_text(CREATING_APPLICATION, creating_application)
    }

    /// Takes the program away.
    pub fn clear_creating_application(&mut self)
        ensures { self.new ≡ edited_state (set_text 18 None) self.old }
    {
        self.properties.remove(CREATING_APPLICATION);
    }

    /// The page count: for a package the least version of the installer that it needs.
    pub fn page_count(&self) -> Option<i32>
        ensures { result ≡ number_field 14 self.now.props }
    {
        self.number(PAGE_COUNT)
    }

    /// Sets the page count. After Memory nothing changed.
    pub fn set_page_count(&mut self, page_count: i32) -> Result<(), Error>
        ensures { EditsOrOutOfMemory (set_number 14 (Some page_count)) self.old self.new result }
    {
        self.put(PAGE_COUNT, PropertyValue::I4(page_count))
    }

    /// Takes the page count away.
    pub fn clear_page_count(&mut self)
        ensures { self.new ≡ edited_state (set_number 14 None) self.old }
    {
        self.properties.remove(PAGE_COUNT);
    }

    /// The word count: for a package how its source files lie.
    pub fn word_count(&self) -> Option<i32>
        ensures { result ≡ number_field 15 self.now.props }
    {
        self.number(WORD_COUNT)
    }

    /// Sets the word count. After Memory nothing changed.
    pub fn set_word_count(&mut self, word_count: i32) -> Result<(), Error>
        ensures { EditsOrOutOfMemory (set_number 15 (Some word_count)) self.old self.new result }
    {
        self.put(WORD_COUNT, PropertyValue::I4(word_count))
    }

    /// Takes the word count away.
    pub fn clear_word_count(&mut self)
        ensures { self.new ≡ edited_state (set_number 15 None) self.old }
    {
        self.properties.remove(WORD_COUNT);
    }

    /// The character count.
    pub fn character_count(&self) -> Option<i32>
        ensures { result ≡ number_field 16 self.now.props }
    {
        self.number(CHARACTER_COUNT)
    }

    /// Sets the character count. After Memory nothing changed.
    pub fn set_character_count(&mut self, character_count: i32) -> Result<(), Error>
        ensures { EditsOrOutOfMemory
            (set_number 16 (Some character_count)) self.old self.new result }
    {
        self.put(CHARACTER_COUNT, PropertyValue::I4(character_count))
    }

    /// Takes the character count away.
    pub fn clear_character_count(&mut self)
        ensures { self.new ≡ edited_state (set_number 16 None) self.old }
    {
        self.properties.remove(CHARACTER_COUNT);
    }

    /// The security: for a package how far it should be opened for reading alone.
    pub fn doc_security(&self) -> Option<i32>
        ensures { result ≡ number_field 19 self.now.props }
    {
        self.number(DOC_SECURITY)
    }

    /// Sets the security. After Memory nothing changed.
    pub fn set_doc_security(&mut self, doc_security: i32) -> Result<(), Error>
        ensures { EditsOrOutOfMemory (set_number 19 (Some doc_security)) self.old self.new result }
    {
        self.put(DOC_SECURITY, PropertyValue::I4(doc_security))
    }

    /// Takes the security away.
    pub fn clear_doc_security(&mut self)
        ensures { self.new ≡ edited_state (set_number 19 None) self.old }
    {
        self.properties.remove(DOC_SECURITY);
    }

    /// The moment at which it was made.
    pub fn creation_time(&self) -> Option<Timestamp>
        ensures { option_map units_of result ≡ time_field 12 self.now.props }
    {
        self.time(CREATION_TIME)
    }

    /// Sets the moment at which it was made. After Memory nothing changed.
    pub fn set_creation_time(&mut self, moment: Timestamp) -> Result<(), Error>
        ensures { EditsOrOutOfMemory
            (set_time 12 (Some (units_of moment))) self.old self.new result }
    {
        self.put(CREATION_TIME, PropertyValue::FileTime(moment))
    }

    /// Takes the moment at which it was made away.
    pub fn clear_creation_time(&mut self)
        ensures { self.new ≡ edited_state (set_time 12 None) self.old }
    {
        self.properties.remove(CREATION_TIME);
    }

    /// The moment at which it was printed last.
    pub fn last_printed(&self) -> Option<Timestamp>
        ensures { option_map units_of result ≡ time_field 11 self.now.props }
    {
        self.time(LAST_PRINTED)
    }

    /// Sets the moment at which it was printed last. After Memory nothing changed.
    pub fn set_last_printed(&mut self, moment: Timestamp) -> Result<(), Error>
        ensures { EditsOrOutOfMemory
            (set_time 11 (Some (units_of moment))) self.old self.new result }
    {
        self.put(LAST_PRINTED, PropertyValue::FileTime(moment))
    }

    /// Takes the moment at which it was printed last away.
    pub fn clear_last_printed(&mut self)
        ensures { self.new ≡ edited_state (set_time 11 None) self.old }
    {
        self.properties.remove(LAST_PRINTED);
    }

    /// The moment at which it was saved last.
    pub fn last_saved_time(&self) -> Option<Timestamp>
        ensures { option_map units_of result ≡ time_field 13 self.now.props }
    {
        self.time(LAST_SAVED_TIME)
    }

    /// Sets the moment at which it was saved last. After Memory nothing changed.
    pub fn set_last_save_time(&mut self, moment: Timestamp) -> Result<(), Error>
        ensures { EditsOrOutOfMemory
            (set_time 13 (Some (units_of moment))) self.old self.new result }
    {
        self.put(LAST_SAVED_TIME, PropertyValue::FileTime(moment))
    }

    /// Takes the moment at which it was saved last away.
    pub fn clear_last_save_time(&mut self)
        ensures { self.new ≡ edited_state (set_time 13 None) self.old }
    {
        self.properties.remove(LAST_SAVED_TIME);
    }

    /// The architecture: what precedes the template's first semicolon, where that is any text.
    pub fn arch(&self) -> Option<&str>
        ensures { option_map (λ t. t.now) result ≡ arch_of self.now.props }
    {
        match self.text(TEMPLATE) {
            Some(template) => some_text(before_semicolon(template)),
            None => None,
        }
    }

    /// Sets the architecture: the template is that, a semicolon, and what followed its first one. After Memory nothing changed.
    pub fn set_arch(&mut self, arch: &str) -> Result<(), Error>
        ensures { EditsOrOutOfMemory (set_arch (Some arch.now)) self.old self.new result }
    {
        let mut template = String::from_str(self.alloc, arch)?;
        template.push_str(";")?;
        template.push_str(behind_semicolon(self.text(TEMPLATE).unwrap_or("")))?;
        self.put(TEMPLATE, PropertyValue::LpStr(template))
    }

    /// Sets no architecture. After Memory nothing changed.
    pub fn clear_arch(&mut self) -> Result<(), Error>
        ensures { EditsOrOutOfMemory (set_arch None) self.old self.new result }
    {
        self.set_arch("")
    }

    /// The languages: of what follows the template's first semicolon, the parts between commas that are numbers of 16 bits. The
    /// one error is Memory.
    pub fn languages(&self) -> Result<Vec<LanguageId>, Error>
        ensures ok { IfOk result (λ languages. languages.items ≡ languages_of self.now.props) }
        ensures errors { IfErr result (λ e. e ≡ Memory) }
    {
        let template = self.text(TEMPLATE).unwrap_or("");
        languages_in(self.alloc, behind_semicolon(template))
    }

    /// Sets the languages: the template is what preceded its first semicolon, a semicolon, and their numbers with commas. After
    /// Memory nothing changed.
    pub fn set_languages(&mut self, languages: &[LanguageId]) -> Result<(), Error>
        ensures { EditsOrOutOfMemory (set_languages (Some languages.now)) self.old self.new result }
    {
        let front = before_semicolon(self.text(TEMPLATE).unwrap_or(""));
        let mut template = String::from_str(self.alloc, front)?;
        template.push_str(";")?;
        push_languages(&mut template, languages)?;
        self.put(TEMPLATE, PropertyValue::LpStr(template))
    }

    /// Sets no language. After Memory nothing changed.
    pub fn clear_languages(&mut self) -> Result<(), Error>
        ensures { EditsOrOutOfMemory (set_languages None) self.old self.new result }
    {
        self.set_languages(&[])
    }

    /// The keywords: what semicolons part, without white space at the ends; none of no text. The one error is Memory.
    pub fn keywords(&self) -> Result<Vec<String>, Error>
        ensures ok { IfOk result (λ keywords. map string_bytes keywords.items
            ≡ keywords_of self.now.props) }
        ensures errors { IfErr result (λ e. e ≡ Memory) }
    {
        parts_in(self.alloc, self.text(KEYWORDS).unwrap_or(""))
    }

    /// Sets the keywords, with a semicolon and a space between each two. After Memory nothing changed.
    pub fn set_keywords(&mut self, keywords: &[String]) -> Result<(), Error>
        ensures { EditsOrOutOfMemory
            (set_keywords (Some (map string_bytes keywords.now))) self.old self.new
            result }
    {
        let keywords = joined_parts(self.alloc, keywords)?;
        self.put(KEYWORDS, PropertyValue::LpStr(keywords))
    }

    /// Sets no keyword, which leaves the empty text. After Memory nothing changed.
    pub fn clear_keywords(&mut self) -> Result<(), Error>
        ensures { EditsOrOutOfMemory (set_keywords None) self.old self.new result }
    {
        self.set_keywords(&[])
    }

    /// The identifier of the package: the text without the braces around it, where that is a UUID's.
    pub fn uuid(&self) -> Option<Uuid>
        ensures { result ≡ uuid_of self.now.props }
    {
        match self.text(UUID) {
            Some(text) => Uuid::try_parse_ascii(without_braces(text)).ok(),
            None => None,
        }
    }

    /// Sets the identifier, as hyphenated text in upper case in braces. After Memory nothing changed.
    pub fn set_uuid(&mut self, uuid: Uuid) -> Result<(), Error>
        ensures { EditsOrOutOfMemory
            (set_text 9 (Some (braced_text upper uuid))) self.old self.new result }
    {
        let mut buffer = [0; 38];
        self.put_text(UUID, uuid.braced().encode_upper(&mut buffer))
    }

    /// Takes the identifier away.
    pub fn clear_uuid(&mut self)
        ensures { self.new ≡ edited_state (set_text 9 None) self.old }
    {
        self.properties.remove(UUID);
    }
}

// A text that isn't empty.
fn some_text(text: &str) -> Option<&str>
    ensures { option_map (λ t. t.now) result ≡ some_text text.now }
{
    if text.is_empty() { None } else { Some(text) }
}
