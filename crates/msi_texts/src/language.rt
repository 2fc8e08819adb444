//! Language identifiers and their tags.
ghost use Rattle.std.specs.Prelude.{◌≡◌, ◌%◌, ◌<◌, ◌^◌, ℕ, Some, true, false, map, bytes_eq, find};
ghost use Rattle.std.specs.Fmt.{decimal, styled_decimal, digits, WritesOnOk};
ghost use Rattle.msi_texts.specs.Language.{joined_id, primary_of, sub_of, tag_of, tagged, languages};

use std::fmt;
use std::marker::Model;

/// A Windows language identifier: a primary language in the low ten bits, a sub-language in the upper six.
#[derive(Clone, Copy, Debug, PartialEq, Eq, Hash)]
pub struct LanguageId {
    id: u16,
}

impl Model for LanguageId {
    ghost use Rattle.std.specs.Prelude.{ℕ, ◌<◌, ◌^◌};

    ghost Value = { ℕ };

    ghost view = { λ l. l.id };

    ghost invariant = { λ l. l.id < 2 ^ 16 };

    ghost inverse = { λ n. record { id = n } };
}

// The identifiers that have a tag.
const TAGGED_IDS: [u16; 36] = [
    0x0001, 0x0004, 0x0005, 0x0006, 0x0007, 0x0008, 0x0009, 0x000a, 0x000b, 0x000c, 0x000d, 0x000e,
    0x0010, 0x0011, 0x0012, 0x0013, 0x0015, 0x0016, 0x0019, 0x001d, 0x001f, 0x0407, 0x0409, 0x040a,
    0x040c, 0x0410, 0x0411, 0x0416, 0x0419, 0x0804, 0x0809, 0x080a, 0x0c0a, 0x0c0c, 0x1009, 0x7c04,
];

impl LanguageId {
    /// The language of a primary language and a sub-language.
    pub fn new(primary_language_id: u16, sub_language_id: u16) -> LanguageId
        ensures { result ≡ joined_id primary_language_id sub_language_id }
    {
        LanguageId {
            id: primary_language_id | (sub_language_id % 64) << 10,
        }
    }

    /// The language of an identifier.
    pub fn from_id(id: u16) -> LanguageId
        ensures { result ≡ id }
    {
        LanguageId { id }
    }

    /// The language of a locale identifier: its low sixteen bits.
    pub fn from_lcid(lcid: u32) -> LanguageId
        ensures { result ≡ lcid % 2 ^ 16 }
    {
        LanguageId {
            id: (lcid % 65536) as u16,
        }
    }

    /// The language of a tag; 0 where the tag is not known.
    pub fn from_tag(tag: &str) -> LanguageId
        ensures { result ≡ tagged tag.now }
    {
        LanguageId {
            id: tagged_id(tag).unwrap_or(0),
        }
    }

    /// The identifier.
    pub fn id(&self) -> u16
        ensures { result ≡ self.now }
    {
        u16::from(*self)
    }

    /// The primary language: the low ten bits.
    pub fn primary_language_id(&self) -> u16
        ensures { result ≡ primary_of self.now }
    {
        self.id % 1024
    }

    /// The sub-language: the upper six bits.
    pub fn sub_language_id(&self) -> u8
        ensures { result ≡ sub_of self.now }
    {
        (self.id / 1024) as u8
    }

    /// The language's tag; `und` where there is none.
    pub fn tag(&self) -> &'static str
        ensures { result.now ≡ tag_of self.now }
    {
        tag_of(self.id)
    }
}

// The tag of an identifier.
fn tag_of(id: u16) -> &'static str
    ensures { result.now ≡ tag_of id }
{
    match id {
        0x0001 => "ar",
        0x0004 => "zh-Hans",
        0x0005 => "cs",
        0x0006 => "da",
        0x0007 => "de",
        0x0008 => "el",
        0x0009 => "en",
        0x000a => "es",
        0x000b => "fi",
        0x000c => "fr",
        0x000d => "he",
        0x000e => "hu",
        0x0010 => "it",
        0x0011 => "ja",
        0x0012 => "ko",
        0x0013 => "nl",
        0x0015 => "pl",
        0x0016 => "pt",
        0x0019 => "ru",
        0x001d => "sv",
        0x001f => "tr",
        0x0407 => "de-DE",
        0x0409 => "en-US",
        0x040a => "es-ES_tradnl",
        0x040c => "fr-FR",
        0x0410 => "it-IT",
        0x0411 => "ja-JP",
        0x0416 => "pt-BR",
        0x0419 => "ru-RU",
        0x0804 => "zh-CN",
        0x0809 => "en-GB",
        0x080a => "es-MX",
        0x0c0a => "es-ES",
        0x0c0c => "fr-CA",
        0x1009 => "en-CA",
        0x7c04 => "zh-Hant",
        _ => "und",
    }
}

// The identifier of a tag.
fn tagged_id(tag: &str) -> Option<u16>
    ensures { result ≡ find (λ id. bytes_eq (tag_of id) tag.now) (map (λ l. l.0) languages) }
{
    TAGGED_IDS.iter().find(|id| tag_of(**id) == tag).copied()
}

impl Default for LanguageId {
    ghost is_default = { λ l. l ≡ 0 };

    fn default() -> LanguageId {
        LanguageId { id: 0 }
    }
}

impl From<u16> for LanguageId {
    ghost from_gives = { λ id l. l ≡ id };

    fn from(id: u16) -> LanguageId {
        LanguageId::from_id(id)
    }
}

impl From<LanguageId> for u16 {
    ghost from_gives = { λ l id. id ≡ l };

    fn from(language: LanguageId) -> u16 {
        language.id
    }
}

impl fmt::Display for LanguageId {
    ghost output = { λ l. Some (decimal l) };

    ghost styled_output = { λ l options. Some (styled_decimal options l) };

    fn fmt<W: fmt::Write>(&self, f: &mut fmt::Formatter<W>) -> fmt::Result {
        fmt::Display::fmt(&self.id, f)
    }
}

impl fmt::LowerHex for LanguageId {
    fn fmt<W: fmt::Write>(&self, f: &mut fmt::Formatter<W>) -> fmt::Result
        ensures { WritesOnOk W.write_str_gives f.old result (digits 16 false self.now) f.new }
    {
        fmt::LowerHex::fmt(&self.id, f)
    }
}

impl fmt::UpperHex for LanguageId {
    fn fmt<W: fmt::Write>(&self, f: &mut fmt::Formatter<W>) -> fmt::Result
        ensures { WritesOnOk W.write_str_gives f.old result (digits 16 true self.now) f.new }
    {
        fmt::UpperHex::fmt(&self.id, f)
    }
}

impl fmt::HasDigits for LanguageId {
    ghost word = { λ l. Some l };

    fn bits(self) -> (u64, u64) {
        (0, u64::from(self.id))
    }
}
