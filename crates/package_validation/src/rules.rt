//! The rules by their names.

/// A rule.
#[derive(Clone, Copy, Debug, PartialEq, Eq)]
pub enum Rule {
    /// Each column has a row of `_Validation`, where that says anything.
    Described,
    /// No null where a column takes none.
    Nullable,
    /// No value but those that `_Validation` lists.
    Set,
    /// No number beyond the bounds that `_Validation` sets.
    Range,
    /// No text that its category in `_Validation` doesn't take.
    Category,
    /// No cell that leads to no row of the tables that `_Validation` names.
    Foreign,
    /// No text longer than its column takes.
    Length,
    /// No null in a key, and no key twice.
    Key,
    /// No empty text.
    Empty,
    /// No bytes without their stream.
    Stream,
    /// No cabinet without its stream, and no file beyond the media.
    Cabinet,
    /// No stream that nothing names.
    Unused,
    /// What a product must have.
    Required,
    /// The codes, the version and the language of a product.
    Product,
    /// No code of a component that is no GUID, and none that two components have.
    Guid,
    /// No cell that leads to no row of the table for which its column is named.
    Refers,
    /// No directory and no feature whose way up goes in a circle.
    Tree,
    /// No action that doesn't exist.
    Action,
}

/// All rules, in the order in which they are told.
pub(crate) const RULES: [Rule; 18] = [
    Rule::Described,
    Rule::Nullable,
    Rule::Set,
    Rule::Range,
    Rule::Category,
    Rule::Foreign,
    Rule::Length,
    Rule::Key,
    Rule::Empty,
    Rule::Stream,
    Rule::Cabinet,
    Rule::Unused,
    Rule::Required,
    Rule::Product,
    Rule::Guid,
    Rule::Refers,
    Rule::Tree,
    Rule::Action,
];

impl Rule {
    /// Its name.
    pub fn name(self) -> &'static str {
        match self {
            Rule::Described => "described",
            Rule::Nullable => "nullable",
            Rule::Set => "set",
            Rule::Range => "range",
            Rule::Category => "category",
            Rule::Foreign => "foreign",
            Rule::Length => "length",
            Rule::Key => "key",
            Rule::Empty => "empty",
            Rule::Stream => "stream",
            Rule::Cabinet => "cabinet",
            Rule::Unused => "unused",
            Rule::Required => "required",
            Rule::Product => "product",
            Rule::Guid => "guid",
            Rule::Refers => "refers",
            Rule::Tree => "tree",
            Rule::Action => "action",
        }
    }

    /// The consistency evaluator of Windows Installer that tells it, too.
    pub(crate) fn evaluator(self) -> Option<&'static str> {
        match self {
            Rule::Described
            | Rule::Nullable
            | Rule::Set
            | Rule::Range
            | Rule::Category
            | Rule::Foreign
            | Rule::Length
            | Rule::Key
            | Rule::Refers => Some("ICE03"),
            Rule::Required => Some("ICE05"),
            Rule::Guid => Some("ICE08"),
            Rule::Product => Some("ICE24"),
            Rule::Action => Some("ICE27"),
            Rule::Empty | Rule::Stream | Rule::Cabinet | Rule::Unused | Rule::Tree => None,
        }
    }
}

/// The rules that are left out.
#[derive(Clone, Copy, Debug, PartialEq, Eq)]
pub struct Ignored {
    are_left: [bool; 18],
}

impl Ignored {
    /// None.
    pub fn nothing() -> Ignored {
        Ignored {
            are_left: [false; 18],
        }
    }

    /// Whether a rule is left out.
    pub(crate) fn has(self, rule: Rule) -> bool {
        for (at, other) in RULES.iter().enumerate() {
            if *other == rule {
                return match self.are_left.get(at) {
                    Some(is_left) => *is_left,
                    None => false,
                };
            }
        }
        false
    }

    // The same and this rule. Whether there is one of this name.
    fn add(&mut self, name: &str) -> bool {
        for (at, rule) in RULES.iter().enumerate() {
            if rule.name().eq_ignore_ascii_case(name.trim()) {
                if let Some(is_left) = self.are_left.get_mut(at) {
                    *is_left = true;
                }
                return true;
            }
        }
        false
    }
}

/// The rules of these names, with commas between them; or the first name that is none.
pub fn ignored_in(names: &str) -> Result<Ignored, &str> {
    let mut ignored = Ignored::nothing();
    for name in names.split(',') {
        if !ignored.add(name) {
            return Err(name);
        }
    }
    Ok(ignored)
}
