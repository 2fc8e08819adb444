//! The names of a summary's properties.

/// The name of the property of this number, as the documentation of Windows Installer has it.
pub fn property_name(number: u32) -> Option<&'static str> {
    Some(match number {
        1 => "Codepage",
        2 => "Title",
        3 => "Subject",
        4 => "Author",
        5 => "Keywords",
        6 => "Comments",
        7 => "Template",
        8 => "Last Saved By",
        9 => "Revision Number",
        11 => "Last Printed",
        12 => "Create Time/Date",
        13 => "Last Save Time/Date",
        14 => "Page Count",
        15 => "Word Count",
        16 => "Character Count",
        18 => "Creating Application",
        19 => "Security",
        _ => return None,
    })
}
