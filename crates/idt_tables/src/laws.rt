//! What was written is read back.
ghost use Rattle.std.specs.Prelude.{◌≡◌, List, ℕ, Some, true};
ghost use Rattle.std.specs.List.{list_all};
ghost use Rattle.idt_tables.specs.Headings.{Heading, heading_in, heading_lines, is_plain};
ghost use Rattle.idt_tables.specs.Lines.{is_line, lines_in, text_of};
ghost use Rattle.idt_tables.specs.Tables.{Table, file_of, table_fits, table_in};

/// Lines without line feeds are read back from the file that has them.
pub fn lines_come_back()
    ensures { (lines : List (List ℕ)) → list_all is_line lines ≡ true
        → lines_in (text_of lines) ≡ lines }
{}

/// A heading is read back from its three lines, where no name has a tab, there is a column, and each width is below 2^16.
pub fn headings_come_back()
    ensures { (h : Heading) → is_plain h ≡ true → heading_in (heading_lines h) ≡ Some h }
{}

/// A table is read back from its file, where its heading comes back, no name has a line feed, and each row fits its columns.
pub fn tables_come_back()
    ensures { (t : Table) → table_fits t ≡ true → table_in (file_of t) ≡ Some t }
{}
