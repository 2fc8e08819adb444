//! Packages of any maker, opened to be only read, by the code pages of one's choice; what is wrong with a file that is none.
#![tactic(auto)]

mod notes;
mod own;
mod packages;
mod pages;
mod refusals;
mod reread;

pub use notes::{
    Told, is_misnamed, tell_foreign_pages, tell_source, tell_utf8_line, tell_way_to_utf8,
    told_number,
};
pub use own::{Own, SummaryPage, own_facts, page_in_summary};
pub use packages::{
    Stored, class_of, codepage_of, columns_of, container_at, container_of, entries_at, facts_of,
    has_stream, is_signed, is_signed_at, is_sound_at, kind_of, open_stream, package_at,
    properties_of, rows_of, stored_at, streams_of, streams_of_rows, table_columns, table_named,
    tables_of, write_stream_to,
};
pub use pages::{NumberedPage, Pages, name_of_page, pages_of};
pub use refusals::{tell_why_refused, trouble_of, why_refused};
pub use reread::{
    Letters, PartRead, Reread, package_as_named, package_by, package_by_pages, shown_by,
};
