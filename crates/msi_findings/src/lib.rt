//! Where a package breaks the rules that a sound one keeps: places of the string pool, properties of the summary, tables and objects.
#![tactic(auto)]

mod counts;
mod giving;
mod heads;
mod miscount;
mod objects;
mod placing;
mod properties;
mod section;
mod tables;
mod texts;
mod unkept;
mod validation;

pub use counts::miscounts;
pub use miscount::Miscount;
pub use objects::misplaced_objects;
pub use properties::unkept_properties;
pub use tables::{misnamed_tables, unread_tables};
pub use texts::unused_texts;
pub use unkept::unkept_texts;
pub use validation::misshapen_validation;
