//! A live compound file: the tree that it means while it is open, and how calls change it.
#![tactic(auto)]

mod facts;
mod finding;
mod freeing;
mod laws;
mod leaf_search;
mod making;
mod parents;
mod storage_removal;
mod stream_removal;
mod taking;
mod whole_removal;

pub use facts::{Fact, set_fact};
pub use freeing::free_stream;
pub use laws::live_files_mean_their_trees;
pub use making::{NewObject, make_object};
pub use parents::create_storage_all;
pub use storage_removal::remove_storage;
pub use stream_removal::remove_stream;
pub use whole_removal::remove_storage_all;
