//! What keeps a package from being sound.

/// Why a package isn't sound: the rule that it breaks, as each sound package keeps it.
#[derive(Clone, Copy, Debug, PartialEq, Eq)]
pub enum Defect {
    /// The container is sound: `CompoundFile::is_sound`.
    Container,
    /// Each text of the string pool is given back by its code page: encoded again, it has the bytes that it was read from.
    PoolTexts,
    /// So is each text of the summary.
    SummaryTexts,
    /// The summary has one section.
    SummarySections,
    /// A place of the pool that no cell uses has no text.
    FreePlaces,
    /// The name of each table is an identifier that can name a stream, and is none of the pool's two.
    TableNames,
    /// `_Validation`, where it is a table, has its ten types and its two keys.
    Validation,
    /// Each stream under the root that is named as a table's is one, and no storage stands at the name of a table's stream.
    Objects,
    /// The rows of `_Tables` can be read, and name neither that table nor `_Columns`.
    ListedSystemTables,
    /// The rows of all tables can be read, and the pool counts just the uses that their cells make.
    Counts,
}
