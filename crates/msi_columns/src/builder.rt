//! Building columns.
#![tactic(auto, unfolding(crate::specs::Held::column_of, crate::specs::Held::built))]

ghost use Rattle.std.specs.Prelude.{◌≡◌, true, Some, None, IfOk, IfErr, MatchResult, map};
ghost use Rattle.std.specs.Int.{w32, cast_unsigned};
ghost use Rattle.msi_texts.specs.declared.category.Category.TheVariants as category;
ghost use Rattle.msi_columns.specs.declared.column.ColumnType.{ColumnType};
ghost use Rattle.msi_columns.specs.declared.column.ColumnType.TheVariants as kind;
ghost use Rattle.msi_columns.specs.Column.{with_bits, as_key, as_localizable, but_null, refers_to, of_category, from_to, one_of};
ghost use Rattle.msi_columns.specs.Held.{column_of, built, BuildsColumn};
ghost use Rattle.cfb_medium.specs.declared.error.Error.TheVariants.{InvalidData, Memory};

use crate::column::has_bit;
use crate::{Column, ColumnType};
use cfb_medium::Error;
use msi_texts::Category;
use std::alloc::Global;

/// A column that still wants its type.
#[derive(Drop)]
pub struct ColumnBuilder {
    pub(crate) column: Column,
}

impl ColumnBuilder {
    /// The same column, whose values can be localized.
    pub fn localizable(self) -> ColumnBuilder
        ensures { BuildsColumn result as_localizable self }
    {
        ColumnBuilder {
            column: Column {
                is_localizable: true,
                ..self.column
            },
        }
    }

    /// The same column, which takes null.
    pub fn nullable(self) -> ColumnBuilder
        ensures { BuildsColumn result but_null self }
    {
        ColumnBuilder {
            column: self.column.but_nullable(),
        }
    }

    /// The same column, which belongs to the key.
    pub fn primary_key(self) -> ColumnBuilder
        ensures { BuildsColumn result as_key self }
    {
        ColumnBuilder {
            column: Column {
                is_primary_key: true,
                ..self.column
            },
        }
    }

    /// The same column, whose numbers go from one to another.
    pub fn range(self, min: i32, max: i32) -> ColumnBuilder
        ensures { BuildsColumn result (from_to min max) self }
    {
        ColumnBuilder {
            column: Column {
                value_range: Some((min, max)),
                ..self.column
            },
        }
    }

    /// The same column, whose values are keys of a table, in its column of this number, from 1 on.
    pub fn foreign_key(
        self,
        alloc: Global,
        table_name: &str,
        column_index: i32,
    ) -> Result<ColumnBuilder, Error>
        ensures ok { IfOk result
            (λ builder. BuildsColumn builder (refers_to table_name.now column_index)
            self) }
        ensures errors { IfErr result (λ e. e ≡ Memory) }
    {
        let table_name = String::from_str(alloc, table_name)?;
        let column = Column {
            foreign_key: Some((table_name, column_index)),
            ..self.column
        };
        Ok(ColumnBuilder { column })
    }

    /// The same column, whose texts are of a category.
    pub fn category(self, category: Category) -> ColumnBuilder
        ensures { BuildsColumn result (of_category category) self }
    {
        ColumnBuilder {
            column: Column {
                category: Some(category),
                ..self.column
            },
        }
    }

    /// The same column, which takes these texts alone; with no text it takes all.
    pub fn enum_values(self, alloc: Global, values: &[&str]) -> Result<ColumnBuilder, Error>
        ensures ok { IfOk result (λ builder. BuildsColumn builder
            (one_of (map (λ value. value.now) values.now)) self) }
        ensures errors { IfErr result (λ e. e ≡ Memory) }
    {
        let mut enum_values = Vec::new(alloc);
        for value in values {
            enum_values.push(String::from_str(alloc, value)?)?;
        }
        let column = Column {
            enum_values,
            ..self.column
        };
        Ok(ColumnBuilder { column })
    }

    /// A column of whole numbers of 16 bits.
    pub fn int16(self) -> Column
        ensures { column_of result ≡ built self kind.Int16 }
    {
        self.with_type(ColumnType::Int16)
    }

    /// A column of whole numbers of 32 bits.
    pub fn int32(self) -> Column
        ensures { column_of result ≡ built self kind.Int32 }
    {
        self.with_type(ColumnType::Int32)
    }

    /// A column of texts of at most so many characters; 0 stands for any length.
    pub fn string(self, max_len: usize) -> Column
        ensures { column_of result ≡ built self (kind.Str max_len) }
    {
        self.with_type(ColumnType::Str(max_len))
    }

    /// A column of identifiers of at most so many characters.
    pub fn id_string(self, max_len: usize) -> Column
        ensures { column_of result
            ≡ of_category category.Identifier (built self (kind.Str max_len)) }
    {
        self.category(Category::Identifier).string(max_len)
    }

    /// A column of the category Text, of texts of at most so many characters.
    pub fn text_string(self, max_len: usize) -> Column
        ensures { column_of result ≡ of_category category.Text (built self (kind.Str max_len)) }
    {
        self.category(Category::Text).string(max_len)
    }

    /// A column of the category Formatted, of texts of at most so many characters.
    pub fn formatted_string(self, max_len: usize) -> Column
        ensures { column_of result
            ≡ of_category category.Formatted (built self (kind.Str max_len)) }
    {
        self.category(Category::Formatted).string(max_len)
    }

    /// A column of binary streams; its category stays.
    pub fn binary(self) -> Column
        ensures { column_of result ≡ built self kind.Binary }
    {
        self.with_type(ColumnType::Binary)
    }

    /// The column whose type has these bits, localizable and of the key where they say so, and nullable also where it
    /// was. InvalidData where they are no type's.
    pub fn with_bitfield(self, type_bits: i32) -> Result<Column, Error>
        ensures { (kind : ColumnType)
            → MatchResult result (λ column. with_bits (cast_unsigned w32 type_bits)
            (built self kind) ≡ Some (column_of column)) (λ e. (e ≡ InvalidData)
            × (with_bits (cast_unsigned w32 type_bits) (built self kind) ≡ None)) }
    {
        let bits = type_bits.cast_unsigned();
        let coltype = ColumnType::from_bitfield(bits).ok_or(Error::InvalidData)?;
        Ok(Column {
            coltype,
            is_localizable: has_bit(bits, 9),
            is_nullable: has_bit(bits, 12) || self.column.is_nullable,
            is_primary_key: has_bit(bits, 13),
            ..self.column
        })
    }

    fn with_type(self, coltype: ColumnType) -> Column
        ensures { column_of result ≡ built self coltype }
    {
        Column {
            coltype,
            ..self.column
        }
    }
}
