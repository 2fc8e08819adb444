//! The columns that tables of the database have, whatever _Columns says of them.
ghost use Rattle.std.specs.Prelude.{◌≡◌, IfErr, IfOk, codes, map};
ghost use Rattle.cfb_medium.specs.declared.error.Error.TheVariants.{Memory};
ghost use Rattle.msi_texts.specs.Category.{all_categories, name_of};
ghost use Rattle.msi_columns.specs.Column.{but_null, one_of, plain};
ghost use Rattle.msi_columns.specs.Held.{column_of, columns_of};
ghost use Rattle.msi_columns.specs.declared.column.ColumnType.TheVariants as kind;
ghost use Rattle.msi_tables.specs.Schema.{any_number, columns_columns, tables_columns, validation_columns};

use cfb_medium::Error;
use msi_columns::Column;
use msi_texts::Category;
use std::alloc::Global;

/// The one column of _Tables. The one error is Memory.
pub fn tables_columns(alloc: Global) -> Result<Vec<Column>, Error>
    ensures ok { IfOk result (λ columns. columns_of columns.items ≡ tables_columns) }
    ensures errors { IfErr result (λ e. e ≡ Memory) }
{
    let name = Column::build(alloc, "Name")?.primary_key().string(64);
    let columns = vec![in alloc; name]?;
    Ok(columns)
}

/// The four columns of _Columns. The one error is Memory.
pub fn columns_columns(alloc: Global) -> Result<Vec<Column>, Error>
    ensures ok { IfOk result (λ columns. columns_of columns.items ≡ columns_columns) }
    ensures errors { IfErr result (λ e. e ≡ Memory) }
{
    let table = Column::build(alloc, "Table")?.primary_key().string(64);
    let number = Column::build(alloc, "Number")?.primary_key().int16();
    let name = Column::build(alloc, "Name")?.string(64);
    let bits = Column::build(alloc, "Type")?.int16();
    let columns = vec![in alloc; table, number, name, bits]?;
    Ok(columns)
}

/// The ten columns by which _Validation is read. The one error is Memory.
pub fn validation_columns(alloc: Global) -> Result<Vec<Column>, Error>
    ensures ok { IfOk result (λ columns. columns_of columns.items ≡ validation_columns) }
    ensures errors { IfErr result (λ e. e ≡ Memory) }
{
    let table = Column::build(alloc, "Table")?.primary_key().id_string(32);
    let column = Column::build(alloc, "Column")?.primary_key().id_string(32);
    let answer = Column::build(alloc, "Nullable")?
        .enum_values(alloc, &["Y", "N"])?
        .string(4);
    let low = any_number(alloc, "MinValue")?;
    let high = any_number(alloc, "MaxValue")?;
    let key_table = Column::build(alloc, "KeyTable")?.nullable().id_string(255);
    let key_column = Column::build(alloc, "KeyColumn")?
        .nullable()
        .range(1, 32)
        .int16();
    let category = category_column(alloc)?;
    let set = Column::build(alloc, "Set")?.nullable().text_string(255);
    let description = Column::build(alloc, "Description")?
        .nullable()
        .text_string(255);
    let columns = vec![in alloc;
        table,
        column,
        answer,
        low,
        high,
        key_table,
        key_column,
        category,
        set,
        description,
    ]?;
    Ok(columns)
}

// A column for any number or null. The one error is Memory.
fn any_number(alloc: Global, name: &str) -> Result<Column, Error>
    ensures ok { IfOk result (λ column. column_of column
        ≡ any_number (plain name.now kind.Int32)) }
    ensures errors { IfErr result (λ e. e ≡ Memory) }
{
    let builder = Column::build(alloc, name)?;
    Ok(builder.nullable().range(-0x7fff_ffff, 0x7fff_ffff).int32())
}

// The column for the name of a category, or null. The one error is Memory.
fn category_column(alloc: Global) -> Result<Column, Error>
    ensures ok { IfOk result (λ column. column_of column ≡ but_null
        (one_of (map name_of all_categories) (plain (codes "Category") (kind.Str 32)))) }
    ensures errors { IfErr result (λ e. e ≡ Memory) }
{
    let names = category_names(alloc)?;
    let builder = Column::build(alloc, "Category")?;
    let chosen = builder.enum_values(alloc, &names)?;
    Ok(chosen.nullable().string(32))
}

// The names of all categories. The one error is Memory.
fn category_names(alloc: Global) -> Result<Vec<&'static str>, Error>
    ensures ok { IfOk result (λ names. map (λ name. name.now) names.items
        ≡ map name_of all_categories) }
    ensures errors { IfErr result (λ e. e ≡ Memory) }
{
    let categories = Category::all();
    let mut names = Vec::new(alloc);
    for category in &categories {
        names.push(category.as_str())?;
    }
    Ok(names)
}
