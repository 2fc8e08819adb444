//! Columns of a new table.
ghost use Rattle.std.specs.Prelude.{◌≡◌, ◌^◌, IfErr, IfOk, codes, if◌then◌else◌, map, option_map};
ghost use Rattle.cfb_medium.specs.declared.error.Error.TheVariants.{Memory};
ghost use Rattle.serde_json.specs.Find.{as_str, get};
ghost use Rattle.serde_json.specs.View.{items_view, view};
ghost use Rattle.msi_columns.specs.declared.column.ColumnType.TheVariants.{Str};
ghost use Rattle.msi_columns.specs.Column.{as_key, as_localizable, but_null, from_to, of_category, refers_to};
ghost use Rattle.msi_texts.specs.Category.{category_named};
ghost use Rattle.msi_columns.specs.Held.{built, column_of, columns_of, BuildsColumn};
ghost use Rattle.command_file.specs.Built.{changed_by, referred, choices_in, foreign_in, category_in, range_in};
ghost use Rattle.command_file.specs.Commands.{column_from, column_in, flag_in, is_text_column, keys_of_column, kind_in};
ghost use Rattle.json_parts.specs.Reads.{ReturnsOrInvalidInput};
ghost use Rattle.json_parts.specs.Values.{all_in, at_key, list_in, only_keys, whole_in};

use cfb_medium::Error;
use json_parts::{
    borrowed_texts, find_text, has_only, integer_of, list_of, member, text_at, text_of, two_of,
    whole_of,
};
use msi_columns::{Column, ColumnBuilder, ColumnType};
use msi_texts::Category;
use serde_json::Value as Json;
use std::alloc::Global;

// Columns, in order.
pub(crate) fn columns_of(alloc: Global, json: &Json) -> Result<Vec<Column>, Error>
    ensures { ReturnsOrInvalidInput (λ columns. columns_of columns.items) result
        (list_in column_in (view json.now)) }
{
    let list = list_of(json)?;
    each_column(alloc, list)
}

fn each_column(alloc: Global, list: &[Json]) -> Result<Vec<Column>, Error>
    ensures { ReturnsOrInvalidInput (λ columns. columns_of columns.items) result
        (all_in column_in (items_view list.now)) }
{
    let mut columns = Vec::new(alloc);
    for item in list {
        columns.push(column_of(alloc, item)?)?;
    }
    Ok(columns)
}

fn column_of(alloc: Global, json: &Json) -> Result<Column, Error>
    ensures { ReturnsOrInvalidInput column_of result (column_in (view json.now)) }
{
    if has_column_keys(json) {
        column_from(alloc, json)
    } else {
        Err(Error::InvalidInput)
    }
}

// Whether it has no other keys than a column of its type.
fn has_column_keys(json: &Json) -> bool
    ensures { result
        ≡ only_keys (keys_of_column (is_text_column (view json.now))) (view json.now) }
{
    if is_text(json) {
        has_only(
            json,
            &[
                "len",
                "name",
                "type",
                "key",
                "nullable",
                "localizable",
                "range",
                "category",
                "enum",
                "foreign",
            ],
        )
    } else {
        has_only(
            json,
            &[
                "name",
                "type",
                "key",
                "nullable",
                "localizable",
                "range",
                "category",
                "enum",
                "foreign",
            ],
        )
    }
}

// Whether its type is that of a text.
fn is_text(json: &Json) -> bool
    ensures { result ≡ is_text_column (view json.now) }
{
    match find_text(json, "type") {
        Some(kind) => kind == "string",
        None => false,
    }
}

// The column, whatever other keys stand there.
fn column_from(alloc: Global, json: &Json) -> Result<Column, Error>
    ensures { ReturnsOrInvalidInput column_of result (column_from (view json.now)) }
{
    let name = text_at(json, "name")?;
    let kind = kind_of(json)?;
    let is_key = flag_at(json, "key")?;
    let is_nullable = flag_at(json, "nullable")?;
    let is_localizable = flag_at(json, "localizable")?;
    let range = range_of(json)?;
    let foreign = foreign_of(json)?;
    let category = category_of(json)?;
    let choices = choices_of(alloc, json)?;
    let builder = with_key(Column::build(alloc, name)?, is_key);
    let builder = with_localizable(with_null(builder, is_nullable), is_localizable);
    let builder = with_foreign(alloc, with_range(builder, range), foreign)?;
    let builder = with_category(builder, category).enum_values(alloc, &choices)?;
    Ok(with_type(builder, kind))
}

// The type; a text has a length.
fn kind_of(json: &Json) -> Result<ColumnType, Error>
    ensures { ReturnsOrInvalidInput (λ kind. kind) result (kind_in (view json.now)) }
{
    match text_at(json, "type")? {
        "int16" => Ok(ColumnType::Int16),
        "int32" => Ok(ColumnType::Int32),
        "binary" => Ok(ColumnType::Binary),
        "string" => text_kind_of(json),
        _ => Err(Error::InvalidInput),
    }
}

// A text of so many characters.
fn text_kind_of(json: &Json) -> Result<ColumnType, Error>
    ensures { ReturnsOrInvalidInput (λ kind. kind) result
        (option_map Str (at_key (codes "len") (whole_in (2 ^ 64)) (view json.now))) }
{
    let len = whole_of(member(json, "len")?)?;
    Ok(ColumnType::Str(len as usize))
}

// The word true, or nothing.
fn flag_at(json: &Json, key: &str) -> Result<bool, Error>
    ensures { ReturnsOrInvalidInput (λ flag. flag) result (flag_in key.now (view json.now)) }
{
    match json.get(key) {
        None => Ok(false),
        Some(Json::Bool(true)) => Ok(true),
        Some(_) => Err(Error::InvalidInput),
    }
}

// The least and the greatest number, where they are told.
fn range_of(json: &Json) -> Result<Option<(i32, i32)>, Error>
    ensures { ReturnsOrInvalidInput (λ range. range) result (range_in (view json.now)) }
{
    let Some(found) = json.get("range") else {
        return Ok(None);
    };
    let (min, max) = two_of(found)?;
    Ok(Some((integer_of(min)?, integer_of(max)?)))
}

// The table and the column that it refers to, where they are told.
fn foreign_of(json: &Json) -> Result<Option<(&str, i32)>, Error>
    ensures { ReturnsOrInvalidInput
        (λ foreign. option_map (λ key. (key.0.now, key.1)) foreign) result
        (foreign_in (view json.now)) }
{
    let Some(found) = json.get("foreign") else {
        return Ok(None);
    };
    let (table, column) = two_of(found)?;
    Ok(Some((text_of(table)?, integer_of(column)?)))
}

// The category, where it is told.
fn category_of(json: &Json) -> Result<Option<Category>, Error>
    ensures { ReturnsOrInvalidInput (λ category. category) result (category_in (view json.now)) }
{
    let Some(found) = json.get("category") else {
        return Ok(None);
    };
    match named_category(text_of(found)?) {
        Some(category) => Ok(Some(category)),
        None => Err(Error::InvalidInput),
    }
}

fn named_category(name: &str) -> Option<Category>
    ensures { result ≡ category_named name.now }
{
    match name.parse::<Category>() {
        Ok(category) => Some(category),
        Err(_) => None,
    }
}

// The texts that it takes alone; none where it takes all.
fn choices_of<'a>(alloc: Global, json: &'a Json) -> Result<Vec<&'a str>, Error>
    ensures { ReturnsOrInvalidInput (λ texts. map (λ text. text.now) texts.items) result
        (choices_in (view json.now)) }
{
    match json.get("enum") {
        Some(found) => borrowed_texts(alloc, found),
        None => Ok(Vec::new(alloc)),
    }
}

fn with_key(builder: ColumnBuilder, is_key: bool) -> ColumnBuilder
    ensures { BuildsColumn result (λ column. if is_key then as_key column else column) builder }
{
    if is_key {
        builder.primary_key()
    } else {
        builder
    }
}

fn with_null(builder: ColumnBuilder, is_nullable: bool) -> ColumnBuilder
    ensures { BuildsColumn result
        (λ column. if is_nullable then but_null column else column) builder }
{
    if is_nullable {
        builder.nullable()
    } else {
        builder
    }
}

fn with_localizable(builder: ColumnBuilder, is_localizable: bool) -> ColumnBuilder
    ensures { BuildsColumn result
        (λ column. if is_localizable then as_localizable column else column)
        builder }
{
    if is_localizable {
        builder.localizable()
    } else {
        builder
    }
}

fn with_range(builder: ColumnBuilder, range: Option<(i32, i32)>) -> ColumnBuilder
    ensures { BuildsColumn result (changed_by range (λ r. from_to r.0 r.1)) builder }
{
    match range {
        Some((min, max)) => builder.range(min, max),
        None => builder,
    }
}

fn with_foreign(
    alloc: Global,
    builder: ColumnBuilder,
    foreign: Option<(&str, i32)>,
) -> Result<ColumnBuilder, Error>
    ensures ok { IfOk result (λ made. BuildsColumn made (referred foreign.entry) builder) }
    ensures errors { IfErr result (λ e. e ≡ Memory) }
{
    match foreign {
        Some((table, column)) => builder.foreign_key(alloc, table, column),
        None => Ok(builder),
    }
}

fn with_category(builder: ColumnBuilder, category: Option<Category>) -> ColumnBuilder
    ensures { BuildsColumn result (changed_by category of_category) builder }
{
    match category {
        Some(category) => builder.category(category),
        None => builder,
    }
}

fn with_type(builder: ColumnBuilder, kind: ColumnType) -> Column
    ensures { column_of result ≡ built builder kind }
{
    match kind {
        ColumnType::Int16 => builder.int16(),
        ColumnType::Int32 => builder.int32(),
        ColumnType::Str(max_len) => builder.string(max_len),
        ColumnType::Binary => builder.binary(),
    }
}
