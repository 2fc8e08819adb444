//! A command file, read.
ghost use Rattle.std.specs.Prelude.{◌≡◌, ◌≢◌, ◌⊎◌, ◌++◌, [], ◌∷◌, ℕ, IfErr, IfOk, List, None, Some, codes, map, option_and_then, option_map, string_bytes};
ghost use Rattle.cfb_medium.specs.declared.error.Error.TheVariants.{InvalidData, InvalidInput, Memory};
ghost use Rattle.hex.specs.declared.error.FromHexError.TheVariants.{OutOfMemory};
ghost use Rattle.serde_json.specs.Read.{read};
ghost use Rattle.serde_json.specs.View.{items_view, view};
ghost use Rattle.msi_changes.specs.Said.{delete_condition, delete_name, insert_name, insert_rows, update_condition, update_name, update_sets};
ghost use Rattle.serde_json.specs.Find.{as_object, as_str};
ghost use Rattle.msi_values.specs.Datum.{data_of, datum_of};
ghost use Rattle.command_file.specs.Commands.{alone, command_in, commands_in, create_in, delete_in, edit_in, insert_in, of_text, page_in, update_in, with_keys, write_in};
ghost use Rattle.command_file.specs.Expressions.{select_in};
ghost use Rattle.json_parts.specs.Reads.{ReturnsOrInvalidInput};
ghost use Rattle.command_file.specs.Request.{Request, insert, select, set_codepage, set_summary};
ghost use Rattle.command_file.specs.RequestsOf.{request_of};
ghost use Rattle.json_parts.specs.Values.{all_in, at_key, hex_bytes, pair_in, value_in};

use crate::Command;
use crate::columns::columns_of;
use crate::expressions::condition_of;
use crate::selects::select_of;
use crate::summary::{edit_of, page_of};
use cfb_medium::Error;
use hex::FromHexError;
use json_parts::{has_only, list_of, member, rows_of, text_at, text_of, two_of, value_of};
use msi_changes::{Delete, Insert, Update};
use msi_values::Value;
use serde_json::Value as Json;
use std::alloc::Global;

/// The commands of a file: a JSON array of objects, each with its `op`. `InvalidData` where it is no JSON text, or nests deeper
/// than 127 arrays and objects; `InvalidInput` for an unknown op or key, a key that is missing, a value of the wrong kind or out of
/// range; `Memory` where there is no room.
pub fn read_commands(alloc: Global, text: &str) -> Result<Vec<Command>, Error>
    ensures commands { IfOk result (λ commands. option_and_then commands_in (read text.now)
        ≡ Some (map request_of commands.items)) }
    ensures data { IfErr result (λ e. e ≡ InvalidData → read text.now ≡ None) }
    ensures input { IfErr result (λ e. e ≡ InvalidInput
        → option_map commands_in (read text.now) ≡ Some None) }
    ensures errors { IfErr result (λ e. (e ≡ InvalidData) ⊎ ((e ≡ InvalidInput) ⊎ (e ≡ Memory))) }
{
    let json = match Json::from_str(alloc, text) {
        Ok(json) => json,
        Err(error) => {
            return Err(if error.is_memory() {
                Error::Memory
            } else {
                Error::InvalidData
            });
        }
    };
    commands_of(alloc, &json)
}

fn commands_of(alloc: Global, json: &Json) -> Result<Vec<Command>, Error>
    ensures { ReturnsOrInvalidInput (λ commands. map request_of commands.items) result
        (commands_in (view json.now)) }
{
    let list = list_of(json)?;
    each_command(alloc, list)
}

fn each_command(alloc: Global, list: &[Json]) -> Result<Vec<Command>, Error>
    ensures { ReturnsOrInvalidInput (λ commands. map request_of commands.items) result
        (all_in command_in (items_view list.now)) }
{
    let mut commands = Vec::new(alloc);
    for item in list {
        commands.push(command_of(alloc, item)?)?;
    }
    Ok(commands)
}

#[tactic(auto, unfolding(crate::specs::Commands::command_in))]
pub(crate) fn command_of(alloc: Global, json: &Json) -> Result<Command, Error>
    ensures { ReturnsOrInvalidInput request_of result (command_in (view json.now)) }
{
    match text_at(json, "op")? {
        "create_table" => create_of(alloc, json),
        "drop_table" => Ok(Command::DropTable(text_of_key(alloc, json, "table")?)),
        "columns" => Ok(Command::Columns(text_of_key(alloc, json, "table")?)),
        "insert" => insert_of(alloc, json),
        "update" => update_of(alloc, json),
        "delete" => delete_of(alloc, json),
        "select" => query_of(alloc, json),
        "read_stream" => Ok(Command::ReadStream(text_of_key(alloc, json, "name")?)),
        "remove_stream" => Ok(Command::RemoveStream(text_of_key(alloc, json, "name")?)),
        "write_stream" => write_of(alloc, json),
        "set_summary" => set_summary_of(alloc, json),
        "set_codepage" => codepage_of(json),
        "tables" => keyless_command(json, Command::Tables),
        "streams" => keyless_command(json, Command::Streams),
        "has_signature" => keyless_command(json, Command::HasSignature),
        "remove_signature" => keyless_command(json, Command::RemoveSignature),
        "summary" => keyless_command(json, Command::Summary),
        "codepage" => keyless_command(json, Command::Codepage),
        "flush" => keyless_command(json, Command::Flush),
        "commit" => keyless_command(json, Command::Commit),
        "roll_back" => keyless_command(json, Command::RollBack),
        _ => Err(Error::InvalidInput),
    }
}

// A command without keys.
fn keyless_command(json: &Json, command: Command) -> Result<Command, Error>
    ensures { ReturnsOrInvalidInput request_of result (alone (request_of command) (view json.now)) }
{
    if has_only(json, &["op"]) {
        Ok(command)
    } else {
        Err(Error::InvalidInput)
    }
}

// The text of the one key.
fn text_of_key(alloc: Global, json: &Json, key: &str) -> Result<String, Error>
    ensures { (ask : List ℕ → Request)
        → ReturnsOrInvalidInput (λ text. ask (string_bytes text)) result
        (of_text key.now ask (view json.now)) }
{
    if has_only(json, &["op", key]) {
        Ok(String::from_str(alloc, text_at(json, key)?)?)
    } else {
        Err(Error::InvalidInput)
    }
}

// A table and its columns.
fn create_of(alloc: Global, json: &Json) -> Result<Command, Error>
    ensures { ReturnsOrInvalidInput request_of result
        (with_keys (codes "table" ∷ codes "columns" ∷ []) create_in (view json.now)) }
{
    if !has_only(json, &["op", "table", "columns"]) {
        return Err(Error::InvalidInput);
    }
    let table = text_at(json, "table")?;
    let columns = member(json, "columns")?;
    let table = String::from_str(alloc, table)?;
    match columns_of(alloc, columns) {
        Ok(columns) => Ok(Command::CreateTable(table, columns)),
        Err(error) => Err(error),
    }
}

// A table and rows for it.
fn insert_of(alloc: Global, json: &Json) -> Result<Command, Error>
    ensures { ReturnsOrInvalidInput request_of result
        (with_keys (codes "table" ∷ codes "rows" ∷ []) insert_in (view json.now)) }
{
    if !has_only(json, &["op", "table", "rows"]) {
        return Err(Error::InvalidInput);
    }
    let table = text_at(json, "table")?;
    let rows = rows_of(alloc, member(json, "rows")?)?;
    inserted_rows(alloc, table, rows)
}

// These rows for the table of this name.
fn inserted_rows(alloc: Global, table: &str, rows: Vec<Vec<Value>>) -> Result<Command, Error>
    ensures { ReturnsOrInvalidInput request_of result (Some
        (insert table.now (map (λ row. data_of row.items) rows.items))) }
{
    match Insert::into(alloc, table)?.rows(rows) {
        Ok(insert) => Ok(Command::Insert(insert)),
        Err(error) => Err(error),
    }
}

// A table, what is set, and a condition.
fn update_of(alloc: Global, json: &Json) -> Result<Command, Error>
    ensures { ReturnsOrInvalidInput request_of result (with_keys
        (codes "table" ∷ codes "set" ∷ codes "where" ∷ []) update_in (view json.now)) }
{
    if !has_only(json, &["op", "table", "set", "where"]) {
        return Err(Error::InvalidInput);
    }
    let update = Update::table(alloc, text_at(json, "table")?)?;
    let update = with_sets(alloc, update, list_of(member(json, "set")?)?)?;
    match condition_of(alloc, json)? {
        Some(condition) => Ok(Command::Update(update.with(alloc, condition)?)),
        None => Ok(Command::Update(update)),
    }
}

// The update with these columns and values too.
fn with_sets(alloc: Global, update: Update, list: &[Json]) -> Result<Update, Error>
    ensures name { IfOk result (λ made. update_name made ≡ update_name update) }
    ensures condition { IfOk result (λ made. update_condition made ≡ update_condition update) }
    ensures sets { ReturnsOrInvalidInput update_sets result
        (option_map (λ sets. update_sets update ++ sets)
        (all_in (pair_in as_str value_in) (items_view list.now))) }
{
    let mut update = update;
    for item in list {
        let (column, value) = set_of(alloc, item)?;
        update = update.set(alloc, column, value)?;
    }
    Ok(update)
}

// A column and its value.
pub(crate) fn set_of<'a>(alloc: Global, json: &'a Json) -> Result<(&'a str, Value), Error>
    ensures { ReturnsOrInvalidInput (λ set. (set.0.now, datum_of set.1)) result
        (pair_in as_str value_in (view json.now)) }
{
    let (column, value) = two_of(json)?;
    let column = text_of(column)?;
    match value_of(alloc, value) {
        Ok(value) => Ok((column, value)),
        Err(error) => Err(error),
    }
}

// A table and a condition.
fn delete_of(alloc: Global, json: &Json) -> Result<Command, Error>
    ensures { ReturnsOrInvalidInput request_of result
        (with_keys (codes "table" ∷ codes "where" ∷ []) delete_in (view json.now)) }
{
    if !has_only(json, &["op", "table", "where"]) {
        return Err(Error::InvalidInput);
    }
    let delete = Delete::from(alloc, text_at(json, "table")?)?;
    match condition_of(alloc, json)? {
        Some(condition) => Ok(Command::Delete(delete.with(alloc, condition)?)),
        None => Ok(Command::Delete(delete)),
    }
}

// A select.
fn query_of(alloc: Global, json: &Json) -> Result<Command, Error>
    ensures { ReturnsOrInvalidInput request_of result
        (with_keys (codes "from" ∷ codes "columns" ∷ codes "where" ∷ [])
        (λ d. option_map select (option_and_then select_in (as_object d))) (view json.now)) }
{
    if !has_only(json, &["op", "from", "columns", "where"]) {
        return Err(Error::InvalidInput);
    }
    Ok(Command::Select(select_of(alloc, json)?))
}

// A name and bytes.
fn write_of(alloc: Global, json: &Json) -> Result<Command, Error>
    ensures { ReturnsOrInvalidInput request_of result
        (with_keys (codes "name" ∷ codes "hex" ∷ []) write_in (view json.now)) }
{
    if !has_only(json, &["op", "name", "hex"]) {
        return Err(Error::InvalidInput);
    }
    let name = text_at(json, "name")?;
    let digits = text_at(json, "hex")?;
    let name = String::from_str(alloc, name)?;
    match bytes_of(alloc, digits) {
        Ok(bytes) => Ok(Command::WriteStream(name, bytes)),
        Err(error) => Err(error),
    }
}

// Bytes from pairs of hexadecimal digits.
pub(crate) fn bytes_of(alloc: Global, text: &str) -> Result<Vec<u8>, Error>
    ensures { ReturnsOrInvalidInput (λ bytes. bytes.items) result (hex_bytes text.now) }
{
    match hex::decode(alloc, text) {
        Ok(bytes) => Ok(bytes),
        Err(error) => Err(refusal(error)),
    }
}

// Why bytes weren't read.
fn refusal(error: FromHexError) -> Error
    ensures { (result ≡ Memory) ⊎ ((result ≡ InvalidInput) × (error ≢ OutOfMemory)) }
{
    match error {
        FromHexError::OutOfMemory => Error::Memory,
        _ => Error::InvalidInput,
    }
}

// A change of the summary.
fn set_summary_of(alloc: Global, json: &Json) -> Result<Command, Error>
    ensures { ReturnsOrInvalidInput request_of result
        (with_keys (codes "field" ∷ codes "value" ∷ [])
        (λ d. option_map set_summary (edit_in d)) (view json.now)) }
{
    if !has_only(json, &["op", "field", "value"]) {
        return Err(Error::InvalidInput);
    }
    Ok(Command::SetSummary(edit_of(alloc, json)?))
}

// The database's code page.
fn codepage_of(json: &Json) -> Result<Command, Error>
    ensures { ReturnsOrInvalidInput request_of result (with_keys (codes "id" ∷ [])
        (λ d. option_map set_codepage (at_key (codes "id") page_in d)) (view json.now)) }
{
    if !has_only(json, &["op", "id"]) {
        return Err(Error::InvalidInput);
    }
    Ok(Command::SetCodepage(page_of(member(json, "id")?)?))
}
