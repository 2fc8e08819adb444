//! Values as lines of JSON have them: a function for each call, since what is told of a call costs time wherever it is seen.
use installer::{cell_value, property_value};
use msi_props::PropertyValue;
use msi_values::Value;
use serde_json::Value as Json;
use std::alloc::{AllocError, Global};

/// A value of a cell.
pub(crate) fn value_of_cell(alloc: Global, cell: &Value) -> Result<Json, AllocError> {
    cell_value(alloc, cell)
}

/// A value of a property.
pub(crate) fn value_of_property(alloc: Global, value: &PropertyValue) -> Result<Json, AllocError> {
    property_value(alloc, value)
}

/// The text of one.
pub(crate) fn text_of_json(alloc: Global, value: &Json) -> Result<String, AllocError> {
    value.to_string(alloc)
}
