//! Empty texts among the values of commands: a package can hold them, and other programs take them for null.
use serde_json::Value as Json;
use std::alloc::Global;
use std::io::Write;

/// Tells how many empty texts stand among the rows and values of some commands, and in which command the first of them does.
pub(crate) fn tell_empty_texts<E: Write>(alloc: Global, path: &str, text: &str, err: &mut E) {
    if !text.contains("\"\"") {
        return;
    }
    let Ok(json) = Json::from_str(alloc, text) else {
        return;
    };
    let mut found = Empties::default();
    match &json {
        Json::Array(commands) => {
            for (at, command) in commands.iter().enumerate() {
                found.add(at, count_of(command));
            }
        }
        command => found.add(0, count_of(command)),
    }
    if let Some(first) = found.first {
        let number = first.saturating_add(1);
        let count = found.count;
        let noun = if count == 1 { "text" } else { "texts" };
        let verb = if count == 1 { "is" } else { "are" };
        let _ = writeln!(
            err,
            "msidb: {path}: command {number}: {count} empty {noun} {verb} null to other programs; write `null`"
        );
    }
}

// How many there are, and where the first is.
#[derive(Clone, Copy, Debug, Default)]
struct Empties {
    first: Option<usize>,
    count: usize,
}

impl Empties {
    // So many more, of a command.
    fn add(&mut self, at: usize, count: usize) {
        if count > 0 {
            self.first = self.first.or(Some(at));
            self.count = self.count.saturating_add(count);
        }
    }
}

// How many stand in the rows that a command inserts, or in the values that it sets.
fn count_of(command: &Json) -> usize {
    let lists = command.get("rows").or(command.get("set"));
    let Some(Json::Array(lists)) = lists else {
        return 0;
    };
    let mut count = 0usize;
    for list in lists {
        if let Json::Array(values) = list {
            count = count.saturating_add(count_in(values));
        }
    }
    count
}

fn count_in(values: &[Json]) -> usize {
    let mut count = 0usize;
    for value in values {
        if matches!(value, Json::String(text) if text.is_empty()) {
            count = count.saturating_add(1);
        }
    }
    count
}
