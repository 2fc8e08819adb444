//! Lines of files, and what stands between tabs.
ghost use Rattle.std.specs.Prelude.{◌≡◌, ◌==◌, [], ◌∷◌, ◌++◌, map, IfOk};
ghost use Rattle.std.specs.List.{slice_split};
ghost use Rattle.idt_tables.specs.Headings.{parts_in};
ghost use Rattle.idt_tables.specs.Lines.{lines_in, trimmed, without_end};

use std::alloc::{AllocError, Global};

/// The lines of a file, which line feeds end, or carriage returns and line feeds. What stands behind the last one is a line where it isn't
/// empty. The one error is want of memory.
pub fn lines_of(alloc: Global, text: &str) -> Result<Vec<&str>, AllocError>
    ensures { IfOk result (λ lines. map (λ l. l.now) lines.items ≡ lines_in text.now) }
{
    let parts = without_end(split_lines(alloc, text)?)?;
    trimmed(alloc, &parts)
}

fn split_lines(alloc: Global, text: &str) -> Result<Vec<&str>, AllocError>
    ensures { IfOk result (λ parts. map (λ p. p.now) parts.items
        ≡ slice_split (λ b. b == 10) text.now) }
{
    text.split('\n').collect(alloc)
}

// Without the last part, where that is empty.
fn without_end(mut parts: Vec<&str>) -> Result<Vec<&str>, AllocError>
    ensures { IfOk result (λ kept. map (λ p. p.now) kept.items
        ≡ without_end (map (λ p. p.now) parts.entry.items)) }
{
    match parts.pop() {
        Some(last) => with_last(parts, last),
        None => Ok(parts),
    }
}

// With a last part, where that isn't empty.
fn with_last<'a>(mut parts: Vec<&'a str>, last: &'a str) -> Result<Vec<&'a str>, AllocError>
    ensures { IfOk result (λ kept. map (λ p. p.now) kept.items
        ≡ without_end (map (λ p. p.now) (parts.entry.items ++ last.entry ∷ []))) }
{
    if last.is_empty() {
        return Ok(parts);
    }
    parts.push(last)?;
    Ok(parts)
}

// Each without a carriage return at its end.
fn trimmed<'a>(alloc: Global, parts: &[&'a str]) -> Result<Vec<&'a str>, AllocError>
    ensures { IfOk result (λ lines. map (λ l. l.now) lines.items
        ≡ map trimmed (map (λ p. p.now) parts.now)) }
{
    let mut lines = Vec::new(alloc);
    for part in parts {
        lines.push(trim(part))?;
    }
    Ok(lines)
}

fn trim(line: &str) -> &str
    ensures { result.now ≡ trimmed line.now }
{
    match line.strip_suffix('\r') {
        Some(rest) => rest,
        None => line,
    }
}

/// What stands between tabs. The one error is want of memory.
pub fn parts_of(alloc: Global, line: &str) -> Result<Vec<&str>, AllocError>
    ensures { IfOk result (λ parts. map (λ p. p.now) parts.items ≡ parts_in line.now) }
{
    line.split('\t').collect(alloc)
}
