//! A quoted text, cut and filled up as std does with a text.
ghost use Rattle.std.specs.Prelude.{◌≡◌, ◌+◌, ◌-◌, ◌^◌, ◌≤◌, IsTrue, IfOk, IfSome, Some, length, min};
ghost use Rattle.std.specs.List.{list_all};
ghost use Rattle.std.specs.Char.{is_ascii};
ghost use Rattle.std.specs.Fmt.{debug_str, styled_text, formatter_spec, IsFlush, HasWrittenStyled, WritesStyledOnOk, DisplaysOnOk};
ghost use Rattle.msi_values.specs.Layout.{first_of, left_after, filled, before_by, IsAligned, is_laid_out};

use std::fmt;
use std::fmt::{Alignment, Write};

// Counts the characters that are written.
#[derive(Drop)]
struct Count {
    chars: usize,
}

impl Write for Count {
    ghost write_str_gives = { λ s bs t. IsTrue (list_all is_ascii bs) → t.chars ≡ min (s.chars + length bs) (2 ^ 64 - 1) };

    fn write_str(&mut self, text: &str) -> fmt::Result {
        self.chars = self.chars.saturating_add(text.chars().count());
        Ok(())
    }
}

// Writes the first characters to a formatter, or all.
#[derive(Drop)]
struct First<'a, W> {
    to: &'a mut fmt::Formatter<W>,
    left: Option<usize>,
}

impl<W: Write> Write for First<'_, W> {
    ghost write_str_gives = { λ s bs t. (t.to.ghost_name ≡ s.to.ghost_name)
        × (IsTrue (list_all is_ascii bs) → IsFlush s.to.now → HasWrittenStyled W.write_str_gives s.to.now (first_of s.left bs) t.to.now × (t.left ≡ left_after s.left bs)) };

    fn write_str(&mut self, text: &str) -> fmt::Result {
        match self.left {
            Some(left) => {
                write_first(text, left, self.to)?;
                self.left = Some(left.saturating_sub(text.chars().count()));
                Ok(())
            }
            None => self.to.write_str(text),
        }
    }
}

// Writes the text's first characters.
fn write_first<W: Write>(text: &str, count: usize, f: &mut fmt::Formatter<W>) -> fmt::Result
    ensures { IsTrue (list_all is_ascii text.now)
        → WritesStyledOnOk W.write_str_gives f.old result (first_of (Some count) text.now) f.new }
{
    for ch in text.chars().take(count) {
        f.write_char(ch)?;
    }
    Ok(())
}

// The number of characters of the quoted text.
fn quoted_len(text: &str) -> Result<usize, fmt::Error>
    ensures { IfSome (debug_str text.now)
        (λ bs. IfOk result (λ n. n ≡ min (length bs) (2 ^ 64 - 1))) }
{
    let mut count = Count { chars: 0 };
    write!(count, "{text:?}")?;
    Ok(count.chars)
}

// Writes the first characters of the quoted text, or all.
fn write_start<W: Write>(text: &str, most: Option<usize>, f: &mut fmt::Formatter<W>) -> fmt::Result
    ensures { IfSome (debug_str text.now)
        (λ bs. WritesStyledOnOk W.write_str_gives f.old result (first_of most bs) f.new) }
{
    let mut out = fmt::Formatter::new(First { to: f, left: most });
    let result = write!(out, "{text:?}");
    let First { to, .. } = out.into_inner();
    // No effect at run time. The proof reads what the formatter holds from this use of it.
    let _ = &*to;
    result
}

// How much of the fill stands before the text.
fn before(align: Option<Alignment>, padding: usize) -> usize
    ensures value { result ≡ before_by align padding }
    ensures most { result ≤ padding }
{
    match align {
        Some(Alignment::Right) => padding,
        Some(Alignment::Center) => padding / 2,
        _ => 0,
    }
}

// Writes the first characters of the quoted text with so much fill.
fn write_filled<W: Write>(
    text: &str,
    most: usize,
    padding: usize,
    f: &mut fmt::Formatter<W>,
) -> fmt::Result
    ensures { IfSome (debug_str text.now) (λ bs. IsAligned f.old
        → WritesStyledOnOk W.write_str_gives f.old result
        (filled f.old padding (first_of (Some most) bs)) f.new) }
{
    let before = before(f.align(), padding);
    let mut bytes = [0; 4];
    let fill = f.fill().encode_utf8(&mut bytes);
    f.write_repeated(fill, before)?;
    write_start(text, Some(most), f)?;
    f.write_repeated(fill, padding - before)
}

// Whether a width or a precision is asked for.
fn is_laid_out<W: Write>(f: &fmt::Formatter<W>) -> bool
    ensures { result ≡ is_laid_out f.now }
{
    f.width().is_some() || f.precision().is_some()
}

// Writes the text as `{:?}` does, cut to the precision and filled up to the width.
pub(crate) fn write_quoted<W: Write>(text: &str, f: &mut fmt::Formatter<W>) -> fmt::Result
    ensures plain { DisplaysOnOk W.write_str_gives f.old result (debug_str text.now) f.new }
    ensures styled { IfSome (debug_str text.now) (λ bs. IsAligned f.old
        → WritesStyledOnOk W.write_str_gives f.old result (styled_text (formatter_spec f.old) bs)
        f.new) }
{
    if !is_laid_out(f) {
        return write_start(text, None, f);
    }
    let most = f.precision().unwrap_or(usize::MAX);
    let len = quoted_len(text)?.min(most);
    let padding = f.width().unwrap_or(0).saturating_sub(len);
    write_filled(text, most, padding, f)
}
