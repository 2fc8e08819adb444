//! Moments as people write them: ISO 8601, in UTC.
use cfb_medium::Timestamp;
use idt_summaries::date_of;
use jiff_core::civil::{Date, DateTime, Time};
use std::alloc::{AllocError, Global};

// The seconds from 1601 to 1970.
const TO_UNIX: i64 = 11_644_473_600;

/// A moment as a text: `2024-09-05T08:53:20Z`, with the fraction of its second where it has one, `2024-09-05T08:53:20.25Z`. None past the
/// year 9999. The one error is want of memory.
pub fn moment_text(alloc: Global, moment: Timestamp) -> Result<Option<String>, AllocError> {
    match date_of(moment) {
        Some(date) => Ok(Some(text_of(alloc, date, moment.to_unix().1)?)),
        None => Ok(None),
    }
}

fn text_of(alloc: Global, it: DateTime, nanos: u32) -> Result<String, AllocError> {
    let (year, month, day) = (it.date.year, it.date.month, it.date.day);
    let (hour, minute, second) = (it.time.hour, it.time.minute, it.time.second);
    let mut text = format!(in alloc;
        "{year:04}-{month:02}-{day:02}T{hour:02}:{minute:02}:{second:02}"
    )?;
    if nanos > 0 {
        let fraction = format!(in alloc; ".{nanos:09}")?;
        text.push_str(fraction.trim_end_matches('0'))?;
    }
    text.push('Z')?;
    Ok(text)
}

/// The tenths of a microsecond from 1601 to the moment of such a text, of which a fraction has one to seven digits, and of a text as
/// exports have it, `2024/09/05 08:53:20`. None where the text is no moment from 1601 to 9999.
pub fn moment_in(text: &str) -> Option<u64> {
    let (date, time) = match text.strip_suffix('Z') {
        Some(text) => text.split_once('T')?,
        None => text.split_once(' ')?,
    };
    let mark = if text.ends_with('Z') { '-' } else { '/' };
    let (time, fraction) = match time.split_once('.') {
        Some((time, digits)) => (time, fraction_in(digits)?),
        None => (time, 0),
    };
    let at = DateTime {
        date: date_in(date, mark)?,
        time: time_in(time)?,
    };
    units_at(at.to_second(), fraction)
}

// The units of a second from 1970 on, and of those behind it.
fn units_at(second: i64, fraction: u32) -> Option<u64> {
    let since = u64::try_from(second.checked_add(TO_UNIX)?).ok()?;
    since
        .checked_mul(10_000_000)?
        .checked_add(u64::from(fraction))
}

// The tenths of a microsecond that one to seven digits behind a point say.
fn fraction_in(digits: &str) -> Option<u32> {
    let mut found = number_in(digits, digits.len())?;
    if digits.len() > 7 {
        return None;
    }
    for _ in digits.len()..7 {
        found = found.checked_mul(10)?;
    }
    Some(found)
}

fn date_in(text: &str, mark: char) -> Option<Date> {
    let (year, rest) = text.split_once(mark)?;
    let (month, day) = rest.split_once(mark)?;
    let year = i16::try_from(number_in(year, 4)?).ok()?;
    let month = i8::try_from(number_in(month, 2)?).ok()?;
    let day = i8::try_from(number_in(day, 2)?).ok()?;
    Date::new(year, month, day).ok()
}

fn time_in(text: &str) -> Option<Time> {
    let (hour, rest) = text.split_once(':')?;
    let (minute, second) = rest.split_once(':')?;
    let hour = i8::try_from(number_in(hour, 2)?).ok()?;
    let minute = i8::try_from(number_in(minute, 2)?).ok()?;
    let second = i8::try_from(number_in(second, 2)?).ok()?;
    Time::new(hour, minute, second, 0).ok()
}

// The number of so many digits.
fn number_in(text: &str, width: usize) -> Option<u32> {
    if text.len() != width || !text.bytes().all(|byte| byte.is_ascii_digit()) {
        return None;
    }
    text.parse::<u32>().ok()
}
