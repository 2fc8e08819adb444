//! Moments as the summary's table has them.
ghost use Rattle.std.specs.Prelude.{◌≡◌, ◌++◌, ◌≤ℤ◌, MatchOption, IfOk, OnOk, option_map, string_bytes};
ghost use Rattle.cfb_medium.specs.Times.{units_of, unix_seconds};
ghost use Rattle.jiff_core.specs.Date.{epoch_day};
ghost use Rattle.jiff_core.specs.DateTime.{civil_seconds};
ghost use Rattle.jiff_core.specs.Time.{time_seconds};
ghost use Rattle.idt_summaries.specs.Moments.{IsMomentCell, date_text, day_in, day_of, moment_at, moment_in, moment_text, second_in, second_of, time_text, years_end};

use crate::numbers::{short_of, tiny_of};
use crate::texts::{cut, push_two};
use cfb_medium::Timestamp;
use jiff_core::civil::{Date, DateTime, Time};
use std::alloc::{AllocError, Global};

/// The second of a moment; none past the year 9999.
pub fn date_of(moment: Timestamp) -> Option<DateTime>
    ensures { let second = unix_seconds (units_of moment) in
        MatchOption result (years_end ≤ℤ second) (λ date. civil_seconds date ≡ second) }
{
    let (seconds, _) = moment.to_unix();
    match DateTime::from_nanosecond(i128::from(seconds) * 1_000_000_000) {
        Ok(date) => Some(date),
        Err(_) => None,
    }
}

/// The text of a moment, as `2024/09/05 08:53:20` (UTC); none past the year 9999. The one error is want of memory.
pub(crate) fn text_of_moment(alloc: Global, moment: Timestamp) -> Result<Option<String>, AllocError>
    ensures { IfOk result (λ text.
        IsMomentCell (unix_seconds (units_of moment)) (option_map string_bytes text)) }
{
    match date_of(moment) {
        Some(date) => Ok(Some(text_of(alloc, date)?)),
        None => Ok(None),
    }
}

fn text_of(alloc: Global, it: DateTime) -> Result<String, AllocError>
    ensures { IfOk result (λ text. string_bytes text ≡ moment_text it) }
{
    let mut text = String::new(alloc);
    push_date(&mut text, it.date)?;
    text.push(' ')?;
    push_time(&mut text, it.time)?;
    Ok(text)
}

fn push_date(text: &mut String, it: Date) -> Result<(), AllocError>
    ensures { OnOk result (string_bytes text.new ≡ string_bytes text.old ++ date_text it) }
{
    let year = it.year.unsigned_abs();
    push_two(text, (year / 100) as u8)?;
    push_two(text, (year % 100) as u8)?;
    text.push('/')?;
    push_two(text, it.month)?;
    text.push('/')?;
    push_two(text, it.day)
}

fn push_time(text: &mut String, it: Time) -> Result<(), AllocError>
    ensures { OnOk result (string_bytes text.new ≡ string_bytes text.old ++ time_text it) }
{
    push_two(text, it.hour)?;
    text.push(':')?;
    push_two(text, it.minute)?;
    text.push(':')?;
    push_two(text, it.second)
}

/// The moment that a text says, as `2024/09/05 08:53:20`.
pub(crate) fn moment_of(text: &str) -> Option<Timestamp>
    ensures { option_map units_of result ≡ moment_in text.now }
{
    let (day, time) = cut(text, ' ')?;
    Some(stamp_of(date_in(day)?, time_in(time)?))
}

#[tactic(auto, unfolding(jiff_core::specs::DateTime::civil_seconds))]
fn stamp_of(date: Date, time: Time) -> Timestamp
    ensures { units_of result ≡ moment_at (epoch_day date) (time_seconds time) }
{
    Timestamp::from_unix(DateTime { date, time }.to_second(), 0)
}

fn date_in(text: &str) -> Option<Date>
    ensures { option_map epoch_day result ≡ day_in text.now }
{
    let (year, rest) = cut(text, '/')?;
    let (month, day) = cut(rest, '/')?;
    made_date(short_of(year)?, tiny_of(month)?, tiny_of(day)?)
}

fn made_date(year: i16, month: i8, day: i8) -> Option<Date>
    ensures { option_map epoch_day result ≡ day_of year month day }
{
    match Date::new(year, month, day) {
        Ok(date) => Some(date),
        Err(_) => None,
    }
}

fn time_in(text: &str) -> Option<Time>
    ensures { option_map time_seconds result ≡ second_in text.now }
{
    let (hour, rest) = cut(text, ':')?;
    let (minute, second) = cut(rest, ':')?;
    made_time(tiny_of(hour)?, tiny_of(minute)?, tiny_of(second)?)
}

fn made_time(hour: i8, minute: i8, second: i8) -> Option<Time>
    ensures { option_map time_seconds result ≡ second_of hour minute second }
{
    match Time::new(hour, minute, second, 0) {
        Ok(time) => Some(time),
        Err(_) => None,
    }
}
