//! Timestamps.
ghost use Rattle.std.specs.Prelude.{◌≡◌, ◌<◌, ◌≤◌, ◌^◌, length, IfSome};
ghost use Rattle.std.specs.Char.{is_ascii_digit};
ghost use Rattle.std.specs.List.{list_all};
ghost use Rattle.std.specs.Option.{option_map};
ghost use Rattle.std.specs.Result.{result_ok};
ghost use Rattle.jiff_core.specs.Calendar.{IsEpochDay};
ghost use Rattle.td_times.specs.Times.{a_day, a_second, SaysTime};
ghost use Rattle.td_times.specs.Stamps.{number_of, digits_at, past_byte, day_number_of, date_of, second_of, clock_of, fraction_of, timestamp_of};

use crate::fault::TimeFault;
use jiff_core::civil::Date;

/// The milliseconds since 1970 that a timestamp's text says, read as UTC: `YYYY-MM-DD HH:MM:SS`, with a point and one
/// to three digits behind it or none. The years are 0000 to 9999, and before 1970 the number is negative. Every other
/// text is `BadTime`, also one with a day or a time of day that does not exist.
pub fn timestamp(text: &[u8]) -> Result<i64, TimeFault>
    ensures says { SaysTime text.now result }
    ensures read { result_ok result ≡ timestamp_of text.now }
{
    stamp(text).ok_or(TimeFault::BadTime)
}

#[tactic(auto, unfolding(crate::specs::Stamps::timestamp_of))]
fn stamp(text: &[u8]) -> Option<i64>
    ensures { result ≡ timestamp_of text.now }
{
    let (day, rest) = date(text)?;
    let rest = past_byte(rest, b' ')?;
    let (second, rest) = clock(rest)?;
    let fraction = fraction(rest)?;
    Some(86_400_000 * day + i64::from(second + fraction))
}

fn all_digits(text: &[u8]) -> bool
    ensures { result ≡ list_all is_ascii_digit text.now }
{
    text.iter().all(|b| b.is_ascii_digit())
}

// The number of one to four digits.
fn number(digits: &[u8]) -> Option<u32>
    ensures value { result ≡ number_of digits.now }
    ensures small { IfSome result (λ n. n < 10 ^ length digits.now) }
{
    if digits.len() > 4 || !all_digits(digits) {
        return None;
    }
    let Ok(text) = str::from_utf8(digits) else {
        return None;
    };
    text.parse().ok()
}

// The number of this many digits at the front, and what follows them.
#[tactic(auto, unfolding(crate::specs::Stamps::digits_at))]
fn digits(text: &[u8], n: usize) -> Option<(u32, &[u8])>
    ensures value { option_map (λ p. (p.0, p.1.now)) result ≡ digits_at n text.now }
    ensures small { IfSome result (λ p. p.0 < 10 ^ n) }
{
    if text.len() < n {
        return None;
    }
    let (front, rest) = text.split_at(n);
    let value = number(front)?;
    Some((value, rest))
}

// What follows this byte, where it stands first.
fn past_byte(text: &[u8], byte: u8) -> Option<&[u8]>
    ensures { option_map (λ rest. rest.now) result ≡ past_byte byte text.now }
{
    match text {
        [b, rest @ ..] if *b == byte => Some(rest),
        _ => None,
    }
}

// The number of a day that the calendar has, counted from 1970-01-01.
#[tactic(auto, unfolding(crate::specs::Stamps::day_number_of))]
fn day_number(year: u32, month: u32, day: u32) -> Option<i64>
    requires { (year < 10 ^ 4) × (month < 10 ^ 2) × (day < 10 ^ 2) }
    ensures value { result ≡ day_number_of year month day }
    ensures bound { IfSome result IsEpochDay }
{
    match Date::new(year as i16, month as i8, day as i8) {
        Ok(date) => Some(i64::from(date.to_unix_epoch_day())),
        Err(_) => None,
    }
}

// The day number of the date at the front.
#[tactic(auto, unfolding(crate::specs::Stamps::date_of))]
fn date(text: &[u8]) -> Option<(i64, &[u8])>
    ensures value { option_map (λ p. (p.0, p.1.now)) result ≡ date_of text.now }
    ensures bound { IfSome result (λ p. IsEpochDay p.0) }
{
    let (year, rest) = digits(text, 4)?;
    let rest = past_byte(rest, b'-')?;
    let (month, rest) = digits(rest, 2)?;
    let rest = past_byte(rest, b'-')?;
    let (day, rest) = digits(rest, 2)?;
    let number = day_number(year, month, day)?;
    Some((number, rest))
}

// The milliseconds of a whole second of the day.
#[tactic(auto, unfolding(crate::specs::Stamps::second_of))]
fn second(hour: u32, minute: u32, second: u32) -> Option<u32>
    ensures value { result ≡ second_of hour minute second }
    ensures bound { IfSome result (λ n. n < a_day) }
{
    if hour < 24 && minute < 60 && second < 60 {
        Some(((hour * 60 + minute) * 60 + second) * 1000)
    } else {
        None
    }
}

// The milliseconds of the time of day at the front, without its fraction.
#[tactic(auto, unfolding(crate::specs::Stamps::clock_of))]
fn clock(text: &[u8]) -> Option<(u32, &[u8])>
    ensures value { option_map (λ p. (p.0, p.1.now)) result ≡ clock_of text.now }
    ensures bound { IfSome result (λ p. p.0 < a_day) }
{
    let (hour, rest) = digits(text, 2)?;
    let rest = past_byte(rest, b':')?;
    let (minute, rest) = digits(rest, 2)?;
    let rest = past_byte(rest, b':')?;
    let (whole, rest) = digits(rest, 2)?;
    let number = second(hour, minute, whole)?;
    Some((number, rest))
}

// The milliseconds of the fraction, which zeros on the right fill up to three digits.
#[tactic(auto, unfolding(crate::specs::Stamps::fraction_of))]
fn fraction(text: &[u8]) -> Option<u32>
    ensures value { result ≡ fraction_of text.now }
    ensures bound { IfSome result (λ n. n < a_second) }
{
    match text {
        [] => Some(0),
        [b'.', digits @ ..] => {
            let n = number(digits)?;
            match digits.len() {
                1 => Some(n * 100),
                2 => Some(n * 10),
                3 => Some(n),
                _ => None,
            }
        }
        _ => None,
    }
}
