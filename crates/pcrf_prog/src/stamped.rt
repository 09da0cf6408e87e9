//! The log on standard error, whose lines may have the time.
ghost use Rattle.std.specs.Prelude.{true, None, Some, []};

use log::kv::Source;
use log::span::Spans;
use log::{Line, Log, Metadata, Record};
use std::fmt::{self, Display, Formatter, Write};
use std::io::Eprint;
use std::time::{Clock, Duration};

/// How many seconds a day has.
const DAY: u64 = 86_400;

/// How many days lie between the first of March of the year 0 and the first of January 1970.
const BEFORE_1970: u64 = 719_468;

/// How many days 400 years have.
const ERA: u64 = 146_097;

/// A time since 1970, in UTC (RFC 3339), to the millisecond.
#[derive(Clone, Copy, Drop)]
struct Stamp(Duration);

/// A day: its year, its month and its day of the month, from 1 each.
#[derive(Clone, Copy)]
struct Day {
    year: u64,
    month: u64,
    day: u64,
}

/// The day that comes so many days behind the first of January 1970. Years are counted from March on, so that a leap day ends one.
fn day_behind(days: u64) -> Day {
    let all = days.saturating_add(BEFORE_1970);
    let of_era = all % ERA;
    let leap = (of_era / 36_524).saturating_sub(of_era / 146_096);
    let year = of_era.saturating_add(leap).saturating_sub(of_era / 1_460) / 365;
    let before = year
        .saturating_mul(365)
        .saturating_add(year / 4)
        .saturating_sub(year / 100);
    let of_year = of_era.saturating_sub(before);
    let month = (of_year.saturating_mul(5).saturating_add(2)) / 153;
    let day = of_year.saturating_sub((month.saturating_mul(153).saturating_add(2)) / 5);
    let is_next_year = month >= 10;
    Day {
        year: (all / ERA * 400)
            .saturating_add(year)
            .saturating_add(u64::from(is_next_year)),
        month: if is_next_year {
            month.saturating_sub(9)
        } else {
            month.saturating_add(3)
        },
        day: day.saturating_add(1),
    }
}

impl Display for Stamp {
    fn fmt<W: Write>(&self, f: &mut Formatter<W>) -> fmt::Result {
        let seconds = self.0.as_secs();
        let Day { year, month, day } = day_behind(seconds / DAY);
        write!(f, "{year:04}-{month:02}-{day:02}T")?;
        let of_day = seconds % DAY;
        let (hour, minute, second) = (of_day / 3_600, of_day / 60 % 60, of_day % 60);
        let millis = self.0.subsec_millis();
        write!(f, "{hour:02}:{minute:02}:{second:02}.{millis:03}Z")
    }
}

/// A line with the time before it.
#[derive(Drop)]
struct StampedLine<D> {
    stamp: Stamp,
    line: D,
}

impl<D: Display> Display for StampedLine<D> {
    fn fmt<W: Write>(&self, f: &mut Formatter<W>) -> fmt::Result {
        write!(f, "{} ", self.stamp)?;
        f.write(&self.line)
    }
}

/// Writes each record to the standard error of `R` as a line, with the time before it if it is to be told.
#[derive(Clone, Copy, Drop)]
pub struct Stamped<R> {
    pub rt: R,
    /// Lines have the time.
    pub is_timed: bool,
}

impl<R: Eprint + Clock> Stamped<R> {
    /// The time, if it is told.
    fn stamp(&self) -> Option<Stamp> {
        if !self.is_timed {
            return None;
        }
        match self.rt.since_1970() {
            Ok(time) => Some(Stamp(time)),
            Err(_) => None,
        }
    }
}

impl<R: Eprint + Clock> Log for Stamped<R> {
    ghost enables = { λ _ _ _. Some true };

    ghost target_of = { λ _. Some [] };

    fn enabled(&self, _metadata: &Metadata<'_>) -> bool {
        true
    }

    fn log<D: Display, K: Source, S: Spans>(&self, record: &Record<'_, D, K, S>) {
        let line = Line::new(record);
        let _ = match self.stamp() {
            Some(stamp) => self.rt.eprintln(StampedLine { stamp, line }),
            None => self.rt.eprintln(line),
        };
    }

    fn flush(&self) {}

    fn target(&self) -> &str {
        ""
    }
}
