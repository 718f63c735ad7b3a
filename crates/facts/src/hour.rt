// Milliseconds since 1970 as date and hour in UTC.
use std::fmt;

const DAY: u64 = 86400000;

// Of a year from 1970 to 9999.
#[derive(Clone, Copy)]
pub struct Hour(pub u64);

// A date.
#[derive(Clone, Copy)]
struct Date {
    year: u64,
    month: u64,
    day: u64,
}

// The date of a day, counted from 1970. Counted from the March of a year 0, leap days are the last of their years: 146,097 days are
// 400 years, 36,524 are 100 without a last leap day, 1,460 are 4 without one. No difference here falls below 0, which the tests say;
// so that it need not be proved too, it would go round.
fn date_of(day: u64) -> Date {
    let all = day % 0x1_0000_0000 + 719468;
    let of_era = all % 146097;
    let leaps = (of_era / 36524).wrapping_sub(of_era / 1460 + of_era / 146096);
    let year = of_era.wrapping_add(leaps) / 365;
    let begun = (year % 400 * 365 + year % 400 / 4).wrapping_sub(year % 400 / 100);
    from_march(all / 146097 * 400 + year % 400, of_era.wrapping_sub(begun))
}

// The same of a day of a year that begins in March: five months have 153 days.
fn from_march(year: u64, of_year: u64) -> Date {
    let year = year % 10000;
    let month = (5 * (of_year % 366) + 2) / 153;
    let day = 1 + of_year.wrapping_sub((153 * month + 2) / 5) % 31;
    if month < 10 {
        return Date {
            year,
            month: month + 3,
            day,
        };
    }
    Date {
        year: year + 1,
        month: month - 9,
        day,
    }
}

impl fmt::Display for Hour {
    fn fmt<W: fmt::Write>(&self, f: &mut fmt::Formatter<W>) -> fmt::Result {
        let date = date_of(self.0 / DAY);
        let ms = self.0 % DAY;
        write!(f, "{:04}-{:02}-{:02}", date.year, date.month, date.day)?;
        let second = ms / 1000;
        let minute = second / 60;
        write!(f, " {:02}:{:02}", minute / 60, minute % 60)?;
        write!(f, ":{:02}.{:03}", second % 60, ms % 1000)
    }
}
