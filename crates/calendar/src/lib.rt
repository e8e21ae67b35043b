// The Gregorian calendar from 1 January 1980 to 31 December 2099 (document 02, order 7): dates, and the days before them.
#![tactic(auto)]

ghost use Rattle.std.specs.Prelude.{◌≡◌, ◌≤◌, ◌<◌, T, take};
ghost use Rattle.layout.specs.Search.{sum};
ghost use Rattle.calendar.specs.Calendar.{leap, months, days_of_month, valid_date, days_before};
ghost use Rattle.calendar.specs.Even.{missing, from_on, even_days};

// A date, January being month 1: any three numbers, since `is_date` is asked of them; so what is valid of them is no invariant of theirs.
#[derive(Clone, Copy)]
pub struct Date {
    pub year: u32,
    pub month: u32,
    pub day: u32,
}

// Of these years every fourth is leap: 2000 is, and 1900 and 2100 are outside.
#[tactic(auto, using(crate::proofs::Days::every_fourth))]
fn is_leap(year: u32) -> bool
    requires { (1980 ≤ year) × (year ≤ 2099) }
    ensures { result ≡ leap year }
{
    year % 4 == 0
}

// The days that February has less than 30.
#[tactic(auto, unfolding(crate::specs::Even::missing))]
fn missing_days(long: bool) -> u32
    ensures { (result ≡ missing long) × (result ≤ 2) }
{
    if long { 1 } else { 2 }
}

// So many from a number on, and none below it. Asked for in this form, both ways cost the same, whichever year or month it is.
#[tactic(auto, unfolding(crate::specs::Even::from_on))]
fn from_on(number: u32, least: u32, many: u32) -> u32
    ensures { result ≡ from_on number least many }
{
    if number < least { 0 } else { many }
}

// The days of so many first months of a year. Had February 30 days, months would have 30 9/16 on the average.
#[tactic(auto, using(crate::proofs::Days::counted))]
fn days_of_months(long: bool, count: u32) -> u32
    requires { count ≤ 12 }
    ensures { (result ≡ sum (take count (months long))) × (result ≤ 366) }
{
    let missing = missing_days(long);
    (489 * count + 8) / 16 - from_on(count, 2, missing)
}

fn days_of_month(year: u32, month: u32) -> u32
    requires { ((1980 ≤ year) × (year ≤ 2099)) × ((1 ≤ month) × (month ≤ 12)) }
    ensures { result ≡ days_of_month year month }
{
    let long = is_leap(year);
    days_of_months(long, month) - days_of_months(long, month - 1)
}

// A date of the range.
#[tactic(auto, unfolding(crate::specs::Calendar::valid_date))]
pub fn is_date(date: Date) -> bool
    ensures { result ≡ valid_date date }
{
    (1980..=2099).contains(&date.year)
        && (1..=12).contains(&date.month)
        && (1..=days_of_month(date.year, date.month)).contains(&date.day)
}

// The days before a date, from 1 January 1980 on. Four years have 1,461 days, and the first of each four is the leap one.
#[tactic(auto, using(crate::proofs::Dates::dated))]
pub fn days_before(date: Date) -> u32
    requires { T (valid_date date) }
    ensures { (result ≡ days_before date) × (result < 43830) }
{
    let years = (1461 * (date.year - 1980) + 3) / 4;
    let long = is_leap(date.year);
    let months = days_of_months(long, date.month - 1);
    years + months + (date.day - 1)
}

// The days of a year before one of its days, had February 30.
#[tactic(auto, using(crate::proofs::Days::even_most), unfolding(crate::specs::Even::even_days))]
fn days_of_even_months(long: bool, days: u32) -> u32
    requires { days ≤ 366 }
    ensures { (result ≡ even_days long days) × (result ≤ 368) }
{
    let missing = missing_days(long);
    days + from_on(days, 61 - missing, missing)
}

// The date that has so many days before it. 67/2048 of the days are months.
pub fn date_after(days: u32) -> Date
    requires { days < 43830 }
    ensures { T (valid_date result) × (days_before result ≡ days) }
{
    let years = 4 * days / 1461;
    let rest = days - (1461 * years + 3) / 4;
    let long = is_leap(1980 + years);
    let even = days_of_even_months(long, rest);
    let over = (67 * even + 27) / 2048;
    Date {
        year: 1980 + years,
        month: over + 1,
        day: even - (489 * over + 8) / 16 + 1,
    }
}
