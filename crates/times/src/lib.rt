// Times people can read (document 02, order 7): `01-JAN-2000 00:00:00.000000` beside an mjd, and the other way. They stand beside the reader: no call of
// the reader asks them, and a field of kind 9 is answered as it stands, in the range or not.
#![tactic(auto)]

mod texts;

ghost use Rattle.std.specs.Prelude.{◌≡◌, T};
ghost use Rattle.times.specs.Times.{valid_moment, time_of, time_of_text, time_answer_is, valid_time, TextAnswer};

use calendar::Date;
use layout::{Refusal, Time};

// A moment as its text has it: any numbers, since `moment_in` of the specification is one of any text; so what is valid of them is no invariant of theirs.
#[derive(Clone, Copy)]
pub struct Moment {
    pub date: Date,
    pub hour: u32,
    pub minute: u32,
    pub second: u32,
    pub microsecond: u32,
}

// Any other text than a time's or 27 blanks.
const NO_TIME: Refusal = Refusal {
    number: 30,
    place: 0,
    entry: 128,
};

// A time outside the range.
const NO_TEXT: Refusal = Refusal {
    number: 31,
    place: 0,
    entry: 128,
};

// The days from 1 January 1980 to 1 January 2000, which is day 0.
const DAYS_TO_2000: i32 = 7305;

#[tactic(auto, unfolding(crate::specs::Times::valid_moment))]
fn is_moment(moment: Moment) -> bool
    ensures { result ≡ valid_moment moment }
{
    calendar::is_date(moment.date)
        && moment.hour < 24
        && moment.minute < 60
        && moment.second < 60
        && moment.microsecond < 1_000_000
}

#[tactic(auto, using(crate::proofs::Moments::valid))]
fn time_of(moment: Moment) -> Time
    requires { T (valid_moment moment) }
    ensures { result ≡ time_of moment }
{
    let before = calendar::days_before(moment.date);
    Time {
        days: before as i32 - DAYS_TO_2000,
        seconds: 3600 * moment.hour + 60 * moment.minute + moment.second,
        microseconds: moment.microsecond,
    }
}

// A time of the range.
#[tactic(auto, using(crate::proofs::Numbers::time_range))]
fn is_time(time: Time) -> bool
    ensures { result ≡ valid_time time }
{
    (-7305..=36524).contains(&time.days) && time.seconds < 86_400 && time.microseconds < 1_000_000
}

fn moment_of(time: Time) -> Moment
    requires { T (valid_time time) }
    ensures { T (valid_moment result) × (time_of result ≡ time) }
{
    let before = (time.days + DAYS_TO_2000) as u32;
    let hour = time.seconds / 3600;
    let rest = time.seconds - 3600 * hour;
    let minute = rest / 60;
    Moment {
        date: calendar::date_after(before),
        hour,
        minute,
        second: rest - 60 * minute,
        microsecond: time.microseconds,
    }
}

// What a text says, whatever its bytes and their number: a time, or with 27 blanks that none is given.
#[tactic(auto, using(crate::proofs::Said::said_length), unfolding(crate::specs::Times::said_by, layout::specs::Answers::reply_is))]
pub fn time_of_text(text: &[u8]) -> Result<Option<Time>, Refusal>
    ensures { time_answer_is result ≡ time_of_text text.now }
{
    if text.len() != 27 {
        return Err(NO_TIME);
    }
    if texts::is_formed(text) {
        let moment = texts::moment_in(text).ok_or(NO_TIME)?;
        return Ok(Some(time_of(moment)));
    }
    if text::first_not_blank(text, 0, 27) == 27 {
        return Ok(None);
    }
    Err(NO_TIME)
}

// The text of a time, whatever its numbers.
pub fn text_of_time(days: i32, seconds: u32, microseconds: u32) -> Result<[u8; 27], Refusal>
    ensures { TextAnswer (record { days = days; seconds = seconds; microseconds = microseconds }) result }
{
    let time = Time {
        days,
        seconds,
        microseconds,
    };
    if !is_time(time) {
        return Err(NO_TEXT);
    }
    Ok(texts::text_of(moment_of(time)))
}
