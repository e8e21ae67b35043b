// The 27 bytes of a text, `DD-MMM-YYYY hh:mm:ss.uuuuuu`: written, and read where they stand as they have to.
ghost use Rattle.std.specs.Prelude.{◌≡◌, ◌+◌, ◌*◌, ◌-◌, ◌/◌, ◌%◌, ◌≤◌, ◌<◌, T, length, leb, eqb, not};
ghost use Rattle.std.specs.Bool.{then_some};
ghost use Rattle.layout.specs.Bytes.{part};
ghost use Rattle.times.specs.Times.{valid_moment, in_digits, month_name, text_of, month_in, date_in, moment_in};
ghost use Rattle.times.specs.Formed.{outside, formed, name_number, month_numbered};

use crate::{Moment, is_moment};
use calendar::Date;

// The lowest and the highest byte that can stand at each place; of the month's name they say only that it has capitals.
static LOWEST: [u8; 27] = *b"00-AAA-0000 00:00:00.000000";

static HIGHEST: [u8; 27] = *b"99-ZZZ-9999 99:99:99.999999";

// A month's name as a number, the first letter in the lowest byte: the compiler keeps such answers in the program, where it would copy an array of them.
#[tactic(auto, unfolding(crate::specs::Formed::name_number, crate::specs::Times::month_name, crate::specs::Times::month_names, layout::specs::Bytes::byte_at))]
fn name_of(month: u32) -> u32
    requires { (1 ≤ month) × (month ≤ 12) }
    ensures { result ≡ name_number (month_name month) }
{
    match month {
        1 => 0x4e414a,
        2 => 0x424546,
        3 => 0x52414d,
        4 => 0x525041,
        5 => 0x59414d,
        6 => 0x4e554a,
        7 => 0x4c554a,
        8 => 0x475541,
        9 => 0x504553,
        10 => 0x54434f,
        11 => 0x564f4e,
        _ => 0x434544,
    }
}

// The month that has this number for its name.
#[tactic(auto, unfolding(crate::specs::Formed::month_numbered, crate::specs::Formed::is_numbered, crate::specs::Formed::name_number, crate::specs::Times::month_name, crate::specs::Times::month_names, layout::specs::Bytes::byte_at, layout::specs::Search::find))]
fn month_of_name(name: u32) -> Option<u32>
    ensures { result ≡ then_some (leb (month_numbered name) 12) (month_numbered name) }
{
    let month = match name {
        0x4e414a => 1,
        0x424546 => 2,
        0x52414d => 3,
        0x525041 => 4,
        0x59414d => 5,
        0x4e554a => 6,
        0x4c554a => 7,
        0x475541 => 8,
        0x504553 => 9,
        0x54434f => 10,
        0x564f4e => 11,
        0x434544 => 12,
        _ => return None,
    };
    Some(month)
}

// Two digits. 205/2048 of a number below 100 are its tens.
fn two_digits(number: u32) -> [u8; 2]
    requires { number < 100 }
    ensures { result ≡ in_digits 2 number }
{
    let digits = 0x3030 + 256 * number - 2559 * (205 * number / 2048);
    (digits as u16).to_le_bytes()
}

#[tactic(auto, using(crate::proofs::Moments::valid))]
pub fn text_of(moment: Moment) -> [u8; 27]
    requires { T (valid_moment moment) }
    ensures { result ≡ text_of moment }
{
    let date = moment.date;
    let name = name_of(date.month).to_le_bytes();
    let rest = moment.microsecond % 10_000;
    let day = two_digits(date.day);
    let century = two_digits(date.year / 100);
    let year = two_digits(date.year % 100);
    let hour = two_digits(moment.hour);
    let minute = two_digits(moment.minute);
    let seconds = two_digits(moment.second);
    let high = two_digits(moment.microsecond / 10_000);
    let middle = two_digits(rest / 100);
    let low = two_digits(rest % 100);
    [
        day[0], day[1], b'-', name[0], name[1], name[2], b'-', century[0], century[1], year[0],
        year[1], b' ', hour[0], hour[1], b':', minute[0], minute[1], b':', seconds[0], seconds[1],
        b'.', high[0], high[1], middle[0], middle[1], low[0], low[1],
    ]
}

// By how much the byte at a place is below the lowest or above the highest that can stand there.
fn misfit(text: &[u8], at: usize) -> u8
    requires { (length text.now ≡ 27) × (at < 27) }
    ensures { eqb result 0 ≡ not (outside text.now at) }
{
    let x = text[at];
    LOWEST[at].saturating_sub(x) | x.saturating_sub(HIGHEST[at])
}

// No byte is below the lowest or above the highest that can stand at its place: by how much they are is put together, without an exit, in two blocks of 16
// that the compiler takes side by side.
pub fn is_formed(text: &[u8]) -> bool
    requires { length text.now ≡ 27 }
    ensures { result ≡ formed text.now }
{
    let mut short = 0;
    for i in 0..16 {
        short |= misfit(text, i) | misfit(text, 11 + i);
    }
    short == 0
}

// The month that the text names.
fn month_in(text: &[u8]) -> Option<u32>
    requires { length text.now ≡ 27 }
    ensures { result ≡ then_some (leb (month_in (part text.now 3 3)) 12) (month_in (part text.now 3 3)) }
{
    month_of_name(u32::from_le_bytes([text[3], text[4], text[5], 0]))
}

#[tactic(auto, using(crate::proofs::Reading::pairs))]
fn date_in(text: &[u8]) -> Option<Date>
    requires { (length text.now ≡ 27) × T (formed text.now) }
    ensures { result ≡ then_some (leb (month_in (part text.now 3 3)) 12) (date_in text.now) }
{
    let month = month_in(text)?;
    let year = text::two_digits(text, 7) * 100 + text::two_digits(text, 9);
    let day = text::two_digits(text, 0);
    Some(Date {
        year: year as u32,
        month,
        day: day as u32,
    })
}

// The only moment that a text can be the text of, where it is one.
#[tactic(auto, using(crate::proofs::Reading::pairs))]
pub fn moment_in(text: &[u8]) -> Option<Moment>
    requires { (length text.now ≡ 27) × T (formed text.now) }
    ensures { result ≡ then_some (valid_moment (moment_in text.now)) (moment_in text.now) }
{
    let date = date_in(text)?;
    let hour = text::two_digits(text, 12);
    let minute = text::two_digits(text, 15);
    let second = text::two_digits(text, 18);
    let high = text::two_digits(text, 21) * 100 + text::two_digits(text, 23);
    let microsecond = high * 100 + text::two_digits(text, 25);
    let moment = Moment {
        date,
        hour: hour as u32,
        minute: minute as u32,
        second: second as u32,
        microsecond: microsecond as u32,
    };
    is_moment(moment).then_some(moment)
}
