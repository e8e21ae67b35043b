// A field of a record, and a point of three fields, with refusals 19 to 21 (document 01, "Fields and points").
#![tactic(auto)]

ghost use Rattle.std.specs.Prelude.{◌≡◌, ◌+◌, ◌≤◌, leb, pos, length};
ghost use Rattle.layout.specs.Bytes.{unsigned_at, signed_at};
ghost use Rattle.layout.specs.Answer.{need};
ghost use Rattle.layout.specs.Fields.{bytes_of, float, long_float, value_at, field_in, ends_in, in_limits, position_at, point_in};
ghost use Rattle.layout.specs.Answers.{verdict_is, field_is, field_answer_is, position_is, point_answer_is, time_at};
ghost use Rattle.fields.specs.Kinds.{Numbered, narrow_shape, shape};

use layout::{Field, Point, Refusal, Time, refuse};

// The kinds of at most 32 bits: sc, uc, ss, us, sl, ul and fl, in the order of their numbers.
#[derive(Clone, Copy)]
pub enum NarrowKind {
    SignedChar = 1,
    UnsignedChar,
    SignedShort,
    UnsignedShort,
    SignedLong,
    UnsignedLong,
    Float,
}

// One of those, 8 do or 9 mjd.
#[derive(Clone, Copy)]
pub enum Kind {
    Narrow(NarrowKind),
    Double,
    Mjd,
}

// No kind has the number.
#[derive(Clone, Copy)]
pub struct NoKind;

impl TryFrom<usize> for Kind {
    type Error = NoKind;

    ghost try_from_gives = { Numbered };

    fn try_from(number: usize) -> Result<Self, NoKind> {
        let narrow = match number {
            1 => NarrowKind::SignedChar,
            2 => NarrowKind::UnsignedChar,
            3 => NarrowKind::SignedShort,
            4 => NarrowKind::UnsignedShort,
            5 => NarrowKind::SignedLong,
            6 => NarrowKind::UnsignedLong,
            7 => NarrowKind::Float,
            8 => return Ok(Kind::Double),
            9 => return Ok(Kind::Mjd),
            _ => return Err(NoKind),
        };
        Ok(Kind::Narrow(narrow))
    }
}

impl NarrowKind {
    // The bytes of a field.
    #[tactic(auto, unfolding(layout::specs::Fields::shape_of, layout::specs::Fields::bytes_of))]
    pub fn width(self) -> usize
        ensures { result ≡ bytes_of (narrow_shape self) }
    {
        match self {
            NarrowKind::SignedChar | NarrowKind::UnsignedChar => 1,
            NarrowKind::SignedShort | NarrowKind::UnsignedShort => 2,
            NarrowKind::SignedLong | NarrowKind::UnsignedLong | NarrowKind::Float => 4,
        }
    }
}

impl Kind {
    #[tactic(auto, unfolding(layout::specs::Fields::shape_of, layout::specs::Fields::bytes_of))]
    pub fn width(self) -> usize
        ensures { result ≡ bytes_of (shape self) }
    {
        match self {
            Kind::Narrow(kind) => kind.width(),
            Kind::Double => 8,
            Kind::Mjd => 12,
        }
    }
}

// Whether a field ends in a record of this length. Nothing is added, since an offset may be any number.
pub fn ends_in(length: usize, offset: usize, width: usize) -> bool
    ensures { result ≡ leb (offset + width) length }
{
    if length < width {
        return false;
    }
    offset <= length - width
}

// A whole number without a sign, of so few bytes that it fits an answer.
#[tactic(auto, using(crate::proofs::Laws::four_bytes))]
fn unsigned_at(bytes: &[u8], offset: usize, width: usize) -> i64
    requires { (width ≤ 4) × (offset + width ≤ length bytes.now) }
    ensures { result ≡ pos (unsigned_at bytes.now offset width) }
{
    octets::unsigned(bytes, offset, width) as i64
}

#[tactic(auto, unfolding(layout::specs::Fields::value_at, layout::specs::Answers::field_is))]
fn single_at(bytes: &[u8], offset: usize) -> Field
    requires { offset + 4 ≤ length bytes.now }
    ensures { field_is result ≡ value_at bytes.now offset float }
{
    let bits = octets::unsigned(bytes, offset, 4) as u32;
    Field::Single {
        value: octets::single(bits),
        bits,
    }
}

#[tactic(auto, unfolding(layout::specs::Fields::value_at, layout::specs::Answers::field_is))]
fn double_at(bytes: &[u8], offset: usize) -> Field
    requires { offset + 8 ≤ length bytes.now }
    ensures { field_is result ≡ value_at bytes.now offset long_float }
{
    let bits = octets::unsigned(bytes, offset, 8);
    Field::Double {
        value: octets::double(bits),
        bits,
    }
}

#[tactic(auto, unfolding(layout::specs::Answers::time_at))]
pub fn time_at(bytes: &[u8], offset: usize) -> Time
    requires { offset + 12 ≤ length bytes.now }
    ensures { result ≡ time_at bytes.now offset }
{
    let days = octets::signed(bytes, offset, 4);
    let seconds = octets::unsigned(bytes, offset + 4, 4);
    let microseconds = octets::unsigned(bytes, offset + 8, 4);
    Time {
        days: days as i32,
        seconds: seconds as u32,
        microseconds: microseconds as u32,
    }
}

#[tactic(auto, unfolding(layout::specs::Fields::shape_of, layout::specs::Fields::bytes_of, layout::specs::Fields::value_at, layout::specs::Answers::field_is))]
fn narrow_at(bytes: &[u8], offset: usize, kind: NarrowKind) -> Field
    requires { offset + bytes_of (narrow_shape kind) ≤ length bytes.now }
    ensures { field_is result ≡ value_at bytes.now offset (narrow_shape kind) }
{
    let width = kind.width();
    match kind {
        NarrowKind::SignedChar | NarrowKind::SignedShort | NarrowKind::SignedLong => {
            Field::Whole(octets::signed(bytes, offset, width))
        }
        NarrowKind::UnsignedChar | NarrowKind::UnsignedShort | NarrowKind::UnsignedLong => {
            Field::Whole(unsigned_at(bytes, offset, width))
        }
        NarrowKind::Float => single_at(bytes, offset),
    }
}

// The value of a kind whose bytes are all there.
#[tactic(auto, unfolding(layout::specs::Fields::shape_of, layout::specs::Fields::bytes_of, layout::specs::Fields::value_at, layout::specs::Answers::field_is, layout::specs::Answers::time_at))]
fn value_at(bytes: &[u8], offset: usize, kind: Kind) -> Field
    requires { offset + bytes_of (shape kind) ≤ length bytes.now }
    ensures { field_is result ≡ value_at bytes.now offset (shape kind) }
{
    match kind {
        Kind::Narrow(kind) => narrow_at(bytes, offset, kind),
        Kind::Double => double_at(bytes, offset),
        Kind::Mjd => Field::Time(time_at(bytes, offset)),
    }
}

// The field of a kind at an offset of a record, the entry of which is only answered. The kind is its number, which may be any.
#[tactic(auto, using(crate::proofs::Laws::known), unfolding(layout::specs::Answers::reply_is, layout::specs::Fields::field_in, layout::specs::Fields::field_refusal, layout::specs::Fields::ends_in))]
pub fn field_in(bytes: &[u8], entry: usize, offset: usize, kind: usize) -> Result<Field, Refusal>
    ensures { field_answer_is result ≡ field_in bytes.now entry offset kind }
{
    let Ok(kind) = Kind::try_from(kind) else {
        return refuse(19, 0, entry);
    };
    if !ends_in(bytes.len(), offset, kind.width()) {
        return refuse(20, offset as u64, entry);
    }
    Ok(value_at(bytes, offset, kind))
}

// 20: the four bytes at an offset pass the record's end.
#[tactic(auto, unfolding(layout::specs::Answers::verdict_is, layout::specs::Fields::ends_in))]
fn check_end(bytes: &[u8], entry: usize, offset: usize) -> Result<(), Refusal>
    ensures { verdict_is result ≡ ends_in bytes.now entry offset 4 }
{
    if ends_in(bytes.len(), offset, 4) {
        return Ok(());
    }
    refuse(20, offset as u64, entry)
}

// Whether an angle in 10^-6 degree lies within these limits, either way.
#[tactic(auto, unfolding(layout::specs::Fields::in_limits))]
fn in_limits(v: i64, most: u32) -> bool
    ensures { result ≡ in_limits most v }
{
    let limit = most as i64;
    if v < -limit {
        return false;
    }
    v <= limit
}

// 21: the angle at an offset lies outside its limits.
#[tactic(auto, unfolding(layout::specs::Answers::verdict_is))]
fn check_limit(bytes: &[u8], entry: usize, offset: usize, most: u32) -> Result<(), Refusal>
    requires { offset + 4 ≤ length bytes.now }
    ensures { verdict_is result ≡ need (in_limits most (signed_at bytes.now offset 4)) 21 offset entry }
{
    if in_limits(octets::signed(bytes, offset, 4), most) {
        return Ok(());
    }
    refuse(21, offset as u64, entry)
}

// The point at three offsets, where all three fields end in the record.
#[tactic(auto, unfolding(layout::specs::Fields::position_at))]
fn point_at(bytes: &[u8], latitude: usize, longitude: usize, altitude: usize) -> Point
    requires { (latitude + 4 ≤ length bytes.now) × (longitude + 4 ≤ length bytes.now) × (altitude + 4 ≤ length bytes.now) }
    ensures { position_is result ≡ position_at bytes.now latitude longitude altitude }
{
    let whole_latitude = octets::signed(bytes, latitude, 4);
    let whole_longitude = octets::signed(bytes, longitude, 4);
    let whole_altitude = octets::unsigned(bytes, altitude, 4);
    Point {
        latitude: quotient::degrees(whole_latitude as i32),
        longitude: quotient::degrees(whole_longitude as i32),
        altitude: quotient::metres(whole_altitude as u32),
    }
}

// The point at three offsets of a record. Of 20 and of 21 the first in the order latitude, longitude, altitude counts, not the lowest place.
#[tactic(auto, using(crate::proofs::Laws::all_there), unfolding(layout::specs::Answers::reply_is, layout::specs::Answers::verdict_is, layout::specs::Fields::point_in, layout::specs::Fields::point_refusal))]
pub fn point_in(
    bytes: &[u8],
    entry: usize,
    latitude: usize,
    longitude: usize,
    altitude: usize,
) -> Result<Point, Refusal>
    ensures { point_answer_is result ≡ point_in bytes.now entry latitude longitude altitude }
{
    check_end(bytes, entry, latitude)?;
    check_end(bytes, entry, longitude)?;
    check_end(bytes, entry, altitude)?;
    check_limit(bytes, entry, latitude, 90_000_000)?;
    check_limit(bytes, entry, longitude, 180_000_000)?;
    Ok(point_at(bytes, latitude, longitude, altitude))
}
