// The answers of the reader, as document 01 names them. `specs/` beside this file is document 01 as definitions; the promises of the crates above
// cite both.
#![tactic(auto)]

ghost use Rattle.std.specs.Prelude.{◌≡◌, Err};
ghost use Rattle.layout.specs.Answer.{refused};
ghost use Rattle.layout.specs.Answers.{verdict_is, no_directory};

// A refusal carries these three and nothing else. The place is a byte offset; the entry is 0 to 127, or 128 for none.
#[derive(Clone, Copy)]
pub struct Refusal {
    pub number: u8,
    pub place: u64,
    pub entry: usize,
}

impl Refusal {
    pub const NO_ENTRY: usize = 128;
}

// What a call answers that refuses.
pub fn refuse<T>(number: u8, place: u64, entry: usize) -> Result<T, Refusal>
    ensures is { result ≡ Err (record { number = number; place = place; entry = entry }) }
    ensures judged { verdict_is result ≡ refused number place entry }
{
    Err(Refusal {
        number,
        place,
        entry,
    })
}

// Where the SPH lines or a record stand in the product.
#[derive(Clone, Copy)]
pub struct Span {
    pub place: u64,
    pub length: u64,
}

// An mjd: days from 1 January 2000, seconds, microseconds.
#[derive(Clone, Copy)]
pub struct Time {
    pub days: i32,
    pub seconds: u32,
    pub microseconds: u32,
}

// A field: a whole number, a single float, a double float or a time. A float's bits stand beside its value, since they are kept for a NaN too.
#[derive(Clone, Copy)]
pub enum Field {
    Whole(i64),
    Single { value: f32, bits: u32 },
    Double { value: f64, bits: u64 },
    Time(Time),
}

// Latitude and longitude in degrees, altitude in metres.
#[derive(Clone, Copy)]
pub struct Point {
    pub latitude: f64,
    pub longitude: f64,
    pub altitude: f64,
}

// Up to 128 entries held together, unused places zero. A name is 28 bytes and a FILENAME 62, entry after entry. The rank of an entry is how many non-empty
// sets start before its own; an entry without a non-empty set has 128. The arrays stand beside each other as `directory_of` has them, and as C gets them.
#[derive(Clone, Copy)]
pub struct Directory {
    pub entries: usize,
    pub types: [u8; 128],
    pub names: [u8; 3584],
    pub filenames: [u8; 7936],
    pub offsets: [u64; 128],
    pub sizes: [u64; 128],
    pub counts: [u64; 128],
    pub record_sizes: [i64; 128],
    pub ranks: [u64; 128],
}

impl Directory {
    pub const PLACES: usize = 128;

    // What a host is shown beside a refusal.
    pub fn none() -> Directory
        ensures { result ≡ no_directory }
    {
        Directory {
            entries: 0,
            types: [0; 128],
            names: [0; 3584],
            filenames: [0; 7936],
            offsets: [0; 128],
            sizes: [0; 128],
            counts: [0; 128],
            record_sizes: [0; 128],
            ranks: [0; 128],
        }
    }
}
