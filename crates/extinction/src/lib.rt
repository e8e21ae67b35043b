// GOMOS residual extinction (document 02, order 1): what one pixel of one record of the set EXT_MDS holds. It rests on the public calls of `product`.
#![tactic(auto)]

ghost use Rattle.std.specs.Prelude.{◌≡◌, ◌+◌, ◌-◌, ◌≤◌, ◌<◌, length};
ghost use Rattle.layout.specs.Answers.{reply};
ghost use Rattle.layout.specs.Search.{find, only, Below};
ghost use Rattle.extinction.specs.Extinction.{single_at, model_of, pixel_of, pixel_in, pixel_reply, pixel_answer_is};
ghost use Rattle.extinction.specs.Found.{is_extinction_in, extinction_in, entry_reply};

use layout::{Directory, Refusal, Time, refuse};

// The bytes of a record, and the pixels in it (source 001, table 10.5-13).
const RECORD_SIZE: i64 = 25_709;

const PIXELS: usize = 2336;

// Where a record has its quality, and the values of its first pixel.
const QUALITY: usize = 12;

const TRANSMISSIONS: usize = 13;

const COVARIANCES: usize = 9357;

const MODELS: usize = 18_701;

const FLAGS: usize = 23_373;

// A single float, with its bits beside its value, since they are kept for a NaN too. `Field::Single` has the same two, but as one case of an enum.
#[derive(Clone, Copy)]
pub struct Single {
    pub value: f32,
    pub bits: u32,
}

// The time and the quality are the record's, all else is the pixel's. The model is twice its code by 65,535.
#[derive(Clone, Copy)]
pub struct Pixel {
    pub time: Time,
    pub quality: i8,
    pub transmission: Single,
    pub covariance: Single,
    pub model_code: u16,
    pub model: f64,
    pub flag: u8,
}

// ---- the set

// An entry of type M named EXT_MDS.
#[tactic(auto, unfolding(crate::specs::Found::is_extinction_in, layout::specs::Answers::name_at))]
fn is_extinction(directory: &Directory, entry: usize) -> bool
    requires { entry < 128 }
    ensures { result ≡ is_extinction_in directory.now entry }
{
    directory.types[entry] == b'M' && text::is_called(&directory.names, 28 * entry, b"EXT_MDS")
}

// The first such entry from `from` on.
fn first_extinction(directory: &Directory, from: usize) -> Option<usize>
    requires { (from ≤ directory.now.entries) × (directory.now.entries ≤ 128) }
    ensures { Below directory.now.entries result (find (is_extinction_in directory.now) from (directory.now.entries - from)) }
{
    (from..directory.entries).find(|entry| is_extinction(directory, *entry))
}

// The only such entry, if there is exactly one. Looked for here and not by a function shared with `states`: the edit `first_of_two` changes these lines.
fn only_extinction(directory: &Directory) -> Option<usize>
    requires { directory.now.entries ≤ 128 }
    ensures { Below directory.now.entries result (only (is_extinction_in directory.now) directory.now.entries) }
{
    let entry = first_extinction(directory, 0)?;
    if first_extinction(directory, entry + 1).is_some() {
        return None;
    }
    Some(entry)
}

// The entry of the set, where 22 does not refuse.
fn extinction_entry(directory: &Directory) -> Option<usize>
    requires { directory.now.entries ≤ 128 }
    ensures { Below 128 result (extinction_in directory.now) }
{
    let entry = only_extinction(directory)?;
    if directory.record_sizes[entry] != RECORD_SIZE {
        return None;
    }
    Some(entry)
}

// ---- a pixel of a record

#[tactic(auto, unfolding(crate::specs::Extinction::single_at))]
fn single_at(bytes: &[u8], offset: usize) -> Single
    requires { offset + 4 ≤ length bytes.now }
    ensures { result ≡ single_at bytes.now offset }
{
    let bits = octets::unsigned(bytes, offset, 4) as u32;
    Single {
        value: octets::single(bits),
        bits,
    }
}

// What a model code means. Not by the step 3.0518e-5 that source 001 prints, which puts code 65535 short of 2.
fn model_of(code: u16) -> f64
    ensures { result ≡ model_of code }
{
    (2 * (code as u32)) as f64 / 65535.0
}

fn read_pixel(bytes: &[u8], pixel: usize) -> Pixel
    requires { (length bytes.now ≡ 25709) × (pixel < 2336) }
    ensures { result ≡ pixel_of bytes.now pixel }
{
    let time = fields::time_at(bytes, 0);
    let quality = octets::signed(bytes, QUALITY, 1) as i8;
    let transmission = single_at(bytes, TRANSMISSIONS + 4 * pixel);
    let covariance = single_at(bytes, COVARIANCES + 4 * pixel);
    let model_code = octets::unsigned(bytes, MODELS + 2 * pixel, 2) as u16;
    let flag = octets::unsigned(bytes, FLAGS + pixel, 1) as u8;
    Pixel {
        time,
        quality,
        transmission,
        covariance,
        model_code,
        model: model_of(model_code),
        flag,
    }
}

// A pixel of a record, the entry of which is only answered: 23 comes before 24.
fn pixel_in(bytes: &[u8], entry: usize, pixel: usize) -> Result<Pixel, Refusal>
    requires { length bytes.now ≡ 25709 }
    ensures { pixel_answer_is result ≡ pixel_in bytes.now entry pixel }
{
    if PIXELS <= pixel {
        return refuse(23, pixel as u64, entry);
    }
    let read = read_pixel(bytes, pixel);
    if read.quality == -1 {
        return refuse(24, QUALITY as u64, entry);
    }
    Ok(read)
}

// ---- the call

// The entry of the set in a product.
#[inline(never)] // the directory is off the stack before the record is looked for
fn entry_of(p: &[u8]) -> Result<usize, Refusal>
    ensures { reply result ≡ entry_reply p.now }
{
    match &product::open_directory(p) {
        Ok(directory) => match extinction_entry(directory) {
            Some(entry) => Ok(entry),
            None => refuse(22, 0, Directory::PLACES),
        },
        Err(refusal) => Err(*refusal),
    }
}

// A pixel of a record of the one set EXT_MDS. A record that is not there has no bytes, and every record of the set has some.
pub fn pixel_at(p: &[u8], asked: usize, pixel: usize) -> Result<Pixel, Refusal>
    ensures { pixel_answer_is result ≡ pixel_reply p.now asked pixel }
{
    let entry = entry_of(p)?;
    let bytes = product::record_part(p, entry, asked);
    if bytes.is_empty() {
        return refuse(18, 0, entry);
    }
    pixel_in(bytes, entry, pixel)
}
