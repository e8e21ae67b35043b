// A pixel of residual extinction as a host gets it: words of 64 bits and a double, put into lent rooms.
#![tactic(auto)]

ghost use Rattle.std.specs.Prelude.{◌≡◌, ◌∷◌, [], ◌≤◌, length};
ghost use Rattle.writing.specs.Put.{Put};
ghost use Rattle.extinction.specs.Extinction.{pixel_answer_is};
ghost use Rattle.extinction_words.specs.PixelWords.{value_words, pixel_words, model_double};

use extinction::Pixel;
use layout::Refusal;
use words::{put_refusal, put_words, word_of};

// All values of a pixel but its model.
fn value_words(pixel: Pixel) -> [u64; 8]
    ensures { result ≡ value_words pixel }
{
    let time = pixel.time;
    let transmission = pixel.transmission;
    let covariance = pixel.covariance;
    [
        word_of(time.days as i64),
        time.seconds as u64,
        time.microseconds as u64,
        word_of(pixel.quality as i64),
        transmission.bits as u64,
        covariance.bits as u64,
        pixel.model_code as u64,
        pixel.flag as u64,
    ]
}

pub fn put_pixel(room: &mut [u64], answer: Result<Pixel, Refusal>) -> usize
    requires { 11 ≤ length room.old }
    ensures { Put 11 (pixel_words (pixel_answer_is answer)) room.old room.new 0 result }
{
    match answer {
        Ok(pixel) => {
            let next = put_words(room, 0, &[0; 3]);
            put_words(room, next, &value_words(pixel))
        }
        Err(refusal) => {
            let next = put_refusal(room, refusal);
            put_words(room, next, &[0; 8])
        }
    }
}

// The model; beside a refusal zero.
pub fn put_model(room: &mut [f64], answer: Result<Pixel, Refusal>) -> usize
    requires { 1 ≤ length room.old }
    ensures { Put 1 (model_double (pixel_answer_is answer)) room.old room.new 0 result }
{
    room[0] = answer.map_or(0.0, |pixel| pixel.model);
    1
}
