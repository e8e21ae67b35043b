// The answers of the reader as a host gets them: words of 64 bits, doubles and texts, put into lent rooms. Here the words and doubles of all answers
// but two; `headers` has the main header and the directory, `rooms` what is put whole into two rooms.
#![tactic(auto)]

mod headers;
mod rooms;

ghost use Rattle.std.specs.Prelude.{◌≡◌, ℕ, ◌∷◌, [], map, ◌+◌, ◌≤◌, length};
ghost use Rattle.layout.specs.Answers.{verdict_is, place_is, field_is, field_answer_is, point_answer_is};
ghost use Rattle.writing.specs.Put.{Put};
ghost use Rattle.words.specs.Words.{word, verdict_words, place_words, value_words, field_words, point_words, point_doubles};

pub use headers::put_directory_numbers;
use layout::{Field, Point, Refusal, Span};
pub use rooms::{ROOM_TOO_SHORT, WRITTEN, put_part, put_whole_directory, put_whole_header};
use writing::put_items;

// Two's complement.
pub fn word_of(number: i64) -> u64
    ensures { result ≡ word number }
{
    number.cast_unsigned()
}

// What has a word of its own.
trait HasWord: Copy {
    ghost in_word: { Self → ℕ };

    fn word(self) -> u64
        ensures { result ≡ in_word self };
}

impl HasWord for u8 {
    ghost in_word = { λ byte. byte };

    fn word(self) -> u64 {
        u64::from(self)
    }
}

impl HasWord for i64 {
    ghost in_word = { word };

    fn word(self) -> u64 {
        word_of(self)
    }
}

// Items, each in a word of its own.
fn put_each<W: HasWord>(room: &mut [u64], at: usize, items: &[W]) -> usize
    requires { at + length items.now ≤ length room.old }
    ensures { Put (length items.now) (map W.in_word items.now) room.old room.new at result }
{
    for (i, item) in items.iter().enumerate() {
        room[at + i] = item.word();
    }
    at + items.len()
}

pub fn put_words(room: &mut [u64], at: usize, words: &[u64]) -> usize
    requires { at + length words.now ≤ length room.old }
    ensures { Put (length words.now) words.now room.old room.new at result }
{
    put_items(room, at, words)
}

pub fn put_bytes(room: &mut [u64], at: usize, bytes: &[u8]) -> usize
    requires { at + length bytes.now ≤ length room.old }
    ensures { Put (length bytes.now) bytes.now room.old room.new at result }
{
    put_each(room, at, bytes)
}

pub fn put_refusal(room: &mut [u64], refusal: Refusal) -> usize
    requires { 3 ≤ length room.old }
    ensures { Put 3 (refusal.number ∷ refusal.place ∷ refusal.entry ∷ []) room.old room.new 0 result }
{
    let words = [refusal.number as u64, refusal.place, refusal.entry as u64];
    put_words(room, 0, &words)
}

// Of any answer its refusal, or three zeros.
#[tactic(auto, unfolding(layout::specs::Answers::verdict_is, crate::specs::Words::verdict_words))]
pub fn put_verdict<T: Copy>(room: &mut [u64], verdict: Result<T, Refusal>) -> usize
    requires { 3 ≤ length room.old }
    ensures { Put 3 (verdict_words (verdict_is verdict)) room.old room.new 0 result }
{
    match verdict {
        Ok(_) => put_words(room, 0, &[0, 0, 0]),
        Err(refusal) => put_refusal(room, refusal),
    }
}

pub fn put_place(room: &mut [u64], answer: Result<Span, Refusal>) -> usize
    requires { 5 ≤ length room.old }
    ensures { Put 5 (place_words (place_is answer)) room.old room.new 0 result }
{
    let span = answer.unwrap_or(Span {
        place: 0,
        length: 0,
    });
    let next = put_verdict(room, answer);
    put_words(room, next, &[span.place, span.length])
}

// Which kind of value it is, and its words.
#[tactic(auto, unfolding(layout::specs::Answers::field_is, crate::specs::Words::value_words))]
fn value_words(field: Field) -> [u64; 4]
    ensures { result ≡ value_words (field_is field) }
{
    match field {
        Field::Whole(number) => [1, word_of(number), 0, 0],
        Field::Single { value: _, bits } => [2, bits as u64, 0, 0],
        Field::Double { value: _, bits } => [3, bits, 0, 0],
        Field::Time(time) => [
            4,
            word_of(time.days as i64),
            time.seconds as u64,
            time.microseconds as u64,
        ],
    }
}

pub fn put_field(room: &mut [u64], answer: Result<Field, Refusal>) -> usize
    requires { 7 ≤ length room.old }
    ensures { Put 7 (field_words (field_answer_is answer)) room.old room.new 0 result }
{
    let words = answer.map_or([0; 4], value_words);
    let next = put_verdict(room, answer);
    put_words(room, next, &words)
}

#[tactic(auto, unfolding(layout::specs::Answers::reply_is, layout::specs::Answers::verdict_is, crate::specs::Words::verdict_words, crate::specs::Words::point_words))]
pub fn put_point(room: &mut [u64], answer: Result<Point, Refusal>) -> usize
    requires { 3 ≤ length room.old }
    ensures { Put 3 (point_words (point_answer_is answer)) room.old room.new 0 result }
{
    put_verdict(room, answer)
}

fn put_three(room: &mut [f64], first: f64, second: f64, third: f64) -> usize
    requires { 3 ≤ length room.old }
    ensures { Put 3 (first ∷ second ∷ third ∷ []) room.old room.new 0 result }
{
    put_items(room, 0, &[first, second, third])
}

// Degrees and metres; beside a refusal zeros.
#[tactic(auto, unfolding(layout::specs::Answers::reply_is, crate::specs::Words::point_doubles))]
pub fn put_doubles(room: &mut [f64], answer: Result<Point, Refusal>) -> usize
    requires { 3 ≤ length room.old }
    ensures { Put 3 (point_doubles (point_answer_is answer)) room.old room.new 0 result }
{
    match answer {
        Err(_) => put_three(room, 0.0, 0.0, 0.0),
        Ok(point) => put_three(room, point.latitude, point.longitude, point.altitude),
    }
}
