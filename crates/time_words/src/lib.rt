// Times and their texts as a host gets them: words of 64 bits and bytes, put into lent rooms.
#![tactic(auto)]

ghost use Rattle.std.specs.Prelude.{◌≤◌, length};
ghost use Rattle.writing.specs.Put.{Put};
ghost use Rattle.words.specs.Words.{verdict_words};
ghost use Rattle.words.specs.Lent.{TwoRooms};
ghost use Rattle.layout.specs.Answers.{verdict_is};
ghost use Rattle.times.specs.Times.{time_answer_is};
ghost use Rattle.time_words.specs.TimeWords.{time_words};

use layout::{Refusal, Time};
use words::{ROOM_TOO_SHORT, WRITTEN, put_refusal, put_verdict, put_words, word_of};
use writing::put_text;

pub fn put_time(room: &mut [u64], answer: Result<Option<Time>, Refusal>) -> usize
    requires { 7 ≤ length room.old }
    ensures { Put 7 (time_words (time_answer_is answer)) room.old room.new 0 result }
{
    match answer {
        Err(refusal) => {
            let next = put_refusal(room, refusal);
            put_words(room, next, &[0, 0, 0, 0])
        }
        Ok(None) => put_words(room, 0, &[0, 0, 0, 2, 0, 0, 0]),
        Ok(Some(time)) => {
            let days = word_of(time.days as i64);
            let words = [
                0,
                0,
                0,
                1,
                days,
                time.seconds as u64,
                time.microseconds as u64,
            ];
            put_words(room, 0, &words)
        }
    }
}

// The words of any verdict, and any text's bytes, where both have room.
pub fn put_whole_text(
    verdict: Result<(), Refusal>,
    bytes: &[u8; 27],
    words: &mut [u64],
    text: &mut [u8],
) -> u32
    ensures { TwoRooms (verdict_words (verdict_is verdict)) words.old words.new bytes.now text.old text.new result }
{
    if words.len() < 3 || text.len() < 27 {
        return ROOM_TOO_SHORT;
    }
    put_verdict(words, verdict);
    put_text(text, 0, bytes);
    WRITTEN
}
