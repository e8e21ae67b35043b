// Answers put whole into two lent rooms, where both have room for them. A room too short for the answer returns 1, and nothing is written.
ghost use Rattle.layout.specs.Answers.{verdict_is};
ghost use Rattle.words.specs.Rooms.{DirectoryRooms, HeaderRooms, PartRooms};

use crate::headers::{put_directory, put_directory_texts, put_header, put_header_texts};
use crate::put_words;
use layout::{Directory, Refusal};
use values::MainHeader;
use writing::put_text;

pub const WRITTEN: u32 = 0;

pub const ROOM_TOO_SHORT: u32 = 1;

// The words of any verdict and any directory, and its texts, where both have room. The directory is borrowed: it has 16.8 kB.
pub fn put_whole_directory(
    verdict: Result<(), Refusal>,
    directory: &Directory,
    words: &mut [u64],
    texts: &mut [u8],
) -> u32
    ensures { DirectoryRooms (verdict_is verdict) directory.now words.old words.new texts.old texts.new result }
{
    // Borrowed here for the proof: it tells how long the directory's arrays are, also where a room is too short.
    let _names = &directory.names;
    if words.len() < 772 {
        return ROOM_TOO_SHORT;
    }
    if texts.len() < 11520 {
        return ROOM_TOO_SHORT;
    }
    put_directory(words, verdict, directory);
    put_directory_texts(texts, directory);
    WRITTEN
}

// The words of any verdict and any main header, and its texts, where both have room.
pub fn put_whole_header(
    verdict: Result<(), Refusal>,
    header: MainHeader,
    words: &mut [u64],
    texts: &mut [u8],
) -> u32
    ensures { HeaderRooms (verdict_is verdict) header words.old words.new texts.old texts.new result }
{
    if words.len() < 25 {
        return ROOM_TOO_SHORT;
    }
    if texts.len() < 289 {
        return ROOM_TOO_SHORT;
    }
    put_header(words, verdict, header);
    put_header_texts(texts, header);
    WRITTEN
}

// The part and its length, where both have room.
pub fn put_part(part: &[u8], words: &mut [u64], bytes: &mut [u8]) -> u32
    ensures { PartRooms part.now words.old words.new bytes.old bytes.new result }
{
    if words.len() < 1 {
        return ROOM_TOO_SHORT;
    }
    if bytes.len() < part.len() {
        return ROOM_TOO_SHORT;
    }
    put_words(words, 0, &[part.len() as u64]);
    put_text(bytes, 0, part);
    WRITTEN
}
