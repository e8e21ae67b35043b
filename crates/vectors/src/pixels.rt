// Pixels of residual extinction.
use crate::entry_records::bits_of;
use crate::printing::print_words;
use std::io;

// The words of a pixel, and the bits of its model behind them.
fn show_pixel(rt: &impl Print, p: &[u8], asked: usize, pixel: usize) -> io::Result<()> {
    let question = [asked as u64, pixel as u64];
    let mut words = [0u64; 12];
    let mut model = [0.0f64; 1];
    ambrothel::ambrothel_extinction_at(p, asked, pixel, &mut words, &mut model);
    words[11] = bits_of(model[0]);
    print_words(rt, b"extinction_at ", &question, &words)
}

// The first pixel of a record, one in the middle, the last and the one behind it.
fn show_pixels(rt: &impl Print, p: &[u8], asked: usize) -> io::Result<()> {
    show_pixel(rt, p, asked, 0)?;
    show_pixel(rt, p, asked, 1167)?;
    show_pixel(rt, p, asked, 2335)?;
    show_pixel(rt, p, asked, 2336)
}

// Of the first two records.
pub fn show_first_records(rt: &impl Print, p: &[u8]) -> io::Result<()> {
    show_pixels(rt, p, 0)?;
    show_pixels(rt, p, 1)
}
