// The main header: rules 1 to 6 of document 01.
#![tactic(auto, using(crate::proofs::Rules::told), unfolding(layout::specs::Answers::verdict_is))]

ghost use Rattle.std.specs.Prelude.{◌&&◌, ◌≡◌, ◌+◌, ◌-◌, ◌*◌, ◌≤◌, leb, pos};
ghost use lib.ListN.{length};
ghost use Rattle.layout.specs.Text.{layout};
ghost use Rattle.layout.specs.Lines.{size_of_mph, size_of_dsd, mph};
ghost use Rattle.layout.specs.Search.{laid_out};
ghost use Rattle.layout.specs.Entries.{within_z};
ghost use Rattle.layout.specs.Rules.{rule6};
ghost use Rattle.layout.specs.Answers.{verdict_is};
ghost use Rattle.text.specs.Numbers.{whole_in};
ghost use Rattle.header.specs.Checks.{length_rules, total_rules, CheckedBy, HeaderChecked};

use dsd::Entry;
use layout::{Refusal, refuse};
use text::Number;
use values::MainHeader;

// Rules 1 and 2, which look at no byte.
#[tactic(auto, unfolding(crate::specs::Checks::length_rules, layout::specs::Rules::rule1, layout::specs::Rules::rule2, layout::specs::Answers::verdict_is))]
fn length_rules(length: u64) -> Result<(), Refusal>
    ensures { verdict_is result ≡ length_rules length }
{
    if length < MainHeader::SIZE as u64 {
        return refuse(1, length, Refusal::NO_ENTRY);
    }
    if 2147483647 < length {
        return refuse(2, 0, Refusal::NO_ENTRY);
    }
    Ok(())
}

// Rule 3.
#[tactic(auto, unfolding(lines::specs::Table::refused_at, layout::specs::Answers::verdict_is))]
fn layout_rule(p: &[u8]) -> Result<(), Refusal>
    requires { size_of_mph ≤ length p.now }
    ensures { verdict_is result ≡ laid_out 3 128 0 (layout mph) p.now }
{
    if let Err(bad) = lines::main_header_check(p) {
        return refuse(3, bad as u64, Refusal::NO_ENTRY);
    }
    Ok(())
}

// Rules 4 and 5.
fn total_rules(p: &[u8], length: u64) -> Result<(), Refusal>
    requires { (size_of_mph ≤ lib.ListN.length p.now) × (length ≤ 2147483647) }
    ensures { verdict_is result ≡ total_rules p.now length }
{
    let total = text::number_at(p, 1075, 21);
    if 9223372036854775807 < total.magnitude {
        return refuse(4, 1075, Refusal::NO_ENTRY);
    }
    if total.whole() != length as i64 {
        return refuse(5, 1075, Refusal::NO_ENTRY);
    }
    Ok(())
}

// A number is 0 to `most`; minus zero is zero.
fn is_within(number: Number, most: u64) -> bool
    ensures { result ≡ within_z (pos 0) (pos most) (whole_in number) }
{
    if number.minus {
        return number.magnitude == 0;
    }
    number.magnitude <= most
}

// SPH_SIZE is 0 to 49,152, and the headers do not pass the end.
fn sph_fits(sph_size: Number, length: u64) -> bool
    ensures { result ≡ (within_z (pos 0) (pos 49152) (whole_in sph_size) && leb (size_of_mph + sph_size.magnitude) length) }
{
    is_within(sph_size, 49152) && MainHeader::SIZE as u64 + sph_size.magnitude <= length
}

// NUM_DSD is 0 to 128, and its DSDs do not exceed the SPH.
fn dsds_fit(num_dsd: Number, sph_size: Number) -> bool
    ensures { result ≡ (within_z (pos 0) (pos 128) (whole_in num_dsd) && leb (size_of_dsd * num_dsd.magnitude) sph_size.magnitude) }
{
    is_within(num_dsd, 128) && Entry::SIZE as u64 * num_dsd.magnitude <= sph_size.magnitude
}

// What rules 1 to 6 tell of a good header: where the headers end, and the number of directory entries.
#[derive(Clone, Copy)]
pub struct HeaderCheck {
    pub headers_end: usize,
    pub entries: usize,
}

impl HeaderCheck {
    // Where the DSDs begin, which end the headers.
    pub fn dsds(self) -> usize
        requires { size_of_dsd * self.entries ≤ self.headers_end }
        ensures { result ≡ self.headers_end - size_of_dsd * self.entries }
    {
        self.headers_end - Entry::SIZE * self.entries
    }
}

// Rule 6. Each number is read once.
fn size_rules(p: &[u8], length: u64) -> Result<HeaderCheck, Refusal>
    requires { size_of_mph ≤ lib.ListN.length p.now }
    ensures { CheckedBy (rule6 p.now length) p.now length result }
{
    let sph_size = text::number_at(p, 1113, 11);
    if !sph_fits(sph_size, length) {
        return refuse(6, 1113, Refusal::NO_ENTRY);
    }
    let num_dsd = text::number_at(p, 1140, 11);
    if !dsds_fit(num_dsd, sph_size) {
        return refuse(6, 1140, Refusal::NO_ENTRY);
    }
    if values::whole_at(p, 1161, 11) != Entry::SIZE as i64 {
        return refuse(6, 1161, Refusal::NO_ENTRY);
    }
    Ok(HeaderCheck {
        headers_end: MainHeader::SIZE + sph_size.magnitude as usize,
        entries: num_dsd.magnitude as usize,
    })
}

// Rules 1 to 6 in their order, over the bytes at hand, which are the product or only its headers, and the length of the product: the first that refuses.
pub fn check_header(p: &[u8], length: u64) -> Result<HeaderCheck, Refusal>
    requires { size_of_mph ≤ length → size_of_mph ≤ lib.ListN.length p.now }
    ensures { HeaderChecked p.now length result }
{
    length_rules(length)?;
    layout_rule(p)?;
    total_rules(p, length)?;
    size_rules(p, length)
}
