// Where the sets of a directory lie, by the offsets and sizes of its entries: inside the product, apart from each other, and without a gap (rules 12 to 14
// of document 01). Two numbers that a product gives are compared by differences, and added only where their sum is known to fit 64 bits.
#![tactic(auto)]

ghost use Rattle.std.specs.Prelude.{◌+◌, ◌-◌, ◌≤◌, ◌<◌, true, not, ◌≡◌};
ghost use Rattle.layout.specs.Search.{find};
ghost use Rattle.placement.specs.Sets.{is_inside, overlaps, Clear, FoundBelow, Outside, Overlapping};
ghost use Rattle.placement.specs.Cover.{covers, covers_at, Holding, Uncovered, NoneFound};

// The offsets and sizes of a directory's entries: where its sets lie.
#[derive(Clone, Copy)]
pub struct Extents<'a> {
    pub offsets: &'a [u64; 128],
    pub sizes: &'a [u64; 128],
    pub entries: usize,
    pub ghost few: { entries ≤ 128 },
}

// A non-empty set starts inside the headers or ends past the product.
fn is_outside(offset: u64, size: u64, headers_end: u64, length: u64) -> bool
    ensures { result ≡ not (is_inside headers_end length offset size) }
{
    if size == 0 {
        return false;
    }
    if offset < headers_end {
        return true;
    }
    if length < size {
        return true;
    }
    length - size < offset
}

// Two sets, each by its first byte and its size, share a byte.
fn share(offset: u64, size: u64, lower_offset: u64, lower_size: u64) -> bool
    ensures { result ≡ overlaps offset size lower_offset lower_size }
{
    if size == 0 {
        return false;
    }
    if lower_size == 0 {
        return false;
    }
    if offset < lower_offset {
        return lower_offset - offset < size;
    }
    offset - lower_offset < lower_size
}

// A set is empty or lies outside low..high. A high of u64::MAX may stand for a later end, so nothing starts behind it.
fn is_clear(offset: u64, size: u64, low: u64, high: u64) -> bool
    ensures { result ≡ true → Clear low high offset size }
{
    if size == 0 {
        return true;
    }
    if offset < low {
        return size <= low - offset;
    }
    if offset < high {
        return false;
    }
    offset < u64::MAX
}

// A set holds the byte p.
fn holds(offset: u64, size: u64, p: u64) -> bool
    ensures { result ≡ covers p offset size }
{
    if p < offset {
        return false;
    }
    p - offset < size
}

// A set is empty, or starts at `end` and ends inside the product.
fn follows(offset: u64, size: u64, end: u64, length: u64) -> bool
    requires { end ≤ length }
    ensures { result ≡ true → (0 < size → offset ≡ end) × (end + size ≤ length) }
{
    if size == 0 {
        return true;
    }
    if offset != end {
        return false;
    }
    size <= length - end
}

impl<'a> Extents<'a> {
    // Rule 12: the lowest entry whose set lies outside.
    pub fn first_outside(self, headers_end: u64, length: u64) -> Option<usize>
        ensures { FoundBelow self.entry.entries (Outside self.entry.offsets.now self.entry.sizes.now self.entry.entries headers_end length) result }
    {
        for i in 0..self.entries {
            if is_outside(self.offsets[i], self.sizes[i], headers_end, length) {
                return Some(i);
            }
        }
        None
    }

    // Rule 13: the lowest entry whose set shares a byte with one of a lower entry. The search stops at the first overlapping pair. All lower sets lie between
    // low and high, so a set outside is held against none: in a directory in the order of the file that is every set.
    pub fn first_overlapping(self) -> Option<usize>
        ensures { FoundBelow self.entry.entries (Overlapping self.entry.offsets.now self.entry.sizes.now self.entry.entries) result }
    {
        let mut low = u64::MAX;
        let mut high: u64 = 0;
        // Document 01 asks for this form: nested loops, left by a label with the entry found.
        'pairs: {
            for i in 0..self.entries {
                let offset = self.offsets[i];
                let size = self.sizes[i];
                let lower = if is_clear(offset, size, low, high) {
                    i
                } else {
                    0
                };
                for j in lower..i {
                    if share(offset, size, self.offsets[j], self.sizes[j]) {
                        break 'pairs Some(i);
                    }
                }
                if size != 0 {
                    low = low.min(offset);
                    high = high.max(offset.saturating_add(size));
                }
            }
            None
        }
    }

    // The first of the entries from `from` to before `to` whose set holds p.
    fn first_holding(self, from: usize, to: usize, p: u64) -> Option<usize>
        requires { (from ≤ to) × (to ≤ self.entries) }
        ensures { FoundBelow to (λ i. i ≡ find (covers_at self.entry.offsets.now self.entry.sizes.now p) from (to - from)) result }
    {
        for i in from..to {
            if holds(self.offsets[i], self.sizes[i], p) {
                return Some(i);
            }
        }
        None
    }

    // An entry whose set holds p. It looks from `from` on first, where the next set most often is.
    fn one_holding(self, from: usize, p: u64) -> Option<usize>
        requires { from ≤ self.entries }
        ensures { FoundBelow self.entry.entries (Holding self.entry.offsets.now self.entry.sizes.now self.entry.entries p) result }
    {
        match self.first_holding(from, self.entries, p) {
            Some(behind) => Some(behind),
            None => self.first_holding(0, from, p),
        }
    }

    // Rule 14: the first byte after the headers that is in no set. A `while` jumps from a set's end to the next, and no set is jumped over twice.
    // The next set is looked for from the entry before the last one found: in a directory in the order of the file, or in the reverse, it is at hand.
    pub fn first_uncovered(self, headers_end: u64, length: u64) -> Option<u64>
        ensures { FoundBelow length (Uncovered self.entry.offsets.now self.entry.sizes.now self.entry.entries headers_end length) result }
    {
        let mut p = headers_end;
        let mut from: usize = 0;
        while p < length {
            let Some(i) = self.one_holding(from, p) else {
                return Some(p);
            };
            let rest = self.sizes[i] - (p - self.offsets[i]);
            if length - p <= rest {
                return None;
            }
            p += rest;
            from = i.saturating_sub(1);
        }
        None
    }

    // The non-empty sets stand in the order of the entries, the first at the headers' end, each other where the one before ends, and the last ends with the
    // product. Most products are so, and then rules 12 to 14 hold in one pass; where it answers false they may still hold, and the searches tell.
    pub fn are_joined(self, headers_end: u64, length: u64) -> bool
        ensures { result ≡ true → NoneFound self.entry.offsets.now self.entry.sizes.now self.entry.entries headers_end length }
    {
        if length < headers_end {
            return false;
        }
        let mut end = headers_end;
        for i in 0..self.entries {
            let size = self.sizes[i];
            if !follows(self.offsets[i], size, end, length) {
                return false;
            }
            end += size;
        }
        end == length
    }
}
