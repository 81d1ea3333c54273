// Lists of scripts, as the programs that replay stored answers read them: a script's length in
// decimal, a newline, the script, a newline, and so on.
ghost use Rattle.std.specs.Prelude.{◌≡◌, ◌+◌, ◌-◌, ◌≤◌, ◌<◌, length};
ghost use Rattle.std.specs.Iterator.{at_most};
ghost use Rattle.sif_show.specs.Entries.{number_at, entry_at};
ghost use Rattle.sif_show.specs.Scripts.{Given};

// A number that was read, and the index after its digits.
#[derive(Clone, Copy)]
pub struct Number {
    pub value: usize,
    pub next: usize,
}

// Where the script of an entry begins and ends.
#[derive(Clone, Copy)]
pub struct Entry {
    pub from: usize,
    pub end: usize,
}

// The decimal number at an index, up to the first byte that is no digit. It stops at 100,000, which no
// script of a list reaches.
fn number_at(list: &[u8], from: usize) -> Number
    ensures { result ≡ number_at list.now from }
{
    let mut value: usize = 0;
    for i in from..list.len() {
        let b = list[i];
        if !b.is_ascii_digit() || 9999 < value {
            return Number { value, next: i };
        }
        value = value * 10 + usize::from(b - b'0');
    }
    Number {
        value,
        next: from.max(list.len()),
    }
}

// The script whose entry is at an index; one that is cut off is empty, at the list's end.
pub fn entry_at(list: &[u8], at: usize) -> Entry
    ensures { result ≡ entry_at list.now at }
{
    let header = number_at(list, at);
    let start = header.next;
    let len = header.value;
    if list.len() <= start || list.len() - start <= len {
        return Entry {
            from: list.len(),
            end: list.len(),
        };
    }
    let from = start + 1;
    Entry {
        from,
        end: from + len,
    }
}

// The index of the entry after the one that ends at an index; the list's end where there is none.
pub fn after_newline(list: &[u8], at: usize) -> usize
    ensures { (at < length list.now → result ≡ at + 1) × (length list.now ≤ at → result ≡ length list.now) }
{
    if at < list.len() { at + 1 } else { list.len() }
}

// The scripts of a list, one after the other.
#[derive(Drop)]
pub struct Scripts<'a> {
    list: &'a [u8],
    at: usize,
}

impl<'a> Scripts<'a> {
    // At the list's start.
    pub fn new(list: &'a [u8]) -> Self
        ensures { (result.list ≡ list.entry) × (result.at ≡ 0) }
    {
        Scripts { list, at: 0 }
    }
}

impl<'a> Iterator for Scripts<'a> {
    type Item = &'a [u8];

    ghost next_gives = { λ s r t. Given s r t };

    ghost remaining = { λ s. at_most (length s.list.now - s.at) };

    fn next(&mut self) -> Option<&'a [u8]> {
        let list = self.list;
        if list.len() <= self.at {
            return None;
        }
        let entry = entry_at(list, self.at);
        self.at = after_newline(list, entry.end);
        Some(&list[entry.from..entry.end])
    }
}
