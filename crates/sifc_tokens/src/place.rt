// Where a byte of the script stands, for people.
ghost use Rattle.std.specs.Prelude.{◌≡◌, ◌≤◌, ◌<◌, ◌^◌, length};
ghost use Rattle.sifc_tokens.specs.Place.{place_of, walked_to, next_place};

// A line, counted from 1, and a column, counted from 0 in bytes.
#[derive(Clone, Copy)]
pub struct Place {
    pub line: usize,
    pub pos: usize,
}

// The place after one byte more.
fn next_place(at: Place, b: u8) -> Place
    requires { (at.line < 2 ^ 63) × (at.pos < 2 ^ 63) }
    ensures { result ≡ next_place at b }
{
    if b == b'\n' {
        return Place {
            line: at.line + 1,
            pos: 0,
        };
    }
    Place {
        line: at.line,
        pos: at.pos + 1,
    }
}

// The place after the first `to` bytes, from the place after the first `from` bytes. Places of
// several offsets in a row take one pass in all, which is why the caller hands over where it is.
pub fn walk_place(s: &[u8], from: usize, start: Place, to: usize) -> Place
    requires { (from ≤ to) × (to ≤ length s.now) × (start ≡ walked_to s.now from) }
    ensures { result ≡ walked_to s.now to }
{
    let mut at = start;
    for b in &s[from..to] {
        at = next_place(at, *b);
    }
    at
}

// The place of the token at an offset, with the rule for an Eof at the script's end.
pub fn place_at(s: &[u8], off: usize) -> Place
    ensures { result ≡ place_of s.now off }
{
    let first = Place { line: 1, pos: 0 };
    if off < s.len() {
        return walk_place(s, 0, first, off);
    }
    let end = walk_place(s, 0, first, s.len());
    if 0 < end.pos {
        return Place {
            line: end.line + 1,
            pos: 0,
        };
    }
    end
}
