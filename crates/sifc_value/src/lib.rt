// Number values: a literal's bytes to the nearest f64, ties to even.
#![tactic(auto)]

mod decimal;

ghost use Rattle.std.specs.Prelude.{◌≡◌, ◌-◌, ◌^◌, ◌<◌, ◌≤◌, length};
ghost use Rattle.sifc_value.specs.Value.{value_of};
ghost use Rattle.sifc_value.specs.Scan.{Read};

use decimal::decimal;

// Digits that were read: the number that they make behind those before them, ten to the power of how
// many they are, and the index behind them.
#[derive(Clone, Copy)]
struct Run {
    number: u64,
    scale: u64,
    next: usize,
}

// Reads the digits from an index on, up to the index `end`. A number of fewer than 20 digits in all
// fits.
fn digits(s: &[u8], from: usize, end: usize, before: u64) -> Run
    requires from_le_end { from ≤ end }
    requires end_in_bounds { end ≤ length s.now }
    requires from_bound { end - from ≤ 19 }
    requires before_bound { before < 10 ^ (19 - (end - from)) }
    ensures { Read s.now from end before result.number result.scale result.next }
{
    let mut number = before;
    let mut scale: u64 = 1;
    for next in from..end {
        let b = s[next];
        if !b.is_ascii_digit() {
            return Run {
                number,
                scale,
                next,
            };
        }
        number = number * 10 + u64::from(b - b'0');
        scale *= 10;
    }
    Run {
        number,
        scale,
        next: end,
    }
}

// The value of a literal. Bytes that are none, and 20 digits or more, have no value; no byte behind
// the twentieth digit is read.
pub fn value(literal: &[u8]) -> Option<f64>
    ensures { result ≡ value_of literal.now }
{
    let n = literal.len();
    let whole = digits(literal, 0, n.min(19), 0);
    let point = whole.next;
    if point == 0 {
        return None;
    }
    if point == n {
        return Some(std::num::nearest_u64_to_f64(whole.number));
    }
    if literal[point] != b'.' {
        return None;
    }
    let all = digits(literal, point + 1, n.min(20), whole.number);
    if all.next != n {
        return None;
    }
    Some(decimal(all.number, all.scale, n - point - 1))
}
