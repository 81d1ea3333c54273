// A whole number over a power of ten, as the nearest f64.
ghost use Rattle.std.specs.Prelude.{◌≡◌, ◌+◌, ◌*◌, ◌^◌, ◌<◌, ◌≤◌, false};
ghost use Rattle.std.specs.Float.{binary64};
ghost use Rattle.std.specs.Float.Ieee.{round};
ghost use Rattle.sifc_value.specs.Decimal.{bit};
ghost use Rattle.sifc_value.specs.Steps.{Stepped, Deeper};

// Whole numbers up to this one are exact as an f64.
const EXACT: u64 = 1 << 53;

// A whole part below this one leaves room for 22 bits more.
const ROOM: u64 = 1 << 41;

// The lowest bit of the exponent in the bits of an f64.
const EXPONENT: u64 = 1 << 52;

// A quotient by a power of five as far as it is worked out: whole * five + rest is the number times
// 2 to the power of shift.
#[derive(Clone, Copy)]
struct Split {
    five: u64,
    whole: u64,
    rest: u64,
    shift: u64,
}

impl Split {
    // Works out `bits` more bits of the quotient.
    fn step(self, bits: u64) -> Split
        requires rest_lt_five { self.rest < self.five }
        requires bits_fit { bits < 64 }
        requires rest_fits { self.rest * 2 ^ bits < 2 ^ 64 }
        requires whole_fits { self.whole * 2 ^ bits + 2 ^ bits ≤ 2 ^ 63 }
        requires shift_fits { self.shift + bits < 2 ^ 64 }
        ensures stepped { Stepped self.five self.whole self.rest self.shift (2 ^ bits) bits result.whole result.rest result.shift }
        ensures same { result.five ≡ self.five }
    {
        let more = self.rest << bits;
        Split {
            five: self.five,
            whole: (self.whole << bits) + more / self.five,
            rest: more % self.five,
            shift: self.shift + bits,
        }
    }

    // Works out 22 bits more, or 10 where only they fit, or none where there are 54 already.
    fn deeper(self) -> Split
        requires rest_lt_five { self.rest < self.five }
        requires five_bound { self.five < 2 ^ 42 }
        requires whole_bound { self.whole < 2 ^ 63 }
        requires shift_bound { self.shift ≤ 44 }
        ensures deeper { Deeper self.five self.whole self.rest self.shift result.whole result.rest result.shift }
        ensures same { result.five ≡ self.five }
    {
        if EXACT <= self.whole {
            return self;
        }
        if self.whole < ROOM {
            return self.step(22);
        }
        self.step(10)
    }
}

// The last bit that stands for a remainder.
fn last_bit(rest: u64) -> u64
    ensures { result ≡ bit rest }
{
    u64::from(rest != 0)
}

// Twice the whole part, with an odd last bit in place of a remainder.
fn with_bit(whole: u64, rest: u64) -> u64
    requires { whole < 2 ^ 63 }
    ensures { result ≡ 2 * whole + bit rest }
{
    2 * whole + last_bit(rest)
}

// A number above 2^53 over 10 to the power of places: at least 54 bits of the quotient by 5 to that
// power, rounded with the remainder's bit, and divided by a power of two, which is exact.
fn long_quotient(number: u64, five: u64, places: usize) -> f64
    requires number_large { 2 ^ 53 < number }
    requires places_nonzero { 1 ≤ places }
    requires places_bound { places ≤ 18 }
    requires five_value { five ≡ 5 ^ places }
    ensures { result ≡ round binary64 false number (10 ^ places) }
{
    let first = Split {
        five,
        whole: number / five,
        rest: number % five,
        shift: 0,
    };
    let last = first.deeper().deeper().deeper();
    let bits = (1023 + (last.shift + 1 + (places as u64))) * EXPONENT;
    let power = f64::from_bits(bits);
    std::num::nearest_u64_to_f64(with_bit(last.whole, last.rest)) / power
}

// A number over a scale that is 10 to the power of places. Up to 2^53 the quotient of the two floats,
// which are exact, is rounded once.
pub fn decimal(number: u64, scale: u64, places: usize) -> f64
    requires scale_value { scale ≡ 10 ^ places }
    requires places_bound { places ≤ 18 }
    ensures { result ≡ round binary64 false number (10 ^ places) }
{
    if number <= EXACT {
        return (number as f64) / std::num::nearest_u64_to_f64(scale);
    }
    if places == 0 {
        return std::num::nearest_u64_to_f64(number);
    }
    long_quotient(number, scale >> places, places)
}
