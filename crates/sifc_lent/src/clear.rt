// What lies past the used part of a lent array is set to 0.
ghost use Rattle.std.specs.Prelude.{◌≡◌, ◌≤◌, length, take};
ghost use Rattle.sifc_tokens.specs.Tokens.{padded, zeroed};

use sifc_tokens::clear_from;

// Keeps the first n elements, and sets the others to 0.
pub fn keep(a: &mut [u32], n: usize)
    requires { n ≤ length a.old }
    ensures { a.new ≡ padded (take n a.old) (length a.old) }
{
    clear_from(a, n);
}

// Sets every element to 0.
pub fn clear(a: &mut [u32])
    ensures { a.new ≡ zeroed a.old }
{
    clear_from(a, 0);
}
