// The deepest script of a length: document 02, ask 14.
#![tactic(auto)]

ghost use Rattle.std.specs.Prelude.{◌≡◌, ◌≤◌, length};
ghost use Rattle.sifc_tokens.specs.Tokens.{padded};
ghost use Rattle.sifc_deepest.specs.Deepest.{openings, deepest_called, deepest_call};

// Writes n opening parentheses, and 0 past them.
fn fill(n: usize, script: &mut [u8])
    requires { n ≤ length script.old }
    ensures { script.new ≡ padded (openings n) (length script.old) }
{
    let (front, rest) = script.split_at_mut(n);
    front.fill(b'(');
    rest.fill(0);
}

// The deepest script of n bytes, 1 to 255, into a lent buffer: n opening parentheses, with zeros past
// them. It answers the greatest number of counted calls that are active at once in a reading of n
// bytes. For any other length, and for a buffer that is shorter, it answers None and touches nothing.
pub fn deepest(n: usize, script: &mut [u8]) -> Option<usize>
    ensures { deepest_called result script.new ≡ deepest_call n script.old }
{
    if n == 0 || 255 < n || script.len() < n {
        return None;
    }
    fill(n, script);
    Some(3 * n + 3)
}
