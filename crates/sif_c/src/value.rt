// The value call.
ghost use Rattle.sifc_value.specs.Value.{told, ValueSaid};

// The value of a number literal. It returns the refusal's number, 0 for none, and sets the value; it
// is 0 where there is none.
pub fn sif_value(literal: &[u8], value: &mut f64) -> u32
    ensures { ValueSaid literal.now (told result value.new) }
{
    match sifc_value::value(literal) {
        Some(number) => {
            *value = number;
            0
        }
        None => {
            *value = 0.0;
            12
        }
    }
}
