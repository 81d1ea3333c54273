// The deepest script of a length, for hosts.
ghost use Rattle.sifc_deepest.specs.Deepest.{deepest_answer, DeepestSaid};

// The deepest script of n bytes. It returns the refusal's number, 0 for none, and sets the depth; after
// a refusal that is 0.
pub fn sif_deepest(n: usize, script: &mut [u8], depth: &mut usize) -> u32
    ensures { DeepestSaid n script.old (deepest_answer depth.new result) script.new }
{
    match sifc_deepest::deepest(n, script) {
        Some(d) => {
            *depth = d;
            0
        }
        None => {
            *depth = 0;
            20
        }
    }
}
