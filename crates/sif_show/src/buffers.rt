// What the programs lend to a reading.
ghost use Rattle.std.specs.Prelude.{◌≡◌, replicate};

// Arrays for a script of at most 4,096 bytes: its tokens, its nodes, 2,048 symbols and 1,024 errors.
#[derive(Drop)]
pub struct Buffers {
    pub offs: [u32; 4097],
    pub words: [u32; 4097],
    pub heads: [u32; 4097],
    pub loads: [u32; 4097],
    pub symbols: [u32; 8192],
    pub places: [u32; 1024],
    pub reasons: [u32; 1024],
}

impl Buffers {
    // All of them 0.
    pub fn new() -> Self
        ensures tokens { (result.offs ≡ replicate 4097 0) × (result.words ≡ replicate 4097 0) }
        ensures nodes { (result.heads ≡ replicate 4097 0) × (result.loads ≡ replicate 4097 0) }
        ensures symbols { result.symbols ≡ replicate 8192 0 }
        ensures errors { (result.places ≡ replicate 1024 0) × (result.reasons ≡ replicate 1024 0) }
    {
        Buffers {
            offs: [0; 4097],
            words: [0; 4097],
            heads: [0; 4097],
            loads: [0; 4097],
            symbols: [0; 8192],
            places: [0; 1024],
            reasons: [0; 1024],
        }
    }
}
