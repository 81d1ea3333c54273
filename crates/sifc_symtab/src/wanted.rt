// What is looked for in the table: a name, which has this hash, at a level from low to high.
ghost use Rattle.std.specs.Prelude.{◌≡◌};
ghost use Rattle.sifc_symtab.specs.Table.{hash_of};

#[derive(Clone, Copy)]
pub struct Wanted<'a> {
    pub low: usize,
    pub high: usize,
    pub hash: usize,
    pub name: &'a [u8],
    ghost hashed: { hash ≡ hash_of name.now },
}
