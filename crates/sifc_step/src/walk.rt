// The parser: what of Parser of parser.rs a reading has.
use sifc_err::Refusal;

// What stays as it is through a reading: how many errors there is room for, and the kind of the
// lexing panic that ends the tokens, if one does.
#[derive(Clone, Copy)]
pub struct Limits {
    pub errors: usize,
    pub fault: u32,
}

// The script and the two words of each of its tokens; the symbol words and the two words of each node,
// lent to be written; and the walk: the index of the current token, how many nodes and symbols are in
// use, curr_lvl, how many errors are listed, and should_check_sym_tab.
#[derive(Drop)]
pub struct Parser<'a> {
    pub script: &'a [u8],
    pub offs: &'a [u32],
    pub words: &'a [u32],
    pub symbols: &'a mut [u32],
    pub head: &'a mut [u32],
    pub load: &'a mut [u32],
    pub lim: Limits,
    pub at: usize,
    pub nodes: usize,
    pub stored: usize,
    pub level: usize,
    pub errors: usize,
    pub check: bool,
}

// Why a call has no value: the declaration failed, or the reading is refused. A failure has counted
// its error, unless that is a TknMismatch of `expect`, which lists nothing.
#[derive(Clone, Copy)]
pub enum Stop {
    Failed(sifc_def::Err),
    Refused(Refusal),
}

impl From<Refusal> for Stop {
    ghost use Rattle.std.specs.Prelude.{◌≡◌};
    ghost use Rattle.sifc_step.specs.declared.walk.Stop.TheVariants.{Refused};

    ghost from_gives = { λ refusal stop. stop ≡ Refused refusal };

    fn from(refusal: Refusal) -> Stop {
        Stop::Refused(refusal)
    }
}

// The two words of a node: that of the expression that was read last.
#[derive(Clone, Copy)]
pub struct Target {
    pub head: u32,
    pub load: u32,
}

// What a walk over all declarations comes to: the walk where it ends, each field as it is in Parser,
// and has_err, and the error that ended it before Eof.
#[derive(Clone, Copy)]
pub struct Walked {
    pub at: usize,
    pub nodes: usize,
    pub stored: usize,
    pub level: usize,
    pub errors: usize,
    pub check: bool,
    pub flag: bool,
    pub last: Option<sifc_def::Err>,
}
