// What each operation does, apart from its accesses: their shape (which bytes it loads and stores), where they go, what is stored, and
// what the registers are with what came. Whoever makes the accesses, over the bus or over the image alone, does the operations by these.
#![tactic(auto)]

ghost use Rattle.std.specs.Prelude.{◌≡◌};
ghost use Rattle.operations.specs.Shapes.{target_of, monadic_shape, tst_shape, shape_of};
ghost use Rattle.operations.specs.Operations.{branch, quiet_of, load_at, loaded_of, load_word_at, loaded_word_of};
ghost use Rattle.operations.specs.Operations.{store_at, store_byte, stored_then, stored_word_then, word_of, pushed_then};

use bits::{minus, plus};
use opcodes::{Accumulator, Branch, Dyadic, Internal, Monadic, Operation, Place, Wide, WideStore};
use registers::Registers;

// What makes no access.
#[derive(Clone, Copy)]
pub enum Quiet {
    Internal(Internal),
    Monadic(Monadic, Accumulator),
    Tst(Accumulator),
    Branch(Branch),
    Jmp,
}

// What loads a byte.
#[derive(Clone, Copy)]
pub enum Loading {
    Dyadic(Dyadic, Accumulator),
    Tst,
    Pul(Accumulator),
}

// What loads a word.
#[derive(Clone, Copy)]
pub enum LoadingWord {
    Wide(Wide),
    Pulx,
    Rts,
}

// What stores a byte.
#[derive(Clone, Copy)]
pub enum Storing {
    Sta(Accumulator),
    Psh(Accumulator),
}

// What pushes a word. BSR is JSR at its relative place.
#[derive(Clone, Copy)]
pub enum Pushing {
    Pshx,
    Jsr,
}

// The accesses of an operation, with what it does around them.
#[derive(Clone, Copy)]
pub enum Shape {
    Nothing(Quiet),
    Load(Loading),
    LoadWord(LoadingWord),
    Store(Storing),
    StoreWord(WideStore),
    Modify(Monadic),
    PushWord(Pushing),
    Rti,
    Swi,
    Wai,
}

// The accumulator that an operation on one byte is for: none where it is for memory.
pub fn target_of(place: Place) -> Option<Accumulator>
    ensures { result ≡ target_of place }
{
    match place {
        Place::AccumulatorA => Some(Accumulator::A),
        Place::AccumulatorB => Some(Accumulator::B),
        _ => None,
    }
}

fn monadic_shape(op: Monadic, target: Option<Accumulator>) -> Shape
    ensures { result ≡ monadic_shape op target }
{
    match target {
        Some(acc) => Shape::Nothing(Quiet::Monadic(op, acc)),
        None => Shape::Modify(op),
    }
}

fn tst_shape(target: Option<Accumulator>) -> Shape
    ensures { result ≡ tst_shape target }
{
    match target {
        Some(acc) => Shape::Nothing(Quiet::Tst(acc)),
        None => Shape::Load(Loading::Tst),
    }
}

#[tactic(auto, unfolding(crate::specs::Shapes::shape_of))]
pub fn shape_of(operation: Operation, place: Place) -> Shape
    ensures { result ≡ shape_of operation place }
{
    match operation {
        Operation::Internal(op) => Shape::Nothing(Quiet::Internal(op)),
        Operation::Dyadic(op, acc) => Shape::Load(Loading::Dyadic(op, acc)),
        Operation::Monadic(op) => monadic_shape(op, target_of(place)),
        Operation::Tst => tst_shape(target_of(place)),
        Operation::Sta(acc) => Shape::Store(Storing::Sta(acc)),
        Operation::Wide(op) => Shape::LoadWord(LoadingWord::Wide(op)),
        Operation::WideStore(op) => Shape::StoreWord(op),
        Operation::Psh(acc) => Shape::Store(Storing::Psh(acc)),
        Operation::Pul(acc) => Shape::Load(Loading::Pul(acc)),
        Operation::Pshx => Shape::PushWord(Pushing::Pshx),
        Operation::Pulx => Shape::LoadWord(LoadingWord::Pulx),
        Operation::Branch(test) => Shape::Nothing(Quiet::Branch(test)),
        Operation::Jmp => Shape::Nothing(Quiet::Jmp),
        Operation::Jsr | Operation::Bsr => Shape::PushWord(Pushing::Jsr),
        Operation::Rts => Shape::LoadWord(LoadingWord::Rts),
        Operation::Rti => Shape::Rti,
        Operation::Swi => Shape::Swi,
        Operation::Wai => Shape::Wai,
    }
}

fn branch(test: Branch, at: u16, c: Registers) -> Registers
    ensures { result ≡ branch test at c }
{
    if arithmetic::taken(test, c.codes) {
        c.with_pc(at)
    } else {
        c
    }
}

impl Quiet {
    #[tactic(auto, unfolding(crate::specs::Operations::quiet_of))]
    pub fn done(self, at: u16, c: Registers) -> Registers
        ensures { result ≡ quiet_of self at c }
    {
        match self {
            Quiet::Internal(op) => c.internal(op),
            Quiet::Monadic(op, acc) => c.result(acc, arithmetic::monadic(op, c.of(acc), c.codes)),
            Quiet::Tst(acc) => c.with_codes(arithmetic::tested(c.of(acc), c.codes)),
            Quiet::Branch(test) => branch(test, at, c),
            Quiet::Jmp => c.with_pc(at),
        }
    }
}

impl Loading {
    // Where the byte is: a pull's is above SP.
    #[tactic(auto, unfolding(crate::specs::Operations::load_at))]
    pub fn address(self, at: u16, c: Registers) -> u16
        ensures { result ≡ load_at self at c }
    {
        match self {
            Loading::Dyadic(_, _) | Loading::Tst => at,
            Loading::Pul(_) => plus(c.sp, 1),
        }
    }

    #[tactic(auto, unfolding(crate::specs::Operations::loaded_of))]
    pub fn loaded(self, v: u8, c: Registers) -> Registers
        ensures { result ≡ loaded_of self v c }
    {
        match self {
            Loading::Dyadic(op, acc) => c.result(
                acc,
                arithmetic::dyadic(op, c.of(acc), v, c.codes),
            ),
            Loading::Tst => c.with_codes(arithmetic::tested(v, c.codes)),
            Loading::Pul(acc) => c.with_sp(plus(c.sp, 1)).with(acc, v),
        }
    }
}

impl LoadingWord {
    #[tactic(auto, unfolding(crate::specs::Operations::load_word_at))]
    pub fn address(self, at: u16, c: Registers) -> u16
        ensures { result ≡ load_word_at self at c }
    {
        match self {
            LoadingWord::Wide(_) => at,
            LoadingWord::Pulx | LoadingWord::Rts => plus(c.sp, 1),
        }
    }

    #[tactic(auto, unfolding(crate::specs::Operations::loaded_word_of))]
    pub fn loaded(self, w: u16, c: Registers) -> Registers
        ensures { result ≡ loaded_word_of self w c }
    {
        match self {
            LoadingWord::Wide(op) => c.wide(op, w),
            LoadingWord::Pulx => c.with_sp(plus(plus(c.sp, 1), 1)).with_x(w),
            LoadingWord::Rts => c.with_sp(plus(plus(c.sp, 1), 1)).with_pc(w),
        }
    }
}

impl Storing {
    // Where the byte goes: a push's goes to SP.
    #[tactic(auto, unfolding(crate::specs::Operations::store_at))]
    pub fn address(self, at: u16, c: Registers) -> u16
        ensures { result ≡ store_at self at c }
    {
        match self {
            Storing::Sta(_) => at,
            Storing::Psh(_) => c.sp,
        }
    }

    #[tactic(auto, unfolding(crate::specs::Operations::store_byte))]
    pub fn byte(self, c: Registers) -> u8
        ensures { result ≡ store_byte self c }
    {
        match self {
            Storing::Sta(acc) | Storing::Psh(acc) => c.of(acc),
        }
    }

    #[tactic(auto, unfolding(crate::specs::Operations::stored_then))]
    pub fn stored(self, c: Registers) -> Registers
        ensures { result ≡ stored_then self c }
    {
        match self {
            Storing::Sta(acc) => c.with_codes(arithmetic::moved(c.of(acc), c.codes)),
            Storing::Psh(_) => c.with_sp(minus(c.sp, 1)),
        }
    }
}

#[tactic(auto, unfolding(crate::specs::Operations::stored_word_then))]
pub fn stored_word(op: WideStore, c: Registers) -> Registers
    ensures { result ≡ stored_word_then op c }
{
    c.with_codes(arithmetic::moved(c.stored(op), c.codes))
}

impl Pushing {
    #[tactic(auto, unfolding(crate::specs::Operations::word_of))]
    pub fn word(self, c: Registers) -> u16
        ensures { result ≡ word_of self c }
    {
        match self {
            Pushing::Pshx => c.x,
            Pushing::Jsr => c.pc,
        }
    }

    // With SP below the word.
    #[tactic(auto, unfolding(crate::specs::Operations::pushed_then))]
    pub fn pushed(self, at: u16, c: Registers) -> Registers
        ensures { result ≡ pushed_then self at c }
    {
        match self {
            Pushing::Pshx => c,
            Pushing::Jsr => c.with_pc(at),
        }
    }
}
