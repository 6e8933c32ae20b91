ghost use Rattle.std.specs.Prelude.{◌≡◌, ◌<◌, ◌^◌, ◌%◌};
ghost use Rattle.combine_core.specs.declared.kind.Kind.{Kind};
ghost use Rattle.combine_core.specs.declared.kind.Kind.TheVariants as kind;
ghost use Rattle.combine_core.specs.Encodings.{moved};

use crate::combine::Combine;
use cstar_base::Combiner;

/// The sum modulo `2^32`.
#[derive(Clone, Copy)]
pub struct Add;

/// Bitwise and.
#[derive(Clone, Copy)]
pub struct And;

/// Bitwise or.
#[derive(Clone, Copy)]
pub struct Or;

/// Bitwise exclusive or.
#[derive(Clone, Copy)]
pub struct Xor;

/// The least word, read in two's complement where `signed`.
#[derive(Clone, Copy)]
pub struct MinOf {
    pub signed: bool,
}

/// The greatest word, read in two's complement where `signed`.
#[derive(Clone, Copy)]
pub struct MaxOf {
    pub signed: bool,
}

/// The word of the greatest sender.
#[derive(Clone, Copy)]
pub struct Last;

/// The word of the least sender: `Last`, folded from the greatest sender down.
#[derive(Clone, Copy)]
pub struct First;

// The low 32 bits.
fn low_word(x: u64) -> u32
    ensures { result ≡ x % 2 ^ 32 }
{
    (x % (1 << 32)) as u32
}

// A word in two's complement, moved so that the least number is 0. Moved again, it is back.
fn moved_word(w: u32) -> u32
    ensures { result ≡ moved w }
{
    w.wrapping_add(1 << 31)
}

impl Combine for Add {
    ghost combines = { λ _. kind.Add };

    fn kind(&self) -> (Combiner, bool) {
        (Combiner::Add, true)
    }

    fn descending(&self) -> bool {
        false
    }

    fn encode_home(&self, w: u32) -> u64 {
        u64::from(w)
    }

    fn encode(&self, _sender: u32, w: u32) -> u64 {
        u64::from(w)
    }

    fn join(&self, a: u64, b: u64) -> u64 {
        a.wrapping_add(b)
    }

    fn decode(&self, _home: u32, x: u64) -> u32 {
        low_word(x)
    }
}

impl Combine for And {
    ghost combines = { λ _. kind.And };

    fn kind(&self) -> (Combiner, bool) {
        (Combiner::And, true)
    }

    fn descending(&self) -> bool {
        false
    }

    fn encode_home(&self, w: u32) -> u64 {
        u64::from(w)
    }

    fn encode(&self, _sender: u32, w: u32) -> u64 {
        u64::from(w)
    }

    fn join(&self, a: u64, b: u64) -> u64 {
        a & b
    }

    fn decode(&self, _home: u32, x: u64) -> u32 {
        x as u32
    }
}

impl Combine for Or {
    ghost combines = { λ _. kind.Or };

    fn kind(&self) -> (Combiner, bool) {
        (Combiner::Or, true)
    }

    fn descending(&self) -> bool {
        false
    }

    fn encode_home(&self, w: u32) -> u64 {
        u64::from(w)
    }

    fn encode(&self, _sender: u32, w: u32) -> u64 {
        u64::from(w)
    }

    fn join(&self, a: u64, b: u64) -> u64 {
        a | b
    }

    fn decode(&self, _home: u32, x: u64) -> u32 {
        x as u32
    }
}

impl Combine for Xor {
    ghost combines = { λ _. kind.Xor };

    fn kind(&self) -> (Combiner, bool) {
        (Combiner::Xor, true)
    }

    fn descending(&self) -> bool {
        false
    }

    fn encode_home(&self, w: u32) -> u64 {
        u64::from(w)
    }

    fn encode(&self, _sender: u32, w: u32) -> u64 {
        u64::from(w)
    }

    fn join(&self, a: u64, b: u64) -> u64 {
        a ^ b
    }

    fn decode(&self, _home: u32, x: u64) -> u32 {
        x as u32
    }
}

impl Combine for MinOf {
    ghost combines = { λ c. kind.Min c.signed };

    fn kind(&self) -> (Combiner, bool) {
        (Combiner::Min, !self.signed)
    }

    fn descending(&self) -> bool {
        false
    }

    fn encode_home(&self, w: u32) -> u64 {
        u64::from(if self.signed { moved_word(w) } else { w })
    }

    fn encode(&self, _sender: u32, w: u32) -> u64 {
        u64::from(if self.signed { moved_word(w) } else { w })
    }

    fn join(&self, a: u64, b: u64) -> u64 {
        if a <= b { a } else { b }
    }

    fn decode(&self, _home: u32, x: u64) -> u32 {
        if self.signed {
            moved_word(low_word(x))
        } else {
            x as u32
        }
    }
}

impl Combine for MaxOf {
    ghost combines = { λ c. kind.Max c.signed };

    fn kind(&self) -> (Combiner, bool) {
        (Combiner::Max, !self.signed)
    }

    fn descending(&self) -> bool {
        false
    }

    fn encode_home(&self, w: u32) -> u64 {
        u64::from(if self.signed { moved_word(w) } else { w })
    }

    fn encode(&self, _sender: u32, w: u32) -> u64 {
        u64::from(if self.signed { moved_word(w) } else { w })
    }

    fn join(&self, a: u64, b: u64) -> u64 {
        if a <= b { b } else { a }
    }

    fn decode(&self, _home: u32, x: u64) -> u32 {
        if self.signed {
            moved_word(low_word(x))
        } else {
            x as u32
        }
    }
}

impl Combine for Last {
    ghost combines = { λ _. kind.Last };

    fn kind(&self) -> (Combiner, bool) {
        (Combiner::Last, true)
    }

    fn descending(&self) -> bool {
        false
    }

    fn encode_home(&self, _w: u32) -> u64 {
        0
    }

    fn encode(&self, sender: u32, w: u32) -> u64 {
        (u64::from(sender) + 1) * (1 << 32) + u64::from(w)
    }

    fn join(&self, a: u64, b: u64) -> u64 {
        if b < a { a } else { b }
    }

    fn decode(&self, home: u32, x: u64) -> u32 {
        if x == 0 { home } else { low_word(x) }
    }
}

impl Combine for First {
    ghost combines = { λ _. kind.First };

    fn kind(&self) -> (Combiner, bool) {
        (Combiner::Last, true)
    }

    fn descending(&self) -> bool {
        true
    }

    fn encode_home(&self, _w: u32) -> u64 {
        0
    }

    fn encode(&self, sender: u32, w: u32) -> u64 {
        u64::from(u32::MAX - sender) * (1 << 32) + u64::from(w)
    }

    fn join(&self, a: u64, b: u64) -> u64 {
        if a < b { b } else { a }
    }

    fn decode(&self, home: u32, x: u64) -> u32 {
        if x == 0 { home } else { low_word(x) }
    }
}
