ghost use Rattle.std.specs.Prelude.{◌≡◌, ◌<◌, ◌^◌, ◌-◌};
ghost use Rattle.combine_core.specs.Encodings.{combiner_of, is_descending, encoded_home, encoded, joined, decoded};
ghost use Rattle.combine_core.specs.declared.kind.Kind.{Kind};

use cstar_base::Combiner;

/// A combiner over cells of 64 bits. Each method is the function of its kind; `encodings_are_sound`
/// says what the encodings are good for.
pub trait Combine: Drop {
    ghost combines: { Self → Kind };

    /// The combiner that `fold_step` knows, and whether it reads its words as unsigned.
    fn kind(&self) -> (Combiner, bool)
        ensures { result ≡ combiner_of (combines self.now) };

    /// Whether the values are folded from the greatest sender down.
    fn descending(&self) -> bool
        ensures { result ≡ is_descending (combines self.now) };

    /// The cell of a target before any message.
    fn encode_home(&self, w: u32) -> u64
        ensures { result ≡ encoded_home (combines self.now) w };

    /// What a message joins to its target's cell.
    fn encode(&self, sender: u32, w: u32) -> u64
        requires { sender < 2 ^ 32 - 1 }
        ensures { result ≡ encoded (combines self.now) sender w };

    fn join(&self, a: u64, b: u64) -> u64
        ensures { result ≡ joined (combines self.now) a b };

    /// The word that a cell stands for, where the home word was `home`.
    fn decode(&self, home: u32, x: u64) -> u32
        requires { decoded (combines self.now) home x < 2 ^ 32 }
        ensures { result ≡ decoded (combines self.now) home x };
}
