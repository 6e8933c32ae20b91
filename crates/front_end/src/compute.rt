//! What the scalar instructions and the arguments of the parallel ones come to.

ghost use Rattle.std.specs.Prelude.{◌≡◌, ◌+◌, ◌*◌, ◌%◌, ◌^◌, ◌<◌, ◌≤◌, ◌++◌, ◌∷◌, [], length, map, slice_index, vec_len, All, IfSome, true};
ghost use Rattle.vp_sets.specs.Positions.{position_count, number_at};
ghost use Rattle.paris_code.specs.Code.{arguments_at};
ghost use Rattle.paris_code.specs.Scalar.{computed, address_of, any_register_outside};
ghost use Rattle.paris_code.specs.Shapes.{shapes_of, extents_at, rank_at};
ghost use Rattle.paris_code.specs.Operands.{result_of, register_of, registers_of_coordinate, registers_of_konst};
ghost use Rattle.paris_code.specs.RuleField.{KeepsField, KonstFits, IsSlot, IsRegisterAt};
ghost use Rattle.paris_code.specs.RuleSet.{KeepsSet};
ghost use Rattle.paris_code.specs.Kinds.{is_parallel};
ghost use Rattle.paris_code.specs.RuleTarget.{GoesOn};
ghost use Rattle.paris_code.specs.Sound.{KeepsRules};
ghost use Rattle.front_end.specs.Front.{state_of, Fits, argument_limit};

use crate::front::Front;
use crate::scalar;
use image_check::Sound;
use paris_code::{Coordinate, Instr, Konst, RegisterCoordinate};

/// The register that takes the value of a parallel instruction.
pub(crate) fn result_register(sound: &Sound, at: u32, instr: &Instr) -> Option<u32>
    requires { KeepsRules sound.now at instr.now }
    ensures slot { IfSome result (λ r. r < sound.now.slots) }
    ensures value { result ≡ result_of instr.now }
{
    match instr {
        Instr::Global { dest, .. } | Instr::ReadFromProcessor { dest, .. } => Some(*dest),
        _ => None,
    }
}

/// The extents of a set.
fn extents_of(sound: &Sound, set: u16) -> &[u32]
    requires { set < length (shapes_of sound.now) }
    ensures { result.now ≡ extents_at (shapes_of sound.now) set }
{
    sound.image().shapes[usize::from(set)].extents.as_slice()
}

impl Front {
    #[inline(always)]
    pub(crate) fn register(&self, register: u32) -> u32
        requires { register < length self.now.registers.items }
        ensures { result ≡ slice_index self.now.registers.items register }
    {
        self.registers[register as usize]
    }

    /// Whether a register, read by its sign, is no coordinate of its axis.
    fn any_outside_of(&self, extents: &[u32], coordinates: &[RegisterCoordinate]) -> bool
        requires { All (λ c. register_of c < length self.now.registers.items) coordinates.now }
        ensures { result ≡ any_register_outside extents.now coordinates.now self.now.registers.items }
    {
        match (extents.split_first(), coordinates.split_first()) {
            (Some((extent, extents)), Some((coordinate, rest))) => {
                let x = self.register(coordinate.register);
                scalar::is_outside(*extent, coordinate.signed, x)
                    || self.any_outside_of(extents, rest)
            }
            _ => false,
        }
    }

    /// Whether a register, read by its sign, is no coordinate of its axis of the set.
    pub(crate) fn any_outside(
        &self,
        sound: &Sound,
        set: u16,
        coordinates: &[RegisterCoordinate],
    ) -> bool
        requires set { set < length (shapes_of sound.now) }
        requires slots { All (λ c. register_of c < length self.now.registers.items) coordinates.now }
        ensures { result ≡ any_register_outside (extents_at (shapes_of sound.now) set) coordinates.now self.now.registers.items }
    {
        self.any_outside_of(extents_of(sound, set), coordinates)
    }

    /// The number at these axes, behind that of the earlier ones, modulo 2 to the 32.
    fn address_from(&self, number: u32, extents: &[u32], registers: &[u32]) -> u32
        requires rank { length registers.now ≡ length extents.now }
        requires slots { All (IsSlot (length self.now.registers.items)) registers.now }
        ensures { result ≡ (number * position_count extents.now + number_at extents.now (map (λ r. slice_index self.now.registers.items r) registers.now)) % 2 ^ 32 }
    {
        match (extents.split_first(), registers.split_first()) {
            (Some((extent, extents)), Some((register, rest))) => {
                let x = self.register(*register);
                let next = number.wrapping_mul(*extent).wrapping_add(x);
                self.address_from(next, extents, rest)
            }
            _ => number,
        }
    }

    /// The row-major number, modulo 2 to the 32, of registers as coordinates in the set.
    #[tactic(auto, unfolding(paris_code::specs::Scalar::address_of))]
    pub(crate) fn address(&self, sound: &Sound, set: u16, registers: &[u32]) -> u32
        requires set { set < length (shapes_of sound.now) }
        requires rank { length registers.now ≡ rank_at (shapes_of sound.now) set }
        requires slots { All (IsSlot (length self.now.registers.items)) registers.now }
        ensures { result ≡ address_of (extents_at (shapes_of sound.now) set) registers.now self.now.registers.items }
    {
        self.address_from(0, extents_of(sound, set), registers)
    }

    /// The register that a scalar instruction sets, and its value.
    #[inline(always)]
    pub(crate) fn computed(&self, sound: &Sound, instr: &Instr) -> Option<(u32, u32)>
        requires fits { Fits sound.now (state_of self.now) }
        requires keeps { KeepsRules sound.now self.now.at instr.now }
        ensures value { result ≡ computed (shapes_of sound.now) instr.now self.now.registers.items }
        ensures slot { IfSome result (λ set. set.0 < sound.now.slots) }
        ensures goes { IfSome result (λ set. GoesOn sound.now self.now.at) }
    {
        let (dest, value) = match instr {
            Instr::FrontConst { dest, value } => (*dest, *value),
            Instr::FrontMove { dest, source } => (*dest, self.register(*source)),
            Instr::FrontOperate {
                op,
                dest,
                left,
                right,
            } => {
                let value = scalar::operate(*op, self.register(*left), self.register(*right));
                (*dest, value)
            }
            Instr::FrontCompare {
                relation,
                dest,
                left,
                right,
            } => {
                let value = scalar::compare(*relation, self.register(*left), self.register(*right));
                (*dest, value)
            }
            Instr::FrontNegate { dest, source } => (*dest, scalar::negate(self.register(*source))),
            Instr::FrontLognot { dest, source } => (*dest, !self.register(*source)),
            Instr::FrontConvert { dest, source, kind } => {
                (*dest, scalar::round(*kind, self.register(*source)))
            }
            Instr::FrontMakeAddress {
                dest,
                set,
                coordinates,
            } => (*dest, self.address(sound, *set, coordinates.as_slice())),
            _ => return None,
        };
        Some((dest, value))
    }

    /// Adds a register to the arguments.
    fn add_argument(&mut self, register: u32)
        requires slot { register < length self.old.registers.items }
        requires room { length self.old.args.items < self.old.argument_room }
        ensures state { state_of self.new ≡ record (state_of self.old) { args = self.new.args.items } }
        ensures added { self.new.args.items ≡ self.old.args.items ++ slice_index self.old.registers.items register ∷ [] }
    {
        let value = self.register(register);
        let _room = self.args.push(value);
    }

    fn add_konst(&mut self, konst: Konst)
        requires slot { KonstFits (length self.old.registers.items) konst }
        requires room { length self.old.args.items < self.old.argument_room }
        ensures added { self.new.args.items ≡ self.old.args.items ++ map (λ r. slice_index self.old.registers.items r) (registers_of_konst konst) }
        ensures few { length self.new.args.items ≤ length self.old.args.items + 1 }
        ensures state { state_of self.new ≡ record (state_of self.old) { args = self.new.args.items } }
    {
        if let Konst::Reg(register) = konst {
            self.add_argument(register);
        }
    }

    fn add_coordinate(&mut self, coordinate: Coordinate)
        requires slot { IsRegisterAt (length self.old.registers.items) coordinate }
        requires room { length self.old.args.items < self.old.argument_room }
        ensures added { self.new.args.items ≡ self.old.args.items ++ map (λ r. slice_index self.old.registers.items r) (registers_of_coordinate coordinate) }
        ensures few { length self.new.args.items ≤ length self.old.args.items + 1 }
        ensures state { state_of self.new ≡ record (state_of self.old) { args = self.new.args.items } }
    {
        if let Coordinate::Reg(register) = coordinate {
            self.add_argument(register);
        }
    }

    /// Gathers the registers that a parallel instruction reads, in the order of its operands.
    pub(crate) fn gather(&mut self, sound: &Sound, instr: &Instr)
        requires fits { Fits sound.now (state_of self.old) }
        requires keeps { KeepsRules sound.now self.old.at instr.now }
        requires room { argument_limit instr.now ≤ self.old.argument_room }
        requires some { 2 ≤ self.old.argument_room }
        ensures { state_of self.new ≡ record (state_of self.old) { args = arguments_at instr.now self.old.registers.items } }
    {
        self.args.clear();
        match instr {
            Instr::MoveConstant { value, .. } => self.add_konst(*value),
            Instr::OperateConstant { right, .. } => self.add_konst(*right),
            Instr::GetFromNews { by, .. } | Instr::GetFromNewsAlways { by, .. } => {
                self.add_konst(*by);
            }
            Instr::ReadFromProcessor { processor, .. } => self.add_argument(*processor),
            Instr::WriteToProcessor {
                processor,
                value,
                ..
            } => {
                self.add_argument(*processor);
                self.add_konst(*value);
            }
            Instr::MakeAddress { coordinates, .. } => {
                'addresses: for coordinate in coordinates {
                    self.add_coordinate(*coordinate);
                }
            }
            Instr::CheckTarget { coordinates, .. } => {
                'targets: for checked in coordinates {
                    self.add_coordinate(checked.coordinate);
                }
            }
            Instr::CheckGrid { steps, .. } => {
                'steps: for step in steps {
                    self.add_konst(step.step);
                }
            }
            _ => {}
        }
    }
}
