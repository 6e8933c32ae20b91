ghost use Rattle.std.specs.Prelude.{◌≡◌, ◌≢◌, ◌+◌, ◌-◌, ◌<◌, ◌≤◌, ◌==◌, if◌then◌else◌, length, slice_set, slice_index, take, true, false, None, Some, ◌++◌, ◌∷◌, []};
ghost use Rattle.cstar_base.specs.Faults.{run_number_of};
ghost use Rattle.paris_code.specs.Sound.{KeepsRules};
ghost use Rattle.paris_code.specs.RuleTarget.{GoesOn};
ghost use Rattle.paris_code.specs.Units.{IsAt, IsInUnitOf, unit_of, start_at};
ghost use Rattle.paris_code.specs.Code.{arguments_at};
ghost use Rattle.paris_code.specs.Kinds.{is_parallel};
ghost use Rattle.cstar_base.specs.Numerals.{word_text};
ghost use Rattle.paris_code.specs.Operands.{result_of};
ghost use Rattle.paris_code.specs.Scalar.{computed};
ghost use Rattle.paris_code.specs.Shapes.{shapes_of};
ghost use Rattle.front_end.specs.Front.{state_of, Fits, AsksAfter, AsksFor, Prints};

use crate::ask::Ask;
use crate::compute::result_register;
use crate::front::Front;
use crate::numerals;
use crate::numerals::Numeral;
use cstar_base::{NumberFormat, Place, RunFault};
use image_check::Sound;
use paris_code::Instr;

/// The instruction at an index of the code.
#[inline(always)]
pub(crate) fn instr_at(sound: &Sound, at: u32) -> &Instr
    requires { at < length sound.now.code.items }
    ensures is { IsAt sound.now at result.now }
    ensures keeps { KeepsRules sound.now at result.now }
{
    &sound.image().code[at as usize]
}

/// Where a unit begins.
pub(crate) fn start_of(sound: &Sound, unit: u32) -> u32
    requires { unit < length sound.now.units.items }
    ensures { result ≡ start_at sound.now unit }
{
    sound.image().units[unit as usize].start
}

impl Front {
    /// Goes to another instruction of the unit.
    #[inline(always)]
    fn go_to(&mut self, sound: &Sound, target: u32)
        requires fits { Fits sound.now (state_of self.old) }
        requires inside { IsInUnitOf sound.now target self.old.at }
        ensures state { state_of self.new ≡ record (state_of self.old) { at = target } }
        ensures fits { Fits sound.now (state_of self.new) }
    {
        self.at = target;
    }

    /// Goes on to the next instruction.
    #[inline(always)]
    fn go_on(&mut self, sound: &Sound)
        requires fits { Fits sound.now (state_of self.old) }
        requires goes { GoesOn sound.now self.old.at }
        ensures state { state_of self.new ≡ record (state_of self.old) { at = self.old.at + 1 } }
        ensures fits { Fits sound.now (state_of self.new) }
    {
        let _image = sound.image();
        self.go_to(sound, self.at + 1);
    }

    /// Sets a register and goes on to the next instruction.
    #[inline(always)]
    fn set(&mut self, sound: &Sound, dest: u32, value: u32) -> Ask
        requires fits { Fits sound.now (state_of self.old) }
        requires goes { GoesOn sound.now self.old.at }
        requires slot { dest < sound.now.slots }
        ensures state { state_of self.new ≡ record (state_of self.old) {
          at = self.old.at + 1;
          registers = slice_set self.old.registers.items dest value;
        } }
        ensures fits { Fits sound.now (state_of self.new) }
        ensures asks { result ≡ Ask.Ran }
    {
        self.registers[dest as usize] = value;
        self.go_on(sound);
        Ask::Ran
    }

    /// Goes to the start of a unit, and keeps the place behind the call.
    fn call(&mut self, sound: &Sound, unit: u32) -> Ask
        requires fits { Fits sound.now (state_of self.old) }
        requires here { IsAt sound.now self.old.at (Instr.FrontCall unit) }
        requires keeps { KeepsRules sound.now self.old.at (Instr.FrontCall unit) }
        ensures state { state_of self.new ≡ record (state_of self.old) {
          at = start_at sound.now unit;
          returns = self.old.returns.items ++ (self.old.at + 1) ∷ [];
        } }
        ensures fits { Fits sound.now (state_of self.new) }
        ensures asks { result ≡ Ask.Ran }
    {
        let _image = sound.image();
        let start = start_of(sound, unit);
        let _room = self.returns.push(self.at + 1);
        self.at = start;
        Ask::Ran
    }

    /// Goes to the place behind the last open call.
    fn give_back(&mut self, sound: &Sound) -> Ask
        requires fits { Fits sound.now (state_of self.old) }
        requires inner { unit_of sound.now self.old.at ≢ 0 }
        ensures state { state_of self.new ≡ record (state_of self.old) {
          at = slice_index self.old.returns.items (length self.old.returns.items - 1);
          returns = take (length self.old.returns.items - 1) self.old.returns.items;
        } }
        ensures fits { Fits sound.now (state_of self.new) }
        ensures asks { result ≡ Ask.Ran }
    {
        self.at = self.returns.pop().unwrap();
        Ask::Ran
    }

    /// Goes to the target where the jump is taken, else on.
    #[inline(always)]
    fn jump(&mut self, sound: &Sound, taken: bool, target: u32) -> Ask
        requires fits { Fits sound.now (state_of self.old) }
        requires inside { IsInUnitOf sound.now target self.old.at }
        requires goes { taken ≡ false → GoesOn sound.now self.old.at }
        ensures fits { Fits sound.now (state_of self.new) }
        ensures state { state_of self.new ≡ record (state_of self.old) {
          at = (if taken then target else self.old.at + 1);
        } }
        ensures asks { result ≡ Ask.Ran }
    {
        if taken {
            self.go_to(sound, target);
        } else {
            self.go_on(sound);
        }
        Ask::Ran
    }

    /// Spends a turn and goes on, where one is left.
    #[inline(always)]
    fn turn(&mut self, sound: &Sound) -> Ask
        requires fits { Fits sound.now (state_of self.old) }
        requires goes { GoesOn sound.now self.old.at }
        ensures state { state_of self.new ≡ (if self.old.turns == 0 then state_of self.old
            else record (state_of self.old) { at = self.old.at + 1; turns = self.old.turns - 1 }) }
        ensures fits { Fits sound.now (state_of self.new) }
        ensures asks { result ≡ (if self.old.turns == 0 then Ask.Stopped else Ask.Ran) }
    {
        if self.turns == 0 {
            return Ask::Stopped;
        }
        self.turns -= 1;
        self.go_on(sound);
        Ask::Ran
    }

    /// Asks for the phases' work, and for an answer where it gives a register its value.
    fn apply(&mut self, sound: &Sound, instr: &Instr) -> Ask
        requires fits { Fits sound.now (state_of self.old) }
        requires keeps { KeepsRules sound.now self.old.at instr.now }
        requires here { IsAt sound.now self.old.at instr.now }
        requires parallel { is_parallel instr.now ≡ true }
        ensures fits { Fits sound.now (state_of self.new) }
        ensures state { state_of self.new ≡ record (state_of self.old) {
          at = self.old.at + 1;
          args = arguments_at instr.now self.old.registers.items;
          wanted = result_of instr.now;
        } }
        ensures asks { result ≡ Ask.Apply self.old.at }
    {
        let at = self.at;
        self.gather(sound, instr);
        self.wanted = result_register(sound, at, instr);
        self.go_on(sound);
        Ask::Apply { at }
    }

    /// Asks for the next byte of the input.
    fn read(&mut self, sound: &Sound, dest: u32) -> Ask
        requires fits { Fits sound.now (state_of self.old) }
        requires goes { GoesOn sound.now self.old.at }
        requires slot { dest < sound.now.slots }
        ensures fits { Fits sound.now (state_of self.new) }
        ensures state { state_of self.new ≡ record (state_of self.old) { at = self.old.at + 1; wanted = Some dest } }
        ensures asks { result ≡ Ask.Byte }
    {
        self.wanted = Some(dest);
        self.go_on(sound);
        Ask::Byte
    }

    /// Asks for the bytes of the instruction to be printed.
    fn put(&mut self, sound: &Sound) -> Ask
        requires fits { Fits sound.now (state_of self.old) }
        requires goes { GoesOn sound.now self.old.at }
        ensures fits { Fits sound.now (state_of self.new) }
        ensures state { state_of self.new ≡ record (state_of self.old) { at = self.old.at + 1 } }
        ensures asks { result ≡ Ask.Literal self.old.at }
    {
        let at = self.at;
        self.go_on(sound);
        Ask::Literal { at }
    }

    /// Asks for the text of a register to be printed.
    fn print(&mut self, sound: &Sound, format: NumberFormat, source: u32) -> Ask
        requires fits { Fits sound.now (state_of self.old) }
        requires goes { GoesOn sound.now self.old.at }
        requires slot { source < sound.now.slots }
        ensures fits { Fits sound.now (state_of self.new) }
        ensures state { state_of self.new ≡ record (state_of self.old) { at = self.old.at + 1 } }
        ensures asks { Prints result (word_text format (slice_index self.old.registers.items source)) }
    {
        let Numeral { text, len } = numerals::print(format, self.register(source));
        self.go_on(sound);
        Ask::Digits { text, len }
    }

    /// Goes on; a check that failed is a fault at its place.
    fn check(&mut self, sound: &Sound, fails: bool, fault: RunFault, place: Place) -> Ask
        requires fits { Fits sound.now (state_of self.old) }
        requires goes { GoesOn sound.now self.old.at }
        ensures fits { Fits sound.now (state_of self.new) }
        ensures state { state_of self.new ≡ record (state_of self.old) { at = self.old.at + 1 } }
        ensures asks { result ≡ (if fails then Ask.Fault (run_number_of fault) place else Ask.Ran) }
    {
        self.go_on(sound);
        if fails {
            Ask::Fault {
                kind: fault.number(),
                place,
            }
        } else {
            Ask::Ran
        }
    }

    /// Begins an instruction that does more than set a register.
    #[inline(always)]
    fn control(&mut self, sound: &Sound, instr: &Instr) -> Ask
        requires fits { Fits sound.now (state_of self.old) }
        requires keeps { KeepsRules sound.now self.old.at instr.now }
        requires here { IsAt sound.now self.old.at instr.now }
        requires ready { self.old.wanted ≡ None }
        requires scalar { is_parallel instr.now ≡ false }
        requires other { computed (shapes_of sound.now) instr.now self.old.registers.items ≡ None }
        ensures fits { Fits sound.now (state_of self.new) }
        ensures asks { AsksFor sound.now (state_of self.old) result (state_of self.new) }
    {
        match instr {
            Instr::FrontJump { target } => self.jump(sound, true, *target),
            Instr::FrontJumpZero { test, target } => {
                let value = self.register(*test);
                self.jump(sound, value == 0, *target)
            }
            Instr::FrontJumpNonzero { test, target } => {
                let value = self.register(*test);
                self.jump(sound, value != 0, *target)
            }
            Instr::FrontCall { unit } => self.call(sound, *unit),
            Instr::FrontReturn => self.give_back(sound),
            Instr::FrontTurn => self.turn(sound),
            Instr::FrontPutBytes { .. } => self.put(sound),
            Instr::FrontPut { format, source } => self.print(sound, *format, *source),
            Instr::FrontGetByte { dest } => self.read(sound, *dest),
            Instr::FrontCheckTarget {
                set,
                place,
                coordinates,
            } => {
                let fails = self.any_outside(sound, *set, coordinates.as_slice());
                self.check(sound, fails, RunFault::Index, *place)
            }
            Instr::FrontCheckDivisor { place, source } => {
                let value = self.register(*source);
                self.check(sound, value == 0, RunFault::DivZero, *place)
            }
            _ => Ask::Halted,
        }
    }

    /// Begins the instruction at which the code stands. Ran where it is thereby done, Apply at a
    /// parallel instruction, Literal and Digits where it prints, Byte where it reads, Fault where
    /// its check fails, Stopped where it is a turn and none is left, Halted at the end.
    #[inline(always)]
    pub fn step(&mut self, sound: &Sound) -> Ask
        requires fits { Fits sound.now (state_of self.old) }
        requires ready { self.old.wanted ≡ None }
        ensures fits { Fits sound.now (state_of self.new) }
        ensures asks { AsksFor sound.now (state_of self.old) result (state_of self.new) }
    {
        let instr = instr_at(sound, self.at);
        if instr.parallel() {
            return self.apply(sound, instr);
        }
        match self.computed(sound, instr) {
            Some((dest, value)) => self.set(sound, dest, value),
            None => self.control(sound, instr),
        }
    }

    /// Does an instruction that leads elsewhere or spends a turn. False, and nothing changed, at every
    /// other one.
    #[inline(always)]
    fn moves(&mut self, sound: &Sound, instr: &Instr) -> bool
        requires fits { Fits sound.now (state_of self.old) }
        requires keeps { KeepsRules sound.now self.old.at instr.now }
        requires here { IsAt sound.now self.old.at instr.now }
        requires ready { self.old.wanted ≡ None }
        requires scalar { is_parallel instr.now ≡ false }
        requires other { computed (shapes_of sound.now) instr.now self.old.registers.items ≡ None }
        ensures fits { Fits sound.now (state_of self.new) }
        ensures ran { result ≡ true → AsksFor sound.now (state_of self.old) Ask.Ran (state_of self.new) }
        ensures same { result ≡ false → state_of self.new ≡ state_of self.old }
    {
        match instr {
            Instr::FrontJump { target } => {
                let _ran = self.jump(sound, true, *target);
                true
            }
            Instr::FrontJumpZero { test, target } => {
                let value = self.register(*test);
                let _ran = self.jump(sound, value == 0, *target);
                true
            }
            Instr::FrontJumpNonzero { test, target } => {
                let value = self.register(*test);
                let _ran = self.jump(sound, value != 0, *target);
                true
            }
            Instr::FrontTurn => {
                if self.turns == 0 {
                    return false;
                }
                let _ran = self.turn(sound);
                true
            }
            Instr::FrontCall { unit } => {
                let _ran = self.call(sound, *unit);
                true
            }
            Instr::FrontReturn => {
                let _ran = self.give_back(sound);
                true
            }
            _ => false,
        }
    }

    /// Does the instruction at which the code stands where it sets a register, leads elsewhere or
    /// spends a turn, and answers nothing through memory. False, and nothing changed, at every other
    /// one.
    #[inline(always)]
    fn done(&mut self, sound: &Sound) -> bool
        requires fits { Fits sound.now (state_of self.old) }
        requires ready { self.old.wanted ≡ None }
        ensures fits { Fits sound.now (state_of self.new) }
        ensures ran { result ≡ true → AsksFor sound.now (state_of self.old) Ask.Ran (state_of self.new) }
        ensures same { result ≡ false → state_of self.new ≡ state_of self.old }
    {
        let instr = instr_at(sound, self.at);
        if instr.parallel() {
            return false;
        }
        match self.computed(sound, instr) {
            Some((dest, value)) => {
                let _ran = self.set(sound, dest, value);
                true
            }
            None => self.moves(sound, instr),
        }
    }

    /// Begins instructions, at most so many, up to the first that asks for something or ends the
    /// run. What the last of them came to, as `step`, and how many there were.
    pub fn run(&mut self, sound: &Sound, most: u64) -> (Ask, u64)
        requires some { 0 < most }
        requires fits { Fits sound.now (state_of self.old) }
        requires ready { self.old.wanted ≡ None }
        ensures fits { Fits sound.now (state_of self.new) }
        ensures most { result.1 ≤ most }
        ensures all { result.0 ≡ Ask.Ran → result.1 ≡ most }
        ensures asks { AsksAfter sound.now (state_of self.old) result.0 result.1 (state_of self.new) }
    {
        'instructions: for begun in 0..most - 1 {
            if self.done(sound) {
                continue;
            }
            match self.step(sound) {
                Ask::Ran => {}
                ask => return (ask, begun + 1),
            }
        }
        (self.step(sound), most)
    }
}
