//! Runs that begin or go on from a state that was kept.

ghost use Rattle.std.specs.Prelude.{◌≡◌, ◌<◌, ◌≤◌, IfOk, IfErr, IfSome, IsSomeAnd, All, None, false, vec_len, slice_set};
ghost use Rattle.paris_code.specs.declared.program.Image.{Image};
ghost use Rattle.front_end.specs.Front.{state_of, Fits, argument_limit};
ghost use Rattle.front_end.specs.Kept.{KeptFits, IsOpening, GoesOnFrom, Opens};

use crate::front::Front;
use cstar_base::{Memory, Numbers};
use image_check::Sound;
use paris_code::Instr;
use std::alloc::Global;

/// The state of the scalar code between two runs: the instruction at which it stands, the
/// registers, the places behind the open calls, the outermost first, and whether the input has
/// ended.
#[derive(Drop)]
pub struct Kept {
    pub at: u32,
    pub regs: Numbers,
    pub returns: Numbers,
    pub ended: bool,
}

/// Want of memory, with the state that was to go on.
#[derive(Drop)]
pub struct NoRoom {
    pub kept: Kept,
}

impl Kept {
    /// The opening state: the first instruction, all registers 0, no open call.
    pub fn new(alloc: Global, sound: &Sound) -> Result<Kept, Memory>
        ensures opens { IfOk result (λ kept. IsOpening sound.now kept) }
        ensures fits { IfOk result (λ kept. KeptFits sound.now kept) }
    {
        let slots = sound.image().slots as usize;
        Ok(Kept {
            at: 0,
            regs: Numbers::of(vec![in alloc; 0; slots]?),
            returns: Numbers::of(Vec::new(alloc)),
            ended: false,
        })
    }
}

/// At most how many registers an instruction of the phases reads.
fn argument_limit(instr: &Instr) -> usize
    ensures { result ≡ argument_limit instr.now }
{
    match instr {
        Instr::MakeAddress { coordinates, .. } => coordinates.len(),
        Instr::CheckTarget { coordinates, .. } => coordinates.len(),
        Instr::CheckGrid { steps, .. } => steps.len(),
        _ => 2,
    }
}

/// At most how many registers any of the instructions reads.
fn argument_room(code: &[Instr]) -> usize
    ensures enough { All (λ i. argument_limit i ≤ result) code.now }
    ensures some { 2 ≤ result }
{
    let mut most = 2;
    'code: for instr in code {
        most = most.max(argument_limit(instr));
    }
    most
}

impl Front {
    /// The front end where a run of the image begins, with these turns. Takes the room for
    /// registers, return places and arguments.
    pub fn new(alloc: Global, sound: &Sound, turns: u32) -> Result<Front, Memory>
        ensures { IfOk result (λ front. Opens sound.now turns front) }
    {
        let kept = Kept::new(alloc, sound)?;
        match Front::from_kept(alloc, sound, kept, turns) {
            Ok(front) => Ok(front),
            Err(_no_room) => Err(Memory),
        }
    }

    /// The front end at a kept state.
    fn resumed(alloc: Global, sound: &Sound, kept: &Kept, turns: u32) -> Result<Front, Memory>
        requires { KeptFits sound.now kept.now }
        ensures { IfOk result (λ front. GoesOnFrom sound.now kept.now turns front) }
    {
        let image = sound.image();
        let argument_room = argument_room(image.code.as_slice());
        let mut returns = Vec::with_capacity(alloc, image.depth as usize)?;
        returns.extend_from_slice(kept.returns.list())?;
        Ok(Front {
            at: kept.at,
            turns,
            wanted: None,
            registers: Vec::from_slice(alloc, kept.regs.list())?,
            returns,
            args: Vec::with_capacity(alloc, argument_room)?,
            call_room: image.depth,
            argument_room,
        })
    }

    /// The front end at a kept state that fits the image. NoRoom, with the state unchanged, is
    /// want of memory; no other call of the front end takes any.
    pub fn from_kept(alloc: Global, sound: &Sound, kept: Kept, turns: u32) -> Result<Front, NoRoom>
        requires { KeptFits sound.now kept }
        ensures front { IfOk result (λ front. GoesOnFrom sound.now kept turns front) }
        ensures kept { IfErr result (λ e. e.kept ≡ kept) }
    {
        match Front::resumed(alloc, sound, &kept, turns) {
            Ok(front) => Ok(front),
            Err(_memory) => Err(NoRoom { kept }),
        }
    }

    /// The state at which the code stands, of an input that has not ended.
    pub fn into_kept(self) -> Kept
        ensures { result ≡ record {
          at = self.at;
          regs = self.registers.items;
          returns = self.returns.items;
          ended = false;
        } }
    {
        Kept {
            at: self.at,
            regs: Numbers::of(self.registers),
            returns: Numbers::of(self.returns),
            ended: false,
        }
    }

    /// Gives the register that was asked for its value.
    pub fn answer(&mut self, v: u32)
        requires { IsSomeAnd self.old.wanted (λ r. r < vec_len self.old.registers) }
        ensures wanted { self.new.wanted ≡ None }
        ensures fits { (image : Image) → Fits image (state_of self.old) → Fits image (state_of self.new) }
        ensures same { state_of self.new ≡ record (state_of self.old) {
          registers = self.new.registers.items;
          wanted = None;
        } }
        ensures registers { IfSome self.old.wanted (λ r. self.new.registers.items ≡ slice_set self.old.registers.items r v) }
    {
        let register = self.wanted.take().unwrap();
        self.registers[register as usize] = v;
    }

    /// The arguments of the last parallel instruction.
    pub fn args(&self) -> &[u32]
        ensures { result.now ≡ self.now.args.items }
    {
        self.args.as_slice()
    }

    pub fn turns_left(&self) -> u32
        ensures { result ≡ self.now.turns }
    {
        self.turns
    }
}
