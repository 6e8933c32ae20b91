//! The instructions, each done by one loop over the processors.

ghost use Rattle.std.specs.Prelude.{◌≡◌, ◌<◌, length, true, false, None, IsSome, IfSome, MatchOption};
ghost use Rattle.paris_code.specs.Elementwise.{is_elementwise, destination, writes_always, elementwise};
ghost use Rattle.paris_code.specs.Fetching.{at_one, of_named, of_neighbour, word_of_one};
ghost use Rattle.paris_code.specs.Meaning.{after, reply_of};
ghost use Rattle.phase_meaning.specs.Gathered.{gathered};
ghost use Rattle.paris_code.specs.Memory.{SameBits, bit_run, context_run, test_run};
ghost use Rattle.paris_code.specs.Writes.{written};
ghost use Rattle.paris_code.specs.Operands.{result_of};
ghost use Rattle.paris_code.specs.Shapes.{rank_at};
ghost use Rattle.phase_meaning.specs.Apply.{CanApply, IsRun, LiesIn, active_set, is_fetch};

use crate::elements::konst;
use crate::phases::Phases;
use crate::row_phases::RowPhases;
use crate::scans::Scan;
use crate::sends::Send;
use cstar_base::Winner;
use paris_code::{Field, Instr, Reply};
use phase_meaning::arith::signed;

/// A flag, as the run of its one bit.
fn flag(set: u16, offset: u32) -> Field
    ensures { result ≡ bit_run set offset }
{
    Field {
        set,
        offset,
        len: 1,
    }
}

impl RowPhases {
    ghost use Rattle.phase_gate.specs.Rows.{sets_of, memory_of};

    /// The context flag of a set.
    fn context_of(&self, set: u16) -> Field
        requires { set < length (sets_of self.now) }
        ensures { result ≡ context_run (sets_of self.now) set }
    {
        flag(set, self.rows(set).bits)
    }

    /// The test flag of a set.
    fn test_of(&self, set: u16) -> Field
        requires { set < length (sets_of self.now) }
        ensures { result ≡ test_run (sets_of self.now) set }
    {
        flag(set, self.rows(set).bits + 1)
    }

    #[tactic(auto, using(phase_meaning::proofs::FieldLemmas::lies))]
    /// Where an elementwise instruction writes, and whether it does so at all processors.
    fn written_by(&self, instr: &Instr, args: &[u32]) -> Option<(Field, bool)>
        requires { CanApply (sets_of self.now) instr.now args.now }
        ensures { MatchOption result (is_elementwise instr.now ≡ false) (λ w. (is_elementwise instr.now ≡ true) × (w.0 ≡ destination (sets_of self.now) instr.now) × (w.1 ≡ writes_always instr.now)) }
    {
        let found = match instr {
            Instr::MoveZeroAlways { dest }
            | Instr::MoveAlways { dest, .. }
            | Instr::StoreContext { dest } => (*dest, true),
            Instr::Move { dest, .. }
            | Instr::MoveConstant { dest, .. }
            | Instr::MyNewsCoordinate { dest, .. }
            | Instr::MakeAddress { dest, .. }
            | Instr::Operate { dest, .. }
            | Instr::OperateConstant { dest, .. }
            | Instr::Negate { dest, .. }
            | Instr::Lognot { dest, .. }
            | Instr::StoreTest { dest } => (*dest, false),
            Instr::LoadContext { source } => (self.context_of(source.set), true),
            Instr::SetContext { set } => (self.context_of(*set), true),
            Instr::LogandContextWithTest { set } | Instr::LogandcContextWithTest { set } => {
                (self.context_of(*set), false)
            }
            Instr::Compare { left, .. } => (self.test_of(left.set), false),
            Instr::EqZero { source } | Instr::NeZero { source } | Instr::LoadTest { source } => {
                (self.test_of(source.set), false)
            }
            _ => return None,
        };
        Some(found)
    }

    /// Does an elementwise instruction.
    fn do_elementwise(&mut self, instr: &Instr, args: &[u32], run: Field, always: bool)
        requires can { CanApply (sets_of self.old) instr.now args.now }
        requires elementwise { is_elementwise instr.now ≡ true }
        requires run { run ≡ destination (sets_of self.old) instr.now }
        requires always { always ≡ writes_always instr.now }
        ensures sets { sets_of self.new ≡ sets_of self.old }
        ensures memory { SameBits (sets_of self.old) (memory_of self.new) (written (elementwise (sets_of self.old) instr.now args.now (memory_of self.old)) (memory_of self.old)) }
    {
        'positions: for position in 0..self.positions(run.set) {
            if self.takes(run.set, always, position) {
                let word = self.element(instr, args, position);
                self.write(run, position, word);
            }
        }
    }

    /// A NEWS shift, gathered and then written.
    fn do_shift(&mut self, dest: Field, source: Field, axis: u32, by: u32, always: bool)
        requires dest { LiesIn (sets_of self.old) dest }
        requires source { LiesIn (sets_of self.old) source }
        requires together { dest.set ≡ source.set }
        requires axis { axis < rank_at (sets_of self.old) source.set }
        ensures sets { sets_of self.new ≡ sets_of self.old }
        ensures memory { SameBits (sets_of self.old) (memory_of self.new) (written (gathered (sets_of self.old) (memory_of self.old) dest always (of_neighbour (sets_of self.old) (memory_of self.old) source axis by)) (memory_of self.old)) }
    {
        self.gather_shift(source, axis, signed(by), always);
        self.write_gathered(dest, None);
    }

    /// A get, gathered and then written.
    fn do_get(&mut self, dest: Field, address: Field, source: Field)
        requires dest { LiesIn (sets_of self.old) dest }
        requires address { LiesIn (sets_of self.old) address }
        requires source { LiesIn (sets_of self.old) source }
        requires together { dest.set ≡ address.set }
        ensures sets { sets_of self.new ≡ sets_of self.old }
        ensures memory { SameBits (sets_of self.old) (memory_of self.new) (written (gathered (sets_of self.old) (memory_of self.old) dest false (of_named (sets_of self.old) (memory_of self.old) address source)) (memory_of self.old)) }
    {
        self.gather_named(address, source);
        self.write_gathered(dest, None);
    }

    /// The source of one processor, or 0 if there is none.
    #[tactic(auto, unfolding(paris_code::specs::Fetching::word_of_one), using(phase_meaning::proofs::Tests::less, phase_meaning::proofs::Tests::not_less))]
    fn read_one(&self, read_signed: bool, processor: u32, source: Field) -> u32
        requires { LiesIn (sets_of self.now) source }
        ensures { result ≡ word_of_one (sets_of self.now) (memory_of self.now) read_signed source processor }
    {
        if processor < self.positions(source.set) {
            self.word(read_signed, source, processor)
        } else {
            0
        }
    }

    /// Writes to one processor, if there is such a one.
    fn write_one(&mut self, dest: Field, processor: u32, word: u32)
        requires { LiesIn (sets_of self.old) dest }
        ensures sets { sets_of self.new ≡ sets_of self.old }
        ensures memory { SameBits (sets_of self.old) (memory_of self.new) (written (at_one dest processor word) (memory_of self.old)) }
    {
        if processor < self.positions(dest.set) {
            self.write(dest, processor, word);
        }
    }

    /// The value of an instruction that has a result register.
    #[tactic(auto, using(phase_meaning::proofs::FieldLemmas::lies))]
    fn value_of(&self, instr: &Instr, args: &[u32]) -> Option<u32>
        requires { CanApply (sets_of self.now) instr.now args.now }
        ensures { MatchOption result (result_of instr.now ≡ None) (λ v. IsSome (result_of instr.now) × (reply_of (sets_of self.now) instr.now args.now (memory_of self.now) ≡ Reply.Value v)) }
    {
        match instr {
            Instr::Global {
                combiner,
                source,
                ..
            } => Some(self.reduce(*combiner, *source)),
            Instr::ReadFromProcessor { signed, source, .. } => {
                Some(self.read_one(*signed, args[0], *source))
            }
            _ => None,
        }
    }

    /// Does an instruction that moves values between processors.
    #[tactic(auto, using(phase_meaning::proofs::FieldLemmas::lies))]
    fn communicate(&mut self, instr: &Instr, args: &[u32])
        requires can { CanApply (sets_of self.old) instr.now args.now }
        requires other { is_elementwise instr.now ≡ false }
        ensures sets { sets_of self.new ≡ sets_of self.old }
        ensures memory { SameBits (sets_of self.old) (memory_of self.new) (after (sets_of self.old) instr.now args.now (memory_of self.old)) }
    {
        match instr {
            Instr::GetFromNews {
                dest,
                source,
                axis,
                by,
            } => self.do_shift(*dest, *source, *axis, konst(*by, args), false),
            Instr::GetFromNewsAlways {
                dest,
                source,
                axis,
                by,
            } => self.do_shift(*dest, *source, *axis, konst(*by, args), true),
            Instr::Get {
                dest,
                address,
                source,
            } => self.do_get(*dest, *address, *source),
            Instr::WriteToProcessor { dest, value, .. } => {
                self.write_one(*dest, args[0], konst(*value, &args[1..]));
            }
            _ => self.scan_or_send(instr, args),
        }
    }

    /// Does a scan or a send.
    #[tactic(auto, using(phase_meaning::proofs::FieldLemmas::lies))]
    fn scan_or_send(&mut self, instr: &Instr, args: &[u32])
        requires can { CanApply (sets_of self.old) instr.now args.now }
        requires other { (is_elementwise instr.now ≡ false) × (is_fetch instr.now ≡ false) }
        ensures sets { sets_of self.new ≡ sets_of self.old }
        ensures memory { SameBits (sets_of self.old) (memory_of self.new) (after (sets_of self.old) instr.now args.now (memory_of self.old)) }
    {
        match instr {
            Instr::Scan {
                combiner,
                dest,
                source,
                axis,
                direction,
                mode,
                bit,
                inclusion,
            } => {
                let scan = Scan {
                    combiner: *combiner,
                    source: *source,
                    axis: *axis,
                    direction: *direction,
                    mode: *mode,
                    bit: *bit,
                    inclusion: *inclusion,
                };
                self.do_scan(*dest, &scan);
            }
            Instr::SendWithOverwrite {
                dest,
                kind,
                address,
                source,
            } => self.overwrite(&Send {
                dest: *dest,
                kind: *kind,
                address: *address,
                source: *source,
            }),
            Instr::SendWithCombiner {
                combiner,
                dest,
                kind,
                address,
                source,
            } => self.send(
                &Send {
                    dest: *dest,
                    kind: *kind,
                    address: *address,
                    source: *source,
                },
                *combiner,
            ),
            _ => {}
        }
    }
}

impl Phases for RowPhases {
    ghost use Rattle.phase_gate.specs.Rows.{sets_of, memory_of};

    ghost shapes = { sets_of };

    ghost memory = { memory_of };

    ghost able = { λ _. Unit {0} };

    ghost settled = { λ _. Unit {0} };

    fn apply(&mut self, instr: &Instr, args: &[u32]) -> Reply {
        if let Some(reply) = self.check(instr, args) {
            return reply;
        }
        if let Some(v) = self.value_of(instr, args) {
            return Reply::Value(v);
        }
        if let Some((run, always)) = self.written_by(instr, args) {
            self.do_elementwise(instr, args, run, always);
        } else {
            self.communicate(instr, args);
        }
        Reply::Nothing
    }

    fn settle(&mut self) {}

    fn read(&self, field: Field, position: u32) -> u32 {
        self.field(field, position)
    }

    fn bit(&self, set: u16, index: u32, position: u32) -> bool {
        self.rows(set).number(position, index, 1) == 1
    }

    fn set_bit(&mut self, set: u16, index: u32, position: u32, b: bool) {
        let run = Field {
            set,
            offset: index,
            len: 1,
        };
        self.write(run, position, u32::from(b));
    }

    fn numbers(&self, run: Field, block: u32) -> [u32; 512] {
        self.block_numbers(run, block)
    }

    fn set_numbers(&mut self, run: Field, block: u32, words: &[u32; 512]) {
        self.set_block_numbers(run, block, words);
    }

    fn choose(&mut self, w: Winner) {
        self.winner = w;
    }
}
