//! Instructions that wait.

ghost use Rattle.std.specs.Prelude.{◌≡◌, ◌<◌, true, false, [], map, length, All, MatchOption};
ghost use Rattle.cstar_base.specs.Numbers.{number_of};
ghost use Rattle.paris_code.specs.declared.operands.Konst.TheVariants as K;
ghost use Rattle.paris_code.specs.Arguments.{konst_number};
ghost use Rattle.paris_code.specs.Operands.{arguments_of, registers_of_konst};
ghost use Rattle.paris_code.specs.Shapes.{extents_at, rank_at};
ghost use Rattle.paris_code.specs.Sound.{IsShape};
ghost use Rattle.phase_meaning.specs.Apply.{CanApply};
ghost use Rattle.block_store.specs.Stored.{shape_of_plan};
ghost use Rattle.news_grid.specs.Steps.{Leads};
ghost use Rattle.instruction_runs.specs.Passing.{leaves_read, lets_pass, writes_context};
ghost use Rattle.instruction_runs.specs.Waiting.{can_wait, field_written, leaves, lets, news_of, set_of, shares, source_of, with_arguments, IsDeferral, IsWorkOf};

use block_store::SetPlan;
use elementwise::Prepared;
use news_grid::{News, Step};
use paris_code::{Field, Instr, Konst};
use phase_elements::konst;
use phase_meaning::arith::signed;

/// What was found of an instruction for all blocks.
#[derive(Drop)]
pub(crate) enum Work {
    Elementwise(Prepared),
    Shift { news: News, step: Step },
}

/// An elementwise instruction or a NEWS shift that reads no register, what was found of it for all
/// blocks, and the field that it writes, where that is no flag.
#[derive(Drop)]
pub struct Deferred {
    pub(crate) instr: Instr,
    pub(crate) work: Work,
    pub(crate) writes: Option<Field>,
}

impl Deferred {
    /// The instruction.
    pub fn instr(&self) -> &Instr
        ensures { result.now ≡ self.now.instr }
    {
        &self.instr
    }

    /// The set whose positions do it.
    pub(crate) fn set(&self) -> u16
        ensures { result ≡ set_of self.now }
    {
        match &self.work {
            Work::Elementwise(prepared) => prepared.set(),
            Work::Shift { news, .. } => news.dest.set,
        }
    }

    /// The field from which a shift takes; none of another instruction.
    pub(crate) fn source(&self) -> Option<Field>
        ensures { result ≡ source_of self.now }
    {
        match &self.work {
            Work::Elementwise(_) => None,
            Work::Shift { news, .. } => Some(news.source),
        }
    }

    /// Whether one that takes from such a field, or from none, can wait behind this instruction.
    pub(crate) fn lets(&self, source: Option<Field>) -> bool
        ensures { result ≡ lets self.now source }
    {
        let Some(source) = source else {
            return true;
        };
        leaves(self.writes, source) && shares(self.source(), source)
    }

    /// Whether the instruction is a check that can pass this one, which writes no context flag and no
    /// field that the check reads.
    pub(crate) fn lets_pass(&self, instr: &Instr) -> bool
        ensures { result ≡ lets_pass self.now instr.now }
    {
        !writes_context(&self.instr) && leaves_read(self.writes, instr)
    }
}

/// Whether an instruction writes the context flags of its set.
fn writes_context(instr: &Instr) -> bool
    ensures { result ≡ writes_context instr.now }
{
    matches!(
        instr,
        Instr::LoadContext { .. }
            | Instr::SetContext { .. }
            | Instr::LogandContextWithTest { .. }
            | Instr::LogandcContextWithTest { .. }
    )
}

/// Whether the instruction is a check of the grid or of a divisor, and what is written, if a field is,
/// leaves the fields that it reads.
fn leaves_read(writes: Option<Field>, instr: &Instr) -> bool
    ensures { result ≡ leaves_read writes instr.now }
{
    match instr {
        Instr::CheckGrid { .. } => true,
        Instr::CheckDivisor { source, .. } => leaves(writes, *source),
        _ => false,
    }
}

/// Whether what is written, if a field is, leaves another one as it is.
fn leaves(writes: Option<Field>, source: Field) -> bool
    ensures { result ≡ leaves writes source }
{
    let Some(f) = writes else {
        return true;
    };
    let end = u64::from(f.offset) + u64::from(f.len);
    let source_end = u64::from(source.offset) + u64::from(source.len);
    end <= u64::from(source.offset) || source_end <= u64::from(f.offset)
}

/// Whether the field from which a shift takes, if it is one, is this field.
fn shares(taken: Option<Field>, source: Field) -> bool
    ensures { result ≡ shares taken source }
{
    let Some(f) = taken else {
        return true;
    };
    f.offset == source.offset && f.len == source.len
}

/// A constant, for the register or the constant that an operand is.
fn constant(k: Konst, args: &[u32]) -> Konst
    requires { length args.now ≡ length (registers_of_konst k) }
    ensures { result ≡ K.Imm (konst_number k args.now) }
{
    Konst::Imm(konst(k, args))
}

/// A copy of the instruction that reads no register, if the instruction can wait: one that owns a
/// list is not copied.
fn without_registers(instr: &Instr, args: &[u32]) -> Option<Instr>
    requires { length args.now ≡ length (arguments_of instr.now) }
    ensures { MatchOption result (can_wait instr.now ≡ false) (λ i. (can_wait instr.now ≡ true) × (i ≡ with_arguments instr.now args.now)) }
{
    Some(match instr {
        Instr::Move {
            signed,
            dest,
            source,
        } => Instr::Move {
            signed: *signed,
            dest: *dest,
            source: *source,
        },
        Instr::MoveConstant { dest, value } => Instr::MoveConstant {
            dest: *dest,
            value: constant(*value, args),
        },
        Instr::MoveZeroAlways { dest } => Instr::MoveZeroAlways { dest: *dest },
        Instr::MoveAlways { dest, source } => Instr::MoveAlways {
            dest: *dest,
            source: *source,
        },
        Instr::GetFromNews {
            dest,
            source,
            axis,
            by,
        } => Instr::GetFromNews {
            dest: *dest,
            source: *source,
            axis: *axis,
            by: constant(*by, args),
        },
        Instr::GetFromNewsAlways {
            dest,
            source,
            axis,
            by,
        } => Instr::GetFromNewsAlways {
            dest: *dest,
            source: *source,
            axis: *axis,
            by: constant(*by, args),
        },
        Instr::MyNewsCoordinate { dest, axis } => Instr::MyNewsCoordinate {
            dest: *dest,
            axis: *axis,
        },
        Instr::Operate {
            op,
            dest,
            left,
            right,
        } => Instr::Operate {
            op: *op,
            dest: *dest,
            left: *left,
            right: *right,
        },
        Instr::OperateConstant {
            op,
            dest,
            left,
            right,
        } => Instr::OperateConstant {
            op: *op,
            dest: *dest,
            left: *left,
            right: constant(*right, args),
        },
        Instr::Negate { dest, source } => Instr::Negate {
            dest: *dest,
            source: *source,
        },
        Instr::Lognot { dest, source } => Instr::Lognot {
            dest: *dest,
            source: *source,
        },
        Instr::Compare {
            relation,
            left,
            right,
        } => Instr::Compare {
            relation: *relation,
            left: *left,
            right: *right,
        },
        Instr::EqZero { source } => Instr::EqZero { source: *source },
        Instr::NeZero { source } => Instr::NeZero { source: *source },
        Instr::LoadTest { source } => Instr::LoadTest { source: *source },
        Instr::StoreTest { dest } => Instr::StoreTest { dest: *dest },
        Instr::LoadContext { source } => Instr::LoadContext { source: *source },
        Instr::StoreContext { dest } => Instr::StoreContext { dest: *dest },
        Instr::SetContext { set } => Instr::SetContext { set: *set },
        Instr::LogandContextWithTest { set } => Instr::LogandContextWithTest { set: *set },
        Instr::LogandcContextWithTest { set } => Instr::LogandcContextWithTest { set: *set },
        _ => return None,
    })
}

/// The field that an instruction writes that can wait; none where it writes a flag of its set.
fn field_written(instr: &Instr) -> Option<Field>
    requires { can_wait instr.now ≡ true }
    ensures { result ≡ field_written instr.now }
{
    match instr {
        Instr::Move { dest, .. }
        | Instr::MoveConstant { dest, .. }
        | Instr::MoveZeroAlways { dest }
        | Instr::MoveAlways { dest, .. }
        | Instr::MyNewsCoordinate { dest, .. }
        | Instr::Operate { dest, .. }
        | Instr::OperateConstant { dest, .. }
        | Instr::Negate { dest, .. }
        | Instr::Lognot { dest, .. }
        | Instr::StoreTest { dest }
        | Instr::StoreContext { dest }
        | Instr::GetFromNews { dest, .. }
        | Instr::GetFromNewsAlways { dest, .. } => Some(*dest),
        Instr::Compare { .. }
        | Instr::EqZero { .. }
        | Instr::NeZero { .. }
        | Instr::LoadTest { .. }
        | Instr::LoadContext { .. }
        | Instr::SetContext { .. }
        | Instr::LogandContextWithTest { .. }
        | Instr::LogandcContextWithTest { .. } => None,
        _ => unreachable!(),
    }
}

/// The NEWS shift that an instruction is; none of another.
fn news_of(instr: &Instr) -> Option<News>
    requires { length (arguments_of instr.now) ≡ 0 }
    ensures { result ≡ news_of instr.now }
{
    match instr {
        Instr::GetFromNews {
            dest,
            source,
            axis,
            by,
        } => Some(News {
            dest: *dest,
            source: *source,
            axis: *axis,
            by: konst(*by, &[]),
            always: false,
        }),
        Instr::GetFromNewsAlways {
            dest,
            source,
            axis,
            by,
        } => Some(News {
            dest: *dest,
            source: *source,
            axis: *axis,
            by: konst(*by, &[]),
            always: true,
        }),
        _ => None,
    }
}

/// How far a shift leads in its set.
fn step_of(plans: &[SetPlan], news: &News) -> Step
    requires set { news.now.dest.set < length plans.now }
    requires axis { news.now.axis < rank_at (map shape_of_plan plans.now) news.now.dest.set }
    ensures { Leads (extents_at (map shape_of_plan plans.now) news.now.dest.set) news.now.axis (number_of 32 true news.now.by) result }
{
    let plan = &plans[usize::from(news.dest.set)];
    Step::along(&plan.geometry, news.axis, signed(news.by))
}

/// What is found of an instruction that reads no register, if it can wait.
fn work_of(plans: &[SetPlan], instr: &Instr) -> Option<Work>
    requires can { CanApply (map shape_of_plan plans.now) instr.now [] }
    requires grids { All IsShape (map shape_of_plan plans.now) }
    ensures { MatchOption result (can_wait instr.now ≡ false) (IsWorkOf (map shape_of_plan plans.now) instr.now) }
{
    match news_of(instr) {
        Some(news) => {
            let step = step_of(plans, &news);
            Some(Work::Shift { news, step })
        }
        None => Some(Work::Elementwise(Prepared::of(plans, instr, &[])?)),
    }
}

/// The instruction as one that waits, with the values of the registers that it reads. None where
/// it cannot wait: it is neither elementwise nor a NEWS shift, or it owns a list.
pub fn defer(plans: &[SetPlan], instr: &Instr, args: &[u32]) -> Option<Deferred>
    requires can { CanApply (map shape_of_plan plans.now) instr.now args.now }
    requires grids { All IsShape (map shape_of_plan plans.now) }
    ensures { MatchOption result (can_wait instr.now ≡ false) (IsDeferral (map shape_of_plan plans.now) instr.now args.now) }
{
    let instr = without_registers(instr, args)?;
    let work = work_of(plans, &instr)?;
    let writes = field_written(&instr);
    Some(Deferred {
        instr,
        work,
        writes,
    })
}
