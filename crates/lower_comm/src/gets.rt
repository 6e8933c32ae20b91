//! Reads through a left index.

ghost use Rattle.std.specs.Prelude.{◌≡◌, ◌++◌, IfOk, OnOk};
ghost use Rattle.paris_code.specs.declared.instr.Instr.TheVariants as I;
ghost use Rattle.lower_base.specs.Drafts.{IsMade, Makes, draft, with_instr};
ghost use Rattle.lower_comm.specs.Messages.{bits_read, gotten_by_steps, hopped, is_extended, moving_part, moving_steps, read_at, stepwise, with_hop};

use crate::news::{NewsStep, step_of};
use cstar_base::{Elem, Memory};
use cstar_tree::typed::TExpr;
use lower_base::emit::{Out, count, entry, first_bits, put};
use paris_code::{Field, GridStep, Instr, Konst, Owner, Unit};
use std::alloc::Global;

/// A read through a left index: of one element, by the router, or by NEWS.
#[tactic(auto, unfolding(lower_base::specs::Drafts::IsMade, lower_base::specs::Drafts::InRegister, lower_base::specs::Drafts::InField, crate::specs::Messages::read_at, lower_base::specs::Drafts::in_register, lower_base::specs::Drafts::in_field, lower_base::specs::Drafts::then_make))]
pub fn read(
    alloc: Global,
    of: u16,
    indexes: &[TExpr],
    elem: Elem,
    source: Field,
    at: Out,
    into: Out,
    u: &mut Unit,
) -> Result<Out, Memory>
    requires made { IsMade (read_at of indexes.now elem source at into (draft u.old)) }
    ensures draft { IfOk result (λ out. read_at of indexes.now elem source at into (draft u.old) ≡ Makes out (draft u.new)) }
{
    match at {
        Out::Scalar(processor) => {
            let dest = into.register();
            put(
                u,
                Instr::ReadFromProcessor {
                    signed: elem.signed,
                    dest,
                    processor,
                    source,
                },
            )?;
            Ok(into)
        }
        Out::Field(address) => {
            let dest = into.field();
            if !is_extended(elem, dest) {
                let source = first_bits(dest.len, source);
                put(
                    u,
                    Instr::Get {
                        dest,
                        address,
                        source,
                    },
                )?;
                return Ok(into);
            }
            let got = entry(u, dest.set, source.len, Owner::Own)?;
            put(
                u,
                Instr::Get {
                    dest: got,
                    address,
                    source,
                },
            )?;
            put(
                u,
                Instr::Move {
                    signed: elem.signed,
                    dest,
                    source: got,
                },
            )?;
            Ok(into)
        }
        Out::Nothing => by_steps(alloc, of, indexes, elem, source, into.field(), u),
    }
}

/// Whether the destination has more bits than a variable, whose values are then extended to it.
#[tactic(auto, unfolding(crate::specs::Messages::is_extended))]
fn is_extended(elem: Elem, dest: Field) -> bool
    ensures { result ≡ is_extended elem dest }
{
    elem.bits < dest.len
}

/// What is read of a variable: all its bits, or as many of the lowest as the destination has.
#[tactic(auto, unfolding(crate::specs::Messages::bits_read))]
fn bits_read(elem: Elem, dest: Field, source: Field) -> Field
    ensures { result ≡ bits_read elem dest source }
{
    if is_extended(elem, dest) {
        source
    } else {
        first_bits(dest.len, source)
    }
}

/// The fields of a get by NEWS, all of as many bits as are read of the variable.
#[derive(Clone, Copy)]
pub struct Hop {
    /// Where the values are: at first in the variable itself.
    pub source: Field,
    /// Where they go next.
    pub next: Field,
    /// Where they go behind that.
    pub spare: Field,
}

impl Hop {
    /// Where the values are behind one more step.
    #[tactic(auto, unfolding(crate::specs::Messages::hopped))]
    fn hopped(self) -> Hop
        ensures { result ≡ hopped self }
    {
        Hop {
            source: self.next,
            next: self.spare,
            spare: self.next,
        }
    }
}

/// A get by NEWS: one step along each axis, the values in between at every processor.
#[tactic(auto, unfolding(crate::specs::Messages::gotten_by_steps, lower_base::specs::Drafts::then_make))]
fn by_steps(
    alloc: Global,
    of: u16,
    indexes: &[TExpr],
    elem: Elem,
    source: Field,
    dest: Field,
    u: &mut Unit,
) -> Result<Out, Memory>
    ensures draft { IfOk result (λ out. gotten_by_steps of indexes.now elem source dest (draft u.old) ≡ Makes out (draft u.new)) }
{
    let source = bits_read(elem, dest, source);
    let next = entry(u, dest.set, source.len, Owner::Own)?;
    let spare = entry(u, dest.set, source.len, Owner::Own)?;
    let steps = moving_steps(alloc, of, indexes)?;
    let hop = Hop {
        source,
        next,
        spare,
    };
    stepwise(elem, dest, steps.as_slice(), hop, u)?;
    Ok(Out::Field(dest))
}

/// Steps, and then what was got becomes the value of `dest`. The last step goes there itself where the
/// values need no more bits.
#[tactic(auto, unfolding(crate::specs::Messages::stepwise))]
fn stepwise(
    elem: Elem,
    dest: Field,
    steps: &[GridStep],
    start: Hop,
    u: &mut Unit,
) -> Result<(), Memory>
    ensures draft { OnOk result (stepwise elem dest steps.now start (draft u.old) ≡ draft u.new) }
{
    let mut hop = start;
    for (number, step) in steps.iter().enumerate() {
        if steps.len() - (number + 1) == 0 && !is_extended(elem, dest) {
            return step_to(*step, hop.source, dest, u);
        }
        step_on(*step, hop, u)?;
        hop = hop.hopped();
    }
    put(
        u,
        Instr::Move {
            signed: elem.signed,
            dest,
            source: hop.source,
        },
    )
}

/// One step along an axis, at every processor.
#[tactic(auto, unfolding(crate::specs::Messages::with_hop))]
fn step_on(step: GridStep, hop: Hop, u: &mut Unit) -> Result<(), Memory>
    ensures draft { OnOk result (with_hop step hop (draft u.old) ≡ draft u.new) }
{
    put(
        u,
        Instr::GetFromNewsAlways {
            dest: hop.next,
            source: hop.source,
            axis: step.axis,
            by: step.step,
        },
    )
}

/// One step along an axis, at the active processors.
fn step_to(step: GridStep, source: Field, dest: Field, u: &mut Unit) -> Result<(), Memory>
    ensures draft { OnOk result (with_instr (I.GetFromNews dest source step.axis step.step) (draft u.old) ≡ draft u.new) }
{
    put(
        u,
        Instr::GetFromNews {
            dest,
            source,
            axis: step.axis,
            by: step.step,
        },
    )
}

/// The steps that are not 0, each with its axis.
#[tactic(auto, unfolding(crate::specs::Messages::moving_steps))]
fn moving_steps(alloc: Global, of: u16, indexes: &[TExpr]) -> Result<Vec<GridStep>, Memory>
    ensures { IfOk result (λ steps. steps.items ≡ moving_steps of 0 indexes.now) }
{
    let mut steps = Vec::new(alloc);
    for (axis, index) in indexes.iter().enumerate() {
        let step = step_of(of, axis, index);
        add_moving(count(axis)?, step, &mut steps)?;
    }
    Ok(steps)
}

/// One step more, if it is not 0.
#[tactic(auto, unfolding(crate::specs::Messages::moving_part))]
fn add_moving(axis: u32, step: Option<NewsStep>, steps: &mut Vec<GridStep>) -> Result<(), Memory>
    ensures { OnOk result (steps.new.items ≡ steps.old.items ++ moving_part axis step) }
{
    let Some(step) = step else {
        return Ok(());
    };
    if step.by != 0 {
        steps.push(GridStep {
            axis,
            step: Konst::Imm(step.by),
        })?;
    }
    Ok(())
}
