//! How a unit grows: by one instruction, one register or one field at a time.

ghost use Rattle.std.specs.Prelude.{◌≡◌, ◌+◌, IfOk, OnOk};
ghost use Rattle.paris_code.specs.declared.program.Owner.TheVariants as W;
ghost use Rattle.lower_base.specs.declared.emit.Operand.TheVariants as P;
ghost use Rattle.lower_base.specs.declared.emit.Out.TheVariants as O;
ghost use Rattle.lower_base.specs.Drafts.{Makes, draft, here, with_instr, a_register, an_entry, first_bits, fresh_for, out_of, shortened, InField, InRegister, IsSomewhere};

use cstar_base::Memory;
use cstar_tree::typed::ValueType;
use paris_code::{Field, Instr, Owner, Unit, Virtual};

/// Where a value stands: in a register, promoted to 32 bits, or in a field, which has as many of its
/// lowest bits as are wanted.
#[derive(Clone, Copy, PartialEq, Eq)]
pub enum Operand {
    Register(u32),
    Field(Field),
}

/// Where a lowered expression has its value: in a register, in a field, or nowhere.
#[derive(Clone, Copy, PartialEq, Eq)]
pub enum Out {
    Scalar(u32),
    Field(Field),
    Nothing,
}

/// One more instruction.
#[tactic(auto, using(std::proofs::lemmas::List::map_push), unfolding(crate::specs::Drafts::draft, crate::specs::Drafts::with_instr, crate::specs::Drafts::with_step))]
pub fn put(u: &mut Unit, instr: Instr) -> Result<(), Memory>
    ensures draft { OnOk result (with_instr instr (draft u.old) ≡ draft u.new) }
{
    u.code.push(instr)?;
    Ok(())
}

/// The place of the next instruction, counted from the start of the unit.
#[tactic(auto, unfolding(crate::specs::Drafts::draft, crate::specs::Drafts::here))]
pub fn here(u: &Unit) -> Result<u32, Memory>
    ensures { IfOk result (λ n. n ≡ here (draft u.now)) }
{
    count(u.code.len())
}

/// A fresh register.
#[tactic(auto, unfolding(crate::specs::Drafts::draft, crate::specs::Drafts::a_register))]
pub fn register(u: &mut Unit) -> Result<u32, Memory>
    ensures draft { IfOk result (λ r. a_register (draft u.old) ≡ Makes r (draft u.new)) }
{
    let fresh = u.regs;
    u.regs = plus(fresh, 1)?;
    Ok(fresh)
}

/// One more entry of the unit's fields, of `len` bits, as a field of its whole length.
#[tactic(auto, unfolding(crate::specs::Drafts::draft, crate::specs::Drafts::an_entry))]
pub fn entry(u: &mut Unit, set: u16, len: u8, owner: Owner) -> Result<Field, Memory>
    ensures draft { IfOk result (λ f. an_entry set len owner (draft u.old) ≡ Makes f (draft u.new)) }
{
    let offset = count(u.fields.len())?;
    u.fields.push(Virtual { set, len, owner })?;
    Ok(Field { set, offset, len })
}

/// A fresh field of so many bits, for a value.
pub fn field(u: &mut Unit, set: u16, bits: u8) -> Result<Field, Memory>
    ensures draft { IfOk result (λ f. an_entry set bits W.Own (draft u.old) ≡ Makes f (draft u.new)) }
{
    entry(u, set, bits, Owner::Own)
}

/// A fresh field of one bit, for a flag.
pub fn flag(u: &mut Unit, set: u16) -> Result<Field, Memory>
    ensures draft { IfOk result (λ f. an_entry set 1 W.Own (draft u.old) ≡ Makes f (draft u.new)) }
{
    entry(u, set, 1, Owner::Own)
}

/// A fresh field of so many bits for a value of the type, or a fresh register where it is scalar.
#[tactic(auto, unfolding(crate::specs::Drafts::fresh_for, crate::specs::Drafts::then_make))]
pub fn fresh(ty: ValueType, bits: u8, u: &mut Unit) -> Result<Operand, Memory>
    ensures draft { IfOk result (λ dest. fresh_for ty.shape bits (draft u.old) ≡ Makes (out_of dest) (draft u.new)) }
{
    match ty.shape {
        Some(set) => Ok(Operand::Field(field(u, set, bits)?)),
        None => Ok(Operand::Register(register(u)?)),
    }
}

/// The lowest bits of a field.
#[tactic(auto, unfolding(crate::specs::Drafts::first_bits))]
pub fn first_bits(bits: u8, field: Field) -> Field
    ensures { result ≡ first_bits bits field }
{
    Field {
        set: field.set,
        offset: field.offset,
        len: bits,
    }
}

/// A length as a number of 32 bits. `Memory` from 2^32 on.
pub fn count(n: usize) -> Result<u32, Memory>
    ensures { IfOk result (λ c. c ≡ n) }
{
    match u32::try_from(n) {
        Ok(count) => Ok(count),
        Err(_) => Err(Memory),
    }
}

/// The sum of two numbers. `Memory` where it is 2^32 or more.
pub fn plus(a: u32, b: u32) -> Result<u32, Memory>
    ensures { IfOk result (λ n. n ≡ a + b) }
{
    match a.checked_add(b) {
        Some(sum) => Ok(sum),
        None => Err(Memory),
    }
}

impl Operand {
    /// The operand, as what an expression answers.
    pub fn out(self) -> Out
        ensures { result ≡ out_of self }
    {
        match self {
            Operand::Register(register) => Out::Scalar(register),
            Operand::Field(field) => Out::Field(field),
        }
    }

    /// The register of a value that stands in one.
    #[tactic(auto, unfolding(crate::specs::Drafts::InRegister))]
    pub fn register(self) -> u32
        requires { InRegister (out_of self) }
        ensures { self ≡ P.Register result }
    {
        match self {
            Operand::Register(register) => register,
            Operand::Field(_) => unreachable!(),
        }
    }

    /// The field of a value that stands in one.
    #[tactic(auto, unfolding(crate::specs::Drafts::InField))]
    pub fn field(self) -> Field
        requires { InField (out_of self) }
        ensures { self ≡ P.Field result }
    {
        match self {
            Operand::Register(_) => unreachable!(),
            Operand::Field(field) => field,
        }
    }
}

impl Out {
    /// The lowest bits of a value that stands in a field; any other value as it is.
    #[tactic(auto, unfolding(crate::specs::Drafts::shortened))]
    pub fn shortened(self, bits: u8) -> Out
        ensures { result ≡ shortened bits self }
    {
        match self {
            Out::Field(field) => Out::Field(first_bits(bits, field)),
            Out::Scalar(_) | Out::Nothing => self,
        }
    }

    /// Where a value stands that is somewhere.
    #[tactic(auto, unfolding(crate::specs::Drafts::IsSomewhere))]
    pub fn operand(self) -> Operand
        requires { IsSomewhere self }
        ensures { self ≡ out_of result }
    {
        match self {
            Out::Scalar(register) => Operand::Register(register),
            Out::Field(field) => Operand::Field(field),
            Out::Nothing => unreachable!(),
        }
    }

    /// The register of a value that stands in one.
    #[tactic(auto, unfolding(crate::specs::Drafts::InRegister))]
    pub fn register(self) -> u32
        requires { InRegister self }
        ensures { self ≡ O.Scalar result }
    {
        match self {
            Out::Scalar(register) => register,
            Out::Field(_) | Out::Nothing => unreachable!(),
        }
    }

    /// The field of a value that stands in one.
    #[tactic(auto, unfolding(crate::specs::Drafts::InField))]
    pub fn field(self) -> Field
        requires { InField self }
        ensures { self ≡ O.Field result }
    {
        match self {
            Out::Field(field) => field,
            Out::Scalar(_) | Out::Nothing => unreachable!(),
        }
    }
}
