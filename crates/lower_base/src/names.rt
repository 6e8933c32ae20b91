//! Where the variables of a typed program are. Their registers are the first ones: those of the file,
//! and behind them, for each function, those of its parameters, its result and the variables of its
//! blocks. A parallel variable has a number of a register too, which no code uses: it stands in a
//! field for each of its elements. Instances of one function share their registers, as a function is
//! never called while it runs.

ghost use Rattle.std.specs.Prelude.{◌≡◌, ℕ, List, ◌+◌, ◌<◌, ◌++◌, length, map, fold, IfOk, OnOk, IfSome};
ghost use Rattle.cstar_tree.specs.declared.typed.LocalVar.{LocalVar};
ghost use Rattle.cstar_tree.specs.TypedParts.{concat};
ghost use Rattle.lower_base.specs.Drafts.{IsMade, Makes, draft, from, an_entry};
ghost use Rattle.paris_code.specs.declared.program.Owner.TheVariants as W;
ghost use Rattle.cstar_tree.specs.Variables.{variables_of};
ghost use Rattle.lower_base.specs.Layouts.{layout, entries_of, elements_of, result_register, register_of, own_field, field_of, first_fields, behind, param_entries, numbered, nothing_numbered, with_local, first_named, earlier_base, with_instance, registers_of, entered, layout_of};

pub use crate::emit::count;
use crate::emit::{entry, plus};
use cstar_base::Memory;
use cstar_tree::typed::{Instance, LocalVar, TStmt, Typed, VarInfo, Variable};
use paris_code::{Field, Owner, Unit};
use std::alloc::Global;

/// A variable of a block, scalar or parallel.
#[derive(Clone, Copy)]
pub struct LocalName {
    /// How many parallel variables the blocks of its instance declare before it.
    pub home: u32,
    /// How many fields it has: one for each element of an array, 1 where it is no array, and none
    /// where it is scalar.
    pub entries: u32,
}

/// The numbering of a typed program's variables, as one of its instances sees it.
#[derive(Drop)]
pub struct Names {
    /// For each variable of the file, the number of its first field among those of the file.
    pub files: Vec<u32>,
    /// For each instance, its first register.
    pub bases: Vec<u32>,
    /// The first register that no variable has.
    pub end: u32,
    /// The constants that stand in registers from there on.
    pub constants: Vec<u32>,
    /// The first register of this instance.
    pub base: u32,
    /// For each parameter of this instance, the number of its entry, if it is parallel.
    pub params: Vec<u32>,
    /// The number of the result's entry.
    pub outcome: u32,
    /// The variables of this instance's blocks, the scalar ones too.
    pub locals: Vec<LocalName>,
}

impl Names {
    /// The numbering as `main` sees it, with these constants in registers.
    #[tactic(auto, unfolding(crate::specs::Layouts::layout_of, crate::specs::Layouts::entered, crate::specs::Layouts::layout))]
    pub fn of(alloc: Global, t: &Typed, constants: Vec<u32>) -> Result<Names, Memory>
        requires { 0 < length t.now.instances.items }
        ensures layout { IfOk result (λ names. layout names ≡ layout_of t.now constants.items 0) }
        ensures each_instance { IfOk result (λ names. length names.bases.items ≡ length t.now.instances.items) }
    {
        let files = first_fields(alloc, &t.vars)?;
        let mut end = count(t.vars.len())?;
        let bases = bases_of(alloc, &t.instances, &mut end)?;
        let mut names = Names {
            files,
            bases,
            end,
            constants,
            base: 0,
            params: Vec::new(alloc),
            outcome: 0,
            locals: Vec::new(alloc),
        };
        names.see_as(t, 0)?;
        Ok(names)
    }

    /// The numbering as an instance sees it, whichever instance saw it before.
    pub fn enter(&mut self, t: &Typed, number: usize) -> Result<(), Memory>
        requires instance { number < length t.now.instances.items }
        requires each_instance { length self.old.bases.items ≡ length t.now.instances.items }
        ensures layout { (words : List ℕ) (k : ℕ) → layout self.old ≡ layout_of t.now words k → OnOk result (layout self.new ≡ layout_of t.now words number) }
        ensures each_instance { self.new.bases ≡ self.old.bases }
    {
        self.see_as(t, number)?;
        Ok(())
    }

    #[tactic(auto, unfolding(crate::specs::Layouts::entered, crate::specs::Layouts::layout))]
    fn see_as(&mut self, t: &Typed, number: usize) -> Result<(), Memory>
        requires instance { number < length t.now.instances.items }
        requires each_instance { length self.old.bases.items ≡ length t.now.instances.items }
        ensures layout { OnOk result (layout self.new ≡ entered t.now number (layout self.old)) }
        ensures each_instance { self.new.bases ≡ self.old.bases }
    {
        self.base = self.bases[number];
        let instance = &t.instances[number];
        self.params.clear();
        self.outcome = number_params(&instance.params, &mut self.params)?;
        self.locals.clear();
        let mut homes = 0;
        number_locals(&instance.body, &mut self.locals, &mut homes)
    }
}

/// The instance that a name first has.
pub fn named(t: &Typed, name: &[u8]) -> Option<usize>
    ensures number { result ≡ first_named 0 name.now t.now.instances.items }
    ensures instance { IfSome result (λ number. number < length t.now.instances.items) }
{
    first_named(&t.instances, name)
}

/// The first instance with a name.
#[tactic(auto, unfolding(crate::specs::Layouts::first_named))]
fn first_named(instances: &[Instance], name: &[u8]) -> Option<usize>
    ensures number { result ≡ first_named 0 name.now instances.now }
    ensures instance { IfSome result (λ number. number < length instances.now) }
{
    for (number, instance) in instances.iter().enumerate() {
        if instance.name.bytes() == name {
            return Some(number);
        }
    }
    None
}

/// How many fields a variable has: none, one, or one for each element.
#[tactic(auto, unfolding(crate::specs::Layouts::entries_of))]
pub fn entries_of(info: &VarInfo) -> u32
    ensures { result ≡ entries_of info.now }
{
    match info.shape {
        Some(_) => info.array.unwrap_or(1),
        None => 0,
    }
}

/// The field of an entry that the unit has.
#[tactic(auto, unfolding(crate::specs::Layouts::own_field, crate::specs::Drafts::draft, crate::specs::Drafts::from, crate::specs::Drafts::IsMade))]
pub fn own_entry(u: &Unit, index: u32) -> Field
    requires { IsMade (own_field index (draft u.now)) }
    ensures { own_field index (draft u.now) ≡ Makes result (draft u.now) }
{
    let Some(entry) = u.fields.get(index as usize) else {
        unreachable!()
    };
    Field {
        set: entry.set,
        offset: index,
        len: entry.len,
    }
}

/// The number of the first field of each variable of the file.
#[tactic(auto, unfolding(crate::specs::Layouts::first_fields))]
fn first_fields(alloc: Global, vars: &[VarInfo]) -> Result<Vec<u32>, Memory>
    ensures { IfOk result (λ files. files.items ≡ first_fields 0 vars.now) }
{
    let mut files = Vec::new(alloc);
    let mut next = 0;
    for info in vars {
        files.push(next)?;
        next = plus(next, entries_of(info))?;
    }
    Ok(files)
}

/// The first registers of all instances, behind those of the file. `end` moves behind them.
#[tactic(auto, unfolding(crate::specs::Layouts::registers_of))]
fn bases_of(alloc: Global, instances: &[Instance], end: &mut u32) -> Result<Vec<u32>, Memory>
    ensures registers { IfOk result (λ bases. registers_of instances.now end.old ≡ record { bases = bases.items; end = end.new }) }
    ensures each_instance { IfOk result (λ bases. length bases.items ≡ length instances.now) }
{
    let mut bases = Vec::new(alloc);
    for instance in instances {
        add_base(alloc, instances, instance, &mut bases, end)?;
    }
    Ok(bases)
}

/// The first register of one more instance: where those of an earlier one of its function begin,
/// or else behind all others.
#[tactic(auto, unfolding(crate::specs::Layouts::with_instance))]
fn add_base(
    alloc: Global,
    instances: &[Instance],
    instance: &Instance,
    bases: &mut Vec<u32>,
    end: &mut u32,
) -> Result<(), Memory>
    ensures registers { OnOk result (with_instance instances.now (record { bases = bases.old.items; end = end.old }) instance.now
        ≡ record { bases = bases.new.items; end = end.new }) }
    ensures one_more { OnOk result (length bases.new.items ≡ length bases.old.items + 1) }
{
    if let Some(base) = earlier_base(instances, bases, instance) {
        bases.push(base)?;
        return Ok(());
    }
    bases.push(*end)?;
    *end = plus(*end, size_of(alloc, instance)?)?;
    Ok(())
}

/// Where the registers of an earlier instance of the same function begin.
#[tactic(auto, unfolding(crate::specs::Layouts::earlier_base))]
fn earlier_base(instances: &[Instance], bases: &[u32], instance: &Instance) -> Option<u32>
    ensures { (end : ℕ) → result ≡ earlier_base instances.now (record { bases = bases.now; end = end }) instance.now }
{
    let earlier = first_named(instances, instance.name.bytes())?;
    bases.get(earlier).copied()
}

/// How many registers an instance has.
fn size_of(alloc: Global, instance: &Instance) -> Result<u32, Memory>
    ensures { IfOk result (λ n. n ≡ length (numbered (variables_of instance.now.body) nothing_numbered).locals + length instance.now.params.items + 1) }
{
    let mut locals = Vec::new(alloc);
    let mut homes = 0;
    number_locals(&instance.body, &mut locals, &mut homes)?;
    let scalars = count(locals.len())?;
    let params = count(instance.params.len())?;
    plus(plus(scalars, params)?, 1)
}

/// Numbers the parameters, and answers how many of them are parallel.
#[tactic(auto, unfolding(crate::specs::Layouts::param_entries))]
fn number_params(params: &[VarInfo], entries: &mut Vec<u32>) -> Result<u32, Memory>
    ensures entries { OnOk result (entries.new.items ≡ entries.old.items ++ param_entries 0 params.now) }
    ensures outcome { IfOk result (λ n. n ≡ fold behind 0 params.now) }
{
    let mut next = 0;
    for info in params {
        entries.push(next)?;
        next = behind(next, info)?;
    }
    Ok(next)
}

/// The number behind a variable, where the parallel ones are counted.
#[tactic(auto, unfolding(crate::specs::Layouts::behind))]
fn behind(next: u32, info: &VarInfo) -> Result<u32, Memory>
    ensures { IfOk result (λ n. n ≡ behind next info.now) }
{
    match info.shape {
        Some(_) => plus(next, 1),
        None => Ok(next),
    }
}

/// Numbers the variables of a statement's blocks, in the order of the text.
#[cycle(locals)]
#[tactic(auto, using(crate::proofs::Numbering::numbered_append, crate::proofs::Numbering::numbered_none), unfolding(cstar_tree::specs::Variables::variables_step, cstar_tree::specs::Variables::declared_by, crate::specs::Layouts::numbered, cstar_tree::specs::TypedParts::concat))]
fn number_locals(s: &TStmt, locals: &mut Vec<LocalName>, homes: &mut u32) -> Result<(), Memory>
    ensures { OnOk result (numbered (variables_of s.now) (record { locals = locals.old.items; homes = homes.old })
        ≡ record { locals = locals.new.items; homes = homes.new }) }
{
    match s {
        TStmt::Block {
            locals: declared,
            statements,
        } => {
            number_declared(declared, locals, homes)?;
            number_each(statements, locals, homes)
        }
        TStmt::If {
            then,
            otherwise,
            ..
        }
        | TStmt::Where {
            then,
            otherwise,
            ..
        } => {
            number_locals(then, locals, homes)?;
            match otherwise {
                Some(other) => number_locals(other, locals, homes),
                None => Ok(()),
            }
        }
        TStmt::While { body, .. }
        | TStmt::Do { body, .. }
        | TStmt::For { body, .. }
        | TStmt::With { body, .. }
        | TStmt::Everywhere { body, .. } => number_locals(body, locals, homes),
        TStmt::Expression(_) | TStmt::Empty | TStmt::Break | TStmt::Continue | TStmt::Return(_) =>
            Ok(()),
    }
}

/// Numbers the variables of the blocks in statements.
#[cycle(locals)]
#[tactic(auto)]
fn number_each(
    statements: &[TStmt],
    locals: &mut Vec<LocalName>,
    homes: &mut u32,
) -> Result<(), Memory>
    ensures { OnOk result (numbered (concat (map variables_of statements.now)) (record { locals = locals.old.items; homes = homes.old })
        ≡ record { locals = locals.new.items; homes = homes.new }) }
{
    for statement in statements {
        number_locals(statement, locals, homes)?;
    }
    Ok(())
}

/// Numbers the variables that a block declares.
#[tactic(auto, unfolding(crate::specs::Layouts::numbered))]
fn number_declared(
    declared: &[LocalVar],
    locals: &mut Vec<LocalName>,
    homes: &mut u32,
) -> Result<(), Memory>
    ensures { OnOk result (numbered (map (λ (local : LocalVar). local.info) declared.now) (record { locals = locals.old.items; homes = homes.old })
        ≡ record { locals = locals.new.items; homes = homes.new }) }
{
    for local in declared {
        add_local(&local.info, locals, homes)?;
    }
    Ok(())
}

/// One more variable of a block.
#[tactic(auto, unfolding(crate::specs::Layouts::with_local))]
fn add_local(info: &VarInfo, locals: &mut Vec<LocalName>, homes: &mut u32) -> Result<(), Memory>
    ensures { OnOk result (with_local (record { locals = locals.old.items; homes = homes.old }) info.now
        ≡ record { locals = locals.new.items; homes = homes.new }) }
{
    locals.push(LocalName {
        home: *homes,
        entries: entries_of(info),
    })?;
    *homes = behind(*homes, info)?;
    Ok(())
}
