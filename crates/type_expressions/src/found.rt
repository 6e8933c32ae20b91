//! What typing has found so far: faults, instances, and the number of nodes.

ghost use Rattle.std.specs.Prelude.{IfOk};
ghost use Rattle.type_expressions.specs.Answers.{IsOutcome};

use cstar_base::{Fault, Memory, Place};
use cstar_tree::typed::TExpr;
use indexmap::{IndexMap, IndexSet};
use std::alloc::Global;
use type_scopes::faults::{Faults, Untyped};
use type_scopes::file::File;
use type_scopes::headers::{Header, Reached};
use type_scopes::sites::Site;

/// A typed expression, and whether it has a value.
#[derive(Drop)]
pub struct TypedExpr {
    pub expr: Box<TExpr>,
    pub has_value: bool,
}

/// A typed expression, or nothing where it has a fault or stands on a declaration that has one.
pub type Typing = Result<Option<TypedExpr>, Memory>;

/// The headers that were typed, and the instances in the order in which they were met.
#[derive(Drop)]
pub struct Instances {
    headers: IndexMap<Reached, Header>,
    reached: IndexSet<Reached>,
}

impl Instances {
    ghost use Rattle.std.specs.Prelude.{◌≡◌, [], not, slice_get, Some, IfOk, IsSome, OnOk};
    ghost use Rattle.std.specs.Option.{option_copied, option_map};
    ghost use Rattle.cstar_tree.specs.Instances.{is_met};
    ghost use Rattle.type_expressions.specs.Instances.{Grows, instance_of, kept_header, met, with_met};

    pub fn new(alloc: Global) -> Instances
        ensures headers { result.headers.entries ≡ [] }
        ensures met { met result ≡ [] }
    {
        Instances {
            headers: IndexMap::new(alloc),
            reached: IndexSet::new(alloc),
        }
    }

    /// The instance of the number.
    pub fn instance(&self, number: usize) -> Option<Reached>
        ensures { option_map instance_of result ≡ slice_get (met self.now) number }
    {
        self.reached.get_index(number).copied()
    }

    /// The header of an instance, where it was prepared.
    pub fn header(&self, reached: Reached) -> Option<&Header>
        ensures { option_copied result ≡ kept_header self.now reached }
    {
        self.headers.get(&reached)
    }

    /// Types the header of the instance, unless that was done before.
    pub fn prepare(&mut self, file: &File<'_>, reached: Reached) -> Result<(), Memory>
        ensures kept { OnOk result (IsSome (kept_header self.new reached)) }
        ensures grows { OnOk result (Grows file.now self.old self.new) }
        ensures met { met self.new ≡ met self.old }
    {
        if self.headers.contains_key(&reached) {
            return Ok(());
        }
        let header = file.header(reached)?;
        self.headers.insert(reached, header)?;
        Ok(())
    }

    /// Calls the instance. Answers its number, and whether it is met for the first time.
    fn call(&mut self, reached: Reached) -> Result<(u32, bool), Memory>
        ensures number { IfOk result (λ r. slice_get (met self.new) r.0 ≡ Some (instance_of reached)) }
        ensures is_new { IfOk result (λ r. r.1 ≡ not (is_met (instance_of reached) (met self.old))) }
        ensures met { IfOk result (λ r. met self.new ≡ with_met (instance_of reached) (met self.old)) }
        ensures headers { self.new.headers ≡ self.old.headers }
    {
        let (number, is_new) = self.reached.insert_full(reached)?;
        let number = u32::try_from(number).map_err(|_error| Memory)?;
        Ok((number, is_new))
    }
}

/// What typing has found so far.
#[derive(Drop)]
pub struct Found {
    pub faults: Faults,
    pub instances: Instances,
    /// How many nodes of the tree were typed.
    pub nodes: u64,
}

impl Found {
    ghost use Rattle.std.specs.Prelude.{◌≡◌, ◌⊎◌, [], slice_get, None, Some, IfOk, IsSome, MatchOption, OnOk};
    ghost use Rattle.cstar_base.specs.declared.faults.Fault.TheVariants as F;
    ghost use Rattle.type_scopes.specs.Faults.{lesser, told};
    ghost use Rattle.type_expressions.specs.Instances.{Grows, instance_of, kept_header, met, with_met};
    ghost use Rattle.type_expressions.specs.Recorded.{IsExpected, RecordsHeader};

    pub fn new(alloc: Global) -> Found
        ensures headers { result.instances.headers.entries ≡ [] }
        ensures met { met result.instances ≡ [] }
    {
        Found {
            faults: Faults::none(),
            instances: Instances::new(alloc),
            nodes: 0,
        }
    }

    /// Counts nodes of the tree.
    pub fn count(&mut self, nodes: u64)
        ensures instances { self.new.instances ≡ self.old.instances }
        ensures faults { self.new.faults.least ≡ self.old.faults.least }
    {
        self.nodes = self.nodes.saturating_add(nodes);
    }

    /// Takes the faults so far out, so that those of the next part are seen alone.
    pub fn set_aside(&mut self) -> Faults
        ensures instances { self.new.instances ≡ self.old.instances }
        ensures faults { (result.least ≡ self.old.faults.least) × (self.new.faults.least ≡ None) }
    {
        std::mem::replace(&mut self.faults, Faults::none())
    }

    /// Takes the earlier faults in again behind an expression at the place that is to be constant.
    /// Outside all functions one that has neither a type nor a fault of its own calls a function
    /// with a faulty header, and no call is constant there.
    pub fn expect_constant(&mut self, site: Site, place: Place, is_typed: bool, earlier: Faults)
        ensures instances { self.new.instances ≡ self.old.instances }
        ensures faults { IsExpected site place earlier.least self.old.faults.least self.new.faults.least }
    {
        if !is_typed {
            self.expect_fault(site, place);
        }
        self.faults.include(earlier);
    }

    /// Outside all functions an expression at the place without a type has a fault.
    fn expect_fault(&mut self, site: Site, place: Place)
        ensures instances { self.new.instances ≡ self.old.instances }
        ensures faults { (self.new.faults.least ≡ self.old.faults.least) ⊎ ((site.function ≡ None) × MatchOption self.new.faults.least ⊥ (λ least. told least ≡ lesser self.old.faults.least F.Constant place)) }
    {
        if site.function.is_none() && self.faults.least.is_none() {
            self.faults.stands(Fault::Constant, place);
        }
    }

    /// The number of the instance, which is called here and whose header is kept from here on. Where
    /// it is met for the first time the faults of its header stand.
    pub fn reach(&mut self, file: &File<'_>, reached: Reached) -> Result<u32, Memory>
        ensures number { IfOk result (λ number. slice_get (met self.new.instances) number ≡ Some (instance_of reached)) }
        ensures met { IfOk result (λ number. met self.new.instances ≡ with_met (instance_of reached) (met self.old.instances)) }
        ensures grows { OnOk result (Grows file.now self.old.instances self.new.instances) }
        ensures kept { OnOk result (IsSome (kept_header self.new.instances reached)) }
        ensures faults { OnOk result (RecordsHeader (kept_header self.new.instances reached) self.old.faults.least self.new.faults.least) }
    {
        self.instances.prepare(file, reached)?;
        let (number, is_new) = self.instances.call(reached)?;
        if is_new && let Some(header) = self.instances.header(reached) {
            let faults = header.faults;
            self.faults.include(faults);
        }
        Ok(number)
    }
}

/// What an expression with a value comes to. The fault that stands at it is recorded. The expression
/// is boxed first, so that a pointer is handed on.
pub fn outcome(faults: &mut Faults, alloc: Global, typed: Result<TExpr, Untyped>) -> Typing
    ensures { IfOk result (IsOutcome typed faults.old.least faults.new.least) }
{
    let typed = match typed {
        Ok(expr) => Ok(Box::new(alloc, expr)?),
        Err(untyped) => Err(untyped),
    };
    Ok(match faults.settle(typed)? {
        Some(expr) => Some(TypedExpr {
            expr,
            has_value: true,
        }),
        None => None,
    })
}
