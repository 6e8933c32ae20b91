//! The code of an expression with a list of parts, as that of the list as it stands in memory. Nothing
//! runs here: what is there for the whole is there for its list.

ghost use Rattle.std.specs.Prelude.{◌≡◌, false};
ghost use Rattle.cstar_tree.specs.declared.typed.TExpr as T;
ghost use Rattle.lower_base.specs.declared.emit.Out.{Out};
ghost use Rattle.lower_base.specs.Drafts.{Draft, IsMade, Makes, draft, fresh_for};
ghost use Rattle.lower_base.specs.Layouts.{layout};
ghost use Rattle.lower_expr.specs.Operands.{all_quiet};
ghost use Rattle.lower_expr.specs.Values.{call_of, indexed_spot, print_of, spot_of, value_of, values_in};

use cstar_base::Place;
use cstar_tree::typed::{Piece, TExpr, ValueType, Variable};
use lower_base::View;
use paris_code::Unit;

/// There is code for a call with these arguments, where there is for the expression that is the call.
pub fn call_is_made(
    view: &View,
    bits: u8,
    e: &TExpr,
    ty: ValueType,
    instance: u32,
    arguments: &Vec<TExpr>,
    given: &[TExpr],
    u: &Unit,
)
    requires whole { e.now ≡ T.Call ty instance arguments.now }
    requires list { given.now ≡ arguments.now.items }
    requires made { IsMade (value_of view.now.typed.now (layout view.now.names) bits e.now (draft u.now)) }
    ensures made { (dest : Out) (begun : Draft) → fresh_for ty.shape bits (draft u.now) ≡ Makes dest begun → IsMade (call_of view.now.typed.now (layout view.now.names) instance given.now dest begun) }
{}

/// There is code for `printf` with these arguments, where there is for the expression.
pub fn print_is_made(
    view: &View,
    bits: u8,
    e: &TExpr,
    ty: ValueType,
    pieces: &Vec<Piece>,
    arguments: &Vec<TExpr>,
    texts: &[Piece],
    given: &[TExpr],
    u: &Unit,
)
    requires whole { e.now ≡ T.Printf ty pieces.now arguments.now }
    requires text { texts.now ≡ pieces.now.items }
    requires list { given.now ≡ arguments.now.items }
    requires made { IsMade (value_of view.now.typed.now (layout view.now.names) bits e.now (draft u.now)) }
    ensures made { IsMade (print_of view.now.typed.now (layout view.now.names) texts.now given.now (draft u.now)) }
{}

/// There is code for the place of a left index with these indexes, where there is for the expression.
pub fn spot_is_made(
    view: &View,
    e: &TExpr,
    ty: ValueType,
    place: Place,
    indexes: &Vec<TExpr>,
    variable: Variable,
    of: u16,
    given: &[TExpr],
    u: &Unit,
)
    requires whole { e.now ≡ T.LeftIndex ty place indexes.now variable of }
    requires list { given.now ≡ indexes.now.items }
    requires made { IsMade (spot_of view.now.typed.now (layout view.now.names) e.now (draft u.now)) }
    ensures made { IsMade (indexed_spot view.now.typed.now (layout view.now.names) e.now (values_in view.now.typed.now (layout view.now.names) false (all_quiet given.now) given.now) (draft u.now)) }
{}
