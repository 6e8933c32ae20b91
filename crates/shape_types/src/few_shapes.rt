//! How many shapes a file can have.

ghost use Rattle.cstar_tree.specs.FileScopes.{file_known};
ghost use Rattle.shape_types.specs.FewShapes.{shapes_in, shapes_of};
ghost use Rattle.std.specs.Prelude.{◌≡◌, ◌-◌, ◌<◌, ◌^◌, length, min, true};

use cstar_tree::syntax::{Item, Tree};

/// Has the file so few shapes that 16 bits number them? One that has not has far more than it can.
pub fn has_few_shapes(tree: &Tree) -> bool
    ensures { result ≡ true → length (file_known tree.now).shapes < 2 ^ 16 }
{
    shapes_in(tree.items.as_slice()) < 1 << 16
}

/// How many shapes the items define, as far as that is counted.
fn shapes_in(items: &[Item]) -> usize
    ensures { result ≡ min (shapes_in items.now) (2 ^ 64 - 1) }
{
    let mut count = 0usize;
    for item in items {
        count = count.saturating_add(shapes_of(item));
    }
    count
}

/// How many shapes the item defines.
fn shapes_of(item: &Item) -> usize
    ensures { result ≡ shapes_of item.now }
{
    match item {
        Item::Shapes { shapes, .. } => shapes.len(),
        Item::Variables(_) | Item::Function(_) => 0,
    }
}
