//! Lists in order.
ghost use Rattle.std.specs.Prelude.{◌≡◌, ◌↔◌, Contains};
ghost use Rattle.std.specs.declared.cmp.Ordering.TheVariants.{Equal};
ghost use Rattle.std.specs.List.Sorted.{IsStrictlySortedBy};

/// The same items in order, each once. It takes no memory.
pub fn in_order<T: Ord + Copy>(mut items: Vec<T>) -> Vec<T>
    requires { (x y : T) → T.cmp x y ≡ Equal → x ≡ y }
    ensures rising { IsStrictlySortedBy T.cmp result.items }
    ensures same { (x : T) → Contains result.items x ↔ Contains items.items x }
{
    items.sort_unstable();
    items.dedup();
    items
}
