//! Where a test parts a list, looked for near a hint.
ghost use Rattle.std.specs.Prelude.{◌≡◌, ◌≤◌, Bool, true, length};
ghost use Rattle.std.specs.List.Sorted.{IsPartitionedBy};
ghost use Rattle.completion.specs.Search.{IsAtPoint, IsTestOf, PartsAt};

use dl_base::Hint;

/// The first item that doesn't pass the test, where the test parts the list. It is looked for near the hint, and the hint
/// then is the place behind it.
pub(crate) fn first_near<T: Copy, F: Fn(&T) -> bool>(
    list: &[T],
    hint: &mut Hint,
    passed: F,
) -> Option<T>
    requires { F.IsAlwaysCallable passed }
    ensures { (p : T → Bool) → IsTestOf F.Fn passed p → IsPartitionedBy p list.now → IsAtPoint p list.now result }
{
    let at = point_near(list, hint.place, passed);
    let first = list.get(at).copied();
    hint.place = if first.is_some() { at + 1 } else { at };
    first
}

/// The place at which the test parts the list: how many items stand in front of the first that doesn't pass. It is looked at
/// the guess and the place behind it; where neither is the place, it is searched for.
fn point_near<T, F: Fn(&T) -> bool>(list: &[T], guess: usize, passed: F) -> usize
    requires { F.IsAlwaysCallable passed }
    ensures bound { result ≤ length list.now }
    ensures point { (p : T → Bool) → IsTestOf F.Fn passed p → IsPartitionedBy p list.now → PartsAt p list.now result }
{
    let guess = guess.min(list.len());
    if is_point(list, guess, &passed) {
        return guess;
    }
    if guess < list.len() && is_point(list, guess + 1, &passed) {
        return guess + 1;
    }
    list.partition_point(passed)
}

/// Whether the item in front of the place passes and the one at the place doesn't, where there are such.
fn is_point<T, F: Fn(&T) -> bool>(list: &[T], at: usize, passed: &F) -> bool
    requires callable { F.IsAlwaysCallable passed.now }
    requires within { at ≤ length list.now }
    ensures { (p : T → Bool) → IsTestOf F.Fn passed.now p → IsPartitionedBy p list.now → result ≡ true → PartsAt p list.now at }
{
    (at == 0 || passed(&list[at - 1])) && (at == list.len() || !passed(&list[at]))
}
