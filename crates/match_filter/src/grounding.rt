//! Whether no endless chain leads upward from a term.
ghost use Rattle.std.specs.Prelude.{◌≡◌, ◌↔◌, ◌<◌, ℕ, true, false, IsTrue, MatchOption, slice_index, slice_index_or};
ghost use Rattle.match_filter.specs.Links.{Linked, AreBelow};
ghost use Rattle.match_filter.specs.Joining.{AreClasses, IsGrounded, WaitsAbove, IsFree, NoneIsFree};

use crate::link::Link;

/// Whether no endless chain leads upward from any term. One term after another stops waiting, as soon as none of its
/// parents waits.
pub(crate) fn grounded(links: &[Option<Link>], classes: &[u32; 24]) -> bool
    requires below { AreBelow 24 links.now }
    requires classes { AreClasses (Linked links.now) classes.now }
    ensures { IsTrue result ↔ ((k : ℕ) → k < 24 → IsGrounded (Linked links.now) k) }
{
    let mut waiting = [true; 24];
    'frees: loop {
        let Some(term) = free_term(links, classes, &waiting) else {
            return none_waits(&waiting);
        };
        waiting[term] = false;
    }
}

/// A term that waits, and no parent of the terms of its number does.
fn free_term(links: &[Option<Link>], classes: &[u32; 24], waiting: &[bool; 24]) -> Option<usize>
    requires { AreBelow 24 links.now }
    ensures { MatchOption result (NoneIsFree (Linked links.now) classes.now waiting.now) (IsFree (Linked links.now) classes.now waiting.now) }
{
    for k in 0..24 {
        if waiting[k] && !waits_above(links, classes, waiting, classes[k]) {
            return Some(k);
        }
    }
    None
}

/// Whether a parent of some term of this number waits.
fn waits_above(
    links: &[Option<Link>],
    classes: &[u32; 24],
    waiting: &[bool; 24],
    class: u32,
) -> bool
    requires { AreBelow 24 links.now }
    ensures { IsTrue result ↔ WaitsAbove (Linked links.now) classes.now waiting.now class }
{
    for link in links {
        if let Some(link) = *link {
            if classes[link.child as usize] == class && waiting[link.parent as usize] {
                return true;
            }
        }
    }
    false
}

/// Whether none waits.
fn none_waits(waiting: &[bool; 24]) -> bool
    ensures { IsTrue result ↔ ((k : ℕ) → k < 24 → slice_index_or waiting.now k false ≡ false) }
{
    for waits in waiting {
        if *waits {
            return false;
        }
    }
    true
}
