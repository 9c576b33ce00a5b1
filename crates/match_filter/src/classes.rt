//! Which terms have to stand on one element.
ghost use Rattle.std.specs.Prelude.{◌≡◌, ◌↔◌, ◌<◌, ◌≤◌, ◌==◌, ℕ, length, IsTrue, MatchOption, slice_get, slice_index, Some, if◌then◌else◌};
ghost use Rattle.dl_base.specs.declared.element.Elem.{Elem as AnyElem};
ghost use Rattle.match_filter.specs.Links.{Linked, AreBelow};
ghost use Rattle.match_filter.specs.Joining.{AreClasses, AgreeBy, IsClosed, NoneIsLess, IsLess, AreUnlike};

use crate::link::Link;
use dl_base::Elem;

/// Two numbers, the greater one first.
#[derive(Clone, Copy)]
struct Unlike {
    from: u32,
    to: u32,
}

/// A number for each term, the same for two of them exactly where they are joined.
pub(crate) fn classes(links: &[Option<Link>]) -> [u32; 24]
    requires { AreBelow 24 links.now }
    ensures { AreClasses (Linked links.now) result }
{
    let mut classes = own_classes();
    'joins: loop {
        let Some(unlike) = unlike_parents(links, &classes) else {
            return classes;
        };
        renumber(&mut classes, unlike.from, unlike.to);
    }
}

/// A number of its own for each term.
fn own_classes() -> [u32; 24]
    ensures { (k : ℕ) → k < 24 → slice_index result k ≡ k }
{
    let mut classes = [0; 24];
    for i in 0..24 {
        classes[i] = i as u32;
    }
    classes
}

/// The numbers of two parents of terms of one number, if any two differ.
fn unlike_parents(links: &[Option<Link>], classes: &[u32; 24]) -> Option<Unlike>
    requires { AreBelow 24 links.now }
    ensures { MatchOption result (IsClosed (Linked links.now) classes.now) (λ u. AreUnlike (Linked links.now) classes.now u.from u.to) }
{
    for link in links {
        if let Some(link) = *link {
            if let Some(to) = lesser_parent(links, classes, link) {
                return Some(Unlike {
                    from: classes[link.parent as usize],
                    to,
                });
            }
        }
    }
    None
}

/// The number of a parent of a term with the number of this child, if any is less than that of this parent.
fn lesser_parent(links: &[Option<Link>], classes: &[u32; 24], link: Link) -> Option<u32>
    requires links { AreBelow 24 links.now }
    requires parent { link.parent < 24 }
    requires child { link.child < 24 }
    ensures { MatchOption result (NoneIsLess (Linked links.now) classes.now link.parent link.child) (IsLess (Linked links.now) classes.now link.parent link.child) }
{
    for other in links {
        if let Some(other) = *other {
            let to = classes[other.parent as usize];
            if classes[other.child as usize] == classes[link.child as usize]
                && to < classes[link.parent as usize]
            {
                return Some(to);
            }
        }
    }
    None
}

/// Gives the terms of one number another.
fn renumber(classes: &mut [u32; 24], from: u32, to: u32)
    ensures { (k : ℕ) → k < 24 → slice_index classes.new k ≡ (if slice_index classes.old k == from then to else slice_index classes.old k) }
{
    for class in classes.iter_mut() {
        if *class == from {
            *class = to;
        }
    }
}

/// Whether terms of one number have one image.
pub(crate) fn agree(classes: &[u32; 24], images: &[Elem]) -> bool
    requires { length images.now ≤ 24 }
    ensures { IsTrue result ↔ AgreeBy classes.now images.now }
{
    for (i, image) in images.iter().enumerate() {
        if !agree_with(classes, images, classes[i], *image) {
            return false;
        }
    }
    true
}

/// Whether the terms of this number have this image.
fn agree_with(classes: &[u32; 24], images: &[Elem], class: u32, image: Elem) -> bool
    requires { length images.now ≤ 24 }
    ensures { IsTrue result ↔ ((k : ℕ) (e : AnyElem) → slice_get images.now k ≡ Some e → class ≡ slice_index classes.now k → image ≡ e) }
{
    for (k, other) in images.iter().enumerate() {
        if classes[k] == class && *other != image {
            return false;
        }
    }
    true
}
