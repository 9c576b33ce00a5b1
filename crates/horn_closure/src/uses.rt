//! For each basic concept, the inclusions that it stands in the body of.
ghost use Rattle.std.specs.Prelude.{◌≡◌, ◌<◌, ◌≤◌, ◌++◌, IfOk, OnOk, length, All, ℕ, [], slice_index_or};
ghost use Rattle.dl_base.specs.Ontology.{IsPlaced, IsWithin};
ghost use Rattle.horn_closure.specs.Run.{AreUses, copies, members_at};

use dl_base::{Basic, Inclusion, Items, PLACES, place};
use std::alloc::{AllocError, Global};

/// For each place, the numbers of the inclusions with a member there, once for each such member.
pub(crate) fn all_uses(
    alloc: Global,
    inclusions: &[Inclusion],
) -> Result<Vec<Items<u32>>, AllocError>
    requires few { length inclusions.now ≤ 4096 }
    requires within { All (IsWithin 512 256) inclusions.now }
    ensures places { IfOk result (λ v. length v.items ≡ 1024) }
    ensures each { IfOk result (λ v. (p : ℕ) → p < 1024 → AreUses inclusions.now p (slice_index_or v.items p [])) }
{
    let mut uses = no_uses(alloc)?;
    for i in 0..inclusions.len() {
        let inclusion = &inclusions[i];
        add_uses(uses.as_mut_slice(), inclusion.body.items(), i as u32)?;
    }
    Ok(uses)
}

/// An empty list for each place.
fn no_uses(alloc: Global) -> Result<Vec<Items<u32>>, AllocError>
    ensures places { IfOk result (λ v. length v.items ≡ 1024) }
    ensures each { IfOk result (λ v. (p : ℕ) → slice_index_or v.items p [] ≡ []) }
{
    let mut uses = Vec::new(alloc);
    for _ in 0..PLACES {
        uses.push(Items::new(alloc))?;
    }
    Ok(uses)
}

/// Adds inclusion i at the place of each member of its body.
fn add_uses(uses: &mut [Items<u32>], body: &[Basic], i: u32) -> Result<(), AllocError>
    requires places { length uses.old ≡ 1024 }
    requires within { All (IsPlaced 512 256) body.now }
    ensures { OnOk result ((p : ℕ) → p < 1024 → slice_index_or uses.new p [] ≡ slice_index_or uses.old p [] ++ copies (members_at p body.now) i) }
{
    for b in body {
        uses[place(*b)].push(i)?;
    }
    Ok(())
}
