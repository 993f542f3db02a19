//! Which wishes are not met.
ghost use Rattle.std.specs.Prelude.{◌↔◌, IfOk, OnOk, IsTrue};
ghost use Rattle.net_reached.specs.Wishes.{IsMet, AreUnmet, AddsIfUnmet};

use crate::reached::{avoids, reaches, reaches_all};
use crate::wish::Wish;
use net_check::Checked;
use std::alloc::{AllocError, Global};

/// Those of the wishes, in their order, that a checked plan doesn't meet.
pub fn unmet_wishes<'t>(
    alloc: Global,
    checked: &Checked,
    wishes: &[Wish<'t>],
) -> Result<Vec<Wish<'t>>, AllocError>
    ensures { IfOk result (λ unmet. AreUnmet checked.now.0 wishes.now unmet.items) }
{
    let mut unmet = Vec::new(alloc);
    for wish in wishes {
        add_if_unmet(alloc, checked, wish, &mut unmet)?;
    }
    Ok(unmet)
}

/// Adds a wish that a checked plan doesn't meet.
fn add_if_unmet<'t>(
    alloc: Global,
    checked: &Checked,
    wish: &Wish<'t>,
    unmet: &mut Vec<Wish<'t>>,
) -> Result<(), AllocError>
    ensures { OnOk result (AddsIfUnmet checked.now.0 wish.now unmet.old.items unmet.new.items) }
{
    if is_met(alloc, checked, wish)? {
        return Ok(());
    }
    unmet.push(*wish)?;
    Ok(())
}

/// Whether a checked plan meets a wish.
fn is_met(alloc: Global, checked: &Checked, wish: &Wish) -> Result<bool, AllocError>
    ensures { IfOk result (λ answer. IsTrue answer ↔ IsMet checked.now.0 wish.now) }
{
    match *wish {
        Wish::Nothing { .. } => Ok(true),
        Wish::Reaches { from, to } => reaches(alloc, checked, from, to),
        Wish::ReachesAll { from } => reaches_all(alloc, checked, from),
        Wish::Avoids { from, to } => avoids(alloc, checked, from, to),
    }
}
