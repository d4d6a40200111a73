// All that is written of a file.
ghost use Rattle.std.specs.Prelude.{◌≡◌, IfOk, string_bytes};
ghost use Rattle.plan_items.specs.Plans.{items_of};
ghost use Rattle.fence_watch.specs.Fences.{polygons_of};
ghost use Rattle.fence_command.specs.Files.{state_of};
ghost use Rattle.fence_command.specs.FenceText.{breaches_of as breaches_in, fence_text};

use crate::FenceFile;
use crate::texts::{put_breaches, put_counts, put_items, put_legs};
use fence_watch::{Breach, Watch, fly};
use mav_ports::NoMemory;
use std::alloc::Global;

// The breaches of the flight; an empty mission isn't flown.
fn breaches_of(alloc: Global, watch: &Watch, file: &FenceFile) -> Result<Vec<Breach>, NoMemory>
    requires { watch.now ≡ polygons_of (items_of file.now.fence) }
    ensures { IfOk result (λ breaches. breaches.items ≡ breaches_in (state_of file.now)) }
{
    if file.mission.is_empty() {
        return Ok(Vec::new(alloc));
    }
    fly(
        alloc,
        watch,
        &file.mission,
        file.home,
        file.step,
        file.ticks,
    )
}

/// The text of the whole report.
pub(crate) fn report_of(alloc: Global, file: &FenceFile) -> Result<String, NoMemory>
    ensures { IfOk result (λ text. string_bytes text ≡ fence_text (state_of file.now)) }
{
    let watch = Watch::new(alloc, &file.fence)?;
    let breaches = breaches_of(alloc, &watch, file)?;
    let mut text = String::new(alloc);
    let items = file.mission.as_slice();
    let outside = put_items(&mut text, &watch, items)?;
    let legs = put_legs(&mut text, &watch, file.home, items)?;
    put_breaches(&mut text, &breaches)?;
    put_counts(&mut text, outside, legs, breaches.len())?;
    Ok(text)
}
