// What a node saves in its store.
ghost use Rattle.std.specs.Prelude.{◌≡◌, ◌<◌, ◌≤◌, ◌⊎◌, ◌^◌, ℕ, true, None, Some, IfOk, IfErr, OnOk, IfSome};
ghost use Rattle.std.specs.Prelude.{unwrap_or};
ghost use Rattle.std.specs.declared.option.Option.{Option};
ghost use Rattle.mav_nodes.specs.Stores.{Holds, HoldsNearly, HoldsFrom, GivenUp, AreStored, Serves, HasFailed};
ghost use Rattle.mav_nodes.specs.Stores.{HasFailedAt, HasFailedTwice, IsKept};

use crate::steps::Core;
use crate::{NoMemory, NodeFault};
use mav_names::Stream;
use plan_items::PlanMsg;
use plan_store::{Keeper, Stored, save_or_load};
use std::alloc::Global;

// What the store has of the core.
fn stored_bytes<C: Core>(core: &C, alloc: Global, low: Option<u64>) -> Result<Vec<u8>, NoMemory>
    requires { IfSome low (λ low. low < 2 ^ 48) }
    ensures { IfOk result (λ bytes. AreStored (C.stored core.now) low bytes.items) }
{
    let image = match low {
        Some(low) => core.image(alloc, low)?,
        None => None,
    };
    match image {
        Some(bytes) => Ok(bytes),
        None => Ok(Vec::new(alloc)),
    }
}

/// Saves the core with a new low bound. If the store then has anything else, whatever it is, the bound isn't stored.
pub(crate) fn save_bound<K: Keeper, C: Core>(
    core: &C,
    keeper: &mut K,
    alloc: Global,
    bound: u64,
) -> Result<(), NodeFault>
    requires { bound < 2 ^ 48 }
    ensures stored { OnOk result (Holds (K.contents keeper.new) (C.stored core.now) (Some bound)) }
    ensures given { IfErr result (λ fault. (low : Option ℕ) → unwrap_or low 0 ≤ bound
        → HoldsNearly (K.contents keeper.old) (C.stored core.now) low
        → HoldsFrom (K.contents keeper.new) (C.stored core.now) low) }
    ensures exact { IfErr result (λ fault. (K.contents keeper.new ≡ K.contents keeper.old)
        ⊎ IfSome (K.contents keeper.new) (C.stored core.now bound)) }
    ensures serves { Serves K.faults K.is_infallible keeper.old keeper.new }
    ensures fault { IfErr result (λ fault. HasFailedAt fault K.faults K.is_infallible keeper.old keeper.new) }
{
    let Some(new) = core.image(alloc, bound)? else {
        return Ok(());
    };
    match save_or_load(keeper, &[], &new)? {
        Stored::New => Ok(()),
        Stored::Old => Err(NodeFault::Store),
    }
}

/// Saves what a step at this message would change, and returns whether the store has it.
pub(crate) fn save_step<K: Keeper, C: Core>(
    core: &C,
    keeper: &mut K,
    alloc: Global,
    low: Option<u64>,
    from: Stream,
    message: &PlanMsg,
) -> Result<bool, NodeFault>
    requires { IfSome low (λ low. low < 2 ^ 48) }
    ensures nearly { IfOk result (λ kept. Holds (K.contents keeper.old) (C.stored core.now) low
        → HoldsNearly (K.contents keeper.new) (C.stored (C.taken kept core.now from message.now).core) low) }
    ensures silent { IfOk result (λ kept. (C.taken kept core.now from message.now).answer ≡ None
        → Holds (K.contents keeper.old) (C.stored core.now) low
        → Holds (K.contents keeper.new) (C.stored (C.taken kept core.now from message.now).core) low) }
    ensures given { IfErr result (λ fault. Holds (K.contents keeper.old) (C.stored core.now) low
        → GivenUp (K.contents keeper.new) C.stored low
        (λ after. (after ≡ core.now) ⊎ (after ≡ (C.taken true core.now from message.now).core))) }
    ensures unkept { IfOk result (λ kept. IsKept kept (HasFailed K.faults K.is_infallible keeper.old keeper.new)) }
    ensures serves { Serves K.faults K.is_infallible keeper.old keeper.new }
    ensures fault { IfErr result (λ fault. HasFailedAt fault K.faults K.is_infallible keeper.old keeper.new) }
    ensures twice { IfErr result (λ fault. HasFailedTwice fault (K.contents keeper.old) (C.stored core.now) low
        (K.faults keeper.old) (K.faults keeper.new)) }
{
    let Some(new) = core.image_after(alloc, low.unwrap_or(0), from, message)? else {
        return Ok(true);
    };
    let old = stored_bytes(core, alloc, low)?;
    match save_or_load(keeper, &old, &new)? {
        Stored::New => Ok(true),
        Stored::Old => Ok(false),
    }
}
