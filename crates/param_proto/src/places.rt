// The index of each id among a server's parameters.
ghost use Rattle.std.specs.Prelude.{◌≡◌, ◌≤◌, length, is_some, not, None, IfOk, OnOk, IfErr};
ghost use Rattle.param_proto.specs.declared.faults.ParamFault.TheVariants.{NoMemory};
ghost use Rattle.param_proto.specs.Params.{cleaned};
ghost use Rattle.param_proto.specs.Server.{twice_named};
ghost use Rattle.param_proto.specs.Faults.{IsNameFault};
ghost use Rattle.param_proto.specs.Places.{place_in, HasAdded, IsIndex};

use crate::types::clean;
use crate::{Param, ParamFault};
use std::alloc::Global;
use std::collections::HashMap;

/// The indices by cleaned ids.
pub type Places = HashMap<[u8; 16], u16>;

// Whether the id is new. It gets the index.
fn add_place(places: &mut Places, id: &[u8; 16], at: u16) -> Result<bool, ParamFault>
    ensures new { IfOk result (λ new. new ≡ not (is_some (place_in places.old.entries id.now))) }
    ensures added { OnOk result (HasAdded places.old.entries places.new.entries (cleaned id.now) at) }
    ensures fault { IfErr result (λ fault. fault ≡ NoMemory) }
{
    let earlier = places.insert(clean(id), at)?;
    Ok(earlier.is_none())
}

/// The indices of all ids, or why there are none: an id stands twice, or there is no memory.
pub fn index_ids(alloc: Global, params: &[Param]) -> Result<Places, ParamFault>
    requires { length params.now ≤ 1000 }
    ensures places { IfOk result (λ places. IsIndex places.entries params.now) }
    ensures apart { OnOk result (twice_named params.now ≡ None) }
    ensures fault { IfErr result (λ fault. IsNameFault params.now fault) }
{
    let mut places: Places = HashMap::with_capacity(alloc, params.len())?;
    for at in 0..params.len() {
        if !add_place(&mut places, &params[at].id, at as u16)? {
            return Err(ParamFault::TwiceId { at });
        }
    }
    Ok(places)
}
