//! The whole types of hosts.

ghost use Rattle.std.specs.Prelude.{◌≡◌, IfOk};
ghost use Rattle.estelle_model.specs.Types as types;

use estelle_model::{Denoter, Host, Type, greatest, least};
use std::alloc::{AllocError, Global};

/// The whole type of a host.
pub fn whole(alloc: Global, host: Host) -> Result<Type, AllocError>
    ensures { IfOk result (λ shared. shared ≡ types.whole host) }
{
    Type::of(
        alloc,
        Denoter::Ordinal {
            host,
            low: least(host),
            high: greatest(host),
        },
    )
}
