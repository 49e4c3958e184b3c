// What the answers on a table mean for runs of the servicing machine, for every device.
ghost use Rattle.chain_search.specs.Soundness.{TableIsSound};

use chain_certify::laws::{the_bound_is_sound, what_is_listed_is_safe};
use device_model::Device;

/// Where each handler in a table is accepted, the services that begin have the handlers and the levels of its pairs,
/// and each Enter from the foreground has room for the bound, no service breaks the convention in one of four kinds,
/// and the stack never grows beyond the bound.
pub fn an_accepted_table_is_sound<D: Device>()
    ensures { TableIsSound D.means }
{
    the_bound_is_sound::<D>();
    what_is_listed_is_safe::<D>();
}
