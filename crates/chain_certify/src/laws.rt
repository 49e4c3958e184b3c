// What an accepted certificate means for runs of the servicing machine, for every device.
ghost use Rattle.std.specs.Prelude.{◌≡◌};
ghost use Rattle.chain_certify.specs.Soundness.{YesIsSound, BoundIsSound, ListedIsSafe};

use device_model::Device;

/// Where each handler that is entered has an accepted certificate, and each frame lies in the region together with
/// the bytes below it that its handler uses, no service breaks the convention in one of four kinds, and the stack
/// pointer stays between the innermost frame and those bytes below it.
pub fn a_certificate_is_sound<D: Device>()
    ensures { YesIsSound D.means }
{}

/// Where each handler that is entered is listed with its level, and each Enter from the foreground has room for the
/// bound, the stack never grows beyond the bound, and each frame lies in the region together with the bytes below it
/// that its handler uses.
pub fn the_bound_is_sound<D: Device>()
    ensures { BoundIsSound D.means }
{}

/// Nor does a service break the convention in one of the four kinds then.
pub fn what_is_listed_is_safe<D: Device>()
    ensures { ListedIsSafe D.means }
{}
