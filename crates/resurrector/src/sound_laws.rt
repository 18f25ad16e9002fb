//! That the kernel which is built after a panic is sound. The functions do nothing: their contracts are the laws.
ghost use Rattle.std.specs.Prelude.{◌≡◌, ℕ, ◌+◌, ◌*◌, ◌<◌, ◌≤◌, List, Some};
ghost use Rattle.ow_base.specs.Images.{Image};
ghost use Rattle.ow_base.specs.Sv32.{WordMap};
ghost use Rattle.ow_base.specs.declared.machine.AreaId.{AreaId};
ghost use Rattle.kernel_builder.specs.Sets.{IsBuilt};
ghost use Rattle.record_layouts.specs.Halves.{half_map};
ghost use Rattle.record_layouts.specs.Images.{records_of_image};
ghost use Rattle.record_layouts.specs.Left.{HandedOver};
ghost use Rattle.record_layouts.specs.SoundImages.{IsSoundAtPanic, IsSoundImage};
ghost use Rattle.ow_plant.specs.State.{Device};
ghost use Rattle.resurrector.specs.Flights.{HasFlightRoom, tape_put};
ghost use Rattle.resurrector.specs.Rebuilt.{tapes_put};
ghost use Rattle.resurrector.specs.Revived.{revived_plan};
ghost use Rattle.resurrector.specs.RevivedImages.{image_revived};

/// Where nothing that a panic left is damaged, the image of the kernel that is built of it is sound, with the bytes in flight
/// on the tapes: in either half, whatever its frames held before, and the trap behind the one that broke is the next one.
pub const fn revived_images_are_sound()
    ensures { (i : Image) (h : HandedOver) (steps trap : ℕ) (counts : List ℕ) (area : AreaId) (old new : WordMap)
        → IsSoundAtPanic i steps trap → i.user_frames ≤ 384
        → IsBuilt (half_map area i.user_frames i.sectors) (revived_plan (records_of_image i) (Some h) counts i.words) old new
        → IsSoundImage (image_revived i area new) steps (h.trap + 1) }
{}

/// Where the image that a panic left is sound, a tape with its byte in flight is that of `revived_images_are_sound` (`put`),
/// and a device with room for 16 bytes a step has room for the byte (`room`).
pub const fn bytes_put_are_of_images()
    ensures put { (i : Image) (steps trap : ℕ) → IsSoundAtPanic i steps trap → (tty : ℕ) → tty < 2
        → tape_put (records_of_image i) tty (i.tapes tty) ≡ tapes_put (records_of_image i) i.tapes tty }
    ensures room { (i : Image) (steps trap : ℕ) → IsSoundAtPanic i steps trap → (tty : ℕ) → tty < 2
        → (device : Device) → device.tape ≡ i.tapes tty → 16 * steps ≤ device.room → HasFlightRoom (records_of_image i) tty device }
{}
