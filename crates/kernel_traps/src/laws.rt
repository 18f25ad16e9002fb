//! What a plant says of images. The functions do nothing: their contracts are the laws.
ghost use Rattle.ow_plant.specs.Images.{entry_image, image_of};
ghost use Rattle.ow_plant.specs.State.{EntersPanic, IsArmed, PlantState, now_of};
ghost use Rattle.record_layouts.specs.Images.{AreAlike};
ghost use Rattle.record_layouts.specs.SoundImages.{IsSoundImage};
ghost use Rattle.kernel_traps.specs.Plants.{IsSound};

/// Between its turns a sound plant has a sound image.
#[tactic(auto, using(crate::proofs::SoundImages::image_sound))]
pub const fn sound_plants_have_sound_images()
    ensures { (s : PlantState) → IsSound s → IsSoundImage (image_of s) s.steps (now_of s).trap }
{}

/// The entry of a panic in the history has the image that the plant had, but for its first frame.
pub const fn entries_have_the_image_of_the_plant()
    ensures { (old new : PlantState) (entered : EntersPanic old new) → IsArmed old → AreAlike (image_of old) (entry_image new entered.entry) }
{}
