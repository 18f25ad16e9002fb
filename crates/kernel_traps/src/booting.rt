//! How a machine that is ready becomes a kernel that runs.
ghost use Rattle.std.specs.Prelude.{◌≡◌, ℕ, ◌<◌, Some, true, length};
ghost use Rattle.ow_base.specs.declared.worlds.Program.{Program};
ghost use Rattle.phys_memory.specs.Memory.{words_of};
ghost use Rattle.record_layouts.specs.Unix.State.{start_of};
ghost use Rattle.ow_plant.specs.State.{IsReady};
ghost use Rattle.intent_store.specs.Live.{is_able, records_held, rest_of};
ghost use Rattle.kernel_traps.specs.Plants.{IsSound, unix_at};
ghost use Rattle.kernel_traps.specs.Boot.{IsBootable, pages_before, program_in};
ghost use Rattle.kernel_traps.specs.BootLayout.{boot_map, booted_plan};
ghost use Rattle.kernel_builder.specs.Sets.{IsBuilt};
ghost use Rattle.kernel_traps.specs.BootState.{IsBooted};
ghost use Rattle.kernel_traps.specs.BootStores.{HasNoneAtBoot, IsBooting};
ghost use Rattle.kernel_traps.specs.BootTables.{HasWords};
ghost use Rattle.kernel_traps.specs.Turning.{IsSameMachine};

mod laws;
mod layout;
mod records;

use intent_store::Live;
use kernel_builder::build_kernel;
pub use laws::worlds_can_boot;
use layout::Booted;
use ow_base::{AreaId, Load, Panicked};
use ow_plant::Plant;
use record_layouts::MemoryMap;

// The frames of the kernel that boots are those of half A, and what a load begins with is built in them.
fn build_load(plant: &mut Plant, load: &Load)
    requires booting { IsBooting plant.old }
    requires load { IsBootable load.now }
    requires shape { plant.old.shape ≡ load.now.shape }
    ensures built { IsBuilt (boot_map load.now) (booted_plan load.now) (words_of plant.old.memory) (words_of plant.new.memory) }
    ensures same_rest { rest_of plant.new ≡ rest_of plant.old }
    ensures able { is_able plant.new ≡ true }
{
    let map = MemoryMap::of_area(AreaId::A, load.shape.user_frames, load.shape.sectors);
    let mut live = Live::new(plant);
    match build_kernel(&mut live, &map, &Booted { load }) {
        Ok(()) => {}
        Err(Panicked) => unreachable!(),
    }
}

/// Makes a kernel of a machine that is ready: the programs of the load are its processes, each in its slot, and nothing
/// has been done yet. No store of boot is refused.
pub fn boot(plant: &mut Plant, load: &Load)
    requires ready { IsReady load.now.shape plant.old }
    requires load { IsBootable load.now }
    requires none { HasNoneAtBoot plant.old }
    ensures started { unix_at plant.new ≡ start_of load.now }
    ensures booted { IsBooted (records_held plant.new) load.now }
    ensures words { (slot : ℕ) (program : Program) → slot < length load.now.starts → program_in load.now slot ≡ Some program
        → HasWords (words_of plant.new.memory) (pages_before load.now slot) program }
    ensures sound { IsSound plant.new }
    ensures same { IsSameMachine plant.old plant.new }
    ensures no_steps { plant.new.steps ≡ 0 }
    ensures no_traps { plant.new.traps ≡ 0 }
{
    build_load(plant, load);
}
