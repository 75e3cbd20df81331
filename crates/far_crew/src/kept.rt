// What a crew keeps from one window to the next: its copies of the world and the brains.
ghost use Rattle.std.specs.Prelude.{◌≡◌, true, IfOk};
ghost use Rattle.std.specs.Arc.{arc_value};
ghost use Rattle.ant_turn.specs.Minds.{minds_of};

use crate::agreement::are_sizes_same;
use crate::own_brains::OwnBrains;
use ant_turn::Brains;
use cell_world::World;
use hex_geometry::OutOfMemory;
use std::alloc::Global;
use std::sync::Arc;

// Copies of a field's brains and world, which are shared with the workers.
#[derive(Drop)]
pub struct Copies {
    pub minds: Arc<OwnBrains>,
    pub base: Arc<World>,
}

impl Copies {
    // The same copies, shared once more.
    pub fn share(&self) -> Result<Copies, OutOfMemory>
        ensures minds { IfOk result (λ copies. arc_value copies.minds ≡ arc_value self.now.minds) }
        ensures base { IfOk result (λ copies. arc_value copies.base ≡ arc_value self.now.base) }
    {
        let minds = self.minds.clone()?;
        let base = self.base.clone()?;
        Ok(Copies { minds, base })
    }
}

// A shared copy of a world, in the memory of this one if it has the world's size and isn't shared any more.
pub fn world_in(
    alloc: Global,
    kept: Option<Arc<World>>,
    world: &World,
) -> Result<Arc<World>, OutOfMemory>
    ensures { IfOk result (λ base. arc_value base ≡ world.now) }
{
    if let Some(mut base) = kept {
        if is_brought_up(&mut base, world) {
            return Ok(base);
        }
    }
    Ok(Arc::new(alloc, world.copy(alloc)?)?)
}

// Makes a shared world equal to another, if it isn't shared any more and both have the same size; returns whether it
// did.
fn is_brought_up(base: &mut Arc<World>, world: &World) -> bool
    ensures { result ≡ true → arc_value base.new ≡ world.now }
{
    let Some(own) = Arc::get_mut(base) else {
        return false;
    };
    if !are_sizes_same(own, world) {
        return false;
    }
    own.copy_from(world);
    true
}

// A shared copy of brains: this one if it is a copy of them.
pub fn brains_in(
    alloc: Global,
    kept: Option<Arc<OwnBrains>>,
    brains: Brains<'_>,
) -> Result<Arc<OwnBrains>, OutOfMemory>
    ensures { IfOk result (λ minds. arc_value minds ≡ minds_of brains.entry) }
{
    if let Some(minds) = kept {
        if minds.is_copy_of(brains) {
            return Ok(minds);
        }
    }
    Ok(Arc::new(alloc, OwnBrains::of(alloc, brains)?)?)
}
