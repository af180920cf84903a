//! The lock round a plant as one type, for threads.
use crate::turns::Lock;
use outside_api::Disk;

/// A lock round a plant, as a type parameter. A function that starts threads takes its lock as a `K: PlantGuard + Sync`, so
/// that its caller shows that threads may share the lock.
pub trait PlantGuard {
    ghost use Rattle.plant_core.specs.Plant.{PlantView};
    ghost use Rattle.plant_lock.specs.Told.{Lock};
    ghost use Rattle.std.specs.Prelude.{◌≡◌};

    /// The plant's disk.
    type Disk: Disk + Send;

    /// The lock, as contracts see it.
    ghost lock_of: { Self → Lock (PlantView Self.Disk) };

    /// The lock.
    fn plant_lock(&self) -> &Lock<Self::Disk>
        ensures { result.now ≡ lock_of self.now };
}

impl<D: Disk + Send> PlantGuard for Lock<D> {
    type Disk = D;

    ghost lock_of = { λ l. l };

    fn plant_lock(&self) -> &Lock<D> {
        self
    }
}
