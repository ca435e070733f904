ghost use Rattle.std.specs.Prelude.{◌≡◌, ◌<◌, ℕ, List, [], ◌∷◌, ◌++◌, IfSome};
ghost use Rattle.ftl_pool.specs.Count.{PoolModel, Takes, after_put};
ghost use Rattle.ftl_pool.specs.Pool.{HoldModel, IsHoldOf, IsNew};

use std::sync::Wait;

/// Items that are ready, which workers put and take, each through a hold of its own.
pub trait ReadyPool: Sync {
    type Hold;

    ghost pool_of: { Self → PoolModel };

    ghost hold_of: { Self.Hold → HoldModel };

    /// Puts an item, which was not put through this hold before.
    fn put<R: Wait>(&self, rt: &R, hold: &mut Self::Hold, item: u32)
        requires made { IsHoldOf (pool_of self.now) (hold_of hold.old) }
        requires item { item < (pool_of self.now).items }
        requires new { IsNew item (hold_of hold.old).puts }
        ensures made { IsHoldOf (pool_of self.now) (hold_of hold.new) }
        ensures puts { (hold_of hold.new).puts ≡ (hold_of hold.old).puts ++ item ∷ [] }
        ensures counted { (hold_of hold.new).state ≡ after_put (hold_of hold.old).state };

    /// Takes one from the count, and then looks for an item until it has one. None comes where the
    /// last load of the count in this call held 0. No clause here says that the item was put: what
    /// a pool takes it from says that, or nothing does.
    fn take<R: Wait>(&self, rt: &R, hold: &mut Self::Hold) -> Option<u32>
        requires made { IsHoldOf (pool_of self.now) (hold_of hold.old) }
        ensures made { IsHoldOf (pool_of self.now) (hold_of hold.new) }
        ensures puts { (hold_of hold.new).puts ≡ (hold_of hold.old).puts }
        ensures item { IfSome result (λ item. item < (pool_of self.now).items) }
        ensures counted { Takes (hold_of hold.old).state result (hold_of hold.new).state };
}
