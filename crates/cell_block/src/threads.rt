//! Threads may share a scene, and a block may go to another thread.
use crate::block::Block;
use crate::scene::Scene;

fn needs_sync<T: Sync>(_value: &T) {}

fn needs_send<T: Send + Drop>(value: T) {
    drop(value);
}

/// Threads may share a scene.
pub fn scene_is_sync(scene: &Scene) {
    needs_sync(scene);
}

/// A block may go to another thread.
pub fn block_is_sent(block: Block) {
    needs_send(block);
}
