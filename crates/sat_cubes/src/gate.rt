//! Who is told of the work on cubes.

/// Is told of the work on each cube, in the thread that does it.
pub trait CubeGate: Sync {
    /// Comes before the work on a cube.
    fn enter(&self, cube: u64);

    /// Comes after the work on a cube.
    fn leave(&self, cube: u64);
}

/// Does nothing.
#[derive(Clone, Copy, Debug)]
pub struct OpenCubeGate;

impl CubeGate for OpenCubeGate {
    fn enter(&self, _cube: u64) {}

    fn leave(&self, _cube: u64) {}
}
