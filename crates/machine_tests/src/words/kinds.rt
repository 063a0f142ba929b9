//! The words of a walk over the opcode space, and what binutils' objdump says of each, as tools/walk writes them.

mod computations;
mod illegal;
mod jumps;
mod memory;
mod system;
mod upper;

pub use computations::COMPUTATIONS;
pub use illegal::ILLEGAL;
pub use jumps::JUMPS;
pub use memory::MEMORY;
pub use system::SYSTEM;
pub use upper::UPPER;
