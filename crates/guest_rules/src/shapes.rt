//! How large a machine is.
ghost use Rattle.std.specs.Prelude.{◌≤◌};
ghost use Rattle.paged_memory.specs.Limits.{most_pages as page_limit};

/// How large a machine is: 1 to 16384 pages of memory, of 4096 bytes each, and 1 to 32768 sectors of disk, of 512 bytes each.
#[derive(Clone, Copy, PartialEq, Eq)]
pub struct Shape {
    /// Pages of memory.
    pub pages: u32,
    /// Sectors of disk.
    pub sectors: u32,
    ghost some_pages: { 1 ≤ pages },
    ghost most_pages: { pages ≤ page_limit },
    ghost some_sectors: { 1 ≤ sectors },
    ghost most_sectors: { sectors ≤ 32768 },
}
