// One byte of a frame of the lent pool, read or stored.
// It promises: the byte read is that of the frame; a store leaves the pool it got with one byte of that frame replaced, and no other byte changed.
// It stands on `pages`, to which the frame's part of the pool is lent on, and on `frames` for the number of a frame.
#![tactic(auto)]

ghost use Rattle.std.specs.Prelude.{◌≡◌, ◌+◌, ◌*◌, ◌≤◌, length, get_or, set};
ghost use Rattle.interface.specs.Numbers.{page_bytes};
ghost use Rattle.pages.specs.Parts.{frame, set_frame};

use frames::FrameNo;
use pages::Page;

// One byte of frame `f` is stored.
pub fn store_byte(pool: &mut [u8], f: FrameNo, offset: u8, byte: u8)
    requires { f.0 * page_bytes + page_bytes ≤ length pool.old }
    ensures { let before = pool.old in
        pool.new ≡ set_frame page_bytes before f.0 (set (frame page_bytes before f.0) offset byte) }
{
    let start = f.0 as usize * Page::SIZE;
    pages::store(&mut pool[start..start + Page::SIZE], offset as usize, byte);
}

// One byte of frame `f` is read.
pub fn read_byte(pool: &[u8], f: FrameNo, offset: u8) -> u8
    requires { f.0 * page_bytes + page_bytes ≤ length pool.now }
    ensures { result ≡ get_or (frame page_bytes pool.now f.0) offset 0 }
{
    pages::read(pages::part_of(pool, f.0), offset as usize)
}
