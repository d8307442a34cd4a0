// The lent pool as frames of one page each, named by number: whole frames cleared, filled, loaded, copied and restored.
// It promises that a function which is given a frame to change leaves the pool it got with "one frame's 256 bytes of the pool"
// replaced, and no other byte changed.
// It stands on `pages` and `part_restore`, to which the frame's part of the pool is lent on, and on `frames` for the number of a frame.
#![tactic(auto)]

ghost use Rattle.std.specs.Prelude.{◌≡◌, ◌+◌, ◌*◌, ◌≤◌, length};
ghost use Rattle.interface.specs.Numbers.{page_bytes};
ghost use Rattle.pages.specs.Parts.{zeros, frame, set_frame, differs};

use frames::FrameNo;
use pages::Page;

// Frame `f` becomes zero bytes.
pub fn clear_frame(pool: &mut [u8], f: FrameNo)
    requires { f.0 * page_bytes + page_bytes ≤ length pool.old }
    ensures { pool.new ≡ set_frame page_bytes pool.old f.0 (zeros page_bytes) }
{
    let start = f.0 as usize * Page::SIZE;
    pages::clear(&mut pool[start..start + Page::SIZE]);
}

// Frame `f` gets the bytes of `src`, which is a page long.
pub fn fill_frame(pool: &mut [u8], f: FrameNo, src: &[u8])
    requires f_in_bounds { f.0 * page_bytes + page_bytes ≤ length pool.old }
    requires src_len { length src.now ≡ page_bytes }
    ensures { pool.new ≡ set_frame page_bytes pool.old f.0 src.now }
{
    let start = f.0 as usize * Page::SIZE;
    pages::fill(&mut pool[start..start + Page::SIZE], src);
}

// The bytes of frame `f`, by value.
pub fn load_frame(pool: &[u8], f: FrameNo) -> [u8; Page::SIZE]
    requires { f.0 * page_bytes + page_bytes ≤ length pool.now }
    ensures { result ≡ frame page_bytes pool.now f.0 }
{
    pages::load(pages::part_of(pool, f.0))
}

// Frame `to` gets the bytes of frame `from`, by way of a page by value: two frames of one pool are never lent at once.
pub fn copy_frame(pool: &mut [u8], from: FrameNo, to: FrameNo)
    requires from_in_bounds { from.0 * page_bytes + page_bytes ≤ length pool.old }
    requires to_in_bounds { to.0 * page_bytes + page_bytes ≤ length pool.old }
    ensures { let before = pool.old in
        pool.new ≡ set_frame page_bytes before to.0 (frame page_bytes before from.0) }
{
    let page = load_frame(pool, from);
    fill_frame(pool, to, &page);
}

// Frame `f` gets the bytes of `src`, which is a page long, and whether any of them differed is told.
pub fn restore_frame(pool: &mut [u8], f: FrameNo, src: &[u8]) -> bool
    requires f_in_bounds { f.0 * page_bytes + page_bytes ≤ length pool.old }
    requires src_len { length src.now ≡ page_bytes }
    ensures pool_after { pool.new ≡ set_frame page_bytes pool.old f.0 src.now }
    ensures differed { result ≡ differs page_bytes (frame page_bytes pool.old f.0) src.now }
{
    let start = f.0 as usize * Page::SIZE;
    part_restore::restore(&mut pool[start..start + Page::SIZE], src)
}

// Frame `to` gets the bytes of frame `from`, by way of a page by value, and whether any of them differed is told.
pub fn restore_from(pool: &mut [u8], from: FrameNo, to: FrameNo) -> bool
    requires from_in_bounds { from.0 * page_bytes + page_bytes ≤ length pool.old }
    requires to_in_bounds { to.0 * page_bytes + page_bytes ≤ length pool.old }
    ensures pool_after { let before = pool.old in
        pool.new ≡ set_frame page_bytes before to.0 (frame page_bytes before from.0) }
    ensures differed { let before = pool.old in
        result ≡ differs page_bytes (frame page_bytes before to.0) (frame page_bytes before from.0) }
{
    let bytes = load_frame(pool, from);
    restore_frame(pool, to, &bytes)
}

// All bytes of the pool become zero.
pub fn clear_pool(pool: &mut [u8])
    ensures { pool.new ≡ zeros (length pool.old) }
{
    pages::clear(pool);
}
