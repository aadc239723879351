// The order in which the objects are bound: port of iter_objects_topological. Objects are numbers: 0 the host, 1 the program, from 2 on the
// libraries in list order.
ghost use Rattle.std.specs.Prelude.{◌≡◌, ◌+◌, ◌*◌, ◌<◌, ◌≤◌, min};
ghost use Rattle.words.specs.Memory.{mem};
ghost use Rattle.binder.specs.Steps.Table.{Ordered};
ghost use Rattle.binder.specs.Steps.OrderState.{state_of, Room, Visited, Unlisted};

use words::copy_vec::CopyVec;

// The numbers of a set's objects in the order in which they are bound.
pub type Order = CopyVec<u32, 64>;

// The need at place i of library k.
fn need_at(needs: &[u8], k: usize, i: usize) -> usize
    requires { k < 64 }
    ensures { result ≡ mem needs.now (k * 64 + i) }
{
    usize::from(words::bytes::byte_at(needs, k * 64, i))
}

// Puts library k at the end of the order after what it needs, the last need first, `depth` deep; passes over what is marked. `seen` marks the
// libraries that are ordered or whose needs are being visited, and the numbers that are no library's. Stack, in the compiled archive: 64 bytes a
// level, 3,968 for 62 levels, and 64 for the call at depth 0.
fn visit(needs: &[u8], depth: usize, k: usize, order: &mut Order, seen: &mut [bool; 64])
    requires { Room (state_of order.old.items seen.old) }
    ensures { Visited needs.now depth k (state_of order.old.items seen.old) (state_of order.new.items seen.new) }
{
    if depth == 0 {
        return;
    }
    if 64 <= k {
        return;
    }
    if seen[k] {
        return;
    }
    seen[k] = true;
    for i in (0..64).rev() {
        visit(needs, depth - 1, need_at(needs, k, i), order, seen);
    }
    order.push(k as u32);
}

// Marks the numbers that are no library's.
fn unlisted(libs: usize) -> [bool; 64]
    requires { libs ≤ 62 }
    ensures { Unlisted libs result }
{
    let mut s = [true; 64];
    s[2..libs + 2].fill(false);
    s
}

// The order of a program and its libraries, of which there are at most 62; more are cut to 62. Library k needs the objects whose numbers
// are the 64 bytes of `needs` from k * 64 on, in file order. A number that is no library's is passed over: 0 where there is no need.
pub fn arrange(needs: &[u8], libraries: usize) -> Order
    ensures { Ordered needs.now libraries result.items }
{
    let libs = libraries.min(62);
    let mut order = CopyVec::new();
    let mut seen = unlisted(libs);
    for k in 2..libs + 2 {
        visit(needs, libs, k, &mut order, &mut seen);
    }
    order.push(1);
    order
}
