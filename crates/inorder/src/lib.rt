// An accepted program numbered anew, children first in field order, and written as blocks.
#![tactic(auto)]

ghost use Rattle.std.specs.Prelude.{◌≡◌, ◌+◌, ◌<◌, ◌≤◌, length};
ghost use Rattle.rules.specs.Bytes.{write_at};
ghost use Rattle.rules.specs.Layout.{nodes};
ghost use Rattle.rules.specs.Accepted.{Accepted};
ghost use Rattle.rules.specs.Shaped.{Shaped};
ghost use Rattle.texts.specs.Numbering.{renumbered};
ghost use Rattle.inorder.specs.Walked.{order_at, order_by};
ghost use Rattle.inorder.specs.Listed.{Listed};

use fields::{child_a, child_b, child_c};
use table::node;
use tidy::put_blocks;

// The nodes that are listed so far, how many they are, and by a node's number its place in the list. (Arrays of the largest size: no call has a heap.)
#[derive(Drop)]
struct Listing {
    order: [u16; 1008],
    places: [u16; 1024],
    count: usize,
}

impl Listing {
    // A field of node i that holds m, walked if it is for a child.
    #[cycle(limb_walk)]
    fn limb(&mut self, p: &&[u8], i: usize, yes: bool, m: usize)
        requires { Shaped p.now.now × (i < nodes p.now.now) × (self.old.count + length (order_by p.now.now i yes m) ≤ 1008) }
        ensures { Listed (order_by p.now.now i yes m) self.old self.new }
    {
        if !yes {
            return;
        }
        if m >= i {
            return;
        }
        self.walk(p, m);
    }

    // Node i: the nodes below it and itself, children first in field order, are listed and numbered.
    #[cycle(limb_walk)]
    fn walk(&mut self, p: &&[u8], i: usize)
        requires { Shaped p.now.now × (i < nodes p.now.now) × (self.old.count + length (order_at p.now.now i) ≤ 1008) }
        ensures { Listed (order_at p.now.now i) self.old self.new }
    {
        let n = node(*p, i);
        let k = n.kind;
        let in_a = child_a(k);
        let in_b = child_b(k);
        let in_c = child_c(k);
        self.limb(p, i, in_a, n.a);
        self.limb(p, i, in_b, n.b);
        self.limb(p, i, in_c, n.c);
        let own = self.count;
        self.order[own] = i as u16;
        self.places[i] = own as u16;
        self.count = own + 1;
    }
}

// An accepted program renumbered, in the first blocks of a room that is long enough.
pub fn renumber(p: &[u8], room: &mut [u8], count: usize)
    requires { Accepted p.now × (count ≡ nodes p.now) × (length p.now ≤ length room.old) }
    ensures { room.new ≡ write_at room.old 0 (renumbered p.now) }
{
    let mut listing = Listing {
        order: [0; 1008],
        places: [0; 1024],
        count: 0,
    };
    listing.walk(&p, count - 1);
    put_blocks(p, &listing.places, &listing.order, listing.count, room);
}
