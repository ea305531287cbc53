// Whether a branch is one of a group's, by the table.
#![tactic(auto)]

ghost use Rattle.std.specs.Prelude.{◌≡◌, get_or};
ghost use Rattle.rules.specs.Kinds.{is_branch};
ghost use Rattle.rules.specs.Tree.{branches_at};
ghost use Rattle.rules.specs.Scope.{has_branch};
ghost use Rattle.rules.specs.Shaped.{NodeOf};
ghost use Rattle.cells.specs.Indexed.{Indexed};

use cells::{kind_by, number_of};

// Whether the list of branches that begins with branch j has the branch k. The table gives each branch the first of its list.
pub fn has_branch(p: &[u8], index: &[u16; 10080], j: usize, k: usize) -> bool
    requires { NodeOf is_branch p.now j × Indexed p.now index.now × (get_or index.now j 0 ≡ j) }
    ensures { result ≡ has_branch k (branches_at p.now j) }
{
    if k > j {
        return false;
    }
    kind_by(p, index, k) == 9 && number_of(index, k) == j
}
