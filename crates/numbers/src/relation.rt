// The relations of the compares.
ghost use Rattle.std.specs.Prelude.{◌≡◌};
ghost use Rattle.numbers.specs.Relation.{relation_holds};

// The relation holds, where the left is less, and where both are equal. No branch. Where the relation is a constant, as
// in the longword compares' loop for each accepted one, nothing of the choice among relations is left in the loop.
pub fn holds(relation: u64, less: bool, equal: bool) -> bool
    ensures { result ≡ relation_holds relation less equal }
{
    let kind = relation % 4;
    let greater = !(less | equal);
    let plain = ((kind == 0) & greater) | ((kind == 1) & equal) | ((kind == 2) & less);
    plain != (relation / 4 % 2 == 1)
}
