//! Items that have names.
ghost use Rattle.std.specs.Prelude.{◌≡◌, option_copied};
ghost use Rattle.qsql_values.specs.Beside.{beside};

use q_values::Sym;

#[tactic(auto, using(crate::proofs::BesideLemmas::beside_here, crate::proofs::BesideLemmas::beside_next))]
/// Lends the item with this name, from items that have a name each.
pub fn item_beside<'a, T>(name: &[u8], names: &[Sym], items: &'a [T]) -> Option<&'a T>
    ensures { option_copied result ≡ beside name.now names.now items.now }
{
    for i in 0..names.len() {
        if name == names[i].bytes() {
            return items.get(i);
        }
    }
    None
}
