// Other stores in place of EX/MEM's.
ghost use Rattle.std.specs.Prelude.{◌≡◌, ◌↔◌, ◌<◌, ◌≤◌, IsTrue};
ghost use Rattle.bit_field.specs.Layouts.{flip};
ghost use Rattle.eval_mask.specs.Cases.{AgreesWithOwn};
ghost use Rattle.eval_mask.specs.Stores as spec;
ghost use Rattle.rv_table.specs.Effects.{is_load};

use crate::cases::Case;
use crate::compare::same_overwritten;
use crate::completing::{Aftermath, Change, Store, store_by};
use need_pass::NeedTable;
use rv_isa::Arch;
use rv_table::Action;

fn is_load(action: &Action) -> bool
    ensures { result ≡ is_load action.now }
{
    matches!(*action, Action::Loads { .. })
}

/// EX/MEM's store, in RAM or not, where what ID/EX does doesn't load, and no read of the cycle counter is completed.
pub fn lone_store(case: &Case) -> Option<Store>
    ensures { result ≡ spec.lone_store case.now }
{
    if case.reads_clock || is_load(&case.doing.action) {
        return None;
    }
    match case.executed {
        Action::Stores {
            kind,
            address,
            value,
        } => Some(Store {
            kind,
            address,
            value,
        }),
        _ => None,
    }
}

/// Whether the outcome agrees where EX/MEM makes another store.
fn is_store_alike(arch: &Arch<'_>, needs: &NeedTable, case: &Case, store: &Store) -> bool
    requires { case.now.first_after ≤ needs.now.count }
    ensures { IsTrue result ↔ AgreesWithOwn needs.now arch.now case.now (spec.left_storing arch.now.image case.now store.now) }
{
    if case.own.end.is_some() {
        return true;
    }
    let action = Action::Stores {
        kind: store.kind,
        address: store.address,
        value: store.value,
    };
    let other = store_by(arch.image(), &action);
    let below = Change {
        store: other,
        ..case.own.below
    };
    let left = Aftermath { below, ..case.own };
    same_overwritten(
        arch,
        needs,
        case.first_after,
        &left,
        &case.own,
        &other,
        &case.own.below.store,
    )
}

/// A number with bit `k` flipped.
#[tactic(auto, using(crate::proofs::OtherStores::flip_shifted))]
fn flipped_at(value: u32, k: u32) -> u32
    requires { k < 32 }
    ensures { result ≡ flip value k }
{
    value ^ (1 << k)
}

/// Whether the outcome agrees where bit `k` of the address of EX/MEM's store is flipped.
pub fn is_place_masked(
    arch: &Arch<'_>,
    needs: &NeedTable,
    case: &Case,
    store: &Store,
    k: u32,
) -> bool
    requires within { case.now.first_after ≤ needs.now.count }
    requires place { k < 32 }
    ensures { IsTrue result ↔ AgreesWithOwn needs.now arch.now case.now (spec.left_storing arch.now.image case.now (record store.now { address = flip store.now.address k })) }
{
    let address = flipped_at(store.address, k);
    is_store_alike(arch, needs, case, &Store { address, ..*store })
}

/// Whether it agrees where bit `k` of the store's value is.
pub fn is_data_masked(
    arch: &Arch<'_>,
    needs: &NeedTable,
    case: &Case,
    store: &Store,
    k: u32,
) -> bool
    requires within { case.now.first_after ≤ needs.now.count }
    requires place { k < 32 }
    ensures { IsTrue result ↔ AgreesWithOwn needs.now arch.now case.now (spec.left_storing arch.now.image case.now (record store.now { value = flip store.now.value k })) }
{
    let value = flipped_at(store.value, k);
    is_store_alike(arch, needs, case, &Store { value, ..*store })
}
