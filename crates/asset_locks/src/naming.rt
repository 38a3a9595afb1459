//! Numbers of objects, by name.

ghost use Rattle.std.specs.Prelude.{◌≡◌, Some, None, IfOk, IsErr};
ghost use Rattle.asset_names.specs.declared.names.Ob.{Ob as Object};
ghost use Rattle.asset_names.specs.InSet.{only_in};
ghost use Rattle.asset_names.specs.Numbered.{number_in};
ghost use Rattle.asset_seats.specs.Seated.{Seated};
ghost use Rattle.asset_locks.specs.Tied.{rows_in, IsTied};

use crate::table::SeatedLocks;
use asset_names::{NoMemory, Ob, ObSet};
use indexmap::IndexSet;

/// Returns the number of the object, if it has one.
pub(crate) fn number_of(objects: &IndexSet<Ob>, x: Ob) -> Option<usize>
    ensures { result ≡ number_in objects.now.keys x.0 }
{
    objects.get_index_of(&x)
}

/// Returns the number of the one object that the set lists, if it has one.
pub(crate) fn number_of_only(objects: &IndexSet<Ob>, set: &ObSet) -> Option<usize>
    ensures { (x : Object) → only_in set.now ≡ Some x → result ≡ number_in objects.now.keys x.0 }
{
    number_of(objects, set.only()?)
}

/// Returns the number of the object, which is given the next one if it has none. No row changes. If memory runs out, no object
/// gets one.
pub(crate) fn number_for(
    objects: &mut IndexSet<Ob>,
    table: &mut SeatedLocks,
    x: Ob,
) -> Result<usize, NoMemory>
    requires { table.old.store.objects ≡ objects.old.keys }
    ensures objects { table.new.store.objects ≡ objects.new.keys }
    ensures number { IfOk result (λ number. number_in table.new.store.objects x.0 ≡ Some number) }
    ensures without { IsErr result → number_in table.old.store.objects x.0 ≡ None }
    ensures rows { (seats : Seated) → rows_in seats table.new ≡ rows_in seats table.old }
    ensures tied { (seats : Seated) → IsTied table.old seats → IsTied table.new seats }
{
    match number_of(objects, x) {
        Some(number) => Ok(number),
        None => add_object(objects, table, x),
    }
}

/// Gives the object the next number, and returns it. No row changes. If memory runs out, no object gets one.
fn add_object(objects: &mut IndexSet<Ob>, table: &mut SeatedLocks, x: Ob) -> Result<usize, NoMemory>
    requires same { table.old.store.objects ≡ objects.old.keys }
    requires without { number_in objects.old.keys x.0 ≡ None }
    ensures objects { table.new.store.objects ≡ objects.new.keys }
    ensures number { IfOk result (λ number. number_in table.new.store.objects x.0 ≡ Some number) }
    ensures rows { (seats : Seated) → rows_in seats table.new ≡ rows_in seats table.old }
    ensures tied { (seats : Seated) → IsTied table.old seats → IsTied table.new seats }
{
    let number = objects.len();
    match objects.insert(x) {
        Ok(_) => {}
        Err(_) => return Err(NoMemory),
    }
    match table.add_object(x) {
        Ok(()) => Ok(number),
        Err(fault) => {
            objects.truncate(number);
            Err(fault)
        }
    }
}
