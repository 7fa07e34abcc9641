//! Claims that cross threads and come back in another order.

ghost use Rattle.std.specs.Prelude.{◌≡◌, []};

use sbpl_epase::{Claims, Keeper, Naming};
use std::marker::Brand;
use std::test::Fail;

/// What may go to another thread.
fn across<T: Send>(value: T) -> T
    ensures same { result ≡ value }
{
    value
}

/// Two claims are made, and settled in the other order.
fn both_settled<M: Naming + Send>(claims: Claims) -> Keeper<M>
    requires name { claims ≡ M.table }
    ensures out { result.out ≡ [] }
    ensures next { result.next ≡ 2 }
{
    let mut keeper = across(claims).named::<M>();
    let first = across(keeper.make(3, 0));
    let second = across(keeper.make(5, 1));
    let mut keeper = across(keeper);
    keeper.settle(second);
    keeper.settle(first);
    keeper
}

/// The same, where no value that has the name comes out, so that a call can pick it.
fn nothing_out<M: Naming + Send>(claims: Claims)
    requires name { claims ≡ M.table }
{
    drop(both_settled::<M>(claims));
}

#[test]
fn settled_in_the_other_order(rt: HostRuntime) -> Result<(), Fail> {
    nothing_out::<Brand>(Claims::new(rt.alloc())?);
    Ok(())
}
